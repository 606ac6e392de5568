// Which rule a down or a receipt applies (document 01, "The three events").
ghost use Rattle.std.specs.Prelude.{◌≡◌, ◌^◌, ◌<◌};
ghost use Rattle.nodeset.specs.NodeSet.{member};
ghost use Rattle.protocol.specs.Network.{Node};
ghost use Rattle.protocol.specs.Rules.{down_rule, one_level_rule, equal_pairs_rule, receipt_rule};
ghost use Rattle.decision.specs.inner.After.{seen};

use super::Views;
use height::ReferenceLevel;
use protocol::Rule;

// After a down: N empty E, a sink S, otherwise Q.
pub fn of_down(views: Views, set: u16, u: u32) -> Rule
    requires { Node views.n u × («set» < 2 ^ views.n) }
    ensures { result ≡ down_rule views.entry.n (member «set») (seen views.entry.row.now views.entry.v views.entry.view) u }
{
    if set == 0 {
        return Rule::ElectSelf;
    }
    if super::sinks::is_sink(views, set, u) {
        return Rule::StartNewRefLevel;
    }
    Rule::NoChange
}

// A sink whose neighbors all have the level l.
fn of_one_level(u: u32, l: ReferenceLevel) -> Rule
    ensures { result ≡ one_level_rule u l }
{
    let tau = l.tau.0;
    if (0 < tau) & (l.r == 0) {
        return Rule::ReflectRefLevel;
    }
    if (l.r == 1) & (l.oid == u) {
        return Rule::ElectSelf;
    }
    Rule::StartNewRefLevel
}

// A receipt from v with an equal leader pair.
fn of_equal_pairs(views: Views, set: u16, u: u32) -> Rule
    requires { Node views.n u × Node views.n views.v }
    ensures { result ≡ equal_pairs_rule views.entry.n (member «set») (seen views.entry.row.now views.entry.v views.entry.view) u views.entry.v }
{
    if !super::sinks::is_sink(views, set, u) {
        return Rule::NoChange;
    }
    if super::levels::all_of_level(views, set, views.view.level) {
        return of_one_level(u, views.view.level);
    }
    Rule::PropagateLargestRefLevel(super::levels::largest_level(views, set))
}

// A receipt from v, whose height is the view of it and who is in the set.
pub fn of_receipt(views: Views, set: u16, u: u32) -> Rule
    requires { Node views.n u × Node views.n views.v }
    ensures { result ≡ receipt_rule views.entry.n (member «set») (seen views.entry.row.now views.entry.v views.entry.view) u views.entry.v }
{
    let own = views.of(u);
    if height::order::pair_same(views.view.pair, own.pair) {
        return of_equal_pairs(views, set, u);
    }
    if height::order::pair_before(views.view.pair, own.pair) {
        return Rule::AdoptLpIfPriority(views.v);
    }
    Rule::Reply
}
