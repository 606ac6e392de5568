// What a rule does: the height it leaves, and the set it sends to.
ghost use Rattle.std.specs.Prelude.{◌≡◌, true, ◌≤◌, length};
ghost use Rattle.std.proofs.Math.IntN.{suc_ℤ, pred_ℤ};
ghost use Rattle.std.specs.Int.Signed.{lt_z};
ghost use Rattle.height.specs.inner.Stored.{Negated};
ghost use Rattle.nodeset.specs.NodeSet.{member, set_of};
ghost use Rattle.protocol.specs.Holds.{least_delta, greatest_delta};
ghost use Rattle.protocol.specs.Network.{Node};
ghost use Rattle.protocol.specs.Step.{height_after};
ghost use Rattle.tables.specs.Tables.{width};
ghost use Rattle.decision.specs.inner.After.{seen, after_rule, sends_to};
ghost use Rattle.decision.specs.inner.Bounds.{NegatedAfter, AdoptsNode};

use super::{Decision, Views};
use height::{Height, LeaderPair, ReferenceLevel, Time};
use protocol::Rule;
use refusal::Refusal;

// A height of node u at depth `delta`.
fn height_with(level: ReferenceLevel, delta: i32, pair: LeaderPair, u: u32) -> Height
    ensures { result ≡ record { level = level; delta = delta; pair = pair; id = u } }
{
    Height {
        level,
        delta,
        pair,
        id: u,
    }
}

fn one_more(delta: i32) -> i32
    requires { lt_z delta greatest_delta ≡ true }
    ensures { result ≡ suc_ℤ delta }
{
    delta + 1
}

fn one_less(delta: i32) -> i32
    requires { lt_z least_delta delta ≡ true }
    ensures { result ≡ pred_ℤ delta }
{
    delta - 1
}

// Rule S: a level of u's own.
fn started(views: Views, u: u32, d: Decision) -> Height
    requires { Node views.n u }
    ensures { (result ≡ height_after views.entry.n (member d.neighbors) (seen views.entry.row.now views.entry.v views.entry.view) u views.entry.v d.clock.0 Rule.StartNewRefLevel)
        × Negated result.pair.nlts.0 }
{
    let own = views.of(u);
    let clock = d.clock;
    let level = ReferenceLevel {
        tau: clock,
        oid: u,
        r: 0,
    };
    let pair = own.pair;
    height_with(level, 0, pair, u)
}

// Rule F: v's level, reflected.
fn reflected(views: Views, u: u32, d: Decision) -> Height
    requires { Node views.n u }
    ensures { (result ≡ height_after views.entry.n (member d.neighbors) (seen views.entry.row.now views.entry.v views.entry.view) u views.entry.v d.clock.0 Rule.ReflectRefLevel)
        × Negated result.pair.nlts.0 }
{
    let own = views.of(u);
    let searched = views.view.level;
    let level = ReferenceLevel {
        tau: Time(searched.tau.0),
        oid: searched.oid,
        r: 1,
    };
    let pair = own.pair;
    height_with(level, 0, pair, u)
}

// Rule P: the level taken, one below the smallest depth with it, u's pair.
fn propagated(views: Views, u: u32, d: Decision, level: ReferenceLevel) -> Result<Height, Refusal>
    requires { Node views.n u }
    ensures { (result ≡ after_rule views.entry.n (member d.neighbors) (seen views.entry.row.now views.entry.v views.entry.view) u views.entry.v d.clock.0 (Rule.PropagateLargestRefLevel level))
        × NegatedAfter result }
{
    let own = views.of(u);
    let least = super::levels::smallest_delta(views, d.neighbors, level);
    if height::LEAST_DELTA < least {
        let delta = one_less(least);
        let pair = own.pair;
        return Ok(height_with(level, delta, pair, u));
    }
    Err(Refusal::DeltaEnd)
}

// Rule A: w's level and pair, one above w's depth.
fn adopted(views: Views, u: u32, d: Decision, w: u32) -> Result<Height, Refusal>
    requires { Node views.n w }
    ensures { (result ≡ after_rule views.entry.n (member d.neighbors) (seen views.entry.row.now views.entry.v views.entry.view) u views.entry.v d.clock.0 (Rule.AdoptLpIfPriority w))
        × NegatedAfter result }
{
    let other = views.of(w);
    if other.delta < height::GREATEST_DELTA {
        let delta = one_more(other.delta);
        let level = other.level;
        let pair = other.pair;
        return Ok(height_with(level, delta, pair, u));
    }
    Err(Refusal::DeltaEnd)
}

// u's height after the decision's rule, or the refusal of a depth out of range (8).
pub fn height_after(n: u32, row: &[u32], u: u32, v: u32, d: Decision) -> Result<Height, Refusal>
    requires { (n ≤ 16) × Node n u × (length row.now ≡ width n) × Negated d.view.pair.nlts.0 × AdoptsNode n d.rule }
    ensures { (result ≡ after_rule n (member d.neighbors) (seen row.now v d.view) u v d.clock.0 d.rule) × NegatedAfter result }
{
    let views = Views {
        n,
        row,
        v,
        view: d.view,
    };
    match d.rule {
        Rule::ElectSelf => Ok(height::self_elected(u, d.clock)),
        Rule::StartNewRefLevel => Ok(started(views, u, d)),
        Rule::ReflectRefLevel => Ok(reflected(views, u, d)),
        Rule::PropagateLargestRefLevel(level) => propagated(views, u, d, level),
        Rule::AdoptLpIfPriority(w) => adopted(views, u, d, w),
        _ => Ok(views.of(u)),
    }
}

// The set that the decision's rule sends to: v alone, nobody, or all of both sets.
pub fn sent_to(d: Decision, v: u32) -> u16
    ensures { result ≡ set_of 16 (sends_to v d.rule d.neighbors d.forming) }
{
    match d.rule {
        Rule::ChannelUp | Rule::Reply => nodeset::single(v),
        Rule::NoChange | Rule::Ignored => 0,
        _ => nodeset::union(d.neighbors, d.forming),
    }
}
