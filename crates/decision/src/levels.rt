// Reference levels of the views in a set: all the same, the largest, and the smallest depth with it.
ghost use Rattle.std.specs.Prelude.{◌≡◌};
ghost use Rattle.basics.specs.Functions.{every};
ghost use Rattle.nodeset.specs.NodeSet.{member};
ghost use Rattle.protocol.specs.Network.{Node};
ghost use Rattle.protocol.specs.Rules.{of_level, larger, largest, deltas, smallest};
ghost use Rattle.decision.specs.inner.After.{seen};

use super::Views;
use height::{ReferenceLevel, Time};

// w is not in the set, or its view has this level.
fn is_of_level(views: Views, set: u16, level: ReferenceLevel, w: u32) -> bool
    requires { Node views.n w }
    ensures { result ≡ of_level (member «set») (seen views.entry.row.now views.entry.v views.entry.view) level w }
{
    if nodeset::contains(set, w) {
        let other = views.of(w);
        return height::order::level_same(other.level, level);
    }
    true
}

// Every view in the set has this level.
pub fn all_of_level(views: Views, set: u16, level: ReferenceLevel) -> bool
    ensures { result ≡ every views.entry.n (of_level (member «set») (seen views.entry.row.now views.entry.v views.entry.view) level) }
{
    (1..views.n + 1).all(|w| is_of_level(views, set, level, w))
}

fn larger_of(l: ReferenceLevel, m: ReferenceLevel) -> ReferenceLevel
    ensures { result ≡ larger l m }
{
    if height::order::level_before(l, m) {
        return m;
    }
    l
}

// The largest level of the views in the set.
pub fn largest_level(views: Views, set: u16) -> ReferenceLevel
    ensures { result ≡ largest views.entry.n (member «set») (seen views.entry.row.now views.entry.v views.entry.view) }
{
    let mut level = ReferenceLevel {
        tau: Time(0),
        oid: 0,
        r: 0,
    };
    for w in 1..views.n + 1 {
        if nodeset::contains(set, w) {
            let other = views.of(w);
            level = larger_of(level, other.level);
        }
    }
    level
}

// The smallest depth among the views in the set with this level; 0 where there is none.
pub fn smallest_delta(views: Views, set: u16, level: ReferenceLevel) -> i32
    ensures { result ≡ smallest (deltas views.entry.n (member «set») (seen views.entry.row.now views.entry.v views.entry.view) level) }
{
    let mut least: Option<i32> = None;
    for w in (1..views.n + 1).rev() {
        if nodeset::contains(set, w) {
            let other = views.of(w);
            if height::order::level_same(other.level, level) {
                least = match least {
                    Some(delta) => Some(other.delta.min(delta)),
                    None => Some(other.delta),
                };
            }
        }
    }
    least.unwrap_or(0)
}
