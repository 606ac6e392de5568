// The rules of a height and of a node's two sets as tests (document 01, "What a station holds"), and whether a height's times make sense.
// These are leaves: only our crates call them, with the bounds that `requires` states.
#![tactic(auto)]

ghost use Rattle.std.specs.Prelude.{◌≡◌, ◌&&◌, ◌+◌, ◌≤◌, leb, length};
ghost use Rattle.height.specs.Words.{height_size, height_at};
ghost use Rattle.nodeset.specs.NodeSet.{member, within};
ghost use Rattle.protocol.specs.Holds.{level_holds, delta_holds, height_holds, sets_hold};
ghost use Rattle.protocol.specs.Network.{Node};
ghost use Rattle.protocol.specs.Times.{times_within};

use height::{ReferenceLevel, Time};

// A reference level, of a search time at most c.
fn level_within(n: u32, c: u32, l: ReferenceLevel) -> bool
    ensures { result ≡ (level_holds n l && leb l.tau.0 c) }
{
    let tau = l.tau.0;
    let oid = l.oid;
    let r = l.r;
    if tau == 0 {
        return (oid == 0) & (r == 0);
    }
    (1 <= oid) & (oid <= n) & (r <= 1) & (tau <= c)
}

// A depth.
fn delta_holds(d: i32) -> bool
    ensures { result ≡ delta_holds d }
{
    (height::LEAST_DELTA <= d) & (d <= height::GREATEST_DELTA)
}

// A height of node k, whose words stand from `at`, of times at most c. Each test reads its own words, and the first that fails ends it.
pub fn height_within(n: u32, k: u32, c: u32, words: &[u32], at: usize) -> bool
    requires { at + height_size ≤ length words.now }
    ensures { result ≡ (height_holds n k (height_at words.now at) && times_within c (height_at words.now at)) }
{
    if words[at + 6] != k {
        return false;
    }
    let level = ReferenceLevel {
        tau: Time(words[at]),
        oid: words[at + 1],
        r: words[at + 2],
    };
    if !level_within(n, c, level) {
        return false;
    }
    if !delta_holds(height::words::delta_of(words[at + 3])) {
        return false;
    }
    if c < words[at + 4] {
        return false;
    }
    let lid = words[at + 5];
    (1 <= lid) & (lid <= n)
}

// A height of node k, of any times.
pub fn height_holds(n: u32, k: u32, words: &[u32], at: usize) -> bool
    requires { at + height_size ≤ length words.now }
    ensures { result ≡ height_holds n k (height_at words.now at) }
{
    height_within(n, k, height::LAST_TIME, words, at)
}

// The search time and the election time of the height whose words stand from `at`, neither above c.
pub fn times_within(c: u32, words: &[u32], at: usize) -> bool
    requires { at + height_size ≤ length words.now }
    ensures { result ≡ times_within c (height_at words.now at) }
{
    (words[at] <= c) & (words[at + 4] <= c)
}

// Two sets of node u, as words: of nodes 1 to n, disjoint, never holding u.
pub fn sets_hold(n: u32, u: u32, neighbors: u32, forming: u32) -> bool
    requires { (n ≤ 16) × Node n u }
    ensures { result ≡ (within n neighbors && within n forming && sets_hold n u (member neighbors) (member forming)) }
{
    let end: u32 = 1 << n;
    if (neighbors < end) & (forming < end) {
        let a = neighbors as u16;
        let b = forming as u16;
        return nodeset::disjoint(a, b) & !nodeset::contains(a, u) & !nodeset::contains(b, u);
    }
    false
}
