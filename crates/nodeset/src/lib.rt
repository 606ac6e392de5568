// Sets of nodes 1 to 16 in a u16 (document 01: N and F), node k at bit k - 1, the lowest being bit 0.
// Every function takes any number; a node number outside 1 to 16 is in no set.
#![tactic(auto)]

ghost use Rattle.std.specs.Prelude.{◌≡◌};
ghost use Rattle.std.specs.Int.Count.{ones};
ghost use Rattle.nodeset.specs.NodeSet.{member, set_of, within, same_node, apart, lowest};
ghost use Rattle.nodeset.specs.inner.Operations.{in_either, in_but_not};

// The set of node k alone.
pub fn single(k: u32) -> u16
    ensures { result ≡ set_of 16 (same_node k) }
{
    if k < 1 {
        return 0;
    }
    if 16 < k {
        return 0;
    }
    1 << (k - 1)
}

// Whether node k is in s.
pub fn contains(s: u16, k: u32) -> bool
    ensures { result ≡ member s k }
{
    s & single(k) != 0
}

pub fn union(a: u16, b: u16) -> u16
    ensures { result ≡ set_of 16 (in_either (member a) (member b)) }
{
    a | b
}

// s with node k.
pub fn insert(s: u16, k: u32) -> u16
    ensures { result ≡ set_of 16 (in_either (member s) (same_node k)) }
{
    s | single(k)
}

// s without node k.
pub fn remove(s: u16, k: u32) -> u16
    ensures { result ≡ set_of 16 (in_but_not (member s) (same_node k)) }
{
    s - (s & single(k))
}

// No node is in both.
pub fn disjoint(a: u16, b: u16) -> bool
    ensures { result ≡ apart 16 (member a) (member b) }
{
    a & b == 0
}

// No node above n is in s.
pub fn is_within(s: u16, n: u32) -> bool
    ensures { result ≡ within n s }
{
    if 16 <= n {
        return true;
    }
    (s as u32) < 1 << n
}

// How many nodes are in s.
pub fn count(s: u16) -> u32
    ensures { result ≡ ones s }
{
    u16::count_ones(s)
}

// The lowest node of s, and 17 where s is empty. A walk over a set takes it, removes it and goes on.
pub fn first(s: u16) -> u32
    ensures { result ≡ lowest s }
{
    u16::trailing_zeros(s) + 1
}
