// Groups over words alone: who is up from each node, who is linked with each, node 1 first.
ghost use Rattle.std.specs.Prelude.{◌≡◌, true, ◌≤◌, length};
ghost use Rattle.nodeset.specs.NodeSet.{member, set_of};
ghost use Rattle.nodeset.specs.inner.Operations.{in_but_not};
ghost use Rattle.protocol.specs.Network.{Node};
ghost use Rattle.groups.specs.Groups.{linked, one_round, group_by};
ghost use Rattle.groups.specs.inner.Words.{add_if, in_words, heads_in, SetWords, LinkWords};

// s with node k where the test says so.
pub fn add_if(s: u16, k: u32, yes: bool) -> u16
    ensures { result ≡ add_if s k yes }
{
    if yes {
        return nodeset::insert(s, k);
    }
    s
}

// Who is linked with w: up both ways. Nobody, where nobody is up from w.
fn links(n: u32, w: u32, ups: &[u16]) -> u16
    requires { (n ≤ 16) × (length ups.now ≡ 16) × Node n w }
    ensures { result ≡ set_of n (linked (in_words ups.now) w) }
{
    let i = (w - 1) as usize;
    let out = ups[i];
    if out == 0 {
        return 0;
    }
    let mut s: u16 = 0;
    for v in 1..n + 1 {
        let j = (v - 1) as usize;
        let back = ups[j];
        let yes = nodeset::contains(out, v) & nodeset::contains(back, w);
        s = add_if(s, v, yes);
    }
    s
}

// The links of each node.
pub fn fill_links(n: u32, ups: &[u16], near: &mut [u16])
    requires { (n ≤ 16) × (length ups.now ≡ 16) × (length near.old ≡ 16) }
    ensures { SetWords n (linked (in_words ups.now)) near.new }
{
    for w in 1..n + 1 {
        let set = links(n, w, ups);
        let i = (w - 1) as usize;
        near[i] = set;
    }
}

// s and all linked with a node of s.
fn one_round(n: u32, s: u16, near: &[u16]) -> u16
    requires { LinkWords n near.now }
    ensures { result ≡ one_round n (in_words near.now) s }
{
    let mut out: u16 = 0;
    for w in 1..n + 1 {
        let i = (w - 1) as usize;
        let set = near[i];
        let yes = nodeset::contains(s, w) | !nodeset::disjoint(s, set);
        out = add_if(out, w, yes);
    }
    out
}

// u's group: u alone where it has no links, else rounds from u alone, until one changes nothing.
pub fn group(n: u32, u: u32, near: &[u16]) -> u16
    requires { LinkWords n near.now × Node n u }
    ensures { result ≡ group_by n (in_words near.now) u }
{
    let mut s = nodeset::single(u);
    let i = (u - 1) as usize;
    if near[i] == 0 {
        return s;
    }
    for k in 0..n {
        let next = one_round(n, s, near);
        if next == s {
            return s;
        }
        s = next;
    }
    s
}

// Nodes 1 to n.
fn all_nodes(n: u32) -> u16
    requires { n ≤ 16 }
    ensures { result ≡ set_of n (λ k. true) }
{
    let mut out: u16 = 0;
    for w in 1..n + 1 {
        out = add_if(out, w, true);
    }
    out
}

// a without the nodes of b.
fn without(a: u16, b: u16) -> u16
    ensures { result ≡ set_of 16 (in_but_not (member a) (member b)) }
{
    a - (a & b)
}

// The lowest members of all groups: the lowest node left is one, and its group goes.
pub fn heads(n: u32, near: &[u16]) -> u16
    requires { LinkWords n near.now }
    ensures { result ≡ heads_in n near.now }
{
    let mut out: u16 = 0;
    let mut left = all_nodes(n);
    while left != 0 {
        let w = nodeset::first(left);
        let gone = group(n, w, near);
        out = nodeset::insert(out, w);
        left = without(left, gone);
    }
    out
}
