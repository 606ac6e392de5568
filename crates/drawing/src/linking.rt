// The links of a sketch: refusal 17, then the fresh plot and both ups of each link.
ghost use Rattle.std.specs.Prelude.{◌≡◌, not, ◌&&◌, [], ◌∷◌, List, ◌-◌, ◌≤◌, length, get_or};
ghost use Rattle.calls.specs.History.{grown};
ghost use Rattle.dot.specs.inner.Ahead.{Ahead};
ghost use Rattle.dot.specs.declared.Edge.{Edge};
ghost use Rattle.election.specs.StepOn.{step_on};
ghost use Rattle.nodeset.specs.NodeSet.{member};
ghost use Rattle.protocol.specs.Network.{Two, fresh};
ghost use Rattle.protocol.specs.Step.{up};
ghost use Rattle.tables.specs.Load.{tables_of};
ghost use Rattle.tables.specs.inner.Fit.{Sized};
ghost use Rattle.drawing.specs.Links.{is_link, links_hold, ups_of};
ghost use Rattle.drawing.specs.inner.Seen.{edges_read, Seen};
ghost use Rattle.tables.specs.Tables.{tables};

use dot::Edge;

// ---- 17

// Two different nodes.
fn is_link(n: u32, e: Edge) -> bool
    ensures { result ≡ is_link n e }
{
    ((1 <= e.first) & (e.first <= n)) & ((1 <= e.second) & (e.second <= n)) & (e.first != e.second)
}

// A link not named yet.
fn is_new(n: u32, e: Edge, seen: &[u16]) -> bool
    requires { (n ≤ 16) × (length seen.now ≡ 16) }
    ensures { result ≡ (is_link n e && not (member (get_or seen.now (e.first - 1) 0) e.second)) }
{
    if is_link(n, e) {
        let i = (e.first - 1) as usize;
        return !nodeset::contains(seen[i], e.second);
    }
    false
}

// Now it is named, in either order.
fn mark(n: u32, e: Edge, seen: &mut [u16])
    requires { (n ≤ 16) × Two n e.first e.second × (length seen.old ≡ 16) }
    ensures { (done : List Edge) → Seen n done seen.old → Seen n (e ∷ done) seen.new }
{
    let i = (e.first - 1) as usize;
    let j = (e.second - 1) as usize;
    seen[i] = nodeset::insert(seen[i], e.second);
    seen[j] = nodeset::insert(seen[j], e.first);
}

// Every edge from an offset on is a link that none before it names; `seen` are those named so far.
fn all_new(n: u32, text: &[u8], from: usize, seen: &mut [u16]) -> bool
    requires { (n ≤ 16) × Ahead text.now from (edges_read text.now) × Seen n [] seen.old }
    ensures { result ≡ links_hold n [] (edges_read text.now) }
{
    let mut at = from;
    while 2 < text.len() - at {
        let e = dot::sketch::edge_at(text, at);
        if !is_new(n, e, seen) {
            return false;
        }
        mark(n, e, seen);
        at += dot::sketch::edge_size(e);
    }
    true
}

pub fn hold(n: u32, text: &[u8], from: usize) -> bool
    requires { (n ≤ 16) × Ahead text.now from (edges_read text.now) }
    ensures { result ≡ links_hold n [] (edges_read text.now) }
{
    let mut seen = [0u16; 16];
    all_new(n, text, from, &mut seen)
}

// ---- the plot

// Both channels of a link go up.
fn link(n: u32, e: Edge, nodes: &mut [u32], channels: &mut [u32])
    ensures { tables nodes.new channels.new
        ≡ (step_on n (up e.second e.first) (step_on n (up e.first e.second) (tables nodes.old channels.old)).after).after }
{
    let _ = election::up(n, e.first, e.second, nodes, channels);
    let _ = election::up(n, e.second, e.first, nodes, channels);
}

// From an offset on, line by line.
fn link_all(n: u32, text: &[u8], from: usize, nodes: &mut [u32], channels: &mut [u32])
    requires { (1 ≤ n) × (n ≤ 16) × Ahead text.now from (edges_read text.now) × (tables nodes.old channels.old ≡ tables_of n fresh) }
    ensures { tables nodes.new channels.new ≡ tables_of n (grown n (ups_of (edges_read text.now))).network }
{
    let mut at = from;
    while 2 < text.len() - at {
        let e = dot::sketch::edge_at(text, at);
        link(n, e, nodes, channels);
        at += dot::sketch::edge_size(e);
    }
}

pub fn build(n: u32, text: &[u8], from: usize, nodes: &mut [u32], channels: &mut [u32])
    requires { Sized n (tables nodes.old channels.old) × Ahead text.now from (edges_read text.now) }
    ensures { tables nodes.new channels.new ≡ tables_of n (grown n (ups_of (edges_read text.now))).network }
{
    let _ = lent::fresh(n, nodes, channels);
    link_all(n, text, from, nodes, channels);
}
