// The drawing of a sound plot.
ghost use Rattle.std.specs.Prelude.{◌≡◌, ◌+◌, ◌^◌, ◌<◌, length};
ghost use Rattle.dot.specs.Graph.{node_line, arrow, edge_lines};
ghost use Rattle.protocol.specs.Network.{Node, own};
ghost use Rattle.refusal.specs.Outcome.{outcome, put_front, said_as};
ghost use Rattle.tables.specs.Load.{load};
ghost use Rattle.text.specs.Text.{in_turn};
ghost use Rattle.text.specs.inner.Poured.{poured};
ghost use Rattle.drawing.specs.Drawing.{points, arrow_to, arrows_of, drawing};
ghost use Rattle.tables.specs.Tables.{tables};

use dot::{Edge, lines};
use refusal::Refusal;
use sound::Sound;

// Whether an arrow leads from a to b.
fn is_arrow(plot: Sound, a: u32, b: u32) -> bool
    requires { Node plot.n a × Node plot.n b }
    ensures { result ≡ points (load plot.entry.n (tables plot.entry.nodes.now plot.entry.channels.now)) a b }
{
    let linked = plot.is_up(a, b) & plot.is_up(b, a);
    let low = plot.own(b);
    let high = plot.own(a);
    linked & height::order::height_before(low, high)
}

// ---- the text, poured into the bytes from an offset on

// The line from a to b, where there is an arrow.
fn put_arrow(plot: Sound, a: u32, b: u32, out: &mut [u8], at: usize) -> usize
    requires { Node plot.n a × Node plot.n b × (at < 2 ^ 30) }
    ensures { let l = edge_lines arrow (arrow_to (load plot.entry.n (tables plot.entry.nodes.now plot.entry.channels.now)) a b) in
        (out.new ≡ poured out.old at l) × (result ≡ at + length l) }
{
    if is_arrow(plot, a, b) {
        let e = Edge {
            first: a,
            second: b,
        };
        return lines::put_edge(out, at, b'>', e);
    }
    at
}

// The lines of the arrows from a.
fn put_arrows_from(plot: Sound, a: u32, out: &mut [u8], at: usize) -> usize
    requires { Node plot.n a × (at < 2 ^ 29) }
    ensures { let l = in_turn plot.entry.n (λ b. edge_lines arrow (arrow_to (load plot.entry.n (tables plot.entry.nodes.now plot.entry.channels.now)) a b)) in
        (out.new ≡ poured out.old at l) × (result ≡ at + length l) }
{
    let mut offset = at;
    for b in 1..plot.n + 1 {
        offset = put_arrow(plot, a, b, out, offset);
    }
    offset
}

// The lines of all arrows.
fn put_arrows(plot: Sound, out: &mut [u8], at: usize) -> usize
    requires { at < 2 ^ 28 }
    ensures { let l = edge_lines arrow (arrows_of plot.entry.n (load plot.entry.n (tables plot.entry.nodes.now plot.entry.channels.now))) in
        (out.new ≡ poured out.old at l) × (result ≡ at + length l) }
{
    let mut offset = at;
    for a in 1..plot.n + 1 {
        offset = put_arrows_from(plot, a, out, offset);
    }
    offset
}

// The lines of the nodes.
fn put_nodes(n: u32, out: &mut [u8], at: usize) -> usize
    requires { (n < 32) × (at < 2 ^ 28) }
    ensures { (out.new ≡ poured out.old at (in_turn n node_line)) × (result ≡ at + length (in_turn n node_line)) }
{
    let mut offset = at;
    for k in 1..n + 1 {
        offset = lines::put_node(out, offset, k);
    }
    offset
}

// As far as the bytes reach, and the length of it all.
fn write(plot: Sound, out: &mut [u8]) -> usize
    ensures { (out.new ≡ poured out.old 0 (drawing plot.entry.n (load plot.entry.n (tables plot.entry.nodes.now plot.entry.channels.now))))
        × (result ≡ length (drawing plot.entry.n (load plot.entry.n (tables plot.entry.nodes.now plot.entry.channels.now)))) }
{
    let a = lines::put_digraph_head(out, 0);
    let b = put_nodes(plot.n, out, a);
    let c = put_arrows(plot, out, b);
    lines::put_foot(out, c)
}

// 14, or the drawing goes to the front of the bytes; it is made twice, first to see how long it is.
pub fn checked(plot: Sound, out: &mut [u8]) -> Result<usize, Refusal>
    ensures { outcome (said_as 0 result) out.new ≡ put_front (drawing plot.entry.n (load plot.entry.n (tables plot.entry.nodes.now plot.entry.channels.now))) out.old }
{
    let mut scratch = [0u8; 1];
    let size = write(plot, &mut scratch);
    if out.len() < size {
        return Err(Refusal::NoRoom);
    }
    write(plot, out);
    Ok(size)
}
