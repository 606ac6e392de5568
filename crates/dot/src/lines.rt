// The lines of a text, poured into the bytes from an offset on; the offset behind each.
ghost use Rattle.std.specs.Prelude.{◌≡◌, ◌+◌, ◌^◌, ◌<◌, length};
ghost use Rattle.text.specs.inner.Poured.{poured};
ghost use Rattle.dot.specs.Graph.{digraph_head, foot, between, node_line, edge_line};

use super::Edge;

pub fn put_digraph_head(out: &mut [u8], at: usize) -> usize
    requires { at < 2 ^ 30 }
    ensures { (out.new ≡ poured out.old at digraph_head) × (result ≡ at + length digraph_head) }
{
    text::put_bytes(out, at, b"digraph plot {\n")
}

pub fn put_foot(out: &mut [u8], at: usize) -> usize
    requires { at < 2 ^ 30 }
    ensures { (out.new ≡ poured out.old at foot) × (result ≡ at + length foot) }
{
    text::put_bytes(out, at, b"}\n")
}

// The line of node k.
pub fn put_node(out: &mut [u8], at: usize, k: u32) -> usize
    requires { at < 2 ^ 30 }
    ensures { (out.new ≡ poured out.old at (node_line k)) × (result ≡ at + length (node_line k)) }
{
    let a = text::put_bytes(out, at, b"  ");
    let b = text::put_decimal(out, a, k);
    text::put_bytes(out, b, b";\n")
}

// What stands between the two numbers of an edge: an arrow (>), or a line (-).
fn put_mark(out: &mut [u8], at: usize, mark: u8) -> usize
    requires { at < 2 ^ 31 }
    ensures { (out.new ≡ poured out.old at (between mark)) × (result ≡ at + length (between mark)) }
{
    let a = text::put_bytes(out, at, b" -");
    let b = text::put_byte(out, a, mark);
    text::put_byte(out, b, b' ')
}

// The line of an edge.
pub fn put_edge(out: &mut [u8], at: usize, mark: u8, e: Edge) -> usize
    requires { at < 2 ^ 30 }
    ensures { (out.new ≡ poured out.old at (edge_line mark e)) × (result ≡ at + length (edge_line mark e)) }
{
    let a = text::put_bytes(out, at, b"  ");
    let b = text::put_decimal(out, a, e.first);
    let c = put_mark(out, b, mark);
    let d = text::put_decimal(out, c, e.second);
    text::put_bytes(out, d, b";\n")
}
