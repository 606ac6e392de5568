// The form of a text: the head, the lines of nodes 1, 2, .., the edge lines, the foot. A line is looked for by writing it and comparing.
ghost use Rattle.std.specs.Prelude.{◌≡◌, cond, ◌+◌, ◌≤◌, length, drop, IfNone, IfSome};
ghost use Rattle.text.specs.Text.{in_turn};
ghost use Rattle.basics.specs.Bytes.{same_bytes};
ghost use Rattle.dot.specs.Graph.{foot, node_line, dash, edge_line, edge_lines};
ghost use Rattle.dot.specs.Sketch.{starts_with, nodes_at, digits_at, number_at, edge_at, starts_with_edge, edges_of, sketch_of};
ghost use Rattle.dot.specs.inner.Ahead.{Ahead};

use super::{Edge, Form, lines};

// Room for one line.
const LINE: usize = 32;

// Whether these bytes stand at an offset.
fn starts_with(text: &[u8], at: usize, bytes: &[u8]) -> bool
    requires { at ≤ length text.now }
    ensures { result ≡ starts_with bytes.now (drop at text.now) }
{
    text[at..].starts_with(bytes)
}

// ---- the numbers of an edge line

// How many digits the number at an offset has: two where the second byte is one.
fn digits_at(text: &[u8], at: usize) -> usize
    requires { at ≤ length text.now + 16 }
    ensures { (result ≡ digits_at (drop at text.now)) × (result ≤ 2) }
{
    let next = at + 1;
    if next < text.len() {
        if commands::is_digit(text[next]) {
            return 2;
        }
    }
    1
}

fn number_at(text: &[u8], at: usize) -> u32
    requires { at ≤ length text.now + 16 }
    ensures { result ≡ number_at (drop at text.now) }
{
    let end = at + digits_at(text, at);
    if text.len() < end {
        return 100;
    }
    commands::number(&text[at..end]).unwrap_or(100)
}

// The edge whose line starts at an offset.
pub fn edge_at(text: &[u8], at: usize) -> Edge
    requires { at ≤ length text.now }
    ensures { result ≡ edge_at (drop at text.now) }
{
    let first = number_at(text, at + 2);
    let k = digits_at(text, at + 2);
    let second = number_at(text, at + 6 + k);
    Edge { first, second }
}

// How long an edge's line is.
pub fn edge_size(e: Edge) -> usize
    ensures { result ≡ length (edge_line dash e) }
{
    let mut line = [0u8; LINE];
    lines::put_edge(&mut line, 0, b'-', e)
}

// ---- lines at an offset: how long the line is, or 0 where it does not stand there

fn node_line_at(text: &[u8], at: usize, k: u32) -> usize
    requires { at ≤ length text.now }
    ensures { result ≡ cond (starts_with (node_line k) (drop at text.now)) (length (node_line k)) 0 }
{
    let mut line = [0u8; LINE];
    let size = lines::put_node(&mut line, 0, k);
    if starts_with(text, at, &line[..size]) {
        return size;
    }
    0
}

fn edge_line_at(text: &[u8], at: usize) -> usize
    requires { at ≤ length text.now }
    ensures { result ≡ cond (starts_with_edge dash (drop at text.now)) (length (edge_line dash (edge_at (drop at text.now)))) 0 }
{
    let e = edge_at(text, at);
    if !((e.first < 100) & (e.second < 100)) {
        return 0;
    }
    let mut line = [0u8; LINE];
    let size = lines::put_edge(&mut line, 0, b'-', e);
    if starts_with(text, at, &line[..size]) {
        return size;
    }
    0
}

// ---- the walk

// The node lines from an offset on, at most 16, and where they end.
fn nodes_from(text: &[u8], at: usize) -> Form
    requires { at ≤ length text.now }
    ensures { (result.nodes ≡ nodes_at 16 1 (drop at text.now)) × (result.edges ≡ at + length (in_turn result.nodes node_line))
        × (result.edges ≤ length text.now) }
{
    let mut end = at;
    for k in 1..17 {
        let size = node_line_at(text, end, k);
        if size == 0 {
            return Form {
                nodes: k - 1,
                edges: end,
            };
        }
        end += size;
    }
    Form {
        nodes: 16,
        edges: end,
    }
}

// Where the edge lines from an offset on end.
fn edges_end(text: &[u8], at: usize) -> usize
    requires { at ≤ length text.now }
    ensures { (result ≡ at + length (edge_lines dash (edges_of dash (drop at text.now)))) × (result ≤ length text.now) }
{
    let mut end = at;
    while end < text.len() {
        let size = edge_line_at(text, end);
        if size == 0 {
            return end;
        }
        end += size;
    }
    end
}

// Whether the foot stands at an offset, and nothing behind it.
fn ends_at(text: &[u8], at: usize) -> bool
    requires { at ≤ length text.now }
    ensures { result ≡ same_bytes (drop at text.now) foot }
{
    (text.len() - at == 2) & starts_with(text, at, b"}\n")
}

// The form of a text, if it has one.
pub fn form(text: &[u8]) -> Option<Form>
    ensures none { IfNone result ((sketch_of text.now).value.nodes ≡ 0) }
    ensures some { IfSome result (λ form. (form.nodes ≡ (sketch_of text.now).value.nodes) × (1 ≤ form.nodes)
        × Ahead text.now form.edges (sketch_of text.now).value.edges) }
{
    if !starts_with(text, 0, b"graph plot {\n") {
        return None;
    }
    let found = nodes_from(text, 13);
    if found.nodes == 0 {
        return None;
    }
    let end = edges_end(text, found.edges);
    if !ends_at(text, end) {
        return None;
    }
    Some(found)
}
