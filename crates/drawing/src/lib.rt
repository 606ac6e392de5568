// Plot drawings in the DOT language of Graphviz (document 02 [2]): a plot written as a directed graph, a crew's sketch read into tables.
// No function requires anything: what cannot be done is refused, and nothing lent changes.
#![tactic(auto)]

ghost use Rattle.std.specs.Prelude.{◌≡◌};
ghost use Rattle.lent.specs.Check.{said_check};
ghost use Rattle.refusal.specs.Outcome.{outcome, said_as};
ghost use Rattle.drawing.specs.Draw.{draw_on, drawing_length};
ghost use Rattle.drawing.specs.Read.{nodes_of, read_on};
ghost use Rattle.tables.specs.Tables.{tables};

use refusal::Refusal;
use sound::Sound;

mod linking;
mod writing;

// The drawing of the plot that the tables hold goes to the front of `out`: its length in bytes, or sizes (1), the pair at fault (2), the
// untimely pair (18), too little room (14).
pub fn draw(n: u32, nodes: &[u32], channels: &[u32], out: &mut [u8]) -> Result<usize, Refusal>
    ensures { outcome (said_as 0 result) out.new ≡ draw_on n (tables nodes.now channels.now) out.old }
{
    lent::check(n, nodes, channels)?;
    writing::checked(Sound { n, nodes, channels }, out)
}

// How many nodes a sketch has: what tables to lend for reading it. 0 where the text is no sketch.
pub fn nodes_of(text: &[u8]) -> u32
    ensures { result ≡ nodes_of text.now }
{
    match dot::sketch::form(text) {
        Some(form) => form.nodes,
        None => 0,
    }
}

// The most bytes that a drawing of n nodes takes; 0 where n is not of 1 to 16.
pub fn drawing_length(n: u32) -> usize
    ensures { result ≡ drawing_length n }
{
    if (n < 1) | (16 < n) {
        return 0;
    }
    let k = n as usize;
    if k < 10 {
        return 17 + k * (4 * k + k);
    }
    17 + k * (4 * k + (2 * k - 9))
}

// The plot of a sketch goes into the tables: 16, 1, 17, or done (0).
pub fn read(text: &[u8], nodes: &mut [u32], channels: &mut [u32]) -> Result<(), Refusal>
    ensures { outcome (said_check result) (tables nodes.new channels.new) ≡ read_on text.now (tables nodes.old channels.old) }
{
    let Some(form) = dot::sketch::form(text) else {
        return Err(Refusal::NotSketch);
    };
    if !lent::is_sized(form.nodes, nodes, channels) {
        return Err(Refusal::Sizes);
    }
    if !linking::hold(form.nodes, text, form.edges) {
        return Err(Refusal::BadLink);
    }
    linking::build(form.nodes, text, form.edges, nodes, channels);
    Ok(())
}
