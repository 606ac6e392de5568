// The plot of a bench input after its events (document 01, "The bench program"); a malformed line and a refused event change nothing.
ghost use Rattle.std.specs.Prelude.{◌≡◌, drop};
ghost use Rattle.bench_run.specs.inner.OnTables.{after_command_on, after_lines_on};
ghost use Rattle.commands.specs.Commands.{lines_of, command_of};
ghost use Rattle.tables.specs.Tables.{tables};

use commands::Command;
use protocol::Answer;
use std::io;

// The event that a line names is carried out.
fn line(text: &[u8], n: u32, nodes: &mut [u32], channels: &mut [u32]) -> Answer
    ensures { tables nodes.new channels.new ≡ after_command_on n (tables nodes.old channels.old) (command_of text.now) }
{
    match commands::parse(text)? {
        Command::Up(u, v) => election::up(n, u, v, nodes, channels),
        Command::Down(u, v) => election::down(n, u, v, nodes, channels),
        Command::Receive(u, v) => election::receive(n, u, v, nodes, channels),
    }
}

// All lines from an offset on.
fn lines(input: &[u8], from: usize, n: u32, nodes: &mut [u32], channels: &mut [u32])
    ensures { tables nodes.new channels.new ≡ after_lines_on n (tables nodes.old channels.old) (lines_of (drop from input.now)) }
{
    let mut start = from;
    while start < input.len() {
        let end = commands::line_end(input, start);
        let _ = line(&input[start..end], n, nodes, channels);
        start = end + 1;
    }
}

pub fn draw(
    rt: &impl Print,
    input: &[u8],
    from: usize,
    n: u32,
    nodes: &mut [u32],
    channels: &mut [u32],
) -> io::Result<()> {
    let _ = lent::fresh(n, nodes, channels);
    lines(input, from, n, nodes, channels);
    super::drawn::all(rt, n, nodes, channels)
}
