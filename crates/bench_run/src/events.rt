// The event lines: each is carried out on the tables and printed.
ghost use Rattle.std.specs.Prelude.{◌≡◌, ◌+◌, ◌^◌, ◌≤◌, ◌<◌, length, drop};
ghost use Rattle.protocol.specs.Answer.{said, said_refused};
ghost use Rattle.election.specs.StepOn.{step_on};
ghost use Rattle.bench_run.specs.Listing.{by_event};
ghost use Rattle.refusal.specs.Outcome.{outcome};
ghost use Rattle.commands.specs.Commands.{lines_of, command_of};
ghost use Rattle.text.specs.inner.Poured.{poured};
ghost use Rattle.bench_run.specs.inner.OnTables.{command_line_on, after_command_on, event_lines_on, after_lines_on};
ghost use Rattle.tables.specs.Tables.{tables};

use commands::Command;
use protocol::Answer;

// The event that a line names is carried out.
fn carried_out(text: &[u8], n: u32, nodes: &mut [u32], channels: &mut [u32]) -> Answer
    ensures { outcome (said result) (tables nodes.new channels.new)
        ≡ by_event (λ e. step_on n e (tables nodes.old channels.old)) (outcome (said_refused (command_of text.now).why) (tables nodes.old channels.old)) (command_of text.now) }
{
    match commands::parse(text)? {
        Command::Up(u, v) => election::up(n, u, v, nodes, channels),
        Command::Down(u, v) => election::down(n, u, v, nodes, channels),
        Command::Receive(u, v) => election::receive(n, u, v, nodes, channels),
    }
}

// Line k, at an offset of the output.
fn line(
    text: &[u8],
    k: u32,
    n: u32,
    nodes: &mut [u32],
    channels: &mut [u32],
    out: &mut [u8],
    at: usize,
) -> usize
    requires { at < 2 ^ 30 }
    ensures { (out.new ≡ poured out.old at (command_line_on n (tables nodes.old channels.old) k (command_of text.now)))
        × (result ≡ at + length (command_line_on n (tables nodes.old channels.old) k (command_of text.now))) × (result ≤ at + 35)
        × (tables nodes.new channels.new ≡ after_command_on n (tables nodes.old channels.old) (command_of text.now)) }
{
    let answer = carried_out(text, n, nodes, channels);
    super::lines::put_answer(out, at, k, answer)
}

// All lines of the input from an offset on, numbered from 1.
pub fn lines(
    input: &[u8],
    from: usize,
    n: u32,
    nodes: &mut [u32],
    channels: &mut [u32],
    out: &mut [u8],
    at: usize,
) -> usize
    requires { (at ≤ 64) × (length input.now ≤ 65536) }
    ensures { (out.new ≡ poured out.old at (event_lines_on n (tables nodes.old channels.old) 1 (lines_of (drop from input.now))))
        × (result ≡ at + length (event_lines_on n (tables nodes.old channels.old) 1 (lines_of (drop from input.now))))
        × (result < 2 ^ 28) × (tables nodes.new channels.new ≡ after_lines_on n (tables nodes.old channels.old) (lines_of (drop from input.now))) }
{
    let mut start = from;
    let mut k: u32 = 1;
    let mut offset = at;
    while start < input.len() {
        let end = commands::line_end(input, start);
        offset = line(&input[start..end], k, n, nodes, channels, out, offset);
        start = end + 1;
        k += 1;
    }
    offset
}
