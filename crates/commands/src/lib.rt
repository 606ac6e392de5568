// The lines of a bench input: where one ends, the plot that the first names, the event that another names.
// `head` and `parse` take any line: what is no head names no plot, and what is no event is malformed.
#![tactic(auto)]

ghost use Rattle.std.specs.Prelude.{[], ◌∷◌, ◌≡◌, suc, ◌+◌, ◌≤◌, ◌<◌, length, take, drop, IfSome};
ghost use Rattle.std.specs.Option.{unwrap_or};
ghost use Rattle.commands.specs.Commands.{none, is_digit, number_of, in_range, to_space, named, command_of, head_of};
ghost use Rattle.commands.specs.inner.Leaves.{to_newline, said_command};

use refusal::Refusal;

// What an event line names.
#[derive(Clone, Copy)]
pub enum Command {
    Up(u32, u32),
    Down(u32, u32),
    Receive(u32, u32),
}

pub fn is_digit(b: u8) -> bool
    ensures { result ≡ is_digit b }
{
    (b'0' <= b) & (b <= b'9')
}

fn one_digit(a: u8) -> Option<u32>
    ensures says { unwrap_or result none ≡ number_of (a ∷ []) }
    ensures small { IfSome result (λ k. k < none) }
{
    if is_digit(a) {
        return Some((a - b'0') as u32);
    }
    None
}

fn two_digits(a: u8, b: u8) -> Option<u32>
    ensures says { unwrap_or result none ≡ number_of (a ∷ b ∷ []) }
    ensures small { IfSome result (λ k. k < none) }
{
    if is_digit(a) & is_digit(b) & !(a == b'0') {
        return Some(10 * (a - b'0') as u32 + (b - b'0') as u32);
    }
    None
}

// A number of one or two digits.
pub fn number(bytes: &[u8]) -> Option<u32>
    ensures says { unwrap_or result none ≡ number_of bytes.now }
    ensures small { IfSome result (λ k. k < none) }
{
    if bytes.len() == 1 {
        return one_digit(bytes[0]);
    }
    if bytes.len() == 2 {
        return two_digits(bytes[0], bytes[1]);
    }
    None
}

// How many bytes stand before the first space.
fn to_space(bytes: &[u8]) -> usize
    ensures { (result ≡ to_space bytes.now) × (result ≤ length bytes.now) }
{
    bytes.iter().position(|b| *b == b' ').unwrap_or(bytes.len())
}

// Where the line that starts at an offset ends: at a newline, or at the end of the input.
pub fn line_end(input: &[u8], at: usize) -> usize
    requires { at ≤ length input.now }
    ensures { (result ≡ at + to_newline (drop at input.now)) × (at ≤ result) × (result ≤ length input.now) }
{
    let rest = &input[at..];
    at + rest.iter().position(|b| *b == b'\n').unwrap_or(rest.len())
}

// A number of nodes.
fn in_range(n: u32) -> Option<u32>
    ensures says { unwrap_or result 0 ≡ in_range n }
    ensures some { IfSome result (λ k. (1 ≤ k) × (k ≤ 16)) }
{
    if (1 <= n) & (n <= 16) {
        return Some(n);
    }
    None
}

// The number of nodes that the first line names.
pub fn head(line: &[u8]) -> Option<u32>
    ensures says { unwrap_or result 0 ≡ head_of line.now }
    ensures some { IfSome result (λ n. (1 ≤ n) × (n ≤ 16)) }
{
    if line.len() < 2 {
        return None;
    }
    if (line[0] == b'N') & (line[1] == b' ') {
        let n = number(&line[2..])?;
        return in_range(n);
    }
    None
}

// The event of a letter and of the text of two numbers, with one space between.
fn numbered(kind: u8, rest: &[u8]) -> Result<Command, Refusal>
    ensures { let l = rest.now in said_command result ≡ named kind (number_of (take (to_space l) l)) (number_of (drop (suc (to_space l)) l)) }
{
    let k = to_space(rest);
    if k == rest.len() {
        return Err(Refusal::Malformed);
    }
    let Some(u) = number(&rest[..k]) else {
        return Err(Refusal::Malformed);
    };
    let Some(v) = number(&rest[k + 1..]) else {
        return Err(Refusal::Malformed);
    };
    match kind {
        b'U' => Ok(Command::Up(u, v)),
        b'D' => Ok(Command::Down(u, v)),
        b'M' => Ok(Command::Receive(u, v)),
        _ => Err(Refusal::Malformed),
    }
}

// The event that a line names, or that it is malformed (15).
pub fn parse(line: &[u8]) -> Result<Command, Refusal>
    ensures { said_command result ≡ command_of line.now }
{
    if line.len() < 2 {
        return Err(Refusal::Malformed);
    }
    if line[1] == b' ' {
        return numbered(line[0], &line[2..]);
    }
    Err(Refusal::Malformed)
}
