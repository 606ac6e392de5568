// All short histories of a small plot (document 02 [6]), as bench inputs in one text. No tables are lent.
// Neither call requires anything: what cannot be done is refused, and nothing lent changes.
#![tactic(auto)]

ghost use Rattle.std.specs.Prelude.{◌≡◌};
ghost use Rattle.refusal.specs.Outcome.{outcome, said_as};
ghost use Rattle.histories.specs.ListOn.{is_plot, is_short, list_on, list_length, extent};

use refusal::Refusal;

mod explore;
mod paths;
mod plot;
mod put;

// How many bytes a list's text has, and how many histories.
#[derive(Clone, Copy)]
pub struct Extent {
    pub bytes: usize,
    pub histories: u32,
}

// A path: so many events from the fresh plot of n nodes on. Each is a candidate's code, 0 to 26; `code` is all of them as one number in base 27, whose last
// digit is the last event.
#[derive(Clone, Copy)]
pub struct Path {
    pub n: u32,
    pub events: u32,
    pub code: u32,
}

fn is_plot(n: u32) -> bool
    ensures { result ≡ is_plot n }
{
    (1 <= n) & (n <= 16)
}

fn is_short(n: u32, length: u32) -> bool
    ensures { result ≡ is_short n length }
{
    (n <= 3) & (length <= 5)
}

// The list goes to the front of the bytes; it is made twice, first to see how long it is. n outside 1 to 16 (1), above 3 nodes or 5 events (19),
// too little room (14).
pub fn list(n: u32, length: u32, out: &mut [u8]) -> Result<Extent, Refusal>
    ensures { outcome (said_as (extent 0 0) result) out.new ≡ list_on n length out.old }
{
    if !is_plot(n) {
        return Err(Refusal::Sizes);
    }
    if !is_short(n, length) {
        return Err(Refusal::TooLarge);
    }
    let size = plot::size(n, length);
    if out.len() < size {
        return Err(Refusal::NoRoom);
    }
    plot::plot(n, length, out);
    Ok(Extent {
        bytes: size,
        histories: plot::count(size, length),
    })
}

// The bytes that a list takes, to be lent for it; 0 where it is refused with 1 or 19.
pub fn list_length(n: u32, length: u32) -> usize
    ensures { result ≡ list_length n length }
{
    if is_plot(n) & is_short(n, length) {
        return plot::size(n, length);
    }
    0
}
