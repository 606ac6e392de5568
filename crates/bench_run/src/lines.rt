// The lines of a listing, poured into the bytes from an offset on; the offset behind each.
ghost use Rattle.std.specs.Prelude.{[], ◌∷◌, ◌++◌, ◌≡◌, ◌+◌, ◌^◌, ◌≤◌, ◌<◌, length};
ghost use Rattle.protocol.specs.Answer.{said};
ghost use Rattle.text.specs.inner.Poured.{poured};
ghost use Rattle.bench_run.specs.Listing.{event_head, station_head, bad_plot, event_line, said_line, station_line};

use protocol::Answer;

pub fn put_event_head(out: &mut [u8], at: usize) -> usize
    requires { at < 2 ^ 30 }
    ensures { (out.new ≡ poured out.old at event_head) × (result ≡ at + length event_head) }
{
    text::put_bytes(out, at, b"event code rule sent\n")
}

pub fn put_station_head(out: &mut [u8], at: usize) -> usize
    requires { at < 2 ^ 30 }
    ensures { (out.new ≡ poured out.old at station_head) × (result ≡ at + length station_head) }
{
    text::put_bytes(out, at, b"station leader clock\n")
}

pub fn put_bad_plot(out: &mut [u8]) -> usize
    ensures { (out.new ≡ poured out.old 0 bad_plot) × (result ≡ length bad_plot) }
{
    text::put_bytes(out, 0, b"bad plot\n")
}

// Number, returned number, rule or dash, messages sent.
pub fn put_event(out: &mut [u8], at: usize, k: u32, code: u32, letter: u8, sent: u32) -> usize
    requires { at < 2 ^ 30 }
    ensures { (out.new ≡ poured out.old at (event_line k code letter sent))
        × (result ≡ at + length (event_line k code letter sent)) × (result ≤ at + 35) }
{
    let a = text::put_number(out, at, k, b' ');
    let b = text::put_number(out, a, code, b' ');
    let c = text::put_letter(out, b, letter);
    text::put_number(out, c, sent, b'\n')
}

// The line of an event's answer.
pub fn put_answer(out: &mut [u8], at: usize, k: u32, answer: Answer) -> usize
    requires { at < 2 ^ 30 }
    ensures { (out.new ≡ poured out.old at (said_line k (said answer))) × (result ≡ at + length (said_line k (said answer)))
        × (result ≤ at + 35) }
{
    put_event(
        out,
        at,
        k,
        answers::number(answer),
        answers::letter(answer),
        answers::sent(answer),
    )
}

// Number, leader, clock.
pub fn put_station(out: &mut [u8], at: usize, u: u32, leader: u32, clock: u32) -> usize
    requires { at < 2 ^ 30 }
    ensures { (out.new ≡ poured out.old at (station_line u leader clock))
        × (result ≡ at + length (station_line u leader clock)) × (result ≤ at + 33) }
{
    let a = text::put_number(out, at, u, b' ');
    let b = text::put_number(out, a, leader, b' ');
    text::put_number(out, b, clock, b'\n')
}
