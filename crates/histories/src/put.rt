// A path as one bench input, poured into the bytes from an offset on; the offset behind it.
ghost use Rattle.std.specs.Prelude.{[], ◌∷◌, ◌++◌, ◌≡◌, ◌+◌, ◌^◌, ◌<◌, length};
ghost use Rattle.enumeration.specs.Order.{line_of};
ghost use Rattle.enumeration.specs.Texts.{event_text, head_text, input_text};
ghost use Rattle.text.specs.inner.Poured.{poured};
ghost use Rattle.histories.specs.inner.Walk.{event_at, path_events, path_text};

use super::Path;

// U, D or M of a candidate.
fn letter(c: u32) -> u8
    ensures { result ≡ (line_of (event_at c)).letter }
{
    if c < 9 {
        return b'U';
    }
    if c < 18 {
        return b'D';
    }
    b'M'
}

fn put_head(out: &mut [u8], at: usize, n: u32) -> usize
    requires { at < 2 ^ 30 }
    ensures { (out.new ≡ poured out.old at (head_text n ++ (10 ∷ []))) × (result ≡ at + length (head_text n ++ (10 ∷ []))) }
{
    let a = text::put_letter(out, at, b'N');
    text::put_number(out, a, n, b'\n')
}

fn put_event(out: &mut [u8], at: usize, c: u32) -> usize
    requires { at < 2 ^ 30 }
    ensures { (out.new ≡ poured out.old at (event_text (event_at c) ++ (10 ∷ [])))
        × (result ≡ at + length (event_text (event_at c) ++ (10 ∷ []))) }
{
    let a = text::put_letter(out, at, letter(c));
    let b = text::put_number(out, a, c / 3 % 3 + 1, b' ');
    text::put_number(out, b, c % 3 + 1, b'\n')
}

// The events of a path.
fn put_path(out: &mut [u8], at: usize, path: Path) -> usize
    requires { at + length (path_text path.events path.code) < 2 ^ 30 }
    ensures { (out.new ≡ poured out.old at (path_text path.events path.code))
        × (result ≡ at + length (path_text path.events path.code)) }
{
    if path.events == 0 {
        return at;
    }
    let front = Path {
        n: path.n,
        events: path.events - 1,
        code: path.code / 27,
    };
    let a = put_path(out, at, front);
    put_event(out, a, path.code % 27)
}

pub fn put_input(out: &mut [u8], at: usize, path: Path) -> usize
    requires { at + length (input_text path.n (path_events path.events path.code)) < 2 ^ 30 }
    ensures { (out.new ≡ poured out.old at (input_text path.n (path_events path.events path.code)))
        × (result ≡ at + length (input_text path.n (path_events path.events path.code))) }
{
    let a = put_head(out, at, path.n);
    put_path(out, a, path)
}
