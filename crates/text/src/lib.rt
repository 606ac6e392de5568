// Text in ASCII goes into lent bytes from an offset on, as far as they reach; each function answers the offset behind it.
// So the same code counts how long a text is (no bytes lent) and writes it.
#![tactic(auto)]

ghost use Rattle.std.specs.Prelude.{[], ◌∷◌, ◌++◌, ◌≡◌, ◌+◌, ◌^◌, ◌≤◌, ◌<◌, length};
ghost use Rattle.text.specs.Text.{decimal};
ghost use Rattle.text.specs.inner.Poured.{poured};

// One byte.
pub fn put_byte(out: &mut [u8], at: usize, b: u8) -> usize
    requires { at < 2 ^ 32 }
    ensures { (out.new ≡ poured out.old at (b ∷ [])) × (result ≡ at + 1) }
{
    if at < out.len() {
        out[at] = b;
    }
    at + 1
}

// Some bytes.
pub fn put_bytes(out: &mut [u8], at: usize, bytes: &[u8]) -> usize
    requires { at + length bytes.now < 2 ^ 32 }
    ensures { (out.new ≡ poured out.old at bytes.now) × (result ≡ at + length bytes.now) }
{
    let mut offset = at;
    for b in bytes {
        offset = put_byte(out, offset, *b);
    }
    offset
}

// A number in decimal: the number without its last digit, where it has more than one, and then that digit.
pub fn put_decimal(out: &mut [u8], at: usize, x: u32) -> usize
    requires { at < 2 ^ 31 }
    ensures { (out.new ≡ poured out.old at (decimal x)) × (result ≡ at + length (decimal x)) }
{
    let mut offset = at;
    if x >= 10 {
        offset = put_decimal(out, at, x / 10);
    }
    put_byte(out, offset, 48 + (x % 10) as u8)
}

// A number in decimal, and the byte that ends it.
pub fn put_number(out: &mut [u8], at: usize, x: u32, end: u8) -> usize
    requires { at < 2 ^ 31 }
    ensures { (out.new ≡ poured out.old at (decimal x ++ (end ∷ [])))
        × (result ≡ at + length (decimal x ++ (end ∷ []))) × (result ≤ at + 11) }
{
    let behind = put_decimal(out, at, x);
    put_byte(out, behind, end)
}

// A letter and a space.
pub fn put_letter(out: &mut [u8], at: usize, letter: u8) -> usize
    requires { at < 2 ^ 31 }
    ensures { (out.new ≡ poured out.old at (letter ∷ 32 ∷ [])) × (result ≡ at + 2) }
{
    let behind = put_byte(out, at, letter);
    put_byte(out, behind, b' ')
}
