// Sixty-four bits at once: eight bytes as one number, the most significant byte first.
// These are leaves: only this crate calls them, with the bounds that `requires` states.
ghost use Rattle.std.specs.Prelude.{◌≡◌, ◌+◌, ◌-◌, ◌*◌, ◌/◌, ◌%◌, ◌^◌, ◌≤◌, ◌<◌, length};
ghost use Rattle.bits.specs.Bits.{bits, field};
ghost use Rattle.bits.specs.inner.Written.{written};

// The eight bytes from index i on.
pub fn load(bytes: &[u8], i: usize) -> u64
    requires { i + 8 ≤ length bytes.now }
    ensures { result ≡ field bytes.now (8 * i) 64 }
{
    let mut v: u64 = 0;
    for k in 0..8 {
        v = (v << 8) + bytes[i + k] as u64;
    }
    v
}

// The byte of a number above its r lowest bits.
fn byte_at(v: u64, r: usize) -> u8
    requires { r ≤ 56 }
    ensures { result ≡ v / 2 ^ r % 2 ^ 8 }
{
    ((v >> r) % 256) as u8
}

// The low 8 m bits of a number go to the m bytes from index i on.
pub fn store(buf: &mut [u8], i: usize, m: usize, v: u64)
    requires { (m ≤ 8) × (i + m ≤ length buf.old) }
    ensures { buf.new ≡ written buf.old (8 * i) (bits (8 * m) v) }
{
    for k in 0..m {
        buf[i + k] = byte_at(v, 8 * (m - k - 1));
    }
}

// `width` bits of a number, behind its first `used`, counted from the most significant.
pub fn cut(v: u64, used: usize, width: usize) -> u32
    requires { (used < 64) × ((width ≤ 32) × (used + width ≤ 64)) }
    ensures { result ≡ v / 2 ^ (64 - used - width) % 2 ^ width }
{
    (((v << used) >> 32) >> (32 - width)) as u32
}

// The 64 bits from a bit place on: eight bytes and a part of the ninth.
pub fn load_at(bytes: &[u8], at: usize) -> u64
    requires { at / 8 + 9 ≤ length bytes.now }
    ensures { result ≡ field bytes.now at 64 }
{
    let i = at / 8;
    let off = at % 8;
    let first = load(bytes, i);
    let last = bytes[i + 8] as u64;
    (first << off) + (last >> (8 - off))
}

// The number of the bits of `held` and then the low w bits of v.
pub fn joined(held: u64, v: u64, w: usize) -> u64
    requires { (w ≤ 32) × (held < 2 ^ (64 - w)) }
    ensures { result ≡ held * 2 ^ w + v % 2 ^ w }
{
    (held << w) + v % (1u64 << w)
}
