// Fields of 0 to 32 bits at any bit place of bytes, most significant bit first: through 64 bits at a time, byte by byte near the end.
// These are leaves: only our crates call them, with the bounds that `requires` states.
#![tactic(auto)]

ghost use Rattle.std.specs.Prelude.{◌≡◌, ◌++◌, ℕ, ◌+◌, ◌*◌, ◌/◌, ◌%◌, ◌^◌, ◌≤◌, ◌<◌, length, drop, get_or};
ghost use Rattle.bits.specs.Bits.{bits, unpacked, field, total, spread, gathered};
ghost use Rattle.bits.specs.inner.Written.{over, written, word_bits, RoomFor};

mod words;

// The n low bits of a number after its r lowest.
pub fn digits(v: u32, n: usize, r: usize) -> u32
    requires { (n ≤ 8) × (r < 32) }
    ensures { result ≡ v / 2 ^ r % 2 ^ n }
{
    (v >> r) % (1u32 << n)
}

// How many bits of a field of `left` bits stand in the byte that holds the bit place `at`.
pub fn run(at: usize, left: usize) -> usize
    requires { 0 < left }
    ensures { (0 < result) × ((result ≤ left) × (at % 8 + result ≤ 8)) }
{
    left.min(8 - at % 8)
}

// The field of `width` bits at a bit place, the most significant bit first: out of eight bytes where these are there.
pub fn get(bytes: &[u8], at: usize, width: usize) -> u32
    requires { (width ≤ 32) × ((at < 2 ^ 32) × (at + width ≤ 8 * length bytes.now)) }
    ensures { result ≡ field bytes.now at width }
{
    let i = at / 8;
    if i + 8 <= bytes.len() {
        return words::cut(words::load(bytes, i), at % 8, width);
    }
    get_by_bytes(bytes, at, width)
}

// The same byte by byte, near the end.
fn get_by_bytes(bytes: &[u8], at: usize, width: usize) -> u32
    requires { (width ≤ 32) × ((at < 2 ^ 32) × (at + width ≤ 8 * length bytes.now)) }
    ensures { result ≡ field bytes.now at width }
{
    let mut v: u32 = 0;
    let mut done: usize = 0;
    while done < width {
        let place = at + done;
        let n = run(place, width - done);
        let i = place / 8;
        let p = digits(bytes[i] as u32, n, 8 - place % 8 - n);
        v = (v << n) + p;
        done += n;
    }
    v
}

// The byte with n of its bits replaced, from the bit `off` on.
pub fn spliced(b: u8, off: usize, n: usize, p: u32) -> u8
    requires { (off + n ≤ 8) × (p < 2 ^ n) }
    ensures { bits 8 result ≡ over (bits 8 b) off (bits n p) }
{
    let r = 8 - off - n;
    let x = b as u32;
    let high = x >> (n + r);
    let low = x % (1u32 << r);
    ((((high << n) + p) << r) + low) as u8
}

// The low `width` bits of a value go to a bit place, the most significant first; every other bit stays.
pub fn put(buf: &mut [u8], at: usize, width: usize, value: u32)
    requires { (width ≤ 32) × ((at < 2 ^ 32) × (at + width ≤ 8 * length buf.old)) }
    ensures { buf.new ≡ written buf.old at (bits width value) }
{
    if width == 32 {
        put_bytes(buf, at, 4, value as u64);
        return;
    }
    put_by_bytes(buf, at, width, value);
}

// The same byte by byte.
fn put_by_bytes(buf: &mut [u8], at: usize, width: usize, value: u32)
    requires { (width ≤ 32) × ((at < 2 ^ 32) × (at + width ≤ 8 * length buf.old)) }
    ensures { buf.new ≡ written buf.old at (bits width value) }
{
    let mut done: usize = 0;
    while done < width {
        let place = at + done;
        let n = run(place, width - done);
        let i = place / 8;
        let p = digits(value, n, width - done - n);
        buf[i] = spliced(buf[i], place % 8, n, p);
        done += n;
    }
}

// The low 8 m bits of a number go to a bit place: m bytes, and where the place is inside a byte, a part of the next.
fn put_bytes(buf: &mut [u8], at: usize, m: usize, value: u64)
    requires { ((0 < m) × (m ≤ 8)) × ((at + 8 * m ≤ 8 * length buf.old) × (value < 2 ^ (8 * m))) }
    ensures { buf.new ≡ written buf.old at (bits (8 * m) value) }
{
    let i = at / 8;
    let off = at % 8;
    if off == 0 {
        words::store(buf, i, m, value);
        return;
    }
    let before = (buf[i] >> (8 - off)) as u64;
    words::store(buf, i, m, (before << (8 * m - off)) + (value >> off));
    put_first(buf, i + m, off, (value % 256) as u32);
}

// The low n bits of a value go to the front of byte i.
fn put_first(buf: &mut [u8], i: usize, n: usize, value: u32)
    requires { (0 < n) × ((n < 8) × (i < length buf.old)) }
    ensures { buf.new ≡ written buf.old (8 * i) (bits n value) }
{
    buf[i] = spliced(buf[i], 0, n, digits(value, n, 0));
}

// The low `width` bits of a number of 64 go to a bit place.
fn put_long(buf: &mut [u8], at: usize, width: usize, value: u64)
    requires { (width ≤ 64) × ((at + width < 2 ^ 32) × (at + width ≤ 8 * length buf.old)) }
    ensures { buf.new ≡ written buf.old at (bits width value) }
{
    let low = (value % 4294967296) as u32;
    if width <= 32 {
        put(buf, at, width, low);
        return;
    }
    put(buf, at, width - 32, (value >> 32) as u32);
    put(buf, at + (width - 32), 32, low);
}

// Fields packed: so many whole numbers of 64 bits, and then `count` bits, held.
#[derive(Clone, Copy)]
struct Packed {
    full: usize,
    count: usize,
    held: u64,
}

// The bits of values, each at its width, as numbers of 64 bits.
fn pack(widths: &[u8], values: &[u32], full: &mut [u64]) -> Packed
    requires { ((i : ℕ) → get_or widths.now i 0 ≤ 32) × (length widths.now ≡ length values.now)
        × (length widths.now ≤ 8) × (length full.old ≡ 4) }
    ensures { (spread widths.now values.now ≡ word_bits result.full full.new ++ bits result.count result.held)
        × (64 * result.full + result.count ≡ total widths.now) × (result.full ≤ 4) × (result.count < 64) }
{
    let mut held: u64 = 0;
    let mut count: usize = 0;
    let mut j: usize = 0;
    for k in 0..widths.len() {
        let w = widths[k] as usize;
        let v = values[k] as u64;
        if count + w < 64 {
            held = words::joined(held, v, w);
            count += w;
        } else {
            let rest = count + w - 64;
            full[j] = words::joined(held, v >> rest, w - rest);
            j += 1;
            held = v % (1u64 << rest);
            count = rest;
        }
    }
    Packed {
        full: j,
        count,
        held,
    }
}

// n numbers of 64 bits and then `count` bits, held, go to a bit place.
fn put_packed(buf: &mut [u8], at: usize, full: &[u64], n: usize, count: usize, held: u64)
    requires { (n ≤ length full.now) × (n ≤ 4) × (count < 64)
        × (at + (64 * n + count) < 2 ^ 32) × (at + (64 * n + count) ≤ 8 * length buf.old) }
    ensures { buf.new ≡ written buf.old at (word_bits n full.now ++ bits count held) }
{
    for j in 0..n {
        put_bytes(buf, at + 64 * j, 8, full[j]);
    }
    put_long(buf, at + 64 * n, count, held);
}

// Values go to fields end to end from a bit place on, each at its width.
pub fn put_fields(buf: &mut [u8], at: usize, widths: &[u8], values: &[u32])
    requires { RoomFor buf.old at widths.now × (length widths.now ≡ length values.now) × (length widths.now ≤ 8) }
    ensures { buf.new ≡ written buf.old at (spread widths.now values.now) }
{
    let mut full = [0; 4];
    let p = pack(widths, values, &mut full);
    put_packed(buf, at, &full, p.full, p.count, p.held);
}

// The values of the fields that stand end to end from a bit place on.
pub fn get_fields(bytes: &[u8], at: usize, widths: &[u8], values: &mut [u32])
    requires { RoomFor bytes.now at widths.now × (length widths.now ≡ length values.old) × (length widths.now ≤ 256) }
    ensures { values.new ≡ gathered widths.now (drop at (unpacked bytes.now)) }
{
    if at / 8 + 4 * widths.len() + 9 <= bytes.len() {
        get_inside(bytes, at, widths, values);
        return;
    }
    get_near_end(bytes, at, widths, values);
}

// The same where 64 bits can be looked at from each field on: out of them, until they are used up.
fn get_inside(bytes: &[u8], at: usize, widths: &[u8], values: &mut [u32])
    requires { RoomFor bytes.now at widths.now × (length widths.now ≡ length values.old)
        × (at / 8 + 4 * length widths.now + 9 ≤ length bytes.now) }
    ensures { values.new ≡ gathered widths.now (drop at (unpacked bytes.now)) }
{
    let mut start = at;
    let mut seen = words::load_at(bytes, at);
    let mut used: usize = 0;
    for k in 0..widths.len() {
        let w = widths[k] as usize;
        if used + w < 64 {
            values[k] = words::cut(seen, used, w);
            used += w;
        } else {
            start += used;
            seen = words::load_at(bytes, start);
            values[k] = words::cut(seen, 0, w);
            used = w;
        }
    }
}

// The same field by field, near the end.
fn get_near_end(bytes: &[u8], at: usize, widths: &[u8], values: &mut [u32])
    requires { RoomFor bytes.now at widths.now × (length widths.now ≡ length values.old) }
    ensures { values.new ≡ gathered widths.now (drop at (unpacked bytes.now)) }
{
    let mut place = at;
    for k in 0..widths.len() {
        let w = widths[k] as usize;
        values[k] = get(bytes, place, w);
        place += w;
    }
}
