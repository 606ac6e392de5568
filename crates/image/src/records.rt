// A height's seven words or a message's eight at a bit place, and records of one kind end to end.
ghost use Rattle.std.specs.Prelude.{◌++◌, ◌≡◌, ◌*◌, ◌^◌, ◌≤◌, ◌<◌, length, take, drop};
ghost use Rattle.bits.specs.Bits.{unpacked};
ghost use Rattle.bits.specs.inner.Written.{written, RoomFor};
ghost use Rattle.height.specs.Words.{height_size};
ghost use Rattle.tables.specs.Tables.{message_size};
ghost use Rattle.image.specs.inner.Parts.{records_from, RecordRun, records_bits};
ghost use Rattle.image.specs.Widths.{widths_of, extended_of, record_bits, record_of};

use super::widths;
use super::widths::{DEPTH, STAMP};
use tables::{HEIGHT_SIZE, MESSAGE_SIZE};

// A number of `width` bits in two's complement, as a word of 32 bits.
fn extended(v: u32, width: u32) -> u32
    requires { ((1 ≤ width) × (width ≤ 32)) × (v < 2 ^ width) }
    ensures { result ≡ extended_of width v }
{
    let half = 1u32 << (width - 1);
    if v < half {
        v
    } else {
        v + (4294967295u32 - (half - 1) - half)
    }
}

// The words go to a bit place: a height's seven at once, so that the compiler knows how many.
pub fn put_record(buf: &mut [u8], at: usize, depth: u8, words: &[u32])
    requires { RoomFor buf.old at (take (length words.now) (widths_of depth)) × ((height_size ≤ length words.now) × (length words.now ≤ message_size)) }
    ensures { buf.new ≡ written buf.old at (record_bits depth words.now) }
{
    let w = widths::fields(depth);
    bits::put_fields(buf, at, &w[..HEIGHT_SIZE], &words[..HEIGHT_SIZE]);
    if words.len() == MESSAGE_SIZE {
        let place = at + widths::place(depth, STAMP);
        bits::put(buf, place, w[STAMP] as usize, words[STAMP]);
    }
}

// The words at a bit place.
pub fn get_record(bytes: &[u8], at: usize, depth: u8, words: &mut [u32])
    requires { RoomFor bytes.now at (take (length words.old) (widths_of depth)) × (((height_size ≤ length words.old) × (length words.old ≤ message_size)) × (1 ≤ depth)) }
    ensures { words.new ≡ record_of depth (length words.old) (drop at (unpacked bytes.now)) }
{
    let w = widths::fields(depth);
    bits::get_fields(bytes, at, &w[..HEIGHT_SIZE], &mut words[..HEIGHT_SIZE]);
    words[DEPTH] = extended(words[DEPTH], depth as u32);
    if words.len() == MESSAGE_SIZE {
        let place = at + widths::place(depth, STAMP);
        words[STAMP] = bits::get(bytes, place, w[STAMP] as usize);
    }
}

// `count` records of `size` words and `width` bits, heights or messages, go to a bit place.
pub fn put_records(
    buf: &mut [u8],
    at: usize,
    depth: u8,
    size: usize,
    width: usize,
    count: usize,
    words: &[u32],
)
    requires { RecordRun depth size width count buf.old words.now at }
    ensures { buf.new ≡ written buf.old at (records_bits depth size count words.now) }
{
    let mut place = at;
    for k in 0..count {
        let a = k * size;
        let e = a + size;
        put_record(buf, place, depth, &words[a..e]);
        place += width;
    }
}

// The records at a bit place go over the first words.
pub fn get_records(
    bytes: &[u8],
    at: usize,
    depth: u8,
    size: usize,
    width: usize,
    count: usize,
    words: &mut [u32],
)
    requires { RecordRun depth size width count bytes.now words.old at }
    ensures { words.new
        ≡ records_from depth size width count (unpacked bytes.now) at ++ drop (count * size) words.old }
{
    let mut place = at;
    for k in 0..count {
        let a = k * size;
        let e = a + size;
        get_record(bytes, place, depth, &mut words[a..e]);
        place += width;
    }
}
