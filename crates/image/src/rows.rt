// A node's record: the clock, both sets and n heights, between a row of words and a bit place.
ghost use Rattle.std.specs.Prelude.{◌≡◌, ◌*◌, ◌≤◌, length};
ghost use Rattle.bits.specs.Bits.{unpacked};
ghost use Rattle.bits.specs.inner.Written.{written};
ghost use Rattle.height.specs.Words.{height_size};
ghost use Rattle.tables.specs.Tables.{width};
ghost use Rattle.image.specs.Places.{heights_from};
ghost use Rattle.image.specs.Widths.{node_width};
ghost use Rattle.image.specs.inner.Parts.{Inside, Depth, row_bits, row_from};

use super::{CLOCK_WIDTH, FORMING_PLACE, NEIGHBORS_PLACE, NODE_HEAD, SET_WIDTH, widths};
use tables::{HEIGHT_SIZE, ROW_HEAD};

// A row's words go to a bit place.
pub fn put_row(buf: &mut [u8], at: usize, depth: u8, n: usize, row: &[u32])
    requires { Depth depth × (n ≤ 16) × (length row.now ≡ width n) × Inside buf.old at (node_width depth n) }
    ensures { buf.new ≡ written buf.old at (row_bits depth n row.now) }
{
    bits::put(buf, at, CLOCK_WIDTH, row[0]);
    bits::put(buf, at + NEIGHBORS_PLACE, SET_WIDTH, row[1]);
    bits::put(buf, at + FORMING_PLACE, SET_WIDTH, row[2]);
    super::records::put_records(
        buf,
        at + NODE_HEAD,
        depth,
        HEIGHT_SIZE,
        widths::height(depth),
        n,
        &row[ROW_HEAD..],
    );
}

// The n heights of the node's record at a bit place.
pub fn get_heights(bytes: &[u8], at: usize, depth: u8, n: usize, words: &mut [u32])
    requires { Depth depth × (n ≤ 16) × (length words.old ≡ n * height_size) × Inside bytes.now at (node_width depth n) }
    ensures { words.new ≡ heights_from depth n (unpacked bytes.now) at }
{
    super::records::get_records(
        bytes,
        at + NODE_HEAD,
        depth,
        HEIGHT_SIZE,
        widths::height(depth),
        n,
        words,
    );
}

// The row of the node's record at a bit place.
pub fn get_row(bytes: &[u8], at: usize, depth: u8, n: usize, row: &mut [u32])
    requires { Depth depth × (n ≤ 16) × (length row.old ≡ width n) × Inside bytes.now at (node_width depth n) }
    ensures { row.new ≡ row_from depth n (unpacked bytes.now) at }
{
    row[0] = bits::get(bytes, at, CLOCK_WIDTH);
    row[1] = bits::get(bytes, at + NEIGHBORS_PLACE, SET_WIDTH);
    row[2] = bits::get(bytes, at + FORMING_PLACE, SET_WIDTH);
    get_heights(bytes, at, depth, n, &mut row[ROW_HEAD..]);
}
