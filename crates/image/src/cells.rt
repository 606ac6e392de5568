// A channel's record: the count and its messages, between a cell of words and a bit place.
ghost use Rattle.std.specs.Prelude.{◌≡◌, ◌+◌, ◌*◌, ◌≤◌, length, drop};
ghost use Rattle.bits.specs.Bits.{unpacked};
ghost use Rattle.bits.specs.inner.Written.{written};
ghost use Rattle.protocol.specs.Network.{capacity};
ghost use Rattle.tables.specs.Cell.{count};
ghost use Rattle.tables.specs.Records.{slot_words};
ghost use Rattle.tables.specs.Tables.{message_size, cell_width};
ghost use Rattle.image.specs.Places.{field_in, messages_of};
ghost use Rattle.image.specs.Widths.{message_width};
ghost use Rattle.image.specs.inner.Parts.{Inside, Depth, cell_bits, cell_from};

use super::{WAITING_WIDTH, widths};
use tables::MESSAGE_SIZE;

// A cell's count and messages go to a bit place; the place behind them. Most channels are empty: their count is put and no run of records is begun.
pub fn put_cell(buf: &mut [u8], at: usize, depth: u8, cell: &[u32]) -> usize
    requires { Depth depth × (length cell.now ≡ cell_width) × (count cell.now ≤ capacity) × Inside buf.old at (4 + count cell.now * message_width depth) }
    ensures { (buf.new ≡ written buf.old at (cell_bits depth cell.now))
        × (result ≡ at + 4 + count cell.now * message_width depth) }
{
    let c = cell[0] as usize;
    bits::put(buf, at, WAITING_WIDTH, cell[0]);
    if c == 0 {
        return at + WAITING_WIDTH;
    }
    let w = widths::message(depth);
    super::records::put_records(
        buf,
        at + WAITING_WIDTH,
        depth,
        MESSAGE_SIZE,
        w,
        c,
        &cell[1..],
    );
    at + WAITING_WIDTH + c * w
}

// c messages from a bit place, then zero words; where there are none, no run of records is begun.
fn get_messages(bytes: &[u8], at: usize, depth: u8, c: usize, words: &mut [u32])
    requires { Depth depth × (c ≤ capacity) × (length words.old ≡ capacity * message_size) × Inside bytes.now at (c * message_width depth) }
    ensures { words.new ≡ slot_words capacity (messages_of depth c (drop at (unpacked bytes.now))) }
{
    tables::cells::fill_zero(words);
    if c == 0 {
        return;
    }
    super::records::get_records(
        bytes,
        at,
        depth,
        MESSAGE_SIZE,
        widths::message(depth),
        c,
        words,
    );
}

// The cell of the channel's record at a bit place; the place behind it.
pub fn get_cell(bytes: &[u8], at: usize, depth: u8, cell: &mut [u32]) -> usize
    requires { Depth depth × (length cell.old ≡ cell_width) × (field_in (unpacked bytes.now) at 4 ≤ capacity)
        × Inside bytes.now at (4 + field_in (unpacked bytes.now) at 4 * message_width depth) }
    ensures { (cell.new ≡ cell_from depth (unpacked bytes.now) at)
        × (result ≡ at + 4 + field_in (unpacked bytes.now) at 4 * message_width depth) }
{
    let count = bits::get(bytes, at, WAITING_WIDTH);
    let c = count as usize;
    cell[0] = count;
    get_messages(bytes, at + WAITING_WIDTH, depth, c, &mut cell[1..]);
    at + WAITING_WIDTH + c * widths::message(depth)
}
