// A channel's cell, and the operations on it: count, nth message, append, take the first, clear, zero after the messages.
// Beside these only image/src/cells.rt (records) touches a cell's words. Each function assumes what its `requires` states.
ghost use Rattle.std.specs.Prelude.{◌≡◌, ◌≤◌, ◌<◌, length, replicate, drop};
ghost use Rattle.height.specs.inner.Stored.{Negated};
ghost use Rattle.protocol.specs.Network.{capacity};
ghost use Rattle.tables.specs.Cell.{count, slot, message_at, all_zero};
ghost use Rattle.tables.specs.inner.Written.{appended, taken, emptied};
ghost use Rattle.tables.specs.Tables.{cell_width};

use super::{CELL_WIDTH, HEIGHT_SIZE, MESSAGE_SIZE};
use height::{Height, Time};

// Where the last slot starts.
const LAST_SLOT: usize = CELL_WIDTH - MESSAGE_SIZE;

// Where message k, counted from 0, starts.
pub fn slot_start(k: usize) -> usize
    requires { k ≤ capacity }
    ensures { result ≡ slot k }
{
    1 + k * MESSAGE_SIZE
}

// How many messages wait.
pub fn waiting(cell: &[u32]) -> u32
    requires { length cell.now ≡ cell_width }
    ensures { result ≡ count cell.now }
{
    cell[0]
}

// Message k, counted from 0: its height and its timestamp.
pub fn nth_height(cell: &[u32], k: usize) -> Height
    requires { (length cell.now ≡ cell_width) × (k < capacity) }
    ensures { (result ≡ (message_at cell.now (slot k)).height) × Negated result.pair.nlts.0 }
{
    height::words::load_height(cell, slot_start(k))
}

pub fn nth_timestamp(cell: &[u32], k: usize) -> Time
    requires { (length cell.now ≡ cell_width) × (k < capacity) }
    ensures { result.0 ≡ (message_at cell.now (slot k)).timestamp }
{
    let at = slot_start(k) + HEIGHT_SIZE;
    Time(cell[at])
}

// Whether every word after the first `count` messages is zero. Slot by slot, joined in four results side by side, which the compiler takes as one.
pub fn is_unused_after(cell: &[u32], count: usize) -> bool
    requires { (length cell.now ≡ cell_width) × (count ≤ capacity) }
    ensures { result ≡ all_zero (drop (slot count) cell.now) }
{
    let mut p: u32 = 0;
    let mut q: u32 = 0;
    let mut r: u32 = 0;
    let mut s: u32 = 0;
    let mut i = slot_start(count);
    while i < CELL_WIDTH {
        p |= cell[i] | cell[i + 4];
        q |= cell[i + 1] | cell[i + 5];
        r |= cell[i + 2] | cell[i + 6];
        s |= cell[i + 3] | cell[i + 7];
        i += MESSAGE_SIZE;
    }
    p | q | r | s == 0
}

// One more message.
pub fn append(cell: &mut [u32], h: Height, t: Time)
    requires { (length cell.old ≡ cell_width) × (count cell.old < capacity) × Negated h.pair.nlts.0 }
    ensures { cell.new ≡ appended cell.old h t.0 }
{
    let waiting = cell[0];
    let slot = slot_start(waiting as usize);
    height::words::store_height(cell, slot, h);
    cell[slot + HEIGHT_SIZE] = t.0;
    cell[0] = waiting + 1;
}

// The first message leaves: the others move up one slot, and the slot that is free is zeroed.
pub fn take_first(cell: &mut [u32])
    requires { (length cell.old ≡ cell_width) × (1 ≤ count cell.old) }
    ensures { cell.new ≡ taken cell.old }
{
    let waiting = cell[0];
    for i in 1..LAST_SLOT {
        cell[i] = cell[i + MESSAGE_SIZE];
    }
    fill_zero(&mut cell[LAST_SLOT..CELL_WIDTH]);
    cell[0] = waiting - 1;
}

// The messages are lost.
pub fn clear(cell: &mut [u32])
    requires { length cell.old ≡ cell_width }
    ensures { cell.new ≡ emptied }
{
    fill_zero(cell);
}

// Every word zero.
pub fn fill_zero(words: &mut [u32])
    ensures { words.new ≡ replicate (length words.old) 0 }
{
    words.fill(0);
}

// Whether every word is zero. All words are joined and looked at once, so that the compiler can take several at a time.
pub fn all_zero(words: &[u32]) -> bool
    ensures { result ≡ all_zero words.now }
{
    let mut seen: u32 = 0;
    for word in words {
        seen |= *word;
    }
    seen == 0
}
