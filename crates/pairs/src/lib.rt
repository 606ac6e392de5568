// What the lent tables hold for a pair u, v: whether its words break a rule, and whether its times make sense, found in one look.
// These are leaves: only our crates call them, with the bounds that `requires` states.
#![tactic(auto)]

ghost use Rattle.std.specs.Prelude.{◌≡◌, true, ◌||◌, ◌+◌, ◌≤◌, length};
ghost use Rattle.basics.specs.Functions.{all};
ghost use Rattle.height.specs.Words.{height_size, height_at};
ghost use Rattle.nodeset.specs.NodeSet.{member};
ghost use Rattle.protocol.specs.Holds.{height_holds, message_holds};
ghost use Rattle.protocol.specs.Network.{Node, capacity};
ghost use Rattle.protocol.specs.Times.{times_within, message_timely};
ghost use Rattle.tables.specs.Cell.{slot, queue, message_at, messages_at, all_zero};
ghost use Rattle.tables.specs.Row.{clock_in, neighbors_in, forming_in, height_in};
ghost use Rattle.tables.specs.Tables.{row_head, width, message_size, cell_width};
ghost use Rattle.pairs.specs.Pair.{own_sound, view_sound, channel_sound, pair_sound, timely_in};
ghost use Rattle.pairs.specs.inner.Findings.{finding, joined, passes};
ghost use Rattle.pairs.specs.inner.ReadCell.{ReadCell};

#[derive(Clone, Copy, PartialEq, Eq)]
pub enum Finding {
    Good,
    Untimely, // no rule is broken, and a time is above what it may be (18)
    Faulty, // a rule is broken (2)
}

// Both findings of one pair.
pub fn both(a: Finding, b: Finding) -> Finding
    ensures { result ≡ joined a b }
{
    match a {
        Finding::Faulty => Finding::Faulty,
        Finding::Good => b,
        Finding::Untimely => match b {
            Finding::Faulty => Finding::Faulty,
            Finding::Good => Finding::Untimely,
            Finding::Untimely => Finding::Untimely,
        },
    }
}

// Node v is in the set, whatever the word's other bits are.
fn is_member(word: u32, v: u32) -> bool
    requires { (1 ≤ v) × (v ≤ 16) }
    ensures { result ≡ member word v }
{
    (word >> (v - 1)) % 2 == 1
}

// The height of node k whose words stand from `at`, held at this clock.
fn height_at(n: u32, k: u32, clock: u32, words: &[u32], at: usize) -> Finding
    requires { at + height_size ≤ length words.now }
    ensures { result ≡ finding (height_holds n k (height_at words.now at)) (times_within clock (height_at words.now at)) }
{
    if !holds::height_holds(n, k, words, at) {
        return Finding::Faulty;
    }
    if holds::times_within(clock, words, at) {
        return Finding::Good;
    }
    Finding::Untimely
}

// Words that nothing uses.
fn unused(words: &[u32]) -> Finding
    ensures { result ≡ finding (all_zero words.now) true }
{
    if tables::cells::all_zero(words) {
        return Finding::Good;
    }
    Finding::Faulty
}

// The pair u, u.
pub fn own(n: u32, u: u32, row: &[u32], cell: &[u32]) -> Finding
    requires { (n ≤ 16) × Node n u × (length row.now ≡ width n) × (length cell.now ≡ cell_width) }
    ensures { result ≡ finding (own_sound n u row.now cell.now) (timely_in u row.now cell.now) }
{
    let sets = holds::sets_hold(n, u, row[1], row[2]);
    let unused = tables::cells::all_zero(cell);
    if sets & unused {
        return height_at(n, u, row[0], row, tables::rows::height_start(u));
    }
    Finding::Faulty
}

// The view of v.
pub fn view(n: u32, v: u32, row: &[u32]) -> Finding
    requires { (n ≤ 16) × Node n v × (length row.now ≡ width n) }
    ensures { result ≡ finding (view_sound n v row.now)
        (times_within (clock_in row.now) (height_in row.now v)) }
{
    let a = tables::rows::height_start(v);
    if is_member(row[1], v) {
        return height_at(n, v, row[0], row, a);
    }
    let e = a + tables::HEIGHT_SIZE;
    unused(&row[a..e])
}

// The message whose words stand from `at`, on a channel from node u, whose clock this is.
fn message_passes(n: u32, u: u32, clock: u32, cell: &[u32], at: usize) -> bool
    requires { at + message_size ≤ length cell.now }
    ensures { result ≡ passes n u clock (message_at cell.now at) }
{
    let stamp = cell[at + tables::HEIGHT_SIZE];
    if clock < stamp {
        return false;
    }
    holds::height_within(n, u, stamp, cell, at)
}

// The first `count` messages of a cell pass both tests. The loop goes to the fixed end, so that the compiler writes out its turns,
// and it stays a call of its own, so that they have the registers to themselves.
#[inline(never)]
fn all_pass(n: u32, u: u32, clock: u32, cell: &[u32], count: usize) -> bool
    requires { (count ≤ capacity) × (length cell.now ≡ cell_width) }
    ensures { result ≡ all (passes n u clock) (messages_at count cell.now (slot 0)) }
{
    for k in 0..tables::CAPACITY {
        if k == count {
            return true;
        }
        if !message_passes(n, u, clock, cell, tables::cells::slot_start(k)) {
            return false;
        }
    }
    true
}

// They break no rule.
fn all_hold(n: u32, u: u32, cell: &[u32], count: usize) -> bool
    requires { (count ≤ capacity) × (length cell.now ≡ cell_width) }
    ensures { result ≡ all (message_holds n u) (messages_at count cell.now (slot 0)) }
{
    for k in 0..count {
        if !holds::height_holds(n, u, cell, tables::cells::slot_start(k)) {
            return false;
        }
    }
    true
}

// The first `count` messages of a cell, of node u's, whose clock this is. Only where one fails is it asked which test.
fn messages(n: u32, u: u32, clock: u32, cell: &[u32], count: usize) -> Finding
    requires { (count ≤ capacity) × (length cell.now ≡ cell_width) }
    ensures { result ≡ finding (all (message_holds n u) (messages_at count cell.now (slot 0)))
        (all (message_timely clock) (messages_at count cell.now (slot 0))) }
{
    if all_pass(n, u, clock, cell, count) {
        return Finding::Good;
    }
    if all_hold(n, u, cell, count) {
        return Finding::Untimely;
    }
    Finding::Faulty
}

// v is in one of the sets of a row.
fn is_up(row: &[u32], v: u32) -> bool
    requires { (1 ≤ v) × (v ≤ 16) × (row_head ≤ length row.now) }
    ensures { result ≡ (member (neighbors_in row.now) v || member (forming_in row.now) v) }
{
    is_member(row[1], v) | is_member(row[2], v)
}

// Channel u to v, beside u's row.
pub fn channel(n: u32, u: u32, v: u32, row: &[u32], cell: &[u32]) -> Finding
    requires { (n ≤ 16) × Node n v × (length row.now ≡ width n) × (length cell.now ≡ cell_width) }
    ensures { result ≡ finding (channel_sound n u v row.now cell.now)
        (all (message_timely (clock_in row.now)) (queue cell.now)) }
{
    let count = tables::cells::waiting(cell) as usize;
    if count == 0 {
        return unused(cell);
    }
    if tables::CAPACITY < count {
        return Finding::Faulty;
    }
    let found = messages(n, u, row[0], cell, count);
    let up = is_up(row, v);
    if up & tables::cells::is_unused_after(cell, count) {
        return found;
    }
    Finding::Faulty
}

// The same of a cell that was read: what comes after its messages need not be looked at.
fn read_channel(n: u32, u: u32, v: u32, row: &[u32], cell: &[u32]) -> Finding
    requires { (n ≤ 16) × Node n v × (length row.now ≡ width n) × (length cell.now ≡ cell_width) × ReadCell cell.now }
    ensures { result ≡ finding (channel_sound n u v row.now cell.now)
        (all (message_timely (clock_in row.now)) (queue cell.now)) }
{
    let count = tables::cells::waiting(cell) as usize;
    if count == 0 {
        return Finding::Good;
    }
    if is_up(row, v) {
        return messages(n, u, row[0], cell, count);
    }
    Finding::Faulty
}

// The pair u, v, with a cell that was read.
pub fn read_pair(n: u32, u: u32, v: u32, row: &[u32], cell: &[u32]) -> Finding
    requires { (n ≤ 16) × Node n u × Node n v × (length row.now ≡ width n) × (length cell.now ≡ cell_width) × ReadCell cell.now }
    ensures { result ≡ finding (pair_sound n u v row.now cell.now) (timely_in v row.now cell.now) }
{
    if u == v {
        return own(n, u, row, cell);
    }
    both(view(n, v, row), read_channel(n, u, v, row, cell))
}
