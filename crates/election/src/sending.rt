// Channels: room for a set, what an event clears, and a height sent to every node of a set.
ghost use Rattle.std.specs.Prelude.{◌≡◌, true, ◌*◌, ◌≤◌, ◌<◌, ◌^◌, length};
ghost use Rattle.basics.specs.Functions.{every};
ghost use Rattle.height.specs.inner.Stored.{Negated};
ghost use Rattle.protocol.specs.Network.{Node, capacity};
ghost use Rattle.tables.specs.Cell.{count};
ghost use Rattle.tables.specs.inner.Written.{appended, put_channel};
ghost use Rattle.tables.specs.Tables.{cell_width, channel_of};
ghost use Rattle.election.specs.inner.Cells.{CellsAre, cleared_cells, cells_of, sent_cells, room_for, Takes};

use super::Kind;
use height::{Height, Time};

fn has_room_for(n: u32, u: u32, to: u16, w: u32, channels: &[u32]) -> bool
    requires { (n ≤ 16) × Node n u × Node n w × (length channels.now ≡ n * n * cell_width) }
    ensures { result ≡ room_for n u to channels.now w }
{
    let cell = tables::rows::channel(n, u, w, channels);
    !nodeset::contains(to, w) | ((tables::cells::waiting(cell) as usize) < tables::CAPACITY)
}

// Every channel of u's to a node of the set holds fewer than 8.
pub fn has_room(n: u32, u: u32, to: u16, channels: &[u32]) -> bool
    requires { (n ≤ 16) × Node n u × (length channels.now ≡ n * n * cell_width) }
    ensures { result ≡ every n (room_for n u to channels.now) }
{
    (1..n + 1).all(|w| has_room_for(n, u, to, w, channels))
}

// What the event of this kind at u with v does to a channel before it sends.
pub fn clear_channel(kind: Kind, n: u32, u: u32, v: u32, channels: &mut [u32])
    requires { (n ≤ 16) × Node n u × Node n v × (length channels.old ≡ n * n * cell_width) × Takes kind n u v channels.old }
    ensures { CellsAre n channels.new (cleared_cells kind n u v channels.old) }
{
    match kind {
        Kind::Raised => {}
        Kind::Dropped => {
            let a = tables::rows::channel_start(n, u, v);
            let e = a + tables::CELL_WIDTH;
            tables::cells::clear(&mut channels[a..e]);
        }
        Kind::Received => {
            let a = tables::rows::channel_start(n, v, u);
            let e = a + tables::CELL_WIDTH;
            tables::cells::take_first(&mut channels[a..e]);
        }
    }
}

// One message from u to w.
fn send(n: u32, u: u32, w: u32, h: Height, t: Time, channels: &mut [u32])
    requires { (n ≤ 16) × Node n u × Node n w × (length channels.old ≡ n * n * cell_width)
        × (count (channel_of n u w channels.old) < capacity) × Negated h.pair.nlts.0 }
    ensures { channels.new ≡ put_channel n u w (appended (channel_of n u w channels.old) h t.0) channels.old }
{
    let a = tables::rows::channel_start(n, u, w);
    let e = a + tables::CELL_WIDTH;
    tables::cells::append(&mut channels[a..e], h, t);
}

// One message from u to every node of the set, lowest first.
pub fn send_all(n: u32, u: u32, to: u16, h: Height, t: Time, channels: &mut [u32])
    requires { (n ≤ 16) × Node n u × (length channels.old ≡ n * n * cell_width) × (to < 2 ^ n)
        × (every n (room_for n u to channels.old) ≡ true) × Negated h.pair.nlts.0 }
    ensures { CellsAre n channels.new (sent_cells u to h t.0 (cells_of n channels.old)) }
{
    let mut left = to;
    while left != 0 {
        let w = nodeset::first(left);
        send(n, u, w, h, t, channels);
        left = nodeset::remove(left, w);
    }
}
