// A node's row: where it stands, what it holds, and what is written to it.
ghost use Rattle.std.specs.Prelude.{◌≡◌, ◌+◌, ◌-◌, ◌*◌, ◌≤◌, ◌<◌, length};
ghost use Rattle.height.specs.inner.Stored.{Negated};
ghost use Rattle.protocol.specs.Network.{Node};
ghost use Rattle.tables.specs.Row.{clock_in, neighbors_in, forming_in, height_in};
ghost use Rattle.tables.specs.inner.Written.{put_height, with_head};
ghost use Rattle.height.specs.Words.{height_size};
ghost use Rattle.tables.specs.Tables.{row_head, width, cell_width, node_of, pair_of, channel_of};

use super::{CELL_WIDTH, HEIGHT_SIZE, ROW_HEAD};
use height::{Height, Time};

// Words of a node's row of n heights.
pub fn row_width(n: u32) -> usize
    requires { n ≤ 16 }
    ensures { (result ≡ width n) × (result ≤ 115) }
{
    ROW_HEAD + HEIGHT_SIZE * (n as usize)
}

// Where row i of `count` rows of w words starts.
fn start(i: usize, w: usize, count: usize) -> usize
    requires { (i < count) × (w ≤ 256) × (count ≤ 256) }
    ensures { (result ≡ i * w) × (result + w ≤ count * w) × (result ≤ 65536) }
{
    i * w
}

// Where node u's row starts.
pub fn node_start(n: u32, u: u32) -> usize
    requires { (n ≤ 16) × Node n u }
    ensures { (result ≡ (u - 1) * width n) × (result + width n ≤ n * width n) × (result ≤ 65536) }
{
    start((u - 1) as usize, row_width(n), n as usize)
}

// Where the cell of channel u to v starts.
pub fn channel_start(n: u32, u: u32, v: u32) -> usize
    requires { (n ≤ 16) × Node n u × Node n v }
    ensures { (result ≡ pair_of n u v * cell_width) × (result + cell_width ≤ n * n * cell_width) × (result ≤ 65536) }
{
    let count = n as usize;
    let i = (u - 1) as usize;
    let j = (v - 1) as usize;
    start(i * count + j, CELL_WIDTH, count * count)
}

// Node u's row, to be read.
pub fn node<'a>(n: u32, u: u32, nodes: &'a [u32]) -> &'a [u32]
    requires { (n ≤ 16) × Node n u × (length nodes.now ≡ n * width n) }
    ensures { (result.now ≡ node_of n u nodes.now) × (length result.now ≡ width n) }
{
    let a = node_start(n, u);
    let e = a + row_width(n);
    &nodes[a..e]
}

// The cell of channel u to v, to be read.
pub fn channel<'a>(n: u32, u: u32, v: u32, channels: &'a [u32]) -> &'a [u32]
    requires { (n ≤ 16) × Node n u × Node n v × (length channels.now ≡ n * n * cell_width) }
    ensures { (result.now ≡ channel_of n u v channels.now) × (length result.now ≡ cell_width) }
{
    let a = channel_start(n, u, v);
    let e = a + CELL_WIDTH;
    &channels[a..e]
}

// ---- what a row holds

pub fn clock(row: &[u32]) -> Time
    requires { row_head ≤ length row.now }
    ensures { result.0 ≡ clock_in row.now }
{
    Time(row[0])
}

pub fn neighbors(row: &[u32]) -> u16
    requires { (row_head ≤ length row.now) × (neighbors_in row.now < 65536) }
    ensures { result ≡ neighbors_in row.now }
{
    row[1] as u16
}

pub fn forming(row: &[u32]) -> u16
    requires { (row_head ≤ length row.now) × (forming_in row.now < 65536) }
    ensures { result ≡ forming_in row.now }
{
    row[2] as u16
}

// Where the height of node v starts in a row.
pub fn height_start(v: u32) -> usize
    requires { (1 ≤ v) × (v ≤ 16) }
    ensures { (result ≡ row_head + (v - 1) * height_size) × (result ≤ 108) }
{
    ROW_HEAD + ((v - 1) as usize) * HEIGHT_SIZE
}

// The height of node v in a row.
pub fn height_in(n: u32, row: &[u32], v: u32) -> Height
    requires { (n ≤ 16) × Node n v × (length row.now ≡ width n) }
    ensures { (result ≡ height_in row.now v) × Negated result.pair.nlts.0 }
{
    height::words::load_height(row, height_start(v))
}

// ---- what is written to a row

// The height of node v.
pub fn put_height(n: u32, row: &mut [u32], v: u32, h: Height)
    requires { (n ≤ 16) × Node n v × (length row.old ≡ width n) × Negated h.pair.nlts.0 }
    ensures { row.new ≡ put_height row.old v h }
{
    height::words::store_height(row, height_start(v), h);
}

// The clock and both sets.
pub fn put_head(row: &mut [u32], clock: Time, neighbors: u16, forming: u16)
    requires { row_head ≤ length row.old }
    ensures { row.new ≡ with_head row.old clock.0 neighbors forming }
{
    row[0] = clock.0;
    row[1] = neighbors as u32;
    row[2] = forming as u32;
}
