// The channels' records, u ascending, then v ascending: how many bits they take, and the bits.
ghost use Rattle.std.specs.Prelude.{◌≡◌, ◌+◌, ◌*◌, ◌≤◌, length};
ghost use Rattle.bits.specs.inner.Written.{written};
ghost use Rattle.image.specs.inner.Parts.{Inside, Depth};
ghost use Rattle.protocol.specs.Network.{Node};
ghost use Rattle.tables.specs.Tables.{cell_width};
ghost use Rattle.image_writing.specs.inner.Words.{Counts, cells_from_bits, cells_bits};

// How many bits the channels from u take.
fn cells_from_length(depth: u8, n: u32, u: u32, channels: &[u32]) -> usize
    requires { Depth depth × (n ≤ 16) × Node n u × (length channels.now ≡ n * n * cell_width) × Counts n channels.now }
    ensures { (result ≡ length (cells_from_bits depth n channels.now u)) × (result ≤ n * 1156) }
{
    let w = image::widths::message(depth);
    let mut sum: usize = 0;
    for v in 1..n + 1 {
        if u != v {
            let cell = tables::rows::channel(n, u, v, channels);
            sum += image::WAITING_WIDTH + (tables::cells::waiting(cell) as usize) * w;
        }
    }
    sum
}

// How many bits all channels take.
pub fn cells_length(depth: u8, n: u32, channels: &[u32]) -> usize
    requires { Depth depth × (n ≤ 16) × (length channels.now ≡ n * n * cell_width) × Counts n channels.now }
    ensures { (result ≡ length (cells_bits depth n channels.now)) × (result ≤ n * (n * 1156)) }
{
    let mut sum: usize = 0;
    for u in 1..n + 1 {
        sum += cells_from_length(depth, n, u, channels);
    }
    sum
}

// The channels from u go to a bit place; the place behind them.
fn put_cells_from(buf: &mut [u8], at: usize, depth: u8, n: u32, u: u32, channels: &[u32]) -> usize
    requires { Depth depth × (n ≤ 16) × Node n u × (length channels.now ≡ n * n * cell_width)
        × Counts n channels.now × Inside buf.old at (length (cells_from_bits depth n channels.now u)) }
    ensures { (buf.new ≡ written buf.old at (cells_from_bits depth n channels.now u))
        × (result ≡ at + length (cells_from_bits depth n channels.now u)) }
{
    let mut place = at;
    for v in 1..n + 1 {
        if u != v {
            place = image::cells::put_cell(
                buf,
                place,
                depth,
                tables::rows::channel(n, u, v, channels),
            );
        }
    }
    place
}

// All channels go to a bit place; the place behind them.
pub fn put_cells(buf: &mut [u8], at: usize, depth: u8, n: u32, channels: &[u32]) -> usize
    requires { Depth depth × (n ≤ 16) × (length channels.now ≡ n * n * cell_width) × Counts n channels.now
        × Inside buf.old at (length (cells_bits depth n channels.now)) }
    ensures { (buf.new ≡ written buf.old at (cells_bits depth n channels.now))
        × (result ≡ at + length (cells_bits depth n channels.now)) }
{
    let mut place = at;
    for u in 1..n + 1 {
        place = put_cells_from(buf, place, depth, n, u, channels);
    }
    place
}
