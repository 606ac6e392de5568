// The lent tables filled from an image's records.
ghost use Rattle.std.specs.Prelude.{◌≡◌, ◌*◌, ◌≤◌, ◌<◌, length};
ghost use Rattle.bits.specs.Bits.{unpacked};
ghost use Rattle.image.specs.Places.{channel_next, channels_next, tables_in};
ghost use Rattle.image.specs.inner.Parts.{Depth};
ghost use Rattle.tables.specs.Rows.{rows};
ghost use Rattle.tables.specs.Tables.{width, cell_width};
ghost use Rattle.image_reading.specs.inner.Cells.{cell_in, cell_behind, ChannelIn, ChannelsIn, Walkable};

// Every row.
pub fn read_rows(image: &[u8], h: usize, depth: u8, n: u32, nodes: &mut [u32])
    requires { Depth depth × (n ≤ 16) × (h < 4096) × (length nodes.old ≡ n * width n) × Walkable h depth n (unpacked image.now) }
    ensures { nodes.new ≡ (tables_in h depth n (unpacked image.now)).nodes }
{
    let k = n as usize;
    let wide = tables::ROW_HEAD + tables::HEIGHT_SIZE * k;
    let step = image::widths::node(depth, k);
    for u in 0..k {
        let a = u * wide;
        let e = a + wide;
        image::rows::get_row(image, h + u * step, depth, k, &mut nodes[a..e]);
    }
}

// The cell of channel u to v, which starts at a bit place; the place behind it.
pub fn read_cell(image: &[u8], at: usize, depth: u8, u: u32, v: u32, cell: &mut [u32]) -> usize
    requires { Depth depth × (length cell.old ≡ cell_width) × ChannelIn depth (unpacked image.now) u v at }
    ensures { (cell.new ≡ cell_in depth (unpacked image.now) u v at)
        × (result ≡ channel_next depth (unpacked image.now) u v at) }
{
    if u == v {
        tables::cells::clear(cell);
        return at;
    }
    image::cells::get_cell(image, at, depth, cell)
}

// The cells of the channels from u, which start at a bit place; the place behind them.
fn read_cells_from(image: &[u8], at: usize, depth: u8, n: u32, u: u32, cells: &mut [u32]) -> usize
    requires { Depth depth × (n ≤ 16) × (length cells.old ≡ n * cell_width) × ChannelsIn depth n (unpacked image.now) u at }
    ensures { (cells.new ≡ rows n (cell_behind depth (unpacked image.now) u at))
        × (result ≡ channels_next depth n (unpacked image.now) u at) }
{
    let mut place = at;
    for v in 0..n {
        let a = v as usize * tables::CELL_WIDTH;
        let e = a + tables::CELL_WIDTH;
        place = read_cell(image, place, depth, u, v + 1, &mut cells[a..e]);
    }
    place
}

// Every cell.
pub fn read_cells(image: &[u8], h: usize, depth: u8, n: u32, channels: &mut [u32])
    requires { Depth depth × (n ≤ 16) × (h < 4096) × (length channels.old ≡ n * n * cell_width) × Walkable h depth n (unpacked image.now) }
    ensures { channels.new ≡ (tables_in h depth n (unpacked image.now)).channels }
{
    let k = n as usize;
    let wide = k * tables::CELL_WIDTH;
    let mut place = h + k * image::widths::node(depth, k);
    for u in 0..n {
        let a = u as usize * wide;
        let e = a + wide;
        place = read_cells_from(image, place, depth, n, u + 1, &mut channels[a..e]);
    }
}
