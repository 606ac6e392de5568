// The contents: every place of the tables that the records make, tested record by record as the lent tables are.
ghost use Rattle.std.specs.Prelude.{◌≡◌, ◌≤◌, ◌<◌, length};
ghost use Rattle.bits.specs.Bits.{unpacked};
ghost use Rattle.image.specs.Places.{channels_next, tables_in};
ghost use Rattle.image.specs.inner.Parts.{Depth};
ghost use Rattle.lent.specs.Check.{said_check, contents_on};
ghost use Rattle.protocol.specs.Network.{Node};
ghost use Rattle.tables.specs.Tables.{width, cell_width};
ghost use Rattle.image_reading.specs.inner.Cells.{ChannelsIn, Walkable};
ghost use Rattle.image_reading.specs.inner.Search.{row_holds, row_timely, Searched};

use pairs::Finding;
use refusal::Refusal;
use tables::{CELL_WIDTH, MOST_ROW};

// The pairs of row u, whose channels start at a bit place: the place behind them, and the first untimely pair. A fault ends the search.
fn search_row(
    image: &[u8],
    at: usize,
    depth: u8,
    n: u32,
    u: u32,
    row: &[u32],
    cell: &mut [u32],
) -> Result<(usize, Result<(), Refusal>), Refusal>
    requires { Depth depth × (n ≤ 16) × Node n u × (length row.now ≡ width n)
        × (length cell.old ≡ cell_width) × ChannelsIn depth n (unpacked image.now) u at }
    ensures { Searched (row_holds depth n (unpacked image.now) row.now at)
        (row_timely depth (unpacked image.now) row.now at) n u (channels_next depth n (unpacked image.now) u at) result }
{
    let mut late: Result<(), Refusal> = Ok(());
    let mut place = at;
    for v in 1..n + 1 {
        place = super::filling::read_cell(image, place, depth, u, v, cell);
        match pairs::read_pair(n, u, v, row, cell) {
            Finding::Good => {}
            Finding::Untimely => late = late.and(Err(Refusal::Untimely(u, v))),
            Finding::Faulty => return Err(Refusal::Fault(u, v)),
        }
    }
    Ok((place, late))
}

// Row by row, each read into `row`, and its cells one by one into `cell`.
fn search_rows(
    image: &[u8],
    h: usize,
    depth: u8,
    n: u32,
    row: &mut [u32],
    cell: &mut [u32],
) -> Result<(), Refusal>
    requires { Depth depth × (n ≤ 16) × (h < 4096) × (length row.old ≡ width n)
        × (length cell.old ≡ cell_width) × Walkable h depth n (unpacked image.now) }
    ensures { said_check result ≡ contents_on n (tables_in h depth n (unpacked image.now)) }
{
    let k = n as usize;
    let step = image::widths::node(depth, k);
    let mut late: Result<(), Refusal> = Ok(());
    let mut place = h + k * step;
    for u in 0..n {
        image::rows::get_row(image, h + u as usize * step, depth, k, row);
        let (next, here) = search_row(image, place, depth, n, u + 1, row, cell)?;
        place = next;
        late = late.and(here);
    }
    late
}

// The first pair at fault, u ascending, then v ascending; else the first untimely pair.
pub fn contents(image: &[u8], h: usize, depth: u8, n: u32) -> Result<(), Refusal>
    requires { Depth depth × (n ≤ 16) × (h < 4096) × Walkable h depth n (unpacked image.now) }
    ensures { said_check result ≡ contents_on n (tables_in h depth n (unpacked image.now)) }
{
    let mut row = [0; MOST_ROW];
    let mut cell = [0; CELL_WIDTH];
    let w = tables::ROW_HEAD + tables::HEIGHT_SIZE * (n as usize);
    search_rows(image, h, depth, n, &mut row[..w], &mut cell)
}
