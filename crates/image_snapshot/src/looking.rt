// One node at a saved place, behind the header.
ghost use Rattle.std.specs.Prelude.{◌≡◌, ◌*◌, ◌≤◌, ◌<◌, length};
ghost use Rattle.image_reader.specs.Record.{no_node};
ghost use Rattle.bits.specs.Bits.{unpacked};
ghost use Rattle.image.specs.Places.{node_place};
ghost use Rattle.image.specs.Widths.{header_length, depth_width};
ghost use Rattle.image_reading.specs.inner.Cells.{Walkable};
ghost use Rattle.protocol.specs.Network.{Node};
ghost use Rattle.refusal.specs.Outcome.{outcome, said_as};
ghost use Rattle.height.specs.Words.{height_size};
ghost use Rattle.image_snapshot.specs.ReadNode.{node_placed, node_sized};

use image_reader::NodeRecord;
use image_reading::Fields;
use refusal::Refusal;

// 1 for the row, then the checks of the whole image.
pub fn headed(
    image: &[u8],
    fields: Fields,
    k: u32,
    place: u64,
    row: &mut [u32],
) -> Result<NodeRecord, Refusal>
    requires { (fields.length ≡ header_length) × (1 ≤ fields.n) × (fields.n ≤ 16) }
    ensures { outcome (said_as no_node result) row.new
        ≡ node_sized fields.length fields.n (unpacked image.now) k place row.old }
{
    if row.len() != (fields.n as usize) * tables::HEIGHT_SIZE {
        return Err(Refusal::Sizes);
    }
    image_reading::examine(image, fields.n)?;
    placed(image, fields, k, place, row)
}

// Where node k's record starts: the header, then the records of the nodes before.
fn start(fields: Fields, k: u32) -> usize
    requires { (fields.length ≡ header_length) × (fields.n ≤ 16) × Node fields.n k }
    ensures { (result ≡ node_place fields.length depth_width fields.n k) × (result < 65536) }
{
    let n = fields.n as usize;
    let before = (k - 1) as usize;
    fields.length as usize + before * image::widths::node(image::DEPTH_WIDTH, n)
}

// 3, 13, or the record where a reader stands at that place; the reader refuses none that is inside.
fn placed(
    image: &[u8],
    fields: Fields,
    k: u32,
    place: u64,
    row: &mut [u32],
) -> Result<NodeRecord, Refusal>
    requires { (fields.length ≡ header_length) × (fields.n ≤ 16) × (length row.old ≡ fields.n * height_size)
        × Walkable header_length depth_width fields.n (unpacked image.now) }
    ensures { outcome (said_as no_node result) row.new
        ≡ node_placed fields.length fields.n (unpacked image.now) k place row.old }
{
    if (k < 1) | (fields.n < k) {
        return Err(Refusal::NodeNumber);
    }
    let at = start(fields, k);
    if place != at as u64 {
        return Err(Refusal::NotPlace);
    }
    image_reader::read_node(image, at, fields.n, row)
}
