// A node's record at a bit place of an image's bytes: the work of `node`.
ghost use Rattle.std.specs.Prelude.{◌≡◌, ◌+◌, ◌*◌, ◌≤◌, length};
ghost use Rattle.bits.specs.Bits.{unpacked};
ghost use Rattle.image.specs.Widths.{depth_width, node_width};
ghost use Rattle.image.specs.inner.Parts.{Inside};
ghost use Rattle.refusal.specs.Outcome.{outcome, said_as, accepted};
ghost use Rattle.height.specs.Words.{height_size};
ghost use Rattle.image_reader.specs.Record.{record_in, node_inside, node_on, no_node};

use super::{NodeRecord, fields};
use height::Time;
use refusal::Refusal;

// The record at a bit place: the heights go into the row.
fn record_at(image: &[u8], at: usize, n: u32, row: &mut [u32]) -> NodeRecord
    requires { (n ≤ 16) × (length row.old ≡ n * height_size) × Inside image.now at (node_width depth_width n) }
    ensures { outcome (accepted result) row.new ≡ record_in n (unpacked image.now) at }
{
    image::rows::get_heights(image, at, image::DEPTH_WIDTH, n as usize, row);
    let clock = Time(bits::get(image, at, image::CLOCK_WIDTH));
    let neighbors = bits::get(image, at + image::NEIGHBORS_PLACE, image::SET_WIDTH) as u16;
    let forming = bits::get(image, at + image::FORMING_PLACE, image::SET_WIDTH) as u16;
    NodeRecord {
        clock,
        neighbors,
        forming,
    }
}

// The same at any place: the record is read from the byte on in which it starts.
fn record_from(image: &[u8], at: usize, n: u32, row: &mut [u32]) -> NodeRecord
    requires { (n ≤ 16) × (length row.old ≡ n * height_size) × (at + node_width depth_width n ≤ 8 * length image.now) }
    ensures { outcome (accepted result) row.new ≡ record_in n (unpacked image.now) at }
{
    let first = at / 8;
    record_at(&image[first..], at % 8, n, row)
}

// 12, or the record.
fn inside_at(image: &[u8], at: usize, n: u32, row: &mut [u32]) -> Result<NodeRecord, Refusal>
    requires { (n ≤ 16) × (length row.old ≡ n * height_size) }
    ensures { outcome (said_as no_node result) row.new ≡ node_inside n image.now at row.old }
{
    let width = image::widths::node(image::DEPTH_WIDTH, n as usize);
    if !fields::inside(image, at, width) {
        return Err(Refusal::BadEnd);
    }
    Ok(record_from(image, at, n, row))
}

// 1, 12, or the record.
pub fn node_at(image: &[u8], at: usize, n: u32, row: &mut [u32]) -> Result<NodeRecord, Refusal>
    ensures { outcome (said_as no_node result) row.new ≡ node_on n image.now at row.old }
{
    let heights = (n as usize) * tables::HEIGHT_SIZE;
    if (n < 1) | (16 < n) | (row.len() != heights) {
        return Err(Refusal::Sizes);
    }
    inside_at(image, at, n, row)
}
