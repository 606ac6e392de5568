// The reader of images: the header taken apart, all checks behind it, and the tables that the records make.
// `decode` refuses by itself; the others are leaves, which only our crates call.
#![tactic(auto)]

ghost use Rattle.std.specs.Prelude.{◌≡◌, ◌≤◌};
ghost use Rattle.refusal.specs.Outcome.{said_as};
ghost use Rattle.bits.specs.Bits.{unpacked};
ghost use Rattle.image.specs.Places.{tables_in};
ghost use Rattle.image.specs.Widths.{header_length, depth_width};
ghost use Rattle.lent.specs.Check.{said_check};
ghost use Rattle.tables.specs.inner.Fit.{Sized};
ghost use Rattle.image_reading.specs.Examine.{examined};
ghost use Rattle.image_reading.specs.inner.Cells.{Walkable};
ghost use Rattle.image_reading.specs.Header.{header_of, no_fields};
ghost use Rattle.tables.specs.Tables.{tables};

use image::{DEPTH_WIDTH, HEADER_END};
use refusal::Refusal;

mod contents;
mod filling;
mod walking;

// What a header says: version, its length in bits, and how many nodes.
#[derive(Clone, Copy)]
pub struct Fields {
    pub version: u32,
    pub length: u32,
    pub n: u32,
}

// The header, for any bytes whatever: under 4 bytes (10), or a field that may not be so (11).
pub fn decode(image: &[u8]) -> Result<Fields, Refusal>
    ensures { said_as no_fields result ≡ header_of image.now }
{
    if image.len() < 4 {
        return Err(Refusal::TooShort);
    }
    let version = bits::get(image, 0, image::VERSION_WIDTH);
    let length = bits::get(image, image::LENGTH_PLACE, image::LENGTH_WIDTH);
    let n = bits::get(image, image::COUNT_PLACE, image::COUNT_WIDTH);
    let spare = bits::get(image, image::SPARE_PLACE, image::SPARE_WIDTH);
    if (version == 1) & (length == image::HEADER_LENGTH) & ((1 <= n) & (n <= 16)) & (spare == 0) {
        return Ok(Fields { version, length, n });
    }
    Err(Refusal::BadHeader)
}

// All checks behind the header.
pub fn examine(image: &[u8], n: u32) -> Result<(), Refusal>
    requires { (1 ≤ n) × (n ≤ 16) }
    ensures { said_check result ≡ examined header_length depth_width n (unpacked image.now) }
{
    let end = walking::whole(image, HEADER_END, DEPTH_WIDTH, n)?;
    if !walking::ends_at(image, end) {
        return Err(Refusal::BadEnd);
    }
    contents::contents(image, HEADER_END, DEPTH_WIDTH, n)
}

// The tables of an image's records.
pub fn read_tables(image: &[u8], n: u32, nodes: &mut [u32], channels: &mut [u32])
    requires { Sized n (tables nodes.old channels.old) × Walkable header_length depth_width n (unpacked image.now) }
    ensures { tables nodes.new channels.new ≡ tables_in header_length depth_width n (unpacked image.now) }
{
    filling::read_rows(image, HEADER_END, DEPTH_WIDTH, n, nodes);
    filling::read_cells(image, HEADER_END, DEPTH_WIDTH, n, channels);
}
