// Bits of an image's records, with depths of `depth` bits: the one list of widths, and places and ends as sums over it.
ghost use Rattle.std.specs.Prelude.{◌≡◌, ◌≤◌};
ghost use Rattle.tables.specs.Tables.{message_size};
ghost use Rattle.image.specs.Widths.{widths_of, field_place, height_width, message_width, node_width};

use super::NODE_HEAD;
use tables::{HEIGHT_SIZE, MESSAGE_SIZE};

// Which fields are the depth and the stamp.
pub const DEPTH: usize = 3;

pub const STAMP: usize = HEIGHT_SIZE;

// The widths of a message's fields; the first seven are a height's.
pub fn fields(depth: u8) -> [u8; MESSAGE_SIZE]
    ensures { result ≡ widths_of depth }
{
    [32, 5, 1, depth, 32, 5, 5, 32]
}

// Where field k of a record starts: behind those before it.
pub fn place(depth: u8, k: usize) -> usize
    requires { k ≤ message_size }
    ensures { result ≡ field_place depth k }
{
    let w = fields(depth);
    let mut end: usize = 0;
    for i in 0..k {
        end += w[i] as usize;
    }
    end
}

// A height: seven fields.
pub fn height(depth: u8) -> usize
    ensures { result ≡ height_width depth }
{
    place(depth, HEIGHT_SIZE)
}

// A message: eight.
pub fn message(depth: u8) -> usize
    ensures { result ≡ message_width depth }
{
    place(depth, MESSAGE_SIZE)
}

// A node's record of n heights.
pub fn node(depth: u8, n: usize) -> usize
    requires { n ≤ 16 }
    ensures { result ≡ node_width depth n }
{
    NODE_HEAD + height(depth) * n
}
