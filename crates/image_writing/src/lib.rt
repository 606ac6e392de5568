// The writer of images: the length of an image, and its bytes.
// These are leaves: only our crates call them, with the bounds that `requires` states.
#![tactic(auto)]

ghost use Rattle.std.specs.Prelude.{◌++◌, ◌≡◌, ◌+◌, ◌≤◌, length, drop};
ghost use Rattle.image.specs.Image.{image};
ghost use Rattle.tables.specs.Load.{load};
ghost use Rattle.tables.specs.inner.Fit.{TablesFit};
ghost use Rattle.tables.specs.Tables.{tables};

use image::{DEPTH_WIDTH, HEADER_END, widths};

mod channels;
mod nodes;

// How many bytes the image of tables takes.
pub fn image_length(n: u32, nodes: &[u32], channels: &[u32]) -> usize
    requires { TablesFit n (tables nodes.now channels.now) }
    ensures { result ≡ length (image n (load n (tables nodes.now channels.now))) }
{
    let k = n as usize;
    let end = HEADER_END
        + k * widths::node(DEPTH_WIDTH, k)
        + channels::cells_length(DEPTH_WIDTH, n, channels);
    (end + 7) / 8
}

// The image of tables goes to the front of the bytes; those behind it stay.
pub fn write(n: u32, nodes: &[u32], channels: &[u32], out: &mut [u8])
    requires { TablesFit n (tables nodes.now channels.now) × (length (image n (load n (tables nodes.now channels.now))) ≤ length out.old) }
    ensures { out.new ≡ image n (load n (tables nodes.now channels.now))
        ++ drop (length (image n (load n (tables nodes.now channels.now)))) out.old }
{
    let k = n as usize;
    nodes::put_header(out, n);
    nodes::put_nodes(out, HEADER_END, DEPTH_WIDTH, n, nodes);
    let start = HEADER_END + k * widths::node(DEPTH_WIDTH, k);
    let end = channels::put_cells(out, start, DEPTH_WIDTH, n, channels);
    nodes::put_pad(out, end);
}
