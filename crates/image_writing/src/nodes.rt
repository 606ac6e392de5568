// The header, the nodes' records, and the pad.
ghost use Rattle.std.specs.Prelude.{◌≡◌, ◌-◌, ◌*◌, ◌%◌, ◌^◌, ◌≤◌, ◌<◌, length, replicate};
ghost use Rattle.bits.specs.inner.Written.{written};
ghost use Rattle.image.specs.Image.{header_bits};
ghost use Rattle.image.specs.Widths.{header_length, node_width};
ghost use Rattle.image.specs.inner.Parts.{Inside, Depth};
ghost use Rattle.tables.specs.Tables.{width};
ghost use Rattle.image_writing.specs.inner.Words.{nodes_bits};

// Version 1, header length, n, spare bits.
pub fn put_header(buf: &mut [u8], n: u32)
    requires { 4 ≤ length buf.old }
    ensures { buf.new ≡ written buf.old 0 (header_bits 1 header_length n) }
{
    bits::put(buf, 0, image::VERSION_WIDTH, 1);
    bits::put(
        buf,
        image::LENGTH_PLACE,
        image::LENGTH_WIDTH,
        image::HEADER_LENGTH,
    );
    bits::put(buf, image::COUNT_PLACE, image::COUNT_WIDTH, n);
    bits::put(buf, image::SPARE_PLACE, image::SPARE_WIDTH, 0);
}

// The n rows go to a bit place.
pub fn put_nodes(buf: &mut [u8], at: usize, depth: u8, n: u32, nodes: &[u32])
    requires { Depth depth × (n ≤ 16) × (length nodes.now ≡ n * width n) × Inside buf.old at (n * node_width depth n) }
    ensures { buf.new ≡ written buf.old at (nodes_bits depth n nodes.now) }
{
    let k = n as usize;
    let w = image::widths::node(depth, k);
    let mut place = at;
    for u in 1..n + 1 {
        image::rows::put_row(buf, place, depth, k, tables::rows::node(n, u, nodes));
        place += w;
    }
}

// Zero bits to the byte's end.
pub fn put_pad(buf: &mut [u8], at: usize)
    requires { (at < 2 ^ 31) × (at ≤ 8 * length buf.old) }
    ensures { buf.new ≡ written buf.old at (replicate ((8 - at % 8) % 8) 0) }
{
    bits::put(buf, at, (8 - at % 8) % 8, 0);
}
