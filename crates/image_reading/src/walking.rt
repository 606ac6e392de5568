// The walk over nodes and channel counts, and the end of the image.
ghost use Rattle.std.specs.Prelude.{◌≡◌, ◌*◌, ◌^◌, ◌≤◌, ◌<◌, length};
ghost use Rattle.bits.specs.Bits.{unpacked};
ghost use Rattle.image.specs.inner.Parts.{Depth};
ghost use Rattle.image_reading.specs.Walk.{channel_step, channels_from_walk, channels_walk, walk, ends_at};

use refusal::Refusal;

// Channel u to v, which starts at a bit place.
fn walk_channel(bytes: &[u8], depth: u8, u: u32, v: u32, at: usize) -> Result<usize, Refusal>
    requires { Depth depth × (at < 2 ^ 31) }
    ensures { result ≡ channel_step depth (unpacked bytes.now) u v at }
{
    if u == v {
        return Ok(at);
    }
    if (at + (image::WAITING_WIDTH + 7)) / 8 > bytes.len() {
        return Err(Refusal::BadEnd);
    }
    let c = bits::get(bytes, at, image::WAITING_WIDTH) as usize;
    if c > tables::CAPACITY {
        return Err(Refusal::Fault(u, v));
    }
    let next = at + image::WAITING_WIDTH + c * image::widths::message(depth);
    if (next + 7) / 8 > bytes.len() {
        return Err(Refusal::BadEnd);
    }
    Ok(next)
}

// The channels from node u.
fn walk_channels_from(bytes: &[u8], depth: u8, n: u32, u: u32, at: usize) -> Result<usize, Refusal>
    requires { Depth depth × (n ≤ 16) × (at < 2 ^ 30) }
    ensures { result ≡ channels_from_walk depth n (unpacked bytes.now) u at }
{
    let mut place = at;
    for v in 0..n {
        place = walk_channel(bytes, depth, u, v + 1, place)?;
    }
    Ok(place)
}

// All channels.
fn walk_channels(bytes: &[u8], depth: u8, n: u32, at: usize) -> Result<usize, Refusal>
    requires { Depth depth × (n ≤ 16) × (at < 2 ^ 29) }
    ensures { result ≡ channels_walk depth n (unpacked bytes.now) at }
{
    let mut place = at;
    for u in 0..n {
        place = walk_channels_from(bytes, depth, n, u + 1, place)?;
    }
    Ok(place)
}

// The nodes' records, then all channels.
pub fn whole(bytes: &[u8], h: usize, depth: u8, n: u32) -> Result<usize, Refusal>
    requires { Depth depth × (n ≤ 16) × (h < 4096) }
    ensures { result ≡ walk h depth n (unpacked bytes.now) }
{
    let k = n as usize;
    let start = h + k * image::widths::node(depth, k);
    if (start + 7) / 8 > bytes.len() {
        return Err(Refusal::BadEnd);
    }
    walk_channels(bytes, depth, n, start)
}

// The image ends in the byte of a bit place, and its bits from there on are 0.
pub fn ends_at(bytes: &[u8], at: usize) -> bool
    requires { (at < 2 ^ 31) × (at ≤ 8 * length bytes.now) }
    ensures { result ≡ ends_at (unpacked bytes.now) at }
{
    if (at + 7) / 8 < bytes.len() {
        return false;
    }
    bits::get(bytes, at, (8 - at % 8) % 8) == 0
}
