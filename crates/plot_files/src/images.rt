// The plot of an image, and the image of a plot.
use std::io;

pub fn draw(
    rt: &impl Print,
    n: u32,
    image: &[u8],
    nodes: &mut [u32],
    channels: &mut [u32],
) -> io::Result<()> {
    match image_snapshot::restore(image, nodes, channels) {
        Ok(()) => super::drawn::all(rt, n, nodes, channels),
        Err(why) => super::print::refused(rt, why),
    }
}

fn into(
    rt: &impl Print,
    n: u32,
    nodes: &[u32],
    channels: &[u32],
    out: &mut [u8],
) -> io::Result<()> {
    match image_snapshot::save(n, nodes, channels, out) {
        Ok(size) => super::print::front(rt, out, size),
        Err(why) => super::print::refused(rt, why),
    }
}

pub fn save(rt: &impl Print, n: u32, nodes: &[u32], channels: &[u32]) -> io::Result<()> {
    // room for every image
    into(rt, n, nodes, channels, &mut [0; 34044])
}
