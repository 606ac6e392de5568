// The plot of a sketch.
use std::io;

pub fn draw(
    rt: &impl Print,
    n: u32,
    text: &[u8],
    nodes: &mut [u32],
    channels: &mut [u32],
) -> io::Result<()> {
    match drawing::read(text, nodes, channels) {
        Ok(()) => super::drawn::all(rt, n, nodes, channels),
        Err(why) => super::print::refused(rt, why),
    }
}

pub fn save(
    rt: &impl Print,
    n: u32,
    text: &[u8],
    nodes: &mut [u32],
    channels: &mut [u32],
) -> io::Result<()> {
    match drawing::read(text, nodes, channels) {
        Ok(()) => super::images::save(rt, n, nodes, channels),
        Err(why) => super::print::refused(rt, why),
    }
}
