// The drawing of the plot in the tables.
use std::io;

fn into(
    rt: &impl Print,
    n: u32,
    nodes: &[u32],
    channels: &[u32],
    out: &mut [u8],
) -> io::Result<()> {
    match drawing::draw(n, nodes, channels, out) {
        Ok(size) => super::print::front(rt, out, size),
        Err(why) => super::print::refused(rt, why),
    }
}

pub fn all(rt: &impl Print, n: u32, nodes: &[u32], channels: &[u32]) -> io::Result<()> {
    // room for every drawing: the longest of 16 stations
    into(rt, n, nodes, channels, &mut [0; 1409])
}
