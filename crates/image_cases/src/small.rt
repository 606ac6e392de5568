// Case m: the lengths of fresh images of 1 and 2 nodes, and node 3 of 4 at bit 928.
use super::lines;
use std::io;

// A fresh network of n nodes is saved.
fn fresh(
    rt: &impl Print,
    n: u32,
    nodes: &mut [u32],
    channels: &mut [u32],
    out: &mut [u8],
) -> io::Result<()> {
    let _ = lent::fresh(n, nodes, channels);
    lines::saved(rt, image_snapshot::save(n, nodes, channels, out))
}

// 24 bytes.
pub fn one(rt: &impl Print) -> io::Result<()> {
    fresh(rt, 1, &mut [0; 10], &mut [0; 65], &mut [0; 234])
}

// 69 bytes.
pub fn two(rt: &impl Print) -> io::Result<()> {
    fresh(rt, 2, &mut [0; 34], &mut [0; 260], &mut [0; 234])
}

fn look(rt: &impl Print, image: &[u8], k: u32, place: u64) -> io::Result<()> {
    let mut row = [0; 28];
    lines::looked(rt, image_snapshot::read_node(image, k, place, &mut row))
}

// Node 3 starts at bit 928: 927, 929, the starts of nodes 2 and 4, and 928 + 2^32 give 13. Nodes 0 and 5 give 3.
fn places(rt: &impl Print, image: &[u8]) -> io::Result<()> {
    look(rt, image, 3, 928)?;
    look(rt, image, 3, 927)?;
    look(rt, image, 3, 929)?;
    look(rt, image, 3, 480)?;
    look(rt, image, 3, 1376)?;
    look(rt, image, 3, 4294968224)?;
    look(rt, image, 4, 1376)?;
    look(rt, image, 0, 928)?;
    look(rt, image, 5, 1824)
}

// 234 bytes.
pub fn four(rt: &impl Print) -> io::Result<()> {
    let mut out = [0; 234];
    fresh(rt, 4, &mut [0; 124], &mut [0; 1040], &mut out)?;
    places(rt, &out)
}
