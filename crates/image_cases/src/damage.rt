// Two nodes: what is refused of tables, room, images and rows, with which number, in document 01's order.
use super::{lines, put};
use std::io;

// The fresh image of two nodes has 69 bytes; there is room for one more.
const ROOM: usize = 70;

#[derive(Drop)]
struct Tables {
    nodes: [u32; 34],
    channels: [u32; 260],
}

fn fresh() -> Tables {
    let mut t = Tables {
        nodes: [0; 34],
        channels: [0; 260],
    };
    let _ = lent::fresh(2, &mut t.nodes, &mut t.channels);
    t
}

// The image of the tables, with byte i set to x.
fn image_with(t: &Tables, i: usize, x: u8) -> [u8; ROOM] {
    let mut out = [0; ROOM];
    let _ = image_snapshot::save(2, &t.nodes, &t.channels, &mut out);
    put(&mut out, i, x);
    out
}

// ---- saves

// A save of fresh tables of two nodes, said to be of n, with word i of the rows set to x, into so many bytes.
fn save_with(rt: &impl Print, n: u32, i: usize, x: u32, len: usize) -> io::Result<()> {
    let mut t = fresh();
    put(&mut t.nodes, i, x);
    let mut out = [0; ROOM];
    if len <= out.len() {
        lines::saved(
            rt,
            image_snapshot::save(n, &t.nodes, &t.channels, &mut out[..len]),
        )?;
    }
    Ok(())
}

// 69 bytes and 70 are room enough, 68 are 14; 1 comes before 2 (node 2's view of 1, who is not in N), and 2 before 14.
pub fn saves(rt: &impl Print) -> io::Result<()> {
    save_with(rt, 2, 0, 0, 69)?;
    save_with(rt, 2, 0, 0, 70)?;
    save_with(rt, 2, 0, 0, 68)?;
    save_with(rt, 2, 20, 1, 68)?;
    save_with(rt, 3, 20, 1, 68)
}

// ---- restores

fn restored(
    rt: &impl Print,
    image: &[u8],
    len: usize,
    nodes: &mut [u32],
    channels: &mut [u32],
) -> io::Result<()> {
    if len <= image.len() {
        lines::restored(rt, image_snapshot::restore(&image[..len], nodes, channels))?;
    }
    Ok(())
}

// The first bytes of the fresh image of two nodes, with byte i set to x, restored into tables of two nodes.
fn restore_with(rt: &impl Print, i: usize, x: u8, len: usize) -> io::Result<()> {
    let mut t = fresh();
    let out = image_with(&t, i, x);
    restored(rt, &out, len, &mut t.nodes, &mut t.channels)
}

// The same, into rows of one node.
fn restore_misfit(rt: &impl Print, i: usize, x: u8, len: usize) -> io::Result<()> {
    let mut t = fresh();
    let out = image_with(&t, i, x);
    restored(rt, &out, len, &mut [0; 10], &mut t.channels)
}

// The image as it is; 10; 11 for version, header length, n = 0, n = 17 and spare bits.
fn headers(rt: &impl Print) -> io::Result<()> {
    restore_with(rt, 0, 16, 69)?;
    restore_with(rt, 0, 16, 3)?;
    restore_with(rt, 0, 32, 69)?;
    restore_with(rt, 1, 48, 69)?;
    restore_with(rt, 2, 0, 69)?;
    restore_with(rt, 2, 136, 69)?;
    restore_with(rt, 3, 1, 69)
}

// 12: cut off in a node's record, cut off in the counts, a byte left over, a message past the end.
fn ends(rt: &impl Print) -> io::Result<()> {
    restore_with(rt, 0, 16, 67)?;
    restore_with(rt, 0, 16, 68)?;
    restore_with(rt, 0, 16, 70)?;
    restore_with(rt, 68, 16, 69)
}

// A count of 9: 2 with its pair, before a later end, but not before an earlier one. 1 comes before the walk.
fn counts(rt: &impl Print) -> io::Result<()> {
    restore_with(rt, 68, 9, 69)?;
    restore_with(rt, 68, 144, 69)?;
    restore_with(rt, 68, 145, 69)?;
    restore_with(rt, 68, 25, 69)?;
    restore_with(rt, 68, 9, 70)?;
    restore_misfit(rt, 68, 9, 69)?;
    restore_misfit(rt, 0, 16, 67)
}

// Contents: node 1 in its own set N, node 2 with the number of node 0; a byte left over comes before them.
fn contents(rt: &impl Print) -> io::Result<()> {
    restore_with(rt, 9, 1, 69)?;
    restore_with(rt, 9, 1, 70)?;
    restore_with(rt, 67, 64, 69)
}

pub fn restores(rt: &impl Print) -> io::Result<()> {
    headers(rt)?;
    ends(rt)?;
    counts(rt)?;
    contents(rt)
}

// ---- looks at node 2, whose record starts at bit 288

fn looked(
    rt: &impl Print,
    image: &[u8],
    len: usize,
    row: &mut [u32],
    wide: usize,
) -> io::Result<()> {
    if (len <= image.len()) & (wide <= row.len()) {
        lines::looked(
            rt,
            image_snapshot::read_node(&image[..len], 2, 288, &mut row[..wide]),
        )?;
    }
    Ok(())
}

fn look_with(rt: &impl Print, i: usize, x: u8, len: usize, wide: usize) -> io::Result<()> {
    let mut t = fresh();
    put(&mut t.nodes, 17, 258);
    let out = image_with(&t, i, x);
    looked(rt, &out, len, &mut [0; 14], wide)
}

// Clock 258 and an empty N; then 10, 11, 1, 12, 2.
pub fn looks(rt: &impl Print) -> io::Result<()> {
    look_with(rt, 0, 16, 69, 14)?;
    look_with(rt, 0, 16, 3, 14)?;
    look_with(rt, 0, 32, 69, 14)?;
    look_with(rt, 0, 16, 69, 13)?;
    look_with(rt, 0, 16, 70, 14)?;
    look_with(rt, 68, 144, 69, 14)
}
