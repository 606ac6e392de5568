// Case m: sixteen nodes, each with all others in F and eight messages waiting on every channel, take 34,044 bytes.
ghost use Rattle.std.specs.Prelude.{◌≤◌};

use super::{lines, put};
use std::io;

// A message of node u, stamped 0, from word `at` on.
fn message(words: &mut [u32], at: usize, u: u32)
    requires { at ≤ 65536 }
{
    put(words, at + 5, u);
    put(words, at + 6, u);
}

// Eight messages of node u in the cell that starts at word `cell`.
fn messages(words: &mut [u32], cell: usize, u: u32)
    requires { cell ≤ 65000 }
{
    put(words, cell, 8);
    for k in 0..8 {
        message(words, cell + 1 + k * 8, u);
    }
}

// Cell i, but for those from a node to itself.
fn fill_cell(channels: &mut [u32], i: usize)
    requires { i ≤ 255 }
{
    if i / 16 != i % 16 {
        messages(channels, i * 65, (i / 16 + 1) as u32);
    }
}

fn fill_channels(channels: &mut [u32]) {
    for i in 0..256 {
        fill_cell(channels, i);
    }
}

// Every set F.
fn fill_nodes(nodes: &mut [u32]) {
    for u in 0..16 {
        let all_others = nodeset::remove(65535, u + 1);
        put(nodes, u as usize * 115 + 2, u32::from(all_others));
    }
}

fn room(
    rt: &impl Print,
    nodes: &[u32],
    channels: &[u32],
    out: &mut [u8],
    len: usize,
) -> io::Result<()> {
    if len <= out.len() {
        lines::saved(
            rt,
            image_snapshot::save(16, nodes, channels, &mut out[..len]),
        )?;
    }
    Ok(())
}

// One byte too few gives 14. What is restored is saved as the same number of bytes.
fn around(
    rt: &impl Print,
    nodes: &mut [u32],
    channels: &mut [u32],
    out: &mut [u8],
) -> io::Result<()> {
    room(rt, nodes, channels, out, 34043)?;
    room(rt, nodes, channels, out, 34044)?;
    lines::restored(rt, image_snapshot::restore(out, nodes, channels))?;
    room(rt, nodes, channels, out, 34044)
}

pub fn sixteen(rt: &impl Print) -> io::Result<()> {
    let mut nodes = [0; 1840];
    let mut channels = [0; 16640];
    let mut out = [0; 34044];
    let _ = lent::fresh(16, &mut nodes, &mut channels);
    fill_nodes(&mut nodes);
    fill_channels(&mut channels);
    around(rt, &mut nodes, &mut channels, &mut out)
}
