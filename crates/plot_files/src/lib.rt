// A plot as a file, to standard output as another: an image or a bench input as its drawing, a sketch as its image or as its drawing.
// What cannot be had is one line: `refused` with the number and the pair of a fault, `bad plot`, `too long`.
// Assumes what the programs assume: the contracts of the C functions that std calls (docs/TRUST.md, 5).
#![tactic(auto)]

ghost use Rattle.std.specs.Prelude.{◌≡◌, ◌≤◌, length};

use std::io;

mod bench;
mod drawn;
mod images;
pub mod print;
mod sketch;

// Room for the longest input, and one byte more, to tell a longer one.
pub fn input() -> [u8; 65537]
    ensures { 65537 ≡ length result }
{
    [0; 65537]
}

// What is to be done with the input once there are tables for its stations; the events of a bench input start at an offset.
#[derive(Clone, Copy)]
enum Work {
    DrawImage,
    DrawBench(usize),
    DrawSketch,
    SaveSketch,
}

// In tables of n stations.
fn in_tables(
    rt: &impl Print,
    work: Work,
    n: u32,
    input: &[u8],
    nodes: &mut [u32],
    channels: &mut [u32],
) -> io::Result<()> {
    match work {
        Work::DrawImage => images::draw(rt, n, input, nodes, channels),
        Work::DrawBench(from) => bench::draw(rt, input, from, n, nodes, channels),
        Work::DrawSketch => sketch::draw(rt, n, input, nodes, channels),
        Work::SaveSketch => sketch::save(rt, n, input, nodes, channels),
    }
}

// Tables of n nodes at the front of those of 16, where they always fit.
fn with_tables(rt: &impl Print, work: Work, n: u32, input: &[u8]) -> io::Result<()>
    requires { n ≤ 16 }
{
    let mut nodes = [0; 1840];
    let mut channels = [0; 16640];
    let k = n as usize;
    let a = k * tables::rows::row_width(n);
    let b = k * k * tables::CELL_WIDTH;
    if (a <= nodes.len()) & (b <= channels.len()) {
        in_tables(rt, work, n, input, &mut nodes[..a], &mut channels[..b])?;
    }
    Ok(())
}

// No number of stations that is handed over here is above 16.
fn on(rt: &impl Print, work: Work, n: u32, input: &[u8]) -> io::Result<()> {
    if n <= 16 {
        with_tables(rt, work, n, input)?;
    }
    Ok(())
}

// ---- the four

// The drawing of an image's plot. No image is longer than 34,044 bytes, so that of a longer input the front is refused as the whole.
pub fn draw_image(rt: &impl Print, input: &[u8]) -> io::Result<()> {
    match image_snapshot::count(input) {
        Ok(n) => on(rt, Work::DrawImage, n, input),
        Err(why) => print::refused(rt, why),
    }
}

// The drawing of a bench input's plot after all its events.
pub fn draw_bench(rt: &impl Print, input: &[u8]) -> io::Result<()> {
    if (input.len() < 1) | (65536 < input.len()) {
        return println!(rt; "bad plot");
    }
    let end = commands::line_end(input, 0);
    let Some(n) = commands::head(&input[..end]) else {
        return println!(rt; "bad plot");
    };
    on(rt, Work::DrawBench(end + 1), n, input)
}

// A sketch longer than the room is not looked at. A text that is no sketch gets tables of no station: reading says 16.
fn sketched(rt: &impl Print, work: Work, input: &[u8]) -> io::Result<()> {
    if 65536 < input.len() {
        return println!(rt; "too long");
    }
    on(rt, work, drawing::nodes_of(input), input)
}

// The drawing of a sketch's plot.
pub fn draw_sketch(rt: &impl Print, input: &[u8]) -> io::Result<()> {
    sketched(rt, Work::DrawSketch, input)
}

// The image of a sketch's plot.
pub fn save_sketch(rt: &impl Print, input: &[u8]) -> io::Result<()> {
    sketched(rt, Work::SaveSketch, input)
}
