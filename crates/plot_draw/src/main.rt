// A plot's drawing, or a sketch's image: bin/draw, bin/sketch, docs/DRAWING.md.
// The first argument says what comes on standard input: `sketch`, which becomes an image, or `plot`, an image or a bench input (which starts with
// "N "), which becomes a drawing.
// Assumes what the programs assume: the contracts of the C functions that std calls (docs/TRUST.md, 5).
#![tactic(auto)]

use std::env::Env;
use std::io;

fn is_bench(input: &[u8]) -> bool {
    if input.len() < 2 {
        return false;
    }
    (input[0] == b'N') & (input[1] == b' ')
}

fn plot(rt: &impl Print, input: &[u8]) -> io::Result<()> {
    if is_bench(input) {
        plot_files::draw_bench(rt, input)
    } else {
        plot_files::draw_image(rt, input)
    }
}

fn by_word(rt: &impl Print, first: u8, input: &[u8]) -> io::Result<()> {
    if first == b's' {
        plot_files::save_sketch(rt, input)?;
    } else if first == b'p' {
        plot(rt, input)?;
    }
    Ok(())
}

fn main(rt: HostRuntime) -> io::Result<()> {
    let mut word = [0u8; 8];
    let _ = rt.arg(1, &mut word);
    let mut space = plot_files::input();
    let mut reader = rt.reader();
    let size = reading::front(&mut reader, &mut space)?;
    by_word(&rt, word[0], &space[..size])
}
