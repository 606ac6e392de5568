// What a saved image holds (`show`), or whether it is one (`check`): bin/image, docs/RESUME.md.
// The word is the first argument, the image comes on standard input. No image is longer than 34,044 bytes, so that of a longer input the
// front is refused as the whole.
// Assumes what the programs assume: the contracts of the C functions that std calls (docs/TRUST.md, 5).
#![tactic(auto)]

ghost use Rattle.std.specs.Prelude.{◌≤◌};

use refusal::{Refusal, Why};
use show::Plot;
use std::env::Env;
use std::io;

mod links;
mod print;
mod show;

// The refusal's number, and the pair of a fault.
fn refused(rt: &impl Print, showing: bool, why: Refusal) -> io::Result<()> {
    let Why { number, u, v } = Why::from(why);
    if showing {
        print!(rt; "refused ")?;
    }
    if u == 0 {
        println!(rt; "{number}")
    } else {
        println!(rt; "{number} {u} {v}")
    }
}

// The image's network goes into the tables; then what they and the image show.
fn restored(
    rt: &impl Print,
    showing: bool,
    n: u32,
    image: &[u8],
    nodes: &mut [u32],
    channels: &mut [u32],
) -> io::Result<()>
    requires { n ≤ 16 }
{
    match image_snapshot::restore(image, nodes, channels) {
        Ok(()) => {
            if showing {
                show::all(rt, image, Plot { n, nodes, channels })
            } else {
                println!(rt; "0")
            }
        }
        Err(why) => refused(rt, showing, why),
    }
}

// Tables of n nodes at the front of those of 16, where they always fit.
fn sized(rt: &impl Print, showing: bool, n: u32, image: &[u8]) -> io::Result<()>
    requires { n ≤ 16 }
{
    let mut nodes = [0; 1840];
    let mut channels = [0; 16640];
    let k = n as usize;
    let a = k * tables::rows::row_width(n);
    let b = k * k * tables::CELL_WIDTH;
    if (a <= nodes.len()) & (b <= channels.len()) {
        restored(rt, showing, n, image, &mut nodes[..a], &mut channels[..b])?;
    }
    Ok(())
}

fn look(rt: &impl Print, showing: bool, image: &[u8]) -> io::Result<()> {
    match image_snapshot::count(image) {
        Ok(n) => {
            if n <= 16 {
                sized(rt, showing, n, image)?;
            }
            Ok(())
        }
        Err(why) => refused(rt, showing, why),
    }
}

fn main(rt: HostRuntime) -> io::Result<()> {
    let mut word = [0u8; 8];
    let _ = rt.arg(1, &mut word);
    // room for every image, and for the front of a longer input
    let mut space = [0; 65536];
    let mut reader = rt.reader();
    let size = reading::front(&mut reader, &mut space)?;
    look(&rt, word[0] == b's', &space[..size])
}
