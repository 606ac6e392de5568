// The list of all histories of a length: bin/histories, docs/HISTORIES.md.
// Its arguments are the nodes and the length, in decimal. It prints the list's text, or `refused` and the number; a number above 99 is refused as 100 is.
// Assumes what the programs assume: the contracts of the C functions that std calls (docs/TRUST.md, 5).
#![tactic(auto)]

ghost use Rattle.std.specs.Prelude.{◌≤◌, length};

use std::env::Env;
use std::io;

fn list(rt: &impl Print, n: u32, length: u32, out: &mut [u8]) -> io::Result<()> {
    match histories::list(n, length, out) {
        Ok(extent) => bench_space::write(rt, out, extent.bytes),
        Err(why) => println!(rt; "refused {}", why.number()),
    }
}

// An argument, and its length; an empty one where there is none, or none that fits.
fn argument(env: &impl Env, i: usize, room: &mut [u8]) -> usize
    ensures { result ≤ length room.new }
{
    env.arg(i, room).unwrap_or(0)
}

fn main(rt: HostRuntime) -> io::Result<()> {
    let mut nodes = [0u8; 16];
    let n = argument(&rt, 1, &mut nodes);
    let mut events = [0u8; 16];
    let k = argument(&rt, 2, &mut events);
    let mut out = bench_space::histories();
    list(
        &rt,
        commands::number(&nodes[..n]).unwrap_or(100),
        commands::number(&events[..k]).unwrap_or(100),
        &mut out,
    )
}
