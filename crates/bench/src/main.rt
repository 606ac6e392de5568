// The bench program: reads a plot and its events from standard input, writes the listing (document 01, "The bench program").
// Assumes what the programs assume: the contracts of the C functions that std calls (docs/TRUST.md, 5).
#![tactic(auto)]

use std::io;

fn main(rt: HostRuntime) -> io::Result<()> {
    let mut input = bench_space::input();
    let mut reader = rt.reader();
    let got = reading::front(&mut reader, &mut input)?;
    let mut out = bench_space::output();
    bench_space::list(&rt, &input[..got], &mut out)
}
