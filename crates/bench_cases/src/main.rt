// Runs the bench on each file of data/: every rule; every refusal that a bench line can meet; malformed lines of each kind; nodes that
// block each other, and the way out; a network that refuses every event; inputs without a last newline, alone, empty, with a bad first
// line, of 65,536 and 65,537 bytes.
#![tactic(auto)]

use std::fs::File;
use std::io;
use std::rt::Files;

fn case(rt: &(impl Files + Print), path: &str) -> io::Result<()> {
    let mut file = File::open(rt, path)?;
    let mut input = bench_space::input();
    let got = reading::front(&mut file, &mut input)?;
    let mut out = bench_space::output();
    bench_space::list(rt, &input[..got], &mut out)
}

fn heads(rt: &(impl Files + Print)) -> io::Result<()> {
    case(rt, "head_0")?;
    case(rt, "head_1")?;
    case(rt, "head_2")?;
    case(rt, "head_3")?;
    case(rt, "head_4")?;
    case(rt, "head_5")?;
    case(rt, "head_6")?;
    case(rt, "head_7")?;
    case(rt, "head_8")?;
    case(rt, "head_9")
}

fn main(rt: HostRuntime) -> io::Result<()> {
    case(&rt, "rules")?;
    case(&rt, "refusals")?;
    case(&rt, "malformed")?;
    case(&rt, "blocked")?;
    case(&rt, "dead")?;
    case(&rt, "no_newline")?;
    case(&rt, "head_alone")?;
    case(&rt, "empty")?;
    heads(&rt)?;
    case(&rt, "longest")?;
    case(&rt, "too_long")
}
