// One line for each answer.
// Assumes what the programs assume: the contracts of the C functions that std calls (docs/TRUST.md, 5).
use image_snapshot::NodeRecord;
use refusal::{Refusal, Why};
use std::io;

// The call, two digits, and two numbers of five digits.
fn line(rt: &impl Print, call: char, number: u32, a: usize, b: u32) -> io::Result<()> {
    println!(rt; "{call} {number:02} {a:05} {b:05}")
}

fn refused(rt: &impl Print, call: char, why: Refusal) -> io::Result<()> {
    let w = Why::from(why);
    line(rt, call, w.number, w.u as usize, w.v)
}

pub fn saved(rt: &impl Print, r: Result<usize, Refusal>) -> io::Result<()> {
    match r {
        Ok(size) => line(rt, 'S', 0, size, 0),
        Err(why) => refused(rt, 'S', why),
    }
}

pub fn restored(rt: &impl Print, r: Result<(), Refusal>) -> io::Result<()> {
    match r {
        Ok(()) => line(rt, 'R', 0, 0, 0),
        Err(why) => refused(rt, 'R', why),
    }
}

pub fn looked(rt: &impl Print, r: Result<NodeRecord, Refusal>) -> io::Result<()> {
    match r {
        Ok(node) => line(rt, 'L', 0, node.clock.0 as usize, u32::from(node.neighbors)),
        Err(why) => refused(rt, 'L', why),
    }
}
