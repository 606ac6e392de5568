// The front of a room, and refusals, to standard output.
use refusal::{Refusal, Why};
use std::io;

// The first bytes.
pub fn front(rt: &impl Print, bytes: &[u8], size: usize) -> io::Result<()> {
    if size <= bytes.len() {
        rt.write_all(&bytes[..size])?;
    }
    Ok(())
}

// The refusal's number, and the pair of a fault.
pub fn refused(rt: &impl Print, why: Refusal) -> io::Result<()> {
    let Why { number, u, v } = Why::from(why);
    if u == 0 {
        println!(rt; "refused {number}")
    } else {
        println!(rt; "refused {number} {u} {v}")
    }
}
