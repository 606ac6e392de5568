// The lines that are printed.
use histories::Extent;
use std::io;

// A list that is accepted.
fn accepted(rt: &impl Print, n: u32, length: u32, extent: Extent, out: &[u8]) -> io::Result<()> {
    let Extent { bytes, histories } = extent;
    if bytes <= out.len() {
        let zeros = super::benched::zeros(&out[..bytes], length);
        println!(rt; "{n} {length} 0 {histories} {bytes} {zeros}")?;
    }
    Ok(())
}

pub fn line(rt: &impl Print, n: u32, length: u32, out: &mut [u8]) -> io::Result<()> {
    match histories::list(n, length, out) {
        Ok(extent) => accepted(rt, n, length, extent, out),
        Err(why) => println!(rt; "{n} {length} {} 0 0 0", why.number()),
    }
}

fn room(rt: &impl Print, out: &mut [u8]) -> io::Result<()> {
    let number = match histories::list(2, 2, out) {
        Ok(_) => 0,
        Err(why) => why.number(),
    };
    println!(rt; "room {number}")
}

// The six histories of two events in a plot of two nodes have 96 bytes.
pub fn rooms(rt: &impl Print) -> io::Result<()> {
    room(rt, &mut [0; 96])?;
    room(rt, &mut [0; 95])
}

pub fn text(rt: &impl Print, out: &mut [u8]) -> io::Result<()> {
    match histories::list(2, 2, out) {
        Ok(extent) => bench_space::write(rt, out, extent.bytes),
        Err(_) => Ok(()),
    }
}
