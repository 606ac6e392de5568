// Lists of short histories. A line for every n from 0 to 4, for 16 and 17, and every length from 0 to 6: n, length, the returned number, histories, bytes, and how
// many of the histories the bench lists with the code 0 on each event line and with the stations behind these. Then `room` and the returned number for a room that is
// just enough and one that is a byte short; then the text of the six histories of two events in a plot of two nodes.
#![tactic(auto)]

mod benched;
mod lines;

use std::io;

fn row(rt: &impl Print, n: u32, out: &mut [u8]) -> io::Result<()> {
    for length in 0..7 {
        lines::line(rt, n, length, out)?;
    }
    Ok(())
}

fn main(rt: HostRuntime) -> io::Result<()> {
    let mut out = bench_space::histories();
    row(&rt, 0, &mut out)?;
    row(&rt, 1, &mut out)?;
    row(&rt, 2, &mut out)?;
    row(&rt, 3, &mut out)?;
    row(&rt, 4, &mut out)?;
    row(&rt, 16, &mut out)?;
    row(&rt, 17, &mut out)?;
    lines::rooms(&rt)?;
    lines::text(&rt, &mut out)
}
