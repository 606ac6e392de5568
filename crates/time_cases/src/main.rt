// Refusal 18 (document 02, [3]): every kind of time at its limit and one beyond, at every call that looks at tables or images; which pair is said, and
// what comes before and after 18; and two image halves joined by hand.
#![tactic(auto)]

mod halves;
mod kinds;
mod lines;
mod orders;
mod routines;
mod scene;

use std::io;

fn main(rt: HostRuntime) -> io::Result<()> {
    kinds::all(&rt)?;
    orders::all(&rt)?;
    halves::joined(&rt)
}
