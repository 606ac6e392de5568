// Sketches and plots of data/, one by one: each number that refuses a sketch, at its edges and in their order; what is drawn of those that
// are accepted; what is drawn of a bench input's plot after its events. Then drawings refused, and how long drawings are.
// A line `= NAME` stands before what each file gives.
// Assumes what the programs assume: the contracts of the C functions that std calls (docs/TRUST.md, 5).
#![tactic(auto)]

mod misfits;
mod reads;
mod room;
mod writes;

use std::io;

fn main(rt: HostRuntime) -> io::Result<()> {
    reads::not_of_the_form(&rt)?;
    misfits::all(&rt)?;
    reads::bad_links(&rt)?;
    reads::accepted(&rt)?;
    reads::plots(&rt)?;
    writes::all(&rt)?;
    writes::lengths(&rt)
}
