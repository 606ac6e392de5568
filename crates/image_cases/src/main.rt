// Case m of document 01, and a case for each refusal number that a save, a restore or a look at one node can give.
// A line is the call, the returned number, and two numbers: the length of a save, the pair of a fault, or a node's clock and set N.
#![tactic(auto)]

mod damage;
mod full;
mod lines;
mod small;

use std::io;

fn put<T: Copy>(items: &mut [T], i: usize, x: T) {
    if let Some(item) = items.get_mut(i) {
        *item = x;
    }
}

fn main(rt: HostRuntime) -> io::Result<()> {
    small::one(&rt)?;
    small::two(&rt)?;
    full::sixteen(&rt)?;
    small::four(&rt)?;
    damage::saves(&rt)?;
    damage::restores(&rt)?;
    damage::looks(&rt)
}
