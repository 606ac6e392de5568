// A file of data/ in the room for an input.
ghost use Rattle.std.specs.Prelude.{◌≤◌, length, IfOk};

use std::fs::File;
use std::io;
use std::rt::Files;

// The name, and how many bytes the file put into the room.
pub fn file(rt: &(impl Files + Print), name: &str, input: &mut [u8]) -> io::Result<usize>
    ensures { IfOk result (λ n. n ≤ length input.new) }
{
    println!(rt; "= {name}")?;
    let mut file = File::open(rt, name)?;
    reading::front(&mut file, input)
}
