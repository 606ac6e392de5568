// Room for an input, one byte more than the longest, to tell a longer one; for every listing; and for every list of short histories (`histories_list`, proofs/Room.antt).
// Assumes what the programs assume: the contracts of the C functions that std calls (docs/TRUST.md, 5).
#![tactic(auto)]

ghost use Rattle.std.specs.Prelude.{◌≡◌, length};

use std::io;

pub fn input() -> [u8; 65537]
    ensures { 65537 ≡ length result }
{
    [0; 65537]
}

pub fn output() -> [u8; 1048576]
    ensures { 1048576 ≡ length result }
{
    [0; 1048576]
}

pub fn histories() -> [u8; 654636]
    ensures { 654636 ≡ length result }
{
    [0; 654636]
}

// The first `size` bytes, to standard output.
pub fn write(rt: &impl Print, out: &[u8], size: usize) -> io::Result<()> {
    if size <= out.len() {
        return rt.write_all(&out[..size]);
    }
    Ok(())
}

// The listing of an input, to standard output.
pub fn list(rt: &impl Print, input: &[u8], out: &mut [u8]) -> io::Result<()> {
    match bench_run::run(input, out) {
        Ok(size) => write(rt, out, size),
        Err(_) => Ok(()),
    }
}
