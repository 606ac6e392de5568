// What is printed. Assumes what the programs assume: the contracts of the C functions that std calls (docs/TRUST.md, 5).
use refusal::Why;
use std::io;

// The returned number, in three columns.
pub fn number(rt: &impl Print, w: Why) -> io::Result<()> {
    print!(rt; "{:>3}", w.number)
}

// The pair of a refusal.
pub fn pair(rt: &impl Print, w: Why) -> io::Result<()> {
    print!(rt; " of{:>3}{:>3}", w.u, w.v)
}
