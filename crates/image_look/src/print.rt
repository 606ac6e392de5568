// How sets and places are written.
use std::fmt;

// The members of a set, ascending, each behind a space; a dash where there is none.
#[derive(Clone, Copy)]
pub struct Members(pub u16);

impl fmt::Display for Members {
    fn fmt<W: fmt::Write>(&self, f: &mut fmt::Formatter<W>) -> fmt::Result {
        if self.0 == 0 {
            return write!(f, " -");
        }
        for k in 1..17 {
            if nodeset::contains(self.0, k) {
                write!(f, " {k}")?;
            }
        }
        Ok(())
    }
}

// The name of a place of a height's seven numbers.
pub fn named(place: u32) -> &'static str {
    match place {
        1 => "search time",
        2 => "originator",
        3 => "bit",
        4 => "depth",
        5 => "election time",
        6 => "leader",
        _ => "station",
    }
}
