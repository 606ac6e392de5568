// Pairs of heights and how they compare (document 02, [1]). Each place decides both ways, where all that follows says otherwise, and at the ends
// of the ranges; numbers that no table holds are among them. A line is both heights as document 01 writes them, less, equal or greater
// between them, and the place.
#![tactic(auto)]

use height::order::Order;
use height::{Height, ReferenceLevel, Time};
use std::{fmt, io};

// Seven numbers, the election time not negated.
#[derive(Clone, Copy)]
struct Seven {
    tau: u32,
    oid: u32,
    r: u32,
    delta: i32,
    elected: u32,
    lid: u32,
    id: u32,
}

// As document 01 writes a height: (τ,originator,bit,depth; negated time,leader; station).
impl fmt::Display for Seven {
    fn fmt<W: fmt::Write>(&self, f: &mut fmt::Formatter<W>) -> fmt::Result {
        let Seven {
            tau,
            oid,
            r,
            delta,
            elected,
            lid,
            id,
        } = *self;
        let negated = -i64::from(elected);
        write!(f, "({tau},{oid},{r},{delta}; {negated},{lid}; {id})")
    }
}

fn h(tau: u32, oid: u32, r: u32, delta: i32, elected: u32, lid: u32, id: u32) -> Seven {
    Seven {
        tau,
        oid,
        r,
        delta,
        elected,
        lid,
        id,
    }
}

fn height_of(s: Seven) -> Height {
    let level = ReferenceLevel {
        tau: Time(s.tau),
        oid: s.oid,
        r: s.r,
    };
    let pair = height::words::pair_of(s.elected, s.lid);
    Height {
        level,
        delta: s.delta,
        pair,
        id: s.id,
    }
}

fn pair(rt: &impl Print, a: Seven, b: Seven) -> io::Result<()> {
    match height::order::of_heights(height_of(a), height_of(b)) {
        Order::Less(place) => println!(rt; "{a} < {b} {place}"),
        Order::Equal => println!(rt; "{a} = {b} 0"),
        Order::Greater(place) => println!(rt; "{a} > {b} {place}"),
    }
}

// The worked plots of document 01: stations 1 and 2 when fresh, after a and d; 2 and 3 after e, f, g and h; 5 and 6, 5 and 7 after i.
fn worked(rt: &impl Print) -> io::Result<()> {
    pair(rt, h(0, 0, 0, 0, 0, 1, 1), h(0, 0, 0, 0, 0, 2, 2))?;
    pair(rt, h(0, 0, 0, 0, 0, 1, 1), h(0, 0, 0, 1, 0, 1, 2))?;
    pair(rt, h(0, 0, 0, 0, 4, 1, 1), h(0, 0, 0, 1, 0, 1, 2))?;
    pair(rt, h(10, 2, 0, 0, 0, 1, 2), h(0, 0, 0, 2, 0, 1, 3))?;
    pair(rt, h(10, 2, 0, 0, 0, 1, 2), h(10, 2, 1, 0, 0, 1, 3))?;
    pair(rt, h(0, 0, 0, 0, 12, 2, 2), h(10, 2, 1, 0, 0, 1, 3))?;
    pair(rt, h(0, 0, 0, 0, 12, 2, 2), h(0, 0, 0, 1, 12, 2, 3))?;
    pair(rt, h(8, 6, 0, -1, 0, 1, 5), h(8, 6, 0, 0, 0, 1, 6))?;
    pair(rt, h(8, 6, 0, -1, 0, 1, 5), h(0, 0, 0, 4, 0, 1, 7))
}

// Each place decides, against all that follows.
fn level(rt: &impl Print) -> io::Result<()> {
    pair(rt, h(4, 9, 1, 7, 2, 9, 9), h(5, 1, 0, -7, 9, 1, 1))?;
    pair(
        rt,
        h(4294967295, 1, 0, -7, 9, 1, 1),
        h(4294967294, 9, 1, 7, 2, 9, 9),
    )?;
    pair(rt, h(5, 3, 1, 7, 2, 9, 9), h(5, 4, 0, -7, 9, 1, 1))?;
    pair(rt, h(5, 4294967295, 0, -7, 9, 1, 1), h(5, 0, 1, 7, 2, 9, 9))?;
    pair(rt, h(5, 4, 0, 7, 2, 9, 9), h(5, 4, 1, -7, 9, 1, 1))?;
    pair(rt, h(5, 4, 7, -7, 9, 1, 1), h(5, 4, 1, 7, 2, 9, 9))
}

fn depth(rt: &impl Print) -> io::Result<()> {
    pair(rt, h(5, 4, 1, -1, 2, 9, 9), h(5, 4, 1, 0, 9, 1, 1))?;
    pair(rt, h(5, 4, 1, -32768, 2, 9, 9), h(5, 4, 1, 32767, 9, 1, 1))?;
    pair(
        rt,
        h(5, 4, 1, 2147483647, 9, 1, 1),
        h(5, 4, 1, -2147483648, 2, 9, 9),
    )?;
    pair(rt, h(5, 4, 1, -1, 9, 1, 1), h(5, 4, 1, -2, 2, 9, 9))
}

fn leader_pair(rt: &impl Print) -> io::Result<()> {
    pair(rt, h(5, 4, 1, -3, 9, 9, 9), h(5, 4, 1, -3, 8, 1, 1))?;
    pair(
        rt,
        h(5, 4, 1, -3, 0, 1, 1),
        h(5, 4, 1, -3, 4294967295, 9, 9),
    )?;
    pair(rt, h(5, 4, 1, -3, 8, 6, 9), h(5, 4, 1, -3, 8, 7, 1))?;
    pair(
        rt,
        h(5, 4, 1, -3, 8, 4294967295, 1),
        h(5, 4, 1, -3, 8, 0, 9),
    )
}

fn station(rt: &impl Print) -> io::Result<()> {
    pair(rt, h(5, 4, 1, -3, 8, 7, 1), h(5, 4, 1, -3, 8, 7, 2))?;
    pair(
        rt,
        h(5, 4, 1, -3, 8, 7, 4294967295),
        h(5, 4, 1, -3, 8, 7, 0),
    )
}

fn equal(rt: &impl Print) -> io::Result<()> {
    pair(rt, h(5, 4, 1, -3, 8, 7, 2), h(5, 4, 1, -3, 8, 7, 2))?;
    pair(rt, h(0, 0, 0, 0, 0, 0, 0), h(0, 0, 0, 0, 0, 0, 0))
}

fn main(rt: HostRuntime) -> io::Result<()> {
    worked(&rt)?;
    level(&rt)?;
    depth(&rt)?;
    leader_pair(&rt)?;
    station(&rt)?;
    equal(&rt)
}
