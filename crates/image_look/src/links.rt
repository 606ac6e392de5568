// The links of a network: which way each leads, and which of the seven numbers of the two own heights decides that.
ghost use Rattle.std.specs.Prelude.{◌*◌, ◌≤◌, ◌≡◌, length};
ghost use Rattle.protocol.specs.Network.{Node};
ghost use Rattle.tables.specs.Tables.{width};

use super::print;
use height::Height;
use height::order::Order;
use std::io;

// The stations to which u is up; of both words the sixteen bits of a set.
fn up_to(n: u32, u: u32, nodes: &[u32]) -> u16
    requires { (n ≤ 16) × Node n u × (length nodes.now ≡ n * width n) }
{
    let row = tables::rows::node(n, u, nodes);
    ((row[1] | row[2]) % 65536) as u16
}

fn own(n: u32, u: u32, nodes: &[u32]) -> Height
    requires { (n ≤ 16) × Node n u × (length nodes.now ≡ n * width n) }
{
    tables::rows::height_in(n, tables::rows::node(n, u, nodes), u)
}

fn link(rt: &impl Print, from: u32, to: u32, place: u32) -> io::Result<()> {
    println!(rt; "link {from} to {to} by {place} {}", print::named(place))
}

// From the larger height to the smaller; a is u's, b is v's.
fn between(rt: &impl Print, u: u32, v: u32, a: Height, b: Height) -> io::Result<()> {
    match height::order::of_heights(a, b) {
        Order::Less(place) => link(rt, v, u, place),
        Order::Greater(place) => link(rt, u, v, place),
        Order::Equal => Ok(()),
    }
}

// The link of u and v, if they are up both ways.
fn pair(rt: &impl Print, n: u32, u: u32, v: u32, nodes: &[u32]) -> io::Result<()>
    requires { (n ≤ 16) × Node n u × Node n v × (length nodes.now ≡ n * width n) }
{
    let there = nodeset::contains(up_to(n, u, nodes), v);
    let back = nodeset::contains(up_to(n, v, nodes), u);
    if there & back {
        between(rt, u, v, own(n, u, nodes), own(n, v, nodes))?;
    }
    Ok(())
}

// The links of u to higher stations.
fn of_station(rt: &impl Print, n: u32, u: u32, nodes: &[u32]) -> io::Result<()>
    requires { (n ≤ 16) × Node n u × (length nodes.now ≡ n * width n) }
{
    for v in u + 1..n + 1 {
        pair(rt, n, u, v, nodes)?;
    }
    Ok(())
}

fn of_stations(rt: &impl Print, n: u32, nodes: &[u32]) -> io::Result<()>
    requires { (n ≤ 16) × (length nodes.now ≡ n * width n) }
{
    for u in 1..n + 1 {
        of_station(rt, n, u, nodes)?;
    }
    Ok(())
}

// Tables of another length, which nobody hands over, show none.
pub fn all(rt: &impl Print, n: u32, nodes: &[u32]) -> io::Result<()>
    requires { n ≤ 16 }
{
    if nodes.len() == n as usize * tables::rows::row_width(n) {
        of_stations(rt, n, nodes)?;
    }
    Ok(())
}
