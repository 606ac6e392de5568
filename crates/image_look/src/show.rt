// What an image shows: its stations by the look at each one's place, its channels, and its groups.
ghost use Rattle.std.specs.Prelude.{◌≤◌};
ghost use Rattle.protocol.specs.Network.{Node};

use super::links;
use super::print::Members;
use groups::Group;
use image_snapshot::NodeRecord;
use std::io;

// The network of an image, in its tables.
#[derive(Clone, Copy)]
pub struct Plot<'a> {
    pub n: u32,
    pub nodes: &'a [u32],
    pub channels: &'a [u32],
}

fn word(words: &[u32], i: usize) -> u32 {
    words.get(i).copied().unwrap_or(0)
}

// ---- stations

// Where station k's record starts: the header, then the records before it.
fn place(n: u32, k: u32) -> usize
    requires { (n ≤ 16) × Node n k }
{
    let record = image::widths::node(image::DEPTH_WIDTH, n as usize);
    image::HEADER_END + (k - 1) as usize * record
}

fn found(rt: &impl Print, k: u32, leader: u32, at: usize, node: NodeRecord) -> io::Result<()> {
    let clock = node.clock.0;
    let linked = Members(node.neighbors);
    let forming = Members(node.forming);
    println!(rt;
        "station {k} clock {clock} leader {leader} place {at} linked{linked} forming{forming}"
    )
}

// Station k, looked at where its record starts; `row` takes its heights.
// The leader is the sixth of the seven numbers of its own height.
fn station(rt: &impl Print, n: u32, k: u32, image: &[u8], row: &mut [u32]) -> io::Result<()>
    requires { (n ≤ 16) × Node n k }
{
    let at = place(n, k);
    match image_snapshot::read_node(image, k, at as u64, row) {
        Ok(node) => {
            let own = (k - 1) as usize * tables::HEIGHT_SIZE;
            found(rt, k, word(row, own + 5), at, node)
        }
        Err(_) => Ok(()),
    }
}

fn with_row(rt: &impl Print, n: u32, k: u32, image: &[u8]) -> io::Result<()>
    requires { (n ≤ 16) × Node n k }
{
    let mut space = [0; 112];
    let size = n as usize * tables::HEIGHT_SIZE;
    station(rt, n, k, image, &mut space[..size])
}

fn stations(rt: &impl Print, n: u32, image: &[u8]) -> io::Result<()>
    requires { n ≤ 16 }
{
    for k in 1..n + 1 {
        with_row(rt, n, k, image)?;
    }
    Ok(())
}

// ---- channels

// How many messages wait on channel u to v; a dash from a station to itself.
fn channel(rt: &impl Print, n: u32, u: u32, v: u32, channels: &[u32]) -> io::Result<()>
    requires { (n ≤ 16) × Node n u × Node n v }
{
    if u == v {
        return print!(rt; " -");
    }
    print!(rt; " {}", word(channels, tables::rows::channel_start(n, u, v)))
}

fn channels_from(rt: &impl Print, n: u32, u: u32, channels: &[u32]) -> io::Result<()>
    requires { (n ≤ 16) × Node n u }
{
    print!(rt; "waiting from {u} to each:")?;
    for v in 1..n + 1 {
        channel(rt, n, u, v, channels)?;
    }
    println!(rt)
}

fn all_channels(rt: &impl Print, n: u32, channels: &[u32]) -> io::Result<()>
    requires { n ≤ 16 }
{
    for u in 1..n + 1 {
        channels_from(rt, n, u, channels)?;
    }
    Ok(())
}

// ---- groups

fn quiet(rt: &impl Print, p: Plot) -> io::Result<()> {
    match groups::is_quiet(p.n, p.nodes, p.channels) {
        Ok(true) => println!(rt; "quiet yes"),
        Ok(false) => println!(rt; "quiet no"),
        Err(_) => Ok(()),
    }
}

fn group(rt: &impl Print, g: Group) -> io::Result<()> {
    println!(rt;
        "group{} collector{}",
        Members(g.members),
        Members(g.collectors)
    )
}

fn group_of(rt: &impl Print, u: u32, p: Plot) -> io::Result<()> {
    match groups::group_of(p.n, u, p.nodes, p.channels) {
        Ok(g) => group(rt, g),
        Err(_) => Ok(()),
    }
}

fn groups_headed(rt: &impl Print, heads: u16, p: Plot) -> io::Result<()>
    requires { p.n ≤ 16 }
{
    for u in 1..p.n + 1 {
        if nodeset::contains(heads, u) {
            group_of(rt, u, p)?;
        }
    }
    Ok(())
}

fn all_groups(rt: &impl Print, p: Plot) -> io::Result<()>
    requires { p.n ≤ 16 }
{
    match groups::heads(p.n, p.nodes, p.channels) {
        Ok(heads) => groups_headed(rt, heads, p),
        Err(_) => Ok(()),
    }
}

// ---- the whole

pub fn all(rt: &impl Print, image: &[u8], p: Plot) -> io::Result<()>
    requires { p.n ≤ 16 }
{
    println!(rt; "stations {} version 1 bytes {}", p.n, image.len())?;
    stations(rt, p.n, image)?;
    all_channels(rt, p.n, p.channels)?;
    links::all(rt, p.n, p.nodes)?;
    quiet(rt, p)?;
    all_groups(rt, p)
}
