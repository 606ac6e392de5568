// Cases j, k and l of document 01, and one case for each refusal number that an event can give, on tables of three nodes.
// A line is the event, the returned number, the rule's letter or the dash, and the number sent.
// Up never gives 8 or 9 and down never 8: a channel that is down is empty, and only rules A and P change a depth.
#![tactic(auto)]

mod scenes;

use protocol::Answer;
use scenes::Tables;
use std::io;

fn line(rt: &impl Print, event: char, answer: Answer) -> io::Result<()> {
    let number = answers::number(answer);
    let letter = char::from(answers::letter(answer));
    let sent = answers::sent(answer);
    println!(rt; "{event} {number} {letter} {sent}")
}

fn up(rt: &impl Print, n: u32, u: u32, v: u32, t: &mut Tables) -> io::Result<()> {
    line(rt, 'U', t.up(n, u, v))
}

fn down(rt: &impl Print, n: u32, u: u32, v: u32, t: &mut Tables) -> io::Result<()> {
    line(rt, 'D', t.down(n, u, v))
}

fn receive(rt: &impl Print, n: u32, v: u32, u: u32, t: &mut Tables) -> io::Result<()> {
    line(rt, 'R', t.receive(n, v, u))
}

// 1: tables of three nodes for a network of four.
fn misfit(rt: &impl Print, t: &mut Tables) -> io::Result<()> {
    t.fresh();
    up(rt, 4, 1, 2, t)?;
    down(rt, 4, 1, 2, t)?;
    receive(rt, 4, 2, 1, t)
}

// 2: node 1 is among its own neighbors.
fn faulty(rt: &impl Print, t: &mut Tables) -> io::Result<()> {
    t.own_neighbor();
    up(rt, 3, 1, 2, t)?;
    down(rt, 3, 1, 2, t)?;
    receive(rt, 3, 2, 1, t)
}

// 3: one node named twice.
fn misnamed(rt: &impl Print, t: &mut Tables) -> io::Result<()> {
    t.fresh();
    up(rt, 3, 2, 2, t)?;
    down(rt, 3, 2, 2, t)?;
    receive(rt, 3, 2, 2, t)
}

// 4, 5 and 6: up twice, down on a fresh channel, no message.
fn unfit(rt: &impl Print, t: &mut Tables) -> io::Result<()> {
    t.fresh();
    up(rt, 3, 1, 2, t)?;
    up(rt, 3, 1, 2, t)?;
    down(rt, 3, 1, 3, t)?;
    receive(rt, 3, 3, 1, t)
}

// 7 at up, case l: at 4,294,967,294 an up is accepted, one more gives 7.
fn late_up(rt: &impl Print, t: &mut Tables) -> io::Result<()> {
    t.fresh();
    t.clock_of_1(4294967294);
    up(rt, 3, 1, 2, t)?;
    up(rt, 3, 1, 3, t)
}

// 7 at the other events.
fn late(rt: &impl Print, t: &mut Tables) -> io::Result<()> {
    t.linked();
    t.clock_of_1(4294967295);
    down(rt, 3, 1, 3, t)?;
    receive(rt, 3, 3, 1, t)
}

// 7 at a message that is ignored (document 02, [5]), by its stamp, 4,294,967,295: it stays.
fn late_ignored(rt: &impl Print, t: &mut Tables) -> io::Result<()> {
    t.fresh();
    t.clock_of_1(4294967294);
    up(rt, 3, 1, 2, t)?;
    receive(rt, 3, 1, 2, t)?;
    receive(rt, 3, 1, 2, t)
}

// One less is taken, and moves the clock to its end: 7 at an up.
fn ignored_to_the_end(rt: &impl Print, t: &mut Tables) -> io::Result<()> {
    t.fresh();
    t.clock_of_1(4294967293);
    up(rt, 3, 1, 2, t)?;
    receive(rt, 3, 1, 2, t)?;
    up(rt, 3, 2, 1, t)
}

// 7 at a message that is ignored, by the clock.
fn ignored_at_the_end(rt: &impl Print, t: &mut Tables) -> io::Result<()> {
    t.fresh();
    up(rt, 3, 2, 1, t)?;
    t.clock_of_1(4294967295);
    receive(rt, 3, 2, 1, t)
}

// 8, case j: a depth of 32,766 is adopted from, 32,767 is not.
fn deep(rt: &impl Print, t: &mut Tables) -> io::Result<()> {
    t.linked();
    t.depth_to_3(32767);
    receive(rt, 3, 1, 3, t)?;
    t.depth_to_3(32766);
    receive(rt, 3, 1, 3, t)
}

// 9 at down, case k: eight waiting, then seven.
fn full(rt: &impl Print, t: &mut Tables) -> io::Result<()> {
    t.linked();
    t.to_2(8);
    down(rt, 3, 1, 3, t)?;
    t.linked();
    t.to_2(7);
    down(rt, 3, 1, 3, t)
}

// 9 at a receipt: the reply finds eight waiting, then seven.
fn full_reply(rt: &impl Print, t: &mut Tables) -> io::Result<()> {
    t.linked();
    t.to_3(8);
    receive(rt, 3, 3, 1, t)?;
    t.linked();
    t.to_3(7);
    receive(rt, 3, 3, 1, t)
}

fn main(rt: HostRuntime) -> io::Result<()> {
    let t = &mut Tables::blank();
    misfit(&rt, t)?;
    faulty(&rt, t)?;
    misnamed(&rt, t)?;
    unfit(&rt, t)?;
    late_up(&rt, t)?;
    late(&rt, t)?;
    late_ignored(&rt, t)?;
    ignored_to_the_end(&rt, t)?;
    ignored_at_the_end(&rt, t)?;
    deep(&rt, t)?;
    full(&rt, t)?;
    full_reply(&rt, t)
}
