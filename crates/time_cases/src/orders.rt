// What comes before 18, and what after it: a line for tables or an image that are untimely, and one for the same with times that make sense.
use super::scene::{self, Tables};
use super::{lines, routines};
use refusal::Why;
use std::io;

fn line(rt: &impl Print, name: &str, w: Why) -> io::Result<()> {
    print!(rt; "{name:<38}")?;
    lines::number(rt, w)?;
    if (w.number == 2) | (w.number == 18) {
        lines::pair(rt, w)?;
    }
    println!(rt)
}

// Station 1's own search time is 6 where its clock is 5; or it has none.
fn with_search(late: bool) -> Tables {
    let mut t = Tables::set();
    if late {
        scene::put(&mut t.nodes, 3, 6);
        scene::put(&mut t.nodes, 4, 1);
    }
    t
}

// 2 over all pairs comes before 18: station 2's view of 1 has the number of 2.
fn fault_behind(rt: &impl Print, late: bool) -> io::Result<()> {
    let mut t = with_search(late);
    scene::put(&mut t.nodes, 26, 2);
    line(rt, "check, and the view at 2 1 broken", routines::check(&t))
}

// Of two untimely pairs the first; then only the second: the clock of 2 is lower than its view's election time.
fn first_of_two(rt: &impl Print, late: bool) -> io::Result<()> {
    let mut t = with_search(late);
    scene::put(&mut t.nodes, 24, 10);
    line(
        rt,
        "check, and the view at 2 1 untimely",
        routines::check(&t),
    )
}

// 18 comes before 3.
fn numbers(rt: &impl Print, late: bool) -> io::Result<()> {
    let mut t = with_search(late);
    line(rt, "up to 3 of two stations", routines::up(3, &mut t))?;
    line(rt, "down to 0", routines::down(0, &mut t))?;
    line(rt, "receipt at 1 from 1", routines::receive(1, &mut t))?;
    line(rt, "group of 3", routines::group(3, &t))
}

// 18 comes before 14.
fn rooms(rt: &impl Print, late: bool) -> io::Result<()> {
    let t = with_search(late);
    let mut out = [0; scene::IMAGE];
    line(
        rt,
        "save into 100 bytes of 101",
        routines::save(&t, &mut out, 100),
    )?;
    line(
        rt,
        "drawing into 10 bytes",
        routines::draw(&t, &mut out, 10),
    )
}

// An image whose first clock was lowered from 5 to 4, where its own election time is 5.
fn lowered(late: bool) -> [u8; scene::IMAGE] {
    let mut t = Tables::set();
    scene::put(&mut t.nodes, 7, 5);
    scene::put(&mut t.channels, 73, 4);
    let mut image = [0; scene::IMAGE];
    let _ = routines::save(&t, &mut image, scene::IMAGE);
    if late {
        image[7] = 4;
    }
    image
}

// 12 comes before 18.
fn restores(rt: &impl Print, late: bool) -> io::Result<()> {
    let mut nodes = [0; 34];
    let mut channels = [0; 260];
    let image = lowered(late);
    line(
        rt,
        "restore",
        routines::restore(&image, scene::IMAGE, &mut nodes, &mut channels),
    )?;
    line(
        rt,
        "restore without the last byte",
        routines::restore(&image, 100, &mut nodes, &mut channels),
    )
}

// 18 comes before 3 and 13.
fn looks(rt: &impl Print, late: bool) -> io::Result<()> {
    let image = lowered(late);
    line(rt, "look at 3", routines::look(&image, 3, 32))?;
    line(
        rt,
        "look at 2 one bit before its place",
        routines::look(&image, 2, 287),
    )
}

fn each(rt: &impl Print, late: bool) -> io::Result<()> {
    fault_behind(rt, late)?;
    first_of_two(rt, late)?;
    numbers(rt, late)?;
    rooms(rt, late)?;
    restores(rt, late)?;
    looks(rt, late)
}

pub fn all(rt: &impl Print) -> io::Result<()> {
    println!(rt; "untimely at 1 1")?;
    each(rt, true)?;
    println!(rt; "with times that make sense")?;
    each(rt, false)
}
