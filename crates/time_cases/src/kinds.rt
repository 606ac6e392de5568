// The seven kinds of time at each of the two stations: a line at the limit, and a line one beyond it, with what each call returns.
use super::scene::{self, Tables};
use super::{lines, routines};
use refusal::Why;
use std::io;

// Where a time stands: a word of the rows or of the cells, and a bit place of the image; how large it may be; whether it is a search time, which has an
// originator in the next word.
#[derive(Clone, Copy)]
struct Kind {
    in_rows: bool,
    word: usize,
    place: usize,
    limit: u32,
    search: bool,
}

fn put_time(k: Kind, time: u32, words: &mut [u32]) {
    scene::put(words, k.word, time);
    if k.search & (k.word < 1000) {
        scene::put(words, k.word + 1, 1);
    }
}

fn set(k: Kind, time: u32) -> Tables {
    let mut t = Tables::set();
    if k.in_rows {
        put_time(k, time, &mut t.nodes);
    } else {
        put_time(k, time, &mut t.channels);
    }
    t
}

// ---- the image of the scene at the limit, with another time put in

fn put_bit(image: &mut [u8], i: usize, bit: u32) {
    if let Some(byte) = image.get_mut(i / 8) {
        let mask = 128 >> (i % 8);
        let set = *byte | mask;
        *byte = if bit == 1 { set } else { set ^ mask };
    }
}

// A number below 16 as the last 4 of 32 bits; the others are zero already.
fn put_low(image: &mut [u8], place: usize, x: u32) {
    if place < 1000 {
        put_bit(image, place + 28, x / 8 % 2);
        put_bit(image, place + 29, x / 4 % 2);
        put_bit(image, place + 30, x / 2 % 2);
        put_bit(image, place + 31, x % 2);
    }
}

fn image_with(k: Kind, time: u32) -> [u8; scene::IMAGE] {
    let mut image = [0; scene::IMAGE];
    let _ = routines::save(&set(k, k.limit), &mut image, scene::IMAGE);
    put_low(&mut image, k.place, time);
    image
}

// ---- the calls, each on tables of its own

fn said(rt: &impl Print, w: Why, first: Why) -> io::Result<()> {
    lines::number(rt, w)?;
    if (w.number == 18) & ((w.u != first.u) | (w.v != first.v)) {
        print!(rt; "!")?;
    }
    Ok(())
}

// C, then U, D and M.
fn on_tables(rt: &impl Print, k: Kind, time: u32) -> io::Result<Why> {
    let first = routines::check(&set(k, time));
    said(rt, first, first)?;
    said(rt, routines::up(2, &mut set(k, time)), first)?;
    said(rt, routines::down(2, &mut set(k, time)), first)?;
    said(rt, routines::receive(2, &mut set(k, time)), first)?;
    Ok(first)
}

// S and W; there is room for the drawing.
fn writings(rt: &impl Print, t: &Tables, first: Why) -> io::Result<()> {
    said(
        rt,
        routines::save(t, &mut [0; scene::IMAGE], scene::IMAGE),
        first,
    )?;
    said(rt, routines::draw(t, &mut [0; 2000], 2000), first)
}

// Q, G and O.
fn questions(rt: &impl Print, t: &Tables, first: Why) -> io::Result<()> {
    said(rt, routines::quiet(t), first)?;
    said(rt, routines::heads(t), first)?;
    said(rt, routines::group(1, t), first)
}

// R and L.
fn on_image(rt: &impl Print, k: Kind, time: u32, first: Why) -> io::Result<()> {
    let image = image_with(k, time);
    said(
        rt,
        routines::restore(&image, scene::IMAGE, &mut [0; 34], &mut [0; 260]),
        first,
    )?;
    said(rt, routines::look(&image, 1, 32), first)
}

fn line(rt: &impl Print, name: &str, end: &str, k: Kind, time: u32) -> io::Result<()> {
    print!(rt; "{name:<26} {end:<12}")?;
    let first = on_tables(rt, k, time)?;
    let t = set(k, time);
    writings(rt, &t, first)?;
    questions(rt, &t, first)?;
    on_image(rt, k, time, first)?;
    if first.number != 0 {
        lines::pair(rt, first)?;
    }
    println!(rt)
}

fn both(rt: &impl Print, name: &str, k: Kind) -> io::Result<()> {
    line(rt, name, "at the limit", k, k.limit)?;
    if k.limit < 100 {
        line(rt, name, "one beyond", k, k.limit + 1)?;
    }
    Ok(())
}

fn in_row(word: usize, place: usize, limit: u32, search: bool) -> Kind {
    Kind {
        in_rows: true,
        word,
        place,
        limit,
        search,
    }
}

fn in_cell(word: usize, place: usize, limit: u32, search: bool) -> Kind {
    Kind {
        in_rows: false,
        word,
        place,
        limit,
        search,
    }
}

// Heights within station 1's clock, 5; its message's stamp too, and the message's times within the stamp, 5.
fn of_1(rt: &impl Print) -> io::Result<()> {
    both(rt, "1: own search time", in_row(3, 96, 5, true))?;
    both(rt, "1: own election time", in_row(7, 150, 5, false))?;
    both(rt, "1: search time of a view", in_row(10, 192, 5, true))?;
    both(rt, "1: election time of a view", in_row(14, 246, 5, false))?;
    both(rt, "1: stamp of a message", in_cell(73, 644, 5, false))?;
    both(rt, "1: search time of one", in_cell(66, 548, 5, true))?;
    both(rt, "1: election time of one", in_cell(70, 602, 5, false))
}

// Station 2's clock is 9, its message's stamp 7: that the message's times are below the clock is not enough.
fn of_2(rt: &impl Print) -> io::Result<()> {
    both(rt, "2: own search time", in_row(27, 448, 9, true))?;
    both(rt, "2: own election time", in_row(31, 502, 9, false))?;
    both(rt, "2: search time of a view", in_row(20, 352, 9, true))?;
    both(rt, "2: election time of a view", in_row(24, 406, 9, false))?;
    both(rt, "2: stamp of a message", in_cell(138, 776, 9, false))?;
    both(rt, "2: search time of one", in_cell(131, 680, 7, true))?;
    both(rt, "2: election time of one", in_cell(135, 734, 7, false))
}

pub fn all(rt: &impl Print) -> io::Result<()> {
    println!(rt;
        "C check, U up, D down, M receipt, S save, W drawing, Q quiet, G groups, O group of 1, R restore, L look at 1"
    )?;
    println!(rt; "{:<39}  C  U  D  M  S  W  Q  G  O  R  L", "time")?;
    of_1(rt)?;
    of_2(rt)
}
