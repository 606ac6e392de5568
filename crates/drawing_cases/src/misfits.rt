// Sketches read into tables of two stations, whatever their own number: 16 before 1, 1 before 17.
use super::room;
use refusal::Refusal;
use std::io;
use std::rt::Files;

fn answer(rt: &impl Print, r: Result<(), Refusal>) -> io::Result<()> {
    match r {
        Ok(()) => println!(rt; "read"),
        Err(why) => plot_files::print::refused(rt, why),
    }
}

fn sketch(rt: &(impl Files + Print), name: &str) -> io::Result<()> {
    let mut input = plot_files::input();
    let size = room::file(rt, name, &mut input)?;
    answer(
        rt,
        drawing::read(&input[..size], &mut [0; 34], &mut [0; 260]),
    )
}

// Two stations; three, 1; one, 1; three with a link named twice, 1; two with a link to 0, 17; no sketch, 16.
pub fn all(rt: &(impl Files + Print)) -> io::Result<()> {
    sketch(rt, "pair")?;
    sketch(rt, "apart")?;
    sketch(rt, "one")?;
    sketch(rt, "twice")?;
    sketch(rt, "zero_first")?;
    sketch(rt, "stations_17")?;
    sketch(rt, "bad_last_line")
}
