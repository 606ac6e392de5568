// The files of data/ through what bin/draw and bin/sketch share.
use super::room;
use std::io;
use std::rt::Files;

fn sketch(rt: &(impl Files + Print), name: &str) -> io::Result<()> {
    let mut input = plot_files::input();
    let size = room::file(rt, name, &mut input)?;
    plot_files::draw_sketch(rt, &input[..size])
}

// 16: the head, the stations, the end, the bytes between, the links.
pub fn not_of_the_form(rt: &(impl Files + Print)) -> io::Result<()> {
    heads(rt)?;
    stations(rt)?;
    bytes(rt)?;
    links(rt)
}

fn heads(rt: &(impl Files + Print)) -> io::Result<()> {
    sketch(rt, "empty")?;
    sketch(rt, "digraph")?;
    sketch(rt, "strict")?;
    sketch(rt, "no_name")
}

fn stations(rt: &(impl Files + Print)) -> io::Result<()> {
    sketch(rt, "no_station")?;
    sketch(rt, "stations_17")?;
    sketch(rt, "out_of_order")?;
    sketch(rt, "from_2")?;
    sketch(rt, "station_left_out")?;
    sketch(rt, "station_twice")?;
    sketch(rt, "station_behind_link")
}

fn bytes(rt: &(impl Files + Print)) -> io::Result<()> {
    sketch(rt, "no_last_newline")?;
    sketch(rt, "no_end")?;
    sketch(rt, "bytes_behind")?;
    sketch(rt, "carriage_returns")?;
    sketch(rt, "tabs")?;
    sketch(rt, "blank_line")?;
    sketch(rt, "comment")
}

// The last is a link to 0 before a line that is none: 16 before 17.
fn links(rt: &(impl Files + Print)) -> io::Result<()> {
    sketch(rt, "one_blank")?;
    sketch(rt, "no_blanks")?;
    sketch(rt, "no_semicolon")?;
    sketch(rt, "arrow")?;
    sketch(rt, "chain")?;
    sketch(rt, "hundred")?;
    sketch(rt, "hundred_second")?;
    sketch(rt, "zero_in_front")?;
    sketch(rt, "zero_in_front_second")?;
    sketch(rt, "drawing")?;
    sketch(rt, "bad_last_line")
}

// 17; the longest text that is read, 65,536 bytes, names a link twice; one byte more is not looked at.
pub fn bad_links(rt: &(impl Files + Print)) -> io::Result<()> {
    sketch(rt, "zero")?;
    sketch(rt, "zero_first")?;
    sketch(rt, "zero_second")?;
    sketch(rt, "ninety_nine")?;
    sketch(rt, "above_n")?;
    sketch(rt, "itself")?;
    sketch(rt, "twice")?;
    sketch(rt, "twice_turned")?;
    sketch(rt, "longest")?;
    sketch(rt, "too_long")
}

// 0: the whole drawing of the plot read. Own heights are fresh, so every arrow leads to the lower number.
pub fn accepted(rt: &(impl Files + Print)) -> io::Result<()> {
    sketch(rt, "one")?;
    sketch(rt, "apart")?;
    sketch(rt, "pair")?;
    sketch(rt, "pair_turned")?;
    sketch(rt, "ring")?;
    sketch(rt, "ten")?;
    sketch(rt, "all_of_16")
}

fn plot(rt: &(impl Files + Print), name: &str) -> io::Result<()> {
    let mut input = plot_files::input();
    let size = room::file(rt, name, &mut input)?;
    plot_files::draw_bench(rt, &input[..size])
}

// A channel up one way is no arrow; arrows turn while a search goes on and after the elections.
pub fn plots(rt: &(impl Files + Print)) -> io::Result<()> {
    plot(rt, "plot_fresh")?;
    plot(rt, "plot_one_way")?;
    plot(rt, "plot_formed")?;
    plot(rt, "plot_elected")?;
    plot(rt, "plot_turned")?;
    plot(rt, "plot_elected_anew")?;
    plot(rt, "plot_row")?;
    plot(rt, "plot_searching")?;
    plot(rt, "plot_row_anew")?;
    plot(rt, "plot_malformed")?;
    plot(rt, "plot_too_many")
}
