// Two linked stations drawn: 1, 2, 14 in their order, and what becomes of the lent bytes, dots before. Then the longest drawing of each n.
use plot_files::print;
use refusal::Refusal;
use std::io;

fn answer(rt: &impl Print, r: Result<usize, Refusal>) -> io::Result<()> {
    match r {
        Ok(size) => println!(rt; "written {size}"),
        Err(why) => print::refused(rt, why),
    }
}

// Said to be of n, with word i of the rows set to x, into so many of the bytes, of which there are three more than the drawing takes.
fn draw(rt: &impl Print, n: u32, i: usize, x: u32, len: usize) -> io::Result<()> {
    let mut nodes = [0; 34];
    let mut channels = [0; 260];
    let mut out = [b'.'; 40];
    let _ = lent::fresh(2, &mut nodes, &mut channels);
    let _ = election::up(2, 1, 2, &mut nodes, &mut channels);
    let _ = election::up(2, 2, 1, &mut nodes, &mut channels);
    if let Some(word) = nodes.get_mut(i) {
        *word = x;
    }
    if len <= out.len() {
        answer(rt, drawing::draw(n, &nodes, &channels, &mut out[..len]))?;
    }
    rt.write_all(&out)?;
    println!(rt)
}

// Word 0 is the clock of station 1, which is 1. The drawing takes 37 bytes. 36 are 14, and nothing is touched; 37 are enough, and of 40 the last three stay.
// Word 20 is in station 2's view of 1, which is not in N: 2, before 14; 1 before 2.
pub fn all(rt: &impl Print) -> io::Result<()> {
    draw(rt, 2, 0, 1, 36)?;
    draw(rt, 2, 0, 1, 37)?;
    draw(rt, 2, 0, 1, 40)?;
    draw(rt, 2, 0, 1, 0)?;
    draw(rt, 2, 20, 1, 36)?;
    draw(rt, 3, 20, 1, 36)?;
    draw(rt, 0, 0, 1, 40)?;
    draw(rt, 1, 0, 1, 40)?;
    draw(rt, 17, 0, 1, 40)
}

// Of 0 to 17 stations.
pub fn lengths(rt: &impl Print) -> io::Result<()> {
    for n in 0..18 {
        println!(rt; "longest of {n}: {}", drawing::drawing_length(n))?;
    }
    Ok(())
}
