// Two image halves joined by hand: of one plot of three stations, the start of an image saved early (header, clock and sets of station 1, 12 bytes), and
// from there on the image saved at the end. Document 01 alone accepts it; station 1's view of 3 has a search time beyond station 1's clock.
use super::{lines, routines};
use std::io;

#[derive(Drop)]
struct Tables {
    nodes: [u32; 72],
    channels: [u32; 585],
}

impl Tables {
    fn fresh() -> Tables {
        let mut t = Tables {
            nodes: [0; 72],
            channels: [0; 585],
        };
        let _ = lent::fresh(3, &mut t.nodes, &mut t.channels);
        t
    }

    fn up(&mut self, u: u32, v: u32) {
        let _ = election::up(3, u, v, &mut self.nodes, &mut self.channels);
    }

    fn receive(&mut self, u: u32, v: u32) {
        let _ = election::receive(3, u, v, &mut self.nodes, &mut self.channels);
    }

    // 1 and 3 are linked, and 3 hears of it.
    fn early() -> Tables {
        let mut t = Tables::fresh();
        t.up(3, 1);
        t.up(1, 3);
        t.receive(3, 1);
        t
    }

    // They settle.
    fn settle(&mut self) {
        self.receive(1, 3);
        self.receive(3, 1);
        self.receive(1, 3);
    }

    // 2 and 3 are linked.
    fn link(&mut self) {
        self.up(3, 2);
        self.up(2, 3);
    }

    // And settle.
    fn join(&mut self) {
        self.receive(2, 3);
        self.receive(3, 2);
        self.receive(2, 3);
        self.receive(3, 2);
    }

    // 3 loses 1 and finds it again, and 1 hears of the search.
    fn search(&mut self) {
        let _ = election::down(3, 3, 1, &mut self.nodes, &mut self.channels);
        self.up(3, 1);
        self.receive(3, 1);
    }

    // The image, and its length.
    fn save(&self, out: &mut [u8]) -> usize {
        image_snapshot::save(3, &self.nodes, &self.channels, out).unwrap_or(0)
    }
}

fn line(rt: &impl Print, name: &str, image: &[u8], size: usize) -> io::Result<()> {
    let w = routines::restore(image, size, &mut [0; 72], &mut [0; 585]);
    print!(rt; "{name:<38}")?;
    lines::number(rt, w)?;
    if w.number == 18 {
        lines::pair(rt, w)?;
    }
    println!(rt)
}

fn save_early(out: &mut [u8]) -> usize {
    Tables::early().save(out)
}

fn save_late(out: &mut [u8]) -> usize {
    let mut t = Tables::early();
    t.settle();
    t.link();
    t.join();
    t.search();
    t.save(out)
}

pub fn joined(rt: &impl Print) -> io::Result<()> {
    let mut early = [0; 1000];
    let mut late = [0; 1000];
    let before = save_early(&mut early);
    let after = save_late(&mut late);
    println!(rt; "halves of two images")?;
    line(rt, "the early image", &early, before)?;
    line(rt, "the late image", &late, after)?;
    late[..12].copy_from_slice(&early[..12]);
    line(rt, "12 bytes of the early, then the late", &late, after)
}
