// Two linked stations, 1 with the clock 5 and 2 with the clock 9, each with one message on its way to the other: stamped 5 by 1, and 7 by 2.
// Every time in them is 0, but for the one that a row is about.
// The bytes of the image of these two, 808 bits.
pub const IMAGE: usize = 101;

#[derive(Drop)]
pub struct Tables {
    pub nodes: [u32; 34],
    pub channels: [u32; 260],
}

pub fn put(words: &mut [u32], i: usize, x: u32) {
    if let Some(word) = words.get_mut(i) {
        *word = x;
    }
}

// A height that leads to u itself, of u, from word `at` on: all but its last two words are zero.
fn height(words: &mut [u32], at: usize, u: u32) {
    if at < 1000 {
        put(words, at + 5, u);
        put(words, at + 6, u);
    }
}

// Words 0 to 16 are station 1's row, 17 to 33 station 2's: clock, N, F, the height of 1, the height of 2.
fn rows(nodes: &mut [u32]) {
    put(nodes, 0, 5);
    put(nodes, 1, 2);
    height(nodes, 3, 1);
    height(nodes, 10, 2);
    put(nodes, 17, 9);
    put(nodes, 18, 1);
    height(nodes, 20, 1);
    height(nodes, 27, 2);
}

// The cell from 1 to 2 starts at word 65, that from 2 to 1 at word 130: count, then the message's height and its stamp.
fn cells(channels: &mut [u32]) {
    put(channels, 65, 1);
    height(channels, 66, 1);
    put(channels, 73, 5);
    put(channels, 130, 1);
    height(channels, 131, 2);
    put(channels, 138, 7);
}

impl Tables {
    pub fn set() -> Tables {
        let mut t = Tables {
            nodes: [0; 34],
            channels: [0; 260],
        };
        let _ = lent::fresh(2, &mut t.nodes, &mut t.channels);
        rows(&mut t.nodes);
        cells(&mut t.channels);
        t
    }
}
