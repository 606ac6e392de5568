// Tables of three nodes to start a case from: fresh, or node 1 with a link to 3 and one forming to 2. Times are within clocks.
ghost use Rattle.std.specs.Prelude.{◌≤◌};

use protocol::Answer;

#[derive(Drop)]
pub struct Tables {
    nodes: [u32; 72],
    channels: [u32; 585],
}

fn put(words: &mut [u32], i: usize, x: u32) {
    if let Some(word) = words.get_mut(i) {
        *word = x;
    }
}

// The fresh height of node u, from word `at` on: all but its last two words are zero.
fn height_of(words: &mut [u32], at: usize, u: u32)
    requires { at ≤ 1000 }
{
    put(words, at + 5, u);
    put(words, at + 6, u);
}

// `count` messages of node u, stamped 1, in the cell that starts at word `cell`.
fn messages(words: &mut [u32], cell: usize, count: u32, u: u32)
    requires { (cell ≤ 585) × (count ≤ 8) }
{
    put(words, cell, count);
    for k in 0..count {
        let at = cell + 1 + (k as usize) * 8;
        height_of(words, at, u);
        put(words, at + 7, 1);
    }
}

impl Tables {
    // All words zero, which no network of three nodes is.
    pub fn blank() -> Tables {
        Tables {
            nodes: [0; 72],
            channels: [0; 585],
        }
    }

    pub fn fresh(&mut self) {
        let _ = lent::fresh(3, &mut self.nodes, &mut self.channels);
    }

    // ---- the events, said to be in a network of n nodes

    pub fn up(&mut self, n: u32, u: u32, v: u32) -> Answer {
        election::up(n, u, v, &mut self.nodes, &mut self.channels)
    }

    pub fn down(&mut self, n: u32, u: u32, v: u32) -> Answer {
        election::down(n, u, v, &mut self.nodes, &mut self.channels)
    }

    pub fn receive(&mut self, n: u32, v: u32, u: u32) -> Answer {
        election::receive(n, v, u, &mut self.nodes, &mut self.channels)
    }

    // ---- what is set by hand

    pub fn own_neighbor(&mut self) {
        put(&mut self.nodes, 1, 1);
    }

    pub fn clock_of_1(&mut self, t: u32) {
        put(&mut self.nodes, 0, t);
    }

    // Node 1 has 3 in N and 2 in F, with the clock 9.
    fn links_of_1(&mut self) {
        put(&mut self.nodes, 0, 9);
        put(&mut self.nodes, 1, 4);
        put(&mut self.nodes, 2, 2);
        height_of(&mut self.nodes, 17, 3);
    }

    // Node 3 has 1 in N, with the clock 9.
    fn links_of_3(&mut self) {
        put(&mut self.nodes, 48, 9);
        put(&mut self.nodes, 49, 1);
        height_of(&mut self.nodes, 51, 1);
    }

    // Nodes 1 and 3 are linked, with one message waiting each way, and a link from 1 to 2 is forming.
    pub fn linked(&mut self) {
        self.fresh();
        self.links_of_1();
        self.links_of_3();
        messages(&mut self.channels, 130, 1, 1);
        messages(&mut self.channels, 390, 1, 3);
    }

    // The depth of the first message from 1 to 3.
    pub fn depth_to_3(&mut self, delta: u32) {
        put(&mut self.channels, 134, delta);
    }

    // The messages from 1 to 2, and from 1 to 3.
    pub fn to_2(&mut self, count: u32)
        requires { count ≤ 8 }
    {
        messages(&mut self.channels, 65, count, 1);
    }

    pub fn to_3(&mut self, count: u32)
        requires { count ≤ 8 }
    {
        messages(&mut self.channels, 130, count, 1);
    }
}
