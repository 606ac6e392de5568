// A reader keeps an image and a bit place in it together (document 01, "The plot image"). Functions over it are thin:
// each takes it apart and calls one on the slice and the number. None requires anything; a refusal changes nothing lent.
#![tactic(auto)]

ghost use Rattle.std.specs.Prelude.{◌≡◌};
ghost use Rattle.refusal.specs.Outcome.{outcome, said_as};
ghost use Rattle.image_reader.specs.Fields.{take_from};
ghost use Rattle.image_reader.specs.Record.{node_on, no_node};

use height::Time;
use refusal::Refusal;

mod fields;
mod nodes;

#[derive(Clone, Copy)]
pub struct Reader<'a> {
    pub image: &'a [u8],
    pub at: usize,
}

// A node's clock and both sets.
#[derive(Clone, Copy)]
pub struct NodeRecord {
    pub clock: Time,
    pub neighbors: u16,
    pub forming: u16,
}

impl<'a> Reader<'a> {
    // A reader of an image, at a bit place.
    pub fn new(image: &'a [u8], at: usize) -> Reader<'a>
        ensures { (result.image ≡ image.entry) × (result.at ≡ at) }
    {
        Reader { image, at }
    }

    // Where the reader stands.
    pub fn at(self) -> usize
        ensures { result ≡ self.entry.at }
    {
        self.at
    }

    // The next field of at most 32 bits, and the place moves behind it; wider, or past the image's end: 12.
    pub fn take(&mut self, width: usize) -> Result<u32, Refusal>
        ensures { outcome (said_as 0 result) self.new ≡ take_from self.old width }
    {
        fields::take_at(self.image, &mut self.at, width)
    }

    // The node's record where the reader stands: the heights go into the row. n outside 1 to 16 or a row not of n heights (1), a record that
    // passes the image's end (12).
    pub fn node(self, n: u32, row: &mut [u32]) -> Result<NodeRecord, Refusal>
        ensures { outcome (said_as no_node result) row.new ≡ node_on n self.entry.image.now self.entry.at row.old }
    {
        nodes::node_at(self.image, self.at, n, row)
    }
}

// The same from an image and a place: whoever calls this one needs no reader.
pub fn read_node(image: &[u8], at: usize, n: u32, row: &mut [u32]) -> Result<NodeRecord, Refusal>
    ensures { outcome (said_as no_node result) row.new ≡ node_on n image.now at row.old }
{
    Reader::new(image, at).node(n, row)
}
