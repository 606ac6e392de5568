// Tables that the check passed, and looks at the network that they hold.
// These are leaves: the crates that answer callers make the struct of tables which they have checked, and look at nodes of it.
#![tactic(auto)]

ghost use Rattle.std.specs.Prelude.{◌≡◌};
ghost use Rattle.lent.specs.Check.{check_on};
ghost use Rattle.sound.specs.inner.Looks.{up_set, waiting_on};
ghost use Rattle.protocol.specs.Network.{Node, up_to, own};
ghost use Rattle.tables.specs.Load.{load};
ghost use Rattle.tables.specs.Tables.{tables};

use height::Height;

#[derive(Clone, Copy)]
pub struct Sound<'a> {
    pub n: u32,
    pub nodes: &'a [u32],
    pub channels: &'a [u32],
    ghost passed: { (check_on n (tables nodes.now channels.now)).number ≡ 0 },
}

impl<'a> Sound<'a> {
    // Who is up from u, as a set.
    pub fn up_from(self, u: u32) -> u16
        requires { Node self.n u }
        ensures { result ≡ up_set self.entry.n (tables self.entry.nodes.now self.entry.channels.now) u }
    {
        let row = tables::rows::node(self.n, u, self.nodes);
        let neighbors = tables::rows::neighbors(row);
        let forming = tables::rows::forming(row);
        nodeset::union(neighbors, forming)
    }

    // Whether channel u to v is up.
    pub fn is_up(self, u: u32, v: u32) -> bool
        requires { Node self.n u }
        ensures { result ≡ up_to (load self.entry.n (tables self.entry.nodes.now self.entry.channels.now)) u v }
    {
        let row = tables::rows::node(self.n, u, self.nodes);
        let neighbors = tables::rows::neighbors(row);
        let forming = tables::rows::forming(row);
        nodeset::contains(neighbors, v) | nodeset::contains(forming, v)
    }

    // How many messages wait on channel u to v.
    pub fn waiting(self, u: u32, v: u32) -> u32
        requires { Node self.n u × Node self.n v }
        ensures { result ≡ waiting_on self.entry.n (tables self.entry.nodes.now self.entry.channels.now) u v }
    {
        tables::cells::waiting(tables::rows::channel(self.n, u, v, self.channels))
    }

    // u's own height.
    pub fn own(self, u: u32) -> Height
        requires { Node self.n u }
        ensures { result ≡ own (load self.entry.n (tables self.entry.nodes.now self.entry.channels.now)) u }
    {
        let row = tables::rows::node(self.n, u, self.nodes);
        tables::rows::height_in(self.n, row, u)
    }
}
