// The heights that a node sees while an event is decided.
ghost use Rattle.std.specs.Prelude.{◌≡◌, ◌≤◌, length};
ghost use Rattle.height.specs.inner.Stored.{Negated, Negated-prop};
ghost use Rattle.protocol.specs.Network.{Node};
ghost use Rattle.tables.specs.Tables.{width};
ghost use Rattle.decision.specs.inner.After.{seen};

use height::Height;

// Those of its row, with `view` in place of the one of v.
#[derive(Clone, Copy)]
pub struct Views<'a> {
    pub n: u32,
    pub row: &'a [u32],
    pub v: u32,
    pub view: Height,
    ghost fits: { (n ≤ 16) × (length row.now ≡ width n) },
    ghost negated: { Negated view.pair.nlts.0 } by { Negated-prop view.pair.nlts.0 },
}

impl<'a> Views<'a> {
    // The height of w.
    pub fn of(self, w: u32) -> Height
        requires { Node self.n w }
        ensures { (result ≡ seen self.entry.row.now self.entry.v self.entry.view w) × Negated result.pair.nlts.0 }
    {
        if w == self.v {
            return self.view;
        }
        tables::rows::height_in(self.n, self.row, w)
    }
}
