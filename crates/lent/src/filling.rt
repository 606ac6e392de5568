// The fresh network written into tables of the right sizes.
ghost use Rattle.std.specs.Prelude.{◌≡◌};
ghost use Rattle.height.specs.inner.Stored.{Negated};
ghost use Rattle.protocol.specs.Network.{fresh, fresh_height};
ghost use Rattle.tables.specs.Load.{tables_of};
ghost use Rattle.tables.specs.inner.Fit.{Sized};
ghost use Rattle.tables.specs.Tables.{tables};

use height::{Height, Time};

// (0, 0, 0, 0, 0, k, k)
fn fresh_height(k: u32) -> Height
    ensures { (result ≡ fresh_height k) × Negated result.pair.nlts.0 }
{
    height::self_elected(k, Time(0))
}

// Every word zero but each node's own height.
pub fn fill(n: u32, nodes: &mut [u32], channels: &mut [u32])
    requires { Sized n (tables nodes.old channels.old) }
    ensures { tables nodes.new channels.new ≡ tables_of n fresh }
{
    tables::cells::fill_zero(nodes);
    tables::cells::fill_zero(channels);
    for u in 1..n + 1 {
        let h = fresh_height(u);
        let a = tables::rows::node_start(n, u);
        let e = a + tables::rows::row_width(n);
        tables::rows::put_height(n, &mut nodes[a..e], u, h);
    }
}
