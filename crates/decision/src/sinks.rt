// The sink test.
ghost use Rattle.std.specs.Prelude.{◌&&◌, ◌≡◌};
ghost use Rattle.height.specs.Height.{pair_key, height_key};
ghost use Rattle.height.specs.Order.{before, same};
ghost use Rattle.nodeset.specs.NodeSet.{member};
ghost use Rattle.protocol.specs.Network.{Node};
ghost use Rattle.protocol.specs.Sink.{sink};
ghost use Rattle.decision.specs.inner.After.{seen};

use super::Views;
use height::Height;

// A view has the leader pair of u's height `own` and is greater.
fn is_above(own: Height, other: Height) -> bool
    ensures { result ≡ (same (pair_key other.pair) (pair_key own.pair) && before (height_key own) (height_key other)) }
{
    height::order::pair_same(other.pair, own.pair) & height::order::height_before(own, other)
}

// Node u is a sink, with the neighbors `set`.
pub fn is_sink(views: Views, set: u16, u: u32) -> bool
    requires { Node views.n u }
    ensures { result ≡ sink views.entry.n (member «set») (seen views.entry.row.now views.entry.v views.entry.view) u }
{
    let own = views.of(u);
    let above = (1..views.n + 1).all(|w| !nodeset::contains(set, w) || is_above(own, views.of(w)));
    above & (own.pair.lid != u)
}
