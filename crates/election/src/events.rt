// The events on tables that passed the check: node numbers (3), then what is decided by reading alone, the channel (4, 5, 6), the clock (7)
// and the rule, then its end.
ghost use Rattle.std.specs.Prelude.{◌≡◌, not, ◌&&◌, ◌||◌, List, ℕ, ◌≤◌, eqb, length};
ghost use Rattle.height.specs.Height.{zero_height};
ghost use Rattle.height.specs.inner.Stored.{Negated};
ghost use Rattle.nodeset.specs.NodeSet.{member};
ghost use Rattle.protocol.specs.Answer.{said};
ghost use Rattle.protocol.specs.Network.{Node, is_node};
ghost use Rattle.refusal.specs.Outcome.{outcome};
ghost use Rattle.tables.specs.Tables.{cell_width, tables};
ghost use Rattle.tables.specs.inner.Fit.{RowFits, TablesFit};
ghost use Rattle.election.specs.StepOn.{step_at};
ghost use Rattle.election.specs.inner.Deciding.{event_of, Between, Decides, DecidesBy};

use super::Kind;
use decision::{Decision, Views};
use height::{Height, LeaderPair, NegatedTime, ReferenceLevel, Time};
use protocol::{Answer, Rule};
use refusal::Refusal;

// Two nodes of the network, not the same.
fn are_named(n: u32, u: u32, v: u32) -> bool
    ensures { result ≡ (is_node n u && is_node n v && not (eqb u v)) }
{
    ((1 <= u) & (u <= n)) & ((1 <= v) & (v <= n)) & (u != v)
}

// All zero: no view.
fn no_view() -> Height
    ensures { (result ≡ zero_height) × Negated result.pair.nlts.0 }
{
    let level = ReferenceLevel {
        tau: Time(0),
        oid: 0,
        r: 0,
    };
    let pair = LeaderPair {
        nlts: NegatedTime(0),
        lid: 0,
    };
    Height {
        level,
        delta: 0,
        pair,
        id: 0,
    }
}

// Channel to v is up: v is in one of the sets.
fn is_up(neighbors: u16, forming: u16, v: u32) -> bool
    ensures { result ≡ (member neighbors v || member forming v) }
{
    nodeset::contains(neighbors, v) | nodeset::contains(forming, v)
}

// ---- what is decided, from the node's row and, of a receipt, the channel's cell

// Up: v joins F. Rule U.
fn decide_up(n: u32, v: u32, row: &[u32]) -> Result<Decision, Refusal>
    requires { (n ≤ 16) × Node n v × RowFits n row.now }
    ensures { (u : ℕ) (cell : List ℕ) → DecidesBy Kind.Raised n u v row.now cell result }
{
    let neighbors = tables::rows::neighbors(row);
    let linking = tables::rows::forming(row);
    if is_up(neighbors, linking, v) {
        return Err(Refusal::AlreadyUp);
    }
    let clock = tables::rows::clock(row).after(Time(0))?;
    let forming = nodeset::insert(linking, v);
    let view = tables::rows::height_in(n, row, v);
    let rule = Rule::ChannelUp;
    Ok(Decision {
        rule,
        clock,
        neighbors,
        forming,
        view,
    })
}

// Down: v leaves both sets, its view is forgotten.
fn decide_down(n: u32, u: u32, v: u32, row: &[u32]) -> Result<Decision, Refusal>
    requires { (n ≤ 16) × Node n u × Node n v × RowFits n row.now }
    ensures { (cell : List ℕ) → DecidesBy Kind.Dropped n u v row.now cell result }
{
    let linked = tables::rows::neighbors(row);
    let linking = tables::rows::forming(row);
    if !is_up(linked, linking, v) {
        return Err(Refusal::AlreadyDown);
    }
    let clock = tables::rows::clock(row).after(Time(0))?;
    let neighbors = nodeset::remove(linked, v);
    let forming = nodeset::remove(linking, v);
    let view = no_view();
    let views = Views { n, row, v, view };
    let rule = decision::rule::of_down(views, neighbors, u);
    Ok(Decision {
        rule,
        clock,
        neighbors,
        forming,
        view,
    })
}

// A receipt: the clock moves past the stamp. From a node in neither set nothing else is taken, rule I; else the sender moves to N, and the row takes its height
// as the view of it.
fn decide_receipt(n: u32, u: u32, v: u32, row: &[u32], cell: &[u32]) -> Result<Decision, Refusal>
    requires { (n ≤ 16) × Node n u × Node n v × RowFits n row.now × (length cell.now ≡ cell_width) }
    ensures { DecidesBy Kind.Received n u v row.now cell.now result }
{
    if tables::cells::waiting(cell) == 0 {
        return Err(Refusal::NoMessage);
    }
    let linked = tables::rows::neighbors(row);
    let linking = tables::rows::forming(row);
    let stamp = tables::cells::nth_timestamp(cell, 0);
    let clock = tables::rows::clock(row).after(stamp)?;
    if !is_up(linked, linking, v) {
        let view = tables::rows::height_in(n, row, v);
        let rule = Rule::Ignored;
        return Ok(Decision {
            rule,
            clock,
            neighbors: linked,
            forming: linking,
            view,
        });
    }
    let neighbors = nodeset::insert(linked, v);
    let forming = nodeset::remove(linking, v);
    let view = tables::cells::nth_height(cell, 0);
    let views = Views { n, row, v, view };
    let rule = decision::rule::of_receipt(views, neighbors, u);
    Ok(Decision {
        rule,
        clock,
        neighbors,
        forming,
        view,
    })
}

fn decide(
    kind: Kind,
    n: u32,
    u: u32,
    v: u32,
    nodes: &[u32],
    channels: &[u32],
) -> Result<Decision, Refusal>
    requires { Between n (tables nodes.now channels.now) u v }
    ensures { Decides kind n (tables nodes.now channels.now) u v result }
{
    let row = tables::rows::node(n, u, nodes);
    match kind {
        Kind::Raised => decide_up(n, v, row),
        Kind::Dropped => decide_down(n, u, v, row),
        Kind::Received => {
            let cell = tables::rows::channel(n, v, u, channels);
            decide_receipt(n, u, v, row, cell)
        }
    }
}

// ---- the event of this kind at u with v

pub fn event(kind: Kind, n: u32, u: u32, v: u32, nodes: &mut [u32], channels: &mut [u32]) -> Answer
    requires { TablesFit n (tables nodes.old channels.old) }
    ensures { outcome (said result) (tables nodes.new channels.new) ≡ step_at n (event_of kind u v) (tables nodes.old channels.old) }
{
    if !are_named(n, u, v) {
        return Err(Refusal::NodeNumber);
    }
    let d = decide(kind, n, u, v, nodes, channels)?;
    super::finish::finish(kind, n, u, v, d, nodes, channels)
}
