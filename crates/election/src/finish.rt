// The end of every event, after its rule is chosen: the depth (8), room (9), then everything is written.
ghost use Rattle.std.specs.Prelude.{◌≡◌, ◌*◌, ◌≤◌, length};
ghost use Rattle.height.specs.inner.Stored.{Negated};
ghost use Rattle.protocol.specs.Answer.{said};
ghost use Rattle.protocol.specs.Network.{Node};
ghost use Rattle.refusal.specs.Outcome.{outcome};
ghost use Rattle.tables.specs.Tables.{tables, width, node_of};
ghost use Rattle.tables.specs.inner.Written.{put_node};
ghost use Rattle.election.specs.StepOn.{step_at};
ghost use Rattle.election.specs.inner.Deciding.{event_of, Ready, row_after};

use super::Kind;
use decision::Decision;
use height::Height;
use protocol::{Answer, Done};
use refusal::Refusal;

// u's row after the event: its view of v, its own height, the clock and both sets.
fn write_row(n: u32, u: u32, v: u32, d: Decision, own: Height, row: &mut [u32])
    requires { (n ≤ 16) × Node n u × Node n v × (length row.old ≡ width n) × Negated d.view.pair.nlts.0 × Negated own.pair.nlts.0 }
    ensures { row.new ≡ row_after row.old u v d own }
{
    tables::rows::put_height(n, row, v, d.view);
    tables::rows::put_height(n, row, u, own);
    tables::rows::put_head(row, d.clock, d.neighbors, d.forming);
}

fn write_node(n: u32, u: u32, v: u32, d: Decision, own: Height, nodes: &mut [u32])
    requires { (n ≤ 16) × Node n u × Node n v × (length nodes.old ≡ n * width n)
        × Negated d.view.pair.nlts.0 × Negated own.pair.nlts.0 }
    ensures { nodes.new ≡ put_node n u (row_after (node_of n u nodes.old) u v d own) nodes.old }
{
    let a = tables::rows::node_start(n, u);
    let e = a + tables::rows::row_width(n);
    write_row(n, u, v, d, own, &mut nodes[a..e]);
}

// The event of this kind at u with v, as it was decided.
pub fn finish(
    kind: Kind,
    n: u32,
    u: u32,
    v: u32,
    d: Decision,
    nodes: &mut [u32],
    channels: &mut [u32],
) -> Answer
    requires { Ready kind n (tables nodes.old channels.old) u v d }
    ensures { outcome (said result) (tables nodes.new channels.new) ≡ step_at n (event_of kind u v) (tables nodes.old channels.old) }
{
    let row = tables::rows::node(n, u, nodes);
    let Ok(own) = decision::outcome::height_after(n, row, u, v, d) else {
        return Err(Refusal::DeltaEnd);
    };
    let to = decision::outcome::sent_to(d, v);
    if !super::sending::has_room(n, u, to, channels) {
        return Err(Refusal::ChannelFull);
    }
    super::sending::clear_channel(kind, n, u, v, channels);
    write_node(n, u, v, d, own, nodes);
    super::sending::send_all(n, u, to, own, d.clock, channels);
    Ok(Done {
        rule: d.rule,
        sent_to: to,
    })
}
