// What the tables show of the whole network: whether it is quiet, its groups of linked nodes, and their collectors.
// No public function requires anything: those on tables check them once, then answer. Nothing lent is written.
#![tactic(auto)]

ghost use Rattle.std.specs.Prelude.{◌≡◌};
ghost use Rattle.refusal.specs.Outcome.{said_as};
ghost use Rattle.protocol.specs.Network.{Network};
ghost use Rattle.tables.specs.Load.{load};
ghost use Rattle.groups.specs.Group.{group_named, group_on, no_group};
ghost use Rattle.groups.specs.Groups.{the_one};
ghost use Rattle.groups.specs.Heads.{heads_on};
ghost use Rattle.groups.specs.Quiet.{said_quiet, quiet_on};
ghost use Rattle.tables.specs.Tables.{tables};

use refusal::Refusal;
use sound::Sound;

mod walks;
mod words;

// A group: its members, and the collectors among them.
#[derive(Clone, Copy)]
pub struct Group {
    pub members: u16,
    pub collectors: u16,
}

// Whether no message waits and each channel is up exactly when the one back is; or 1, 2, 18.
pub fn is_quiet(n: u32, nodes: &[u32], channels: &[u32]) -> Result<bool, Refusal>
    ensures { said_quiet result ≡ quiet_on n (tables nodes.now channels.now) }
{
    lent::check(n, nodes, channels)?;
    let plot = Sound { n, nodes, channels };
    Ok(walks::is_quiet(plot))
}

// The lowest members of all groups as a set, one for each group; or 1, 2, 18.
pub fn heads(n: u32, nodes: &[u32], channels: &[u32]) -> Result<u16, Refusal>
    ensures { said_as 0 result ≡ heads_on n (tables nodes.now channels.now) }
{
    lent::check(n, nodes, channels)?;
    let plot = Sound { n, nodes, channels };
    Ok(walks::heads(plot))
}

// 3, or u's group.
fn named(plot: Sound, u: u32) -> Result<Group, Refusal>
    ensures { said_as no_group result ≡ group_named plot.entry.n u (load plot.entry.n (tables plot.entry.nodes.now plot.entry.channels.now)) }
{
    if (1 <= u) & (u <= plot.n) {
        let members = walks::group(plot, u);
        let collectors = walks::collectors(plot, members);
        return Ok(Group {
            members,
            collectors,
        });
    }
    Err(Refusal::NodeNumber)
}

// The group of node u, and its collectors; or 1, 2, 18, or no such node (3).
pub fn group_of(n: u32, u: u32, nodes: &[u32], channels: &[u32]) -> Result<Group, Refusal>
    ensures { said_as no_group result ≡ group_on n u (tables nodes.now channels.now) }
{
    lent::check(n, nodes, channels)?;
    named(Sound { n, nodes, channels }, u)
}

// The one node of a set; 0 where there is none, or more than one.
pub fn the_one(s: u16) -> u32
    ensures { result ≡ the_one s }
{
    if nodeset::count(s) == 1 {
        return nodeset::first(s);
    }
    0
}
