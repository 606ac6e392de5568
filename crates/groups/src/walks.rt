// Quiet, groups and collectors of a sound plot; who is up is read once.
ghost use Rattle.std.specs.Prelude.{◌≡◌, length};
ghost use Rattle.basics.specs.Functions.{every};
ghost use Rattle.protocol.specs.Network.{Node, up_to, own};
ghost use Rattle.protocol.specs.Quiet.{pair_quiet, quiet};
ghost use Rattle.tables.specs.Load.{load};
ghost use Rattle.groups.specs.Groups.{linked, group_of, heads_of, collectors_in};
ghost use Rattle.groups.specs.inner.Words.{SetWords};
ghost use Rattle.tables.specs.Tables.{tables};

use super::words;
use sound::Sound;

// Who is up from each node, node 1 first.
fn fill_ups(plot: Sound, ups: &mut [u16])
    requires { (length ups.old ≡ 16) }
    ensures { SetWords plot.entry.n (up_to (load plot.entry.n (tables plot.entry.nodes.now plot.entry.channels.now))) ups.new }
{
    for w in 1..plot.n + 1 {
        let set = plot.up_from(w);
        let i = (w - 1) as usize;
        ups[i] = set;
    }
}

fn ups(plot: Sound) -> [u16; 16]
    ensures { SetWords plot.entry.n (up_to (load plot.entry.n (tables plot.entry.nodes.now plot.entry.channels.now))) result }
{
    let mut out = [0; 16];
    fill_ups(plot, &mut out);
    out
}

// Who is linked with each node.
fn links(plot: Sound) -> [u16; 16]
    ensures { SetWords plot.entry.n (linked (up_to (load plot.entry.n (tables plot.entry.nodes.now plot.entry.channels.now)))) result }
{
    let up = ups(plot);
    let mut near = [0; 16];
    words::fill_links(plot.n, &up, &mut near);
    near
}

// u's group.
pub fn group(plot: Sound, u: u32) -> u16
    requires { Node plot.n u }
    ensures { result ≡ group_of plot.entry.n (up_to (load plot.entry.n (tables plot.entry.nodes.now plot.entry.channels.now))) u }
{
    let near = links(plot);
    words::group(plot.n, u, &near)
}

// The lowest members of all groups.
pub fn heads(plot: Sound) -> u16
    ensures { result ≡ heads_of plot.entry.n (up_to (load plot.entry.n (tables plot.entry.nodes.now plot.entry.channels.now))) }
{
    let near = links(plot);
    words::heads(plot.n, &near)
}

// The collectors in s.
pub fn collectors(plot: Sound, s: u16) -> u16
    ensures { result ≡ collectors_in plot.entry.n (own (load plot.entry.n (tables plot.entry.nodes.now plot.entry.channels.now))) s }
{
    let mut out: u16 = 0;
    for w in 1..plot.n + 1 {
        let lid = plot.own(w).pair.lid;
        let yes = nodeset::contains(s, w) & (lid == w);
        out = words::add_if(out, w, yes);
    }
    out
}

// Channel u to v is empty, and up exactly when the one back is; for each v.
fn node_quiet(plot: Sound, u: u32, ups: &[u16]) -> bool
    requires { SetWords plot.n (up_to (load plot.n (tables plot.nodes.now plot.channels.now))) ups.now × Node plot.n u }
    ensures { result ≡ every plot.entry.n (pair_quiet (load plot.entry.n (tables plot.entry.nodes.now plot.entry.channels.now)) u) }
{
    let i = (u - 1) as usize;
    let out = ups[i];
    let mut ok = true;
    for v in 1..plot.n + 1 {
        let j = (v - 1) as usize;
        let back = ups[j];
        let count = plot.waiting(u, v);
        let paired = nodeset::contains(out, v) == nodeset::contains(back, u);
        ok = (count == 0) & paired & ok;
    }
    ok
}

pub fn is_quiet(plot: Sound) -> bool
    ensures { result ≡ quiet plot.entry.n (load plot.entry.n (tables plot.entry.nodes.now plot.entry.channels.now)) }
{
    let up = ups(plot);
    let mut ok = true;
    for u in 1..plot.n + 1 {
        let here = node_quiet(plot, u, &up);
        ok = here & ok;
    }
    ok
}
