// Depth first: behind a path, all histories with so many events more. The tables hold what the path reaches, before and after.
ghost use Rattle.std.specs.Prelude.{◌≡◌, ◌+◌, length};
ghost use Rattle.text.specs.inner.Poured.{poured};
ghost use Rattle.histories.specs.inner.Walk.{text_from, branch_text, Exploring, Branching};
ghost use Rattle.tables.specs.Tables.{tables};

use super::Path;

// Those that go on with candidate c. A refused one changes nothing; behind an accepted one the path is carried out anew.
#[cycle(branch_explore)]
fn branch(
    path: Path,
    left: u32,
    c: u32,
    nodes: &mut [u32],
    channels: &mut [u32],
    out: &mut [u8],
    at: usize,
) -> usize
    requires { Branching path.n left path.events path.code c (tables nodes.old channels.old) at }
    ensures { (out.new ≡ poured out.old at (branch_text path.n left path.events path.code c))
        × (result ≡ at + length (branch_text path.n left path.events path.code c))
        × (tables nodes.new channels.new ≡ tables nodes.old channels.old) }
{
    if !super::paths::step(path.n, c, nodes, channels) {
        return at;
    }
    let events = path.events + 1;
    let code = 27 * path.code + c;
    let longer = Path {
        n: path.n,
        events,
        code,
    };
    let offset = explore(longer, left, nodes, channels, out, at);
    super::paths::replay(path, nodes, channels);
    offset
}

#[cycle(branch_explore)]
pub fn explore(
    path: Path,
    left: u32,
    nodes: &mut [u32],
    channels: &mut [u32],
    out: &mut [u8],
    at: usize,
) -> usize
    requires { Exploring path.n left path.events path.code (tables nodes.old channels.old) at }
    ensures { (out.new ≡ poured out.old at (text_from path.n left path.events path.code))
        × (result ≡ at + length (text_from path.n left path.events path.code))
        × (tables nodes.new channels.new ≡ tables nodes.old channels.old) }
{
    if left == 0 {
        return super::put::put_input(out, at, path);
    }
    let mut offset = at;
    for c in 0..27 {
        offset = branch(path, left - 1, c, nodes, channels, out, offset);
    }
    offset
}
