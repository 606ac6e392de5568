// The check of the contents: every pair of the tables, the first that is at fault, or else the first whose times make no sense.
ghost use Rattle.std.specs.Prelude.{◌≡◌};
ghost use Rattle.pairs.specs.inner.Findings.{finding};
ghost use Rattle.protocol.specs.Network.{Node};
ghost use Rattle.tables.specs.inner.Fit.{Sized};
ghost use Rattle.lent.specs.Check.{said_check, pair_at, timely_at, contents_on};
ghost use Rattle.tables.specs.Tables.{tables};

use pairs::Finding;
use refusal::Refusal;

// The pair u, v. As `pairs::read_pair`, but with all of its cell looked at.
fn pair(n: u32, u: u32, v: u32, nodes: &[u32], channels: &[u32]) -> Finding
    requires { Sized n (tables nodes.now channels.now) × Node n u × Node n v }
    ensures { result ≡ finding (pair_at n (tables nodes.now channels.now) u v) (timely_at n (tables nodes.now channels.now) u v) }
{
    let row = tables::rows::node(n, u, nodes);
    let cell = tables::rows::channel(n, u, v, channels);
    if u == v {
        return pairs::own(n, u, row, cell);
    }
    pairs::both(pairs::view(n, v, row), pairs::channel(n, u, v, row, cell))
}

// Pair by pair, by u and then by v. A fault leaves both walks at once; the first untimely pair is kept, and the walk goes on.
pub fn contents(n: u32, nodes: &[u32], channels: &[u32]) -> Result<(), Refusal>
    requires { Sized n (tables nodes.now channels.now) }
    ensures { said_check result ≡ contents_on n (tables nodes.now channels.now) }
{
    let mut found: Result<(), Refusal> = Ok(());
    'search: for u in 1..n + 1 {
        for v in 1..n + 1 {
            match pair(n, u, v, nodes, channels) {
                Finding::Good => {}
                Finding::Untimely => found = found.and(Err(Refusal::Untimely(u, v))),
                Finding::Faulty => {
                    found = Err(Refusal::Fault(u, v));
                    break 'search;
                }
            }
        }
    }
    found
}
