// Candidates and paths, carried out on tables.
ghost use Rattle.std.specs.Prelude.{◌≡◌, eqb};
ghost use Rattle.election.specs.StepOn.{step_on};
ghost use Rattle.tables.specs.Load.{tables_of};
ghost use Rattle.tables.specs.inner.Fit.{Sized};
ghost use Rattle.histories.specs.inner.Walk.{event_at, reached_by};
ghost use Rattle.tables.specs.Tables.{tables};

use super::Path;

// Candidate c: whether it is accepted.
pub fn step(n: u32, c: u32, nodes: &mut [u32], channels: &mut [u32]) -> bool
    ensures { (result ≡ eqb (step_on n (event_at c) (tables nodes.old channels.old)).said.why.number 0)
        × (tables nodes.new channels.new ≡ (step_on n (event_at c) (tables nodes.old channels.old)).after) }
{
    let u = c / 3 % 3 + 1;
    let v = c % 3 + 1;
    if c < 9 {
        return election::up(n, u, v, nodes, channels).is_ok();
    }
    if c < 18 {
        return election::down(n, u, v, nodes, channels).is_ok();
    }
    election::receive(n, u, v, nodes, channels).is_ok()
}

// The events of a path, from fresh tables on.
pub fn replay(path: Path, nodes: &mut [u32], channels: &mut [u32])
    requires { Sized path.n (tables nodes.old channels.old) }
    ensures { tables nodes.new channels.new ≡ tables_of path.n (reached_by path.n path.events path.code) }
{
    if path.events == 0 {
        let _ = lent::fresh(path.n, nodes, channels);
    } else {
        let front = Path {
            n: path.n,
            events: path.events - 1,
            code: path.code / 27,
        };
        replay(front, nodes, channels);
        step(path.n, path.code % 27, nodes, channels);
    }
}
