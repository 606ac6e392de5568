// The lent tables' one door: `check` answers refusals 1, 2 and 18 for every routine that reads tables, `is_sized` 1 for those that fill them.
// No function requires anything: what cannot be done is refused, and nothing lent changes.
#![tactic(auto)]

ghost use Rattle.std.specs.Prelude.{◌≡◌};
ghost use Rattle.refusal.specs.Outcome.{outcome};
ghost use Rattle.tables.specs.Tables.{tables, sized};
ghost use Rattle.lent.specs.Check.{said_check, check_on};
ghost use Rattle.lent.specs.Fresh.{fresh_on};

use refusal::Refusal;

mod filling;
mod search;

// n from 1 to 16, and the tables of the lengths for n.
pub fn is_sized(n: u32, nodes: &[u32], channels: &[u32]) -> bool
    ensures { result ≡ sized n (tables nodes.now channels.now) }
{
    if n <= 16 {
        let k = n as usize;
        return (1 <= n)
            & (nodes.len() == k * tables::rows::row_width(n))
            & (channels.len() == k * k * tables::CELL_WIDTH);
    }
    false
}

// Refusals 1, 2 and 18, for any tables whatever.
pub fn check(n: u32, nodes: &[u32], channels: &[u32]) -> Result<(), Refusal>
    ensures { said_check result ≡ check_on n (tables nodes.now channels.now) }
{
    if is_sized(n, nodes, channels) {
        return search::contents(n, nodes, channels);
    }
    Err(Refusal::Sizes)
}

// The fresh network of n nodes.
pub fn fresh(n: u32, nodes: &mut [u32], channels: &mut [u32]) -> Result<(), Refusal>
    ensures { outcome (said_check result) (tables nodes.new channels.new) ≡ fresh_on n (tables nodes.old channels.old) }
{
    if is_sized(n, nodes, channels) {
        filling::fill(n, nodes, channels);
        return Ok(());
    }
    Err(Refusal::Sizes)
}
