// The bench: from the bytes of an input to the bytes of its listing (document 01, "The bench program").
// No function requires anything: what cannot be done is refused, and nothing lent changes.
#![tactic(auto)]

ghost use Rattle.std.specs.Prelude.{◌≡◌};
ghost use Rattle.refusal.specs.Outcome.{outcome, said_as};
ghost use Rattle.bench_run.specs.Run.{run_on};

use refusal::Refusal;

mod events;
mod lines;
mod plot;
mod stations;

// The listing of an input goes to the front of the bytes; it is made twice, first to see how long it is. Its length, or too little
// room for it (14).
pub fn run(input: &[u8], out: &mut [u8]) -> Result<usize, Refusal>
    ensures { outcome (said_as 0 result) out.new ≡ run_on input.now out.old }
{
    let mut scratch = [0u8; 1];
    let size = plot::list(input, &mut scratch);
    if out.len() < size {
        return Err(Refusal::NoRoom);
    }
    plot::list(input, out);
    Ok(size)
}
