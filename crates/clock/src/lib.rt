// The clock, lent and advanced where the firmware keeps it (document 01, "The clock").
// Takes any clock and any stamp; a refused call leaves the clock as it was.
#![tactic(auto)]

ghost use Rattle.std.specs.Prelude.{◌≡◌};
ghost use Rattle.height.specs.Clock.{said_moved};
ghost use Rattle.refusal.specs.Outcome.{outcome};
ghost use Rattle.clock.specs.Advance.{advance_on};

use height::Time;
use refusal::Refusal;

// The clock is moved past itself and the stamp, where it is kept.
pub fn advance(clock: &mut Time, stamp: Time) -> Result<Time, Refusal>
    ensures { outcome (said_moved result) clock.new ≡ advance_on clock.old stamp }
{
    let moved = clock.after(stamp)?;
    *clock = moved;
    Ok(moved)
}
