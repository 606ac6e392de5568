// Heights (document 01, "What a station holds"; source 001's 7-tuples), and the clock.
// Fields have the source's names: tau, oid, r, delta, nlts, lid, id.
#![tactic(auto)]

ghost use Rattle.std.specs.Prelude.{◌≡◌, neg_ℤ, pos};
ghost use Rattle.height.specs.Clock.{said_moved, clock_after};
ghost use Rattle.height.specs.Height.{self_elected};

use refusal::Refusal;

pub mod order;
pub mod words;

// The clock's end.
pub const LAST_TIME: u32 = 4294967295;

// The range of a depth.
pub const LEAST_DELTA: i32 = -32768;

pub const GREATEST_DELTA: i32 = 32767;

// A search time, or a clock. It grows.
#[derive(Clone, Copy)]
pub struct Time(pub u32);

// A negated election time, 0 down to -4,294,967,295. It falls.
#[derive(Clone, Copy)]
pub struct NegatedTime(pub i64);

// The reference level: search time, originator, reflection bit.
#[derive(Clone, Copy)]
pub struct ReferenceLevel {
    pub tau: Time,
    pub oid: u32,
    pub r: u32,
}

// The leader pair: negated election time, leader. The smaller is the more recent election.
#[derive(Clone, Copy)]
pub struct LeaderPair {
    pub nlts: NegatedTime,
    pub lid: u32,
}

// A height: level, depth, pair, and the node that it belongs to.
#[derive(Clone, Copy)]
pub struct Height {
    pub level: ReferenceLevel,
    pub delta: i32,
    pub pair: LeaderPair,
    pub id: u32,
}

impl Time {
    // The clock after a stamp: one more than the larger of the two, or 7 at the clock's end.
    pub fn after(self, stamp: Time) -> Result<Time, Refusal>
        ensures { said_moved result ≡ clock_after self.0 stamp.0 }
    {
        let latest = self.0.max(stamp.0);
        if latest < LAST_TIME {
            return Ok(Time(latest + 1));
        }
        Err(Refusal::ClockEnd)
    }

    // The negated time of an election at this clock. Self-election alone turns one into the other.
    fn negated(self) -> NegatedTime
        ensures { result.0 ≡ neg_ℤ (pos self.0) }
    {
        words::nlts_of(self.0)
    }
}

// The height of node `id` that elects itself at the clock `now` (document 01, rule E).
pub fn self_elected(id: u32, now: Time) -> Height
    ensures { result ≡ self_elected now.0 id }
{
    let level = ReferenceLevel {
        tau: Time(0),
        oid: 0,
        r: 0,
    };
    let nlts = now.negated();
    let pair = LeaderPair { nlts, lid: id };
    Height {
        level,
        delta: 0,
        pair,
        id,
    }
}
