// Why a call is refused, and the number that says so (document 01, "Returned numbers"). Every call of every crate answers its own value or
// one of these reasons; a new number of the papers is a new line here and in specs/Refusal.antt.
#![tactic(auto)]

ghost use Rattle.std.specs.Prelude.{◌≡◌};
ghost use Rattle.refusal.specs.Refusal.{why_of};

#[derive(Clone, Copy, PartialEq, Eq)]
pub enum Refusal {
    Sizes, // 1
    Fault(u32, u32), // 2, with the pair of the first fault
    NodeNumber, // 3
    AlreadyUp, // 4
    AlreadyDown, // 5
    NoMessage, // 6
    ClockEnd, // 7
    DeltaEnd, // 8
    ChannelFull, // 9
    TooShort, // 10
    BadHeader, // 11
    BadEnd, // 12
    NotPlace, // 13
    NoRoom, // 14
    Malformed, // 15
    NotSketch, // 16
    BadLink, // 17
    Untimely(u32, u32), // 18, with the first pair whose times make no sense
    TooLarge, // 19
}

// The returned number; for 2 and 18 the pair at fault, else 0 and 0.
#[derive(Clone, Copy, PartialEq, Eq)]
pub struct Why {
    pub number: u32,
    pub u: u32,
    pub v: u32,
}

impl Refusal {
    // The number that a reason returns.
    pub fn number(self) -> u32
        ensures { result ≡ (why_of self).number }
    {
        match self {
            Refusal::Sizes => 1,
            Refusal::Fault(_, _) => 2,
            Refusal::NodeNumber => 3,
            Refusal::AlreadyUp => 4,
            Refusal::AlreadyDown => 5,
            Refusal::NoMessage => 6,
            Refusal::ClockEnd => 7,
            Refusal::DeltaEnd => 8,
            Refusal::ChannelFull => 9,
            Refusal::TooShort => 10,
            Refusal::BadHeader => 11,
            Refusal::BadEnd => 12,
            Refusal::NotPlace => 13,
            Refusal::NoRoom => 14,
            Refusal::Malformed => 15,
            Refusal::NotSketch => 16,
            Refusal::BadLink => 17,
            Refusal::Untimely(_, _) => 18,
            Refusal::TooLarge => 19,
        }
    }
}

// A reason's number and pair.
impl From<Refusal> for Why {
    ghost from_gives = { λ reason why. why ≡ why_of reason };

    // Asked for one after the other and in one place, so that the compiler makes no table of jumps of them (docs/DECISIONS.md, 115).
    #[inline(never)]
    fn from(reason: Refusal) -> Why {
        let number = reason.number();
        if let Refusal::Fault(u, v) = reason {
            return Why { number, u, v };
        }
        if let Refusal::Untimely(u, v) = reason {
            return Why { number, u, v };
        }
        Why { number, u: 0, v: 0 }
    }
}
