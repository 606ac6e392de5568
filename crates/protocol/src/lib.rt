// What an event answers: the rule carried out and the set sent to, or one refusal
// (document 01, "The three events" and "Returned numbers"). The meaning of the step is in specs/.
#![tactic(auto)]

use height::ReferenceLevel;
use refusal::Refusal;

// What an accepted event did. The names are those of source 001's actions and subroutines; the letters are document 01's.
#[derive(Clone, Copy)]
pub enum Rule {
    ChannelUp, // U
    ElectSelf, // E
    StartNewRefLevel, // S
    NoChange, // Q
    Ignored, // I
    ReflectRefLevel, // F
    PropagateLargestRefLevel(ReferenceLevel), // P, with the level taken
    AdoptLpIfPriority(u32), // A, with the node adopted from
    Reply, // R
}

// An event carried out: the rule, and the set of nodes sent to.
#[derive(Clone, Copy)]
pub struct Done {
    pub rule: Rule,
    pub sent_to: u16,
}

// What an event answers.
pub type Answer = Result<Done, Refusal>;
