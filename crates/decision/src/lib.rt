// What an event does at its node, decided by value: which rule, the height after it, and the set it sends to.
// A node's heights are its row's, with the view of v beside it (`Views`): nothing is written before everything is decided.
// These are leaves: only `election` calls them, with the bounds that `requires` states.
#![tactic(auto)]

pub mod levels;
pub mod outcome;
pub mod rule;
pub mod sinks;
pub mod views;

use height::{Height, Time};
use protocol::Rule;
pub use views::Views;

// What an event has found at its node when its rule is chosen: the rule, the moved clock, both sets, the view of the other node.
// The definition's record `Local` holds what the event then leaves: the height after the rule and the set sent to as well.
#[derive(Clone, Copy)]
pub struct Decision {
    pub rule: Rule,
    pub clock: Time,
    pub neighbors: u16,
    pub forming: u16,
    pub view: Height,
}
