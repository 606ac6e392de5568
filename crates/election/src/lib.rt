// The three events on lent tables (document 01, "The three events"). Any n, u, v and any tables may be handed over.
// No function requires anything: what cannot be done is refused, and nothing lent changes.
#![tactic(auto)]

ghost use Rattle.std.specs.Prelude.{◌≡◌};
ghost use Rattle.protocol.specs.Answer.{said};
ghost use Rattle.protocol.specs.Step.{up, down, receive};
ghost use Rattle.refusal.specs.Outcome.{outcome};
ghost use Rattle.election.specs.StepOn.{step_on};
ghost use Rattle.tables.specs.Tables.{tables};

use protocol::Answer;

mod events;
mod finish;
mod sending;

// The kind of an event: what it does to a channel before it sends.
#[derive(Clone, Copy)]
pub enum Kind {
    Raised,
    Dropped,
    Received,
}

// Channel u to v goes up, at u.
pub fn up(n: u32, u: u32, v: u32, nodes: &mut [u32], channels: &mut [u32]) -> Answer
    ensures { outcome (said result) (tables nodes.new channels.new) ≡ step_on n (up u v) (tables nodes.old channels.old) }
{
    lent::check(n, nodes, channels)?;
    events::event(Kind::Raised, n, u, v, nodes, channels)
}

// Channel u to v goes down, at u.
pub fn down(n: u32, u: u32, v: u32, nodes: &mut [u32], channels: &mut [u32]) -> Answer
    ensures { outcome (said result) (tables nodes.new channels.new) ≡ step_on n (down u v) (tables nodes.old channels.old) }
{
    lent::check(n, nodes, channels)?;
    events::event(Kind::Dropped, n, u, v, nodes, channels)
}

// The first message of channel v to u is received, at u.
pub fn receive(n: u32, v: u32, u: u32, nodes: &mut [u32], channels: &mut [u32]) -> Answer
    ensures { outcome (said result) (tables nodes.new channels.new) ≡ step_on n (receive v u) (tables nodes.old channels.old) }
{
    lent::check(n, nodes, channels)?;
    events::event(Kind::Received, n, u, v, nodes, channels)
}
