// What an answer says, as numbers (document 01, "Returned numbers"): the returned number, the rule's letter, the messages sent.
// Every function takes any answer; its contract is one number of `said` (crate `protocol`, specs/Answer.antt).
#![tactic(auto)]

ghost use Rattle.std.specs.Prelude.{◌≡◌};
ghost use Rattle.std.specs.Int.Count.{ones};
ghost use Rattle.protocol.specs.Answer.{said, said_rule};

use protocol::{Answer, Rule};

// The returned number.
pub fn number(answer: Answer) -> u32
    ensures { result ≡ (said answer).why.number }
{
    match answer {
        Ok(_) => 0,
        Err(why) => why.number(),
    }
}

// A rule's letter.
fn rule_letter(rule: Rule) -> u8
    ensures { result ≡ (said_rule rule 0).value.rule }
{
    match rule {
        Rule::ChannelUp => b'U',
        Rule::ElectSelf => b'E',
        Rule::StartNewRefLevel => b'S',
        Rule::NoChange => b'Q',
        Rule::Ignored => b'I',
        Rule::ReflectRefLevel => b'F',
        Rule::PropagateLargestRefLevel(_) => b'P',
        Rule::AdoptLpIfPriority(_) => b'A',
        Rule::Reply => b'R',
    }
}

// The rule's letter, or the dash of a refusal.
pub fn letter(answer: Answer) -> u8
    ensures { result ≡ (said answer).value.rule }
{
    match answer {
        Ok(done) => rule_letter(done.rule),
        Err(_) => b'-',
    }
}

// How many messages an event sent: the ones of the set it names.
pub fn sent(answer: Answer) -> u32
    ensures { result ≡ ones (said answer).value.sent_to }
{
    match answer {
        Ok(done) => nodeset::count(done.sent_to),
        Err(_) => 0,
    }
}
