// Answers as plain structs, by value.
// Each contract: what the struct says is what the answer says.
ghost use Rattle.std.specs.Prelude.{◌≡◌};
ghost use Rattle.refusal.specs.Outcome.{said_as};
ghost use Rattle.std.specs.Int.Count.{ones};
ghost use Rattle.height.specs.Comparison.{said_order};
ghost use Rattle.height.specs.Height.{zero_level};
ghost use Rattle.histories.specs.ListOn.{extent};
ghost use Rattle.image_reader.specs.Record.{no_node};
ghost use Rattle.groups.specs.Group.{no_group};
ghost use Rattle.groups.specs.Groups.{the_one};
ghost use Rattle.groups.specs.Quiet.{said_quiet};
ghost use Rattle.nodeset.specs.NodeSet.{digit};
ghost use Rattle.lent.specs.Check.{said_check};
ghost use Rattle.protocol.specs.Answer.{said, said_rule, carried_out, said_refused};
ghost use Rattle.refusal.specs.Refusal.{why};
ghost use Rattle.abi.specs.Report.{said_report, said_check_report, said_save_report, said_node_report, said_value_report, said_group_report, said_comparison_report, said_list_report, height_given};

use super::{
    AnswerReport, CheckReport, ComparisonReport, GivenHeight, GroupReport, ListReport, NodeReport,
    SaveReport, ValueReport,
};
use groups::Group;
use height::order::Order;
use height::{Height, ReferenceLevel, Time};
use histories::Extent;
use image_snapshot::NodeRecord;
use protocol::{Answer, Done, Rule};
use refusal::{Refusal, Why};

// Not refused.
fn accepted() -> Why
    ensures { result ≡ why 0 0 0 }
{
    Why {
        number: 0,
        u: 0,
        v: 0,
    }
}

// ---- events

// No level taken.
fn no_level() -> ReferenceLevel
    ensures { result ≡ zero_level }
{
    ReferenceLevel {
        tau: Time(0),
        oid: 0,
        r: 0,
    }
}

// Carried out: the rule's letter, the set sent to, the node adopted from, the level taken.
fn done(letter: u8, set: u16, from: u32, level: ReferenceLevel) -> AnswerReport
    ensures { (said_report result ≡ carried_out letter set from level) × (result.sent ≡ ones result.sent_to) }
{
    AnswerReport {
        number: 0,
        fault_at: 0,
        fault_with: 0,
        rule: letter as u32,
        sent_to: set as u32,
        sent: nodeset::count(set),
        adopted_from: from,
        level_tau: level.tau.0,
        level_originator: level.oid,
        level_bit: level.r,
    }
}

// A rule's letter. Called and not written out, so that the compiler makes no table of jumps of it in each event's call (docs/DECISIONS.md, 118).
#[inline(never)]
fn rule_letter(rule: Rule, set: u16) -> u8
    ensures { result ≡ (said_rule rule set).value.rule }
{
    answers::letter(Ok(Done { rule, sent_to: set }))
}

// A rule carried out: A has the node adopted from, P the level taken.
fn of_rule(rule: Rule, set: u16) -> AnswerReport
    ensures { (said_report result ≡ said_rule rule set) × (result.sent ≡ ones result.sent_to) }
{
    let letter = rule_letter(rule, set);
    match rule {
        Rule::AdoptLpIfPriority(v) => done(letter, set, v, no_level()),
        Rule::PropagateLargestRefLevel(level) => done(letter, set, 0, level),
        _ => done(letter, set, 0, no_level()),
    }
}

// Refused: no rule, nobody sent to.
fn refused(w: Why) -> AnswerReport
    ensures { (said_report result ≡ said_refused w) × (result.sent ≡ ones result.sent_to) }
{
    AnswerReport {
        number: w.number,
        fault_at: w.u,
        fault_with: w.v,
        rule: 45, // the dash
        sent_to: 0,
        sent: 0,
        adopted_from: 0,
        level_tau: 0,
        level_originator: 0,
        level_bit: 0,
    }
}

impl From<Answer> for AnswerReport {
    ghost from_gives = { λ answer report. (said_report report ≡ said answer) × (report.sent ≡ ones report.sent_to) };

    fn from(answer: Answer) -> AnswerReport {
        match answer {
            Ok(done) => of_rule(done.rule, done.sent_to),
            Err(reason) => refused(Why::from(reason)),
        }
    }
}

// ---- every other answer: why, and a value

// What an answer says: its number and pair, and its value, or the value that stands for none.
fn said_of<T: Drop>(answer: Result<T, Refusal>, none: T) -> (Why, T)
    ensures { record { why = result.0; value = result.1 } ≡ said_as none answer }
{
    match answer {
        Ok(value) => (accepted(), value),
        Err(reason) => (Why::from(reason), none),
    }
}

// Checks, restores, sketches read.
impl From<Result<(), Refusal>> for CheckReport {
    ghost from_gives = { λ answer report. said_check_report report ≡ said_check answer };

    fn from(answer: Result<(), Refusal>) -> CheckReport {
        let (why, _) = said_of(answer, ());
        CheckReport {
            number: why.number,
            fault_at: why.u,
            fault_with: why.v,
        }
    }
}

// Saves and drawings.
impl From<Result<usize, Refusal>> for SaveReport {
    ghost from_gives = { λ answer report. said_save_report report ≡ said_as 0 answer };

    fn from(answer: Result<usize, Refusal>) -> SaveReport {
        let (why, size) = said_of(answer, 0);
        SaveReport {
            number: why.number,
            fault_at: why.u,
            fault_with: why.v,
            size: size as u64,
        }
    }
}

// Lists of histories.
impl From<Result<Extent, Refusal>> for ListReport {
    ghost from_gives = { λ answer report. said_list_report report ≡ said_as (extent 0 0) answer };

    fn from(answer: Result<Extent, Refusal>) -> ListReport {
        let none = Extent {
            bytes: 0,
            histories: 0,
        };
        let (why, list) = said_of(answer, none);
        ListReport {
            number: why.number,
            fault_at: why.u,
            fault_with: why.v,
            histories: list.histories,
            size: list.bytes as u64,
        }
    }
}

// Looks at one node.
impl From<Result<NodeRecord, Refusal>> for NodeReport {
    ghost from_gives = { λ answer report. said_node_report report ≡ said_as no_node answer };

    fn from(answer: Result<NodeRecord, Refusal>) -> NodeReport {
        let none = NodeRecord {
            clock: Time(0),
            neighbors: 0,
            forming: 0,
        };
        let (why, node) = said_of(answer, none);
        NodeReport {
            number: why.number,
            fault_at: why.u,
            fault_with: why.v,
            clock: node.clock.0,
            linked: node.neighbors as u32,
            forming: node.forming as u32,
        }
    }
}

// Looks for one number.
impl From<Result<u32, Refusal>> for ValueReport {
    ghost from_gives = { λ answer report. said_value_report report ≡ said_as 0 answer };

    fn from(answer: Result<u32, Refusal>) -> ValueReport {
        let (why, value) = said_of(answer, 0);
        ValueReport {
            number: why.number,
            fault_at: why.u,
            fault_with: why.v,
            value,
        }
    }
}

impl From<Result<u16, Refusal>> for ValueReport {
    ghost from_gives = { λ answer report. said_value_report report ≡ said_as 0 answer };

    fn from(answer: Result<u16, Refusal>) -> ValueReport {
        ValueReport::from(answer.map(u32::from))
    }
}

// 1 for true, 0 for false.
impl From<Result<bool, Refusal>> for ValueReport {
    ghost from_gives = { λ answer report. said_value_report report ≡ said_quiet answer };

    fn from(answer: Result<bool, Refusal>) -> ValueReport {
        ValueReport::from(answer.map(u32::from))
    }
}

// Looks at one group.
impl From<Result<Group, Refusal>> for GroupReport {
    ghost from_gives = { λ answer report. (said_group_report report ≡ said_as no_group answer) × (report.collector ≡ the_one report.collectors) };

    fn from(answer: Result<Group, Refusal>) -> GroupReport {
        let none = Group {
            members: 0,
            collectors: 0,
        };
        let (why, group) = said_of(answer, none);
        GroupReport {
            number: why.number,
            fault_at: why.u,
            fault_with: why.v,
            members: group.members as u32,
            collectors: group.collectors as u32,
            collector: groups::the_one(group.collectors),
        }
    }
}

// ---- two heights

impl From<GivenHeight> for Height {
    ghost from_gives = { λ given height. height ≡ height_given given };

    fn from(h: GivenHeight) -> Height {
        let level = ReferenceLevel {
            tau: Time(h.search_time),
            oid: h.originator,
            r: h.bit,
        };
        let pair = height::words::pair_of(h.election_time, h.leader);
        Height {
            level,
            delta: h.depth,
            pair,
            id: h.station,
        }
    }
}

impl From<Order> for ComparisonReport {
    ghost from_gives = { λ order report. said_comparison_report report ≡ said_order order };

    fn from(order: Order) -> ComparisonReport {
        match order {
            Order::Less(place) => ComparisonReport { order: -1, place },
            Order::Equal => ComparisonReport { order: 0, place: 0 },
            Order::Greater(place) => ComparisonReport { order: 1, place },
        }
    }
}
