// The calls for C and Rust (include/election.h): those of `lent`, `election`, `groups`, `image_snapshot`, `drawing`, `histories` and the comparison of
// `height`, with a plain struct as the answer. Every call takes anything; its contract is the equation of the call that it makes.
#![tactic(auto)]

ghost use Rattle.std.specs.Prelude.{◌≡◌};
ghost use Rattle.std.specs.Int.Count.{ones};
ghost use Rattle.drawing.specs.Draw.{draw_on, drawing_length};
ghost use Rattle.drawing.specs.Read.{nodes_of, read_on};
ghost use Rattle.election.specs.StepOn.{step_on};
ghost use Rattle.groups.specs.Group.{group_on};
ghost use Rattle.groups.specs.Groups.{the_one};
ghost use Rattle.groups.specs.Heads.{heads_on};
ghost use Rattle.groups.specs.Quiet.{quiet_on};
ghost use Rattle.height.specs.Comparison.{comparison};
ghost use Rattle.histories.specs.ListOn.{list_on, list_length};
ghost use Rattle.image_snapshot.specs.Count.{count_on};
ghost use Rattle.image_snapshot.specs.ReadNode.{read_node_on};
ghost use Rattle.image_snapshot.specs.Restore.{restore_on};
ghost use Rattle.image_snapshot.specs.Save.{save_on};
ghost use Rattle.lent.specs.Check.{check_on};
ghost use Rattle.lent.specs.Fresh.{fresh_on};
ghost use Rattle.protocol.specs.Step.{up, down, receive};
ghost use Rattle.refusal.specs.Outcome.{outcome};
ghost use Rattle.abi.specs.Report.{said_report, said_check_report, said_save_report, said_node_report, said_value_report, said_group_report, said_comparison_report, said_list_report, height_given};
ghost use Rattle.abi.specs.Sizes.{is_size, nodes_length, channels_length, row_length, image_length};
ghost use Rattle.tables.specs.Tables.{tables};

use height::Height;

mod reports;

// What an event answers: election_answer.
#[repr(C)]
#[derive(Clone, Copy)]
pub struct AnswerReport {
    pub number: u32,
    pub fault_at: u32,
    pub fault_with: u32,
    pub rule: u32,
    pub sent_to: u32,
    pub sent: u32,
    pub adopted_from: u32,
    pub level_tau: u32,
    pub level_originator: u32,
    pub level_bit: u32,
}

// What a check, a fresh network, a restore or a sketch read answers: election_checked.
#[repr(C)]
#[derive(Clone, Copy)]
pub struct CheckReport {
    pub number: u32,
    pub fault_at: u32,
    pub fault_with: u32,
}

// What a save or a drawing answers: election_saved.
#[repr(C)]
#[derive(Clone, Copy)]
pub struct SaveReport {
    pub number: u32,
    pub fault_at: u32,
    pub fault_with: u32,
    pub size: u64,
}

// What a list of histories answers: election_listed.
#[repr(C)]
#[derive(Clone, Copy)]
pub struct ListReport {
    pub number: u32,
    pub fault_at: u32,
    pub fault_with: u32,
    pub histories: u32,
    pub size: u64,
}

// What a look at one node answers: election_station.
#[repr(C)]
#[derive(Clone, Copy)]
pub struct NodeReport {
    pub number: u32,
    pub fault_at: u32,
    pub fault_with: u32,
    pub clock: u32,
    pub linked: u32,
    pub forming: u32,
}

// What a call answers that looks for one number: election_value.
#[repr(C)]
#[derive(Clone, Copy)]
pub struct ValueReport {
    pub number: u32,
    pub fault_at: u32,
    pub fault_with: u32,
    pub value: u32,
}

// What a look at one node's group answers: election_group.
#[repr(C)]
#[derive(Clone, Copy)]
pub struct GroupReport {
    pub number: u32,
    pub fault_at: u32,
    pub fault_with: u32,
    pub members: u32,
    pub collectors: u32,
    pub collector: u32,
}

// A height to be compared, its election time not negated: election_height.
#[repr(C)]
#[derive(Clone, Copy)]
pub struct GivenHeight {
    pub search_time: u32,
    pub originator: u32,
    pub bit: u32,
    pub depth: i32,
    pub election_time: u32,
    pub leader: u32,
    pub station: u32,
}

// What the comparison of two heights answers: election_comparison.
#[repr(C)]
#[derive(Clone, Copy)]
pub struct ComparisonReport {
    pub order: i32,
    pub place: u32,
}

// ---- how much to lend

// n from 1 to 16.
fn is_size(n: u32) -> bool
    ensures { result ≡ is_size n }
{
    (1 <= n) & (n <= 16)
}

// Words of the nodes' table.
#[unsafe(no_mangle)]
pub extern "C" fn election_nodes_len(n: u32) -> usize
    ensures { result ≡ nodes_length n }
{
    if is_size(n) {
        return (n as usize) * tables::rows::row_width(n);
    }
    0
}

// Words of the channels' table.
#[unsafe(no_mangle)]
pub extern "C" fn election_channels_len(n: u32) -> usize
    ensures { result ≡ channels_length n }
{
    if is_size(n) {
        let k = n as usize;
        return k * k * tables::CELL_WIDTH;
    }
    0
}

// Words of one node's row of heights.
#[unsafe(no_mangle)]
pub extern "C" fn election_row_len(n: u32) -> usize
    ensures { result ≡ row_length n }
{
    if is_size(n) {
        return (n as usize) * tables::HEIGHT_SIZE;
    }
    0
}

// Bytes that hold every image.
#[unsafe(no_mangle)]
pub extern "C" fn election_image_len(n: u32) -> usize
    ensures { result ≡ image_length n }
{
    if is_size(n) {
        let k = n as usize;
        let message = image::widths::message(image::DEPTH_WIDTH);
        let nodes = k * image::widths::node(image::DEPTH_WIDTH, k);
        let channels = k * (k - 1) * (image::WAITING_WIDTH + tables::CAPACITY * message);
        return (image::HEADER_END + nodes + channels) / 8;
    }
    0
}

// Bytes that hold every drawing.
#[unsafe(no_mangle)]
pub extern "C" fn election_drawing_len(n: u32) -> usize
    ensures { result ≡ drawing_length n }
{
    drawing::drawing_length(n)
}

// Bytes of a list of histories.
#[unsafe(no_mangle)]
pub extern "C" fn election_histories_len(n: u32, length: u32) -> usize
    ensures { result ≡ list_length n length }
{
    histories::list_length(n, length)
}

// ---- tables

// The fresh network of n nodes.
#[unsafe(no_mangle)]
pub extern "C" fn election_fresh(n: u32, nodes: &mut [u32], channels: &mut [u32]) -> CheckReport
    ensures { outcome (said_check_report result) (tables nodes.new channels.new) ≡ fresh_on n (tables nodes.old channels.old) }
{
    CheckReport::from(lent::fresh(n, nodes, channels))
}

// Refusals 1, 2 and 18.
#[unsafe(no_mangle)]
pub extern "C" fn election_check(n: u32, nodes: &[u32], channels: &[u32]) -> CheckReport
    ensures { said_check_report result ≡ check_on n (tables nodes.now channels.now) }
{
    CheckReport::from(lent::check(n, nodes, channels))
}

// ---- events

// Channel u to v goes up, at u.
#[unsafe(no_mangle)]
pub extern "C" fn election_up(
    n: u32,
    u: u32,
    v: u32,
    nodes: &mut [u32],
    channels: &mut [u32],
) -> AnswerReport
    ensures channels_value { outcome (said_report result) (tables nodes.new channels.new) ≡ step_on n (up u v) (tables nodes.old channels.old) }
    ensures sent_value { result.sent ≡ ones result.sent_to }
{
    AnswerReport::from(election::up(n, u, v, nodes, channels))
}

// Channel u to v goes down, at u.
#[unsafe(no_mangle)]
pub extern "C" fn election_down(
    n: u32,
    u: u32,
    v: u32,
    nodes: &mut [u32],
    channels: &mut [u32],
) -> AnswerReport
    ensures channels_value { outcome (said_report result) (tables nodes.new channels.new) ≡ step_on n (down u v) (tables nodes.old channels.old) }
    ensures sent_value { result.sent ≡ ones result.sent_to }
{
    AnswerReport::from(election::down(n, u, v, nodes, channels))
}

// The first message of channel `from` to `to` is received, at `to`.
#[unsafe(no_mangle)]
pub extern "C" fn election_receive(
    n: u32,
    from: u32,
    to: u32,
    nodes: &mut [u32],
    channels: &mut [u32],
) -> AnswerReport
    ensures channels_value { outcome (said_report result) (tables nodes.new channels.new) ≡ step_on n (receive from to) (tables nodes.old channels.old) }
    ensures sent_value { result.sent ≡ ones result.sent_to }
{
    AnswerReport::from(election::receive(n, from, to, nodes, channels))
}

// ---- looks at a whole network

// 1 if the network is quiet, 0 if not.
#[unsafe(no_mangle)]
pub extern "C" fn election_quiet(n: u32, nodes: &[u32], channels: &[u32]) -> ValueReport
    ensures { said_value_report result ≡ quiet_on n (tables nodes.now channels.now) }
{
    ValueReport::from(groups::is_quiet(n, nodes, channels))
}

// The lowest members of all groups, as a set.
#[unsafe(no_mangle)]
pub extern "C" fn election_groups(n: u32, nodes: &[u32], channels: &[u32]) -> ValueReport
    ensures { said_value_report result ≡ heads_on n (tables nodes.now channels.now) }
{
    ValueReport::from(groups::heads(n, nodes, channels))
}

// The group of node u and its collectors.
#[unsafe(no_mangle)]
pub extern "C" fn election_group_of(n: u32, u: u32, nodes: &[u32], channels: &[u32]) -> GroupReport
    ensures result_value { said_group_report result ≡ group_on n u (tables nodes.now channels.now) }
    ensures collector_value { result.collector ≡ the_one result.collectors }
{
    GroupReport::from(groups::group_of(n, u, nodes, channels))
}

// ---- images

// How many nodes the header of an image names.
#[unsafe(no_mangle)]
pub extern "C" fn election_image_stations(image: &[u8]) -> ValueReport
    ensures { said_value_report result ≡ count_on image.now }
{
    ValueReport::from(image_snapshot::count(image))
}

// The image of the network goes to the front of `out`.
#[unsafe(no_mangle)]
pub extern "C" fn election_save(
    n: u32,
    nodes: &[u32],
    channels: &[u32],
    out: &mut [u8],
) -> SaveReport
    ensures { outcome (said_save_report result) out.new ≡ save_on n (tables nodes.now channels.now) out.old }
{
    SaveReport::from(image_snapshot::save(n, nodes, channels, out))
}

// The network of an image goes into the tables.
#[unsafe(no_mangle)]
pub extern "C" fn election_restore(
    image: &[u8],
    nodes: &mut [u32],
    channels: &mut [u32],
) -> CheckReport
    ensures { outcome (said_check_report result) (tables nodes.new channels.new) ≡ restore_on image.now (tables nodes.old channels.old) }
{
    CheckReport::from(image_snapshot::restore(image, nodes, channels))
}

// Node k of an image, where its record is said to start: the heights go into `row`.
#[unsafe(no_mangle)]
pub extern "C" fn election_read_node(
    image: &[u8],
    k: u32,
    place: u64,
    row: &mut [u32],
) -> NodeReport
    ensures { outcome (said_node_report result) row.new ≡ read_node_on image.now k place row.old }
{
    NodeReport::from(image_snapshot::read_node(image, k, place, row))
}

// ---- drawings

// The drawing of the network goes to the front of `out`.
#[unsafe(no_mangle)]
pub extern "C" fn election_draw(
    n: u32,
    nodes: &[u32],
    channels: &[u32],
    out: &mut [u8],
) -> SaveReport
    ensures { outcome (said_save_report result) out.new ≡ draw_on n (tables nodes.now channels.now) out.old }
{
    SaveReport::from(drawing::draw(n, nodes, channels, out))
}

// How many nodes a sketch has; 0 where the text is none.
#[unsafe(no_mangle)]
pub extern "C" fn election_sketch_stations(text: &[u8]) -> u32
    ensures { result ≡ nodes_of text.now }
{
    drawing::nodes_of(text)
}

// The network of a sketch goes into the tables.
#[unsafe(no_mangle)]
pub extern "C" fn election_read_sketch(
    text: &[u8],
    nodes: &mut [u32],
    channels: &mut [u32],
) -> CheckReport
    ensures { outcome (said_check_report result) (tables nodes.new channels.new) ≡ read_on text.now (tables nodes.old channels.old) }
{
    CheckReport::from(drawing::read(text, nodes, channels))
}

// ---- histories

// The list of all histories of a length goes to the front of `out`.
#[unsafe(no_mangle)]
pub extern "C" fn election_histories(n: u32, length: u32, out: &mut [u8]) -> ListReport
    ensures { outcome (said_list_report result) out.new ≡ list_on n length out.old }
{
    ListReport::from(histories::list(n, length, out))
}

// ---- heights

// Less, equal or greater, and where they part.
#[unsafe(no_mangle)]
pub extern "C" fn election_compare(a: GivenHeight, b: GivenHeight) -> ComparisonReport
    ensures { said_comparison_report result ≡ comparison (height_given a) (height_given b) }
{
    ComparisonReport::from(height::order::of_heights(Height::from(a), Height::from(b)))
}
