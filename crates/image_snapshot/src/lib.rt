// Images of networks: save, restore, one node at a saved place, and how many nodes an image is of.
// Every call answers or refuses; a refusal changes nothing lent.
#![tactic(auto)]

ghost use Rattle.std.specs.Prelude.{◌≡◌};
ghost use Rattle.image_reader.specs.Record.{no_node};
ghost use Rattle.image_reading.specs.Header.{no_fields};
ghost use Rattle.lent.specs.Check.{said_check};
ghost use Rattle.refusal.specs.Outcome.{outcome, said_as};
ghost use Rattle.refusal.specs.Refusal.{why_of};
ghost use Rattle.image_snapshot.specs.Count.{count_on};
ghost use Rattle.image_snapshot.specs.ReadNode.{read_node_on};
ghost use Rattle.image_snapshot.specs.Restore.{restore_on};
ghost use Rattle.image_snapshot.specs.Save.{save_on};
ghost use Rattle.tables.specs.Tables.{tables};

use image_reading::Fields;
use refusal::Refusal;

mod looking;
mod restoring;
mod saving;

// What a look at one node gives: its clock and both sets.
pub use image_reader::NodeRecord;

// The image of the network that the tables hold goes to the front of `out`: its length in bytes, or sizes (1), the pair at fault (2) or
// untimely (18), too little room (14).
pub fn save(n: u32, nodes: &[u32], channels: &[u32], out: &mut [u8]) -> Result<usize, Refusal>
    ensures { outcome (said_as 0 result) out.new ≡ save_on n (tables nodes.now channels.now) out.old }
{
    lent::check(n, nodes, channels)?;
    saving::checked(n, nodes, channels, out)
}

// How many nodes the image is of, by its header alone: what tables to lend for a restore; or 10, 11.
pub fn count(image: &[u8]) -> Result<u32, Refusal>
    ensures { said_as 0 result ≡ count_on image.now }
{
    let fields = image_reading::decode(image)?;
    Ok(fields.n)
}

// Why a header that is not good is turned away.
fn turned_away(header: Result<Fields, Refusal>) -> Refusal
    requires { (said_as no_fields header).why.number ≡ 0 → ⊥ }
    ensures { why_of result ≡ (said_as no_fields header).why }
{
    match header {
        Ok(_) => Refusal::BadHeader,
        Err(why) => why,
    }
}

// The network of an image goes into the tables: 10, 11, 1, 2, 12, 18, or done (0).
pub fn restore(image: &[u8], nodes: &mut [u32], channels: &mut [u32]) -> Result<(), Refusal>
    ensures { outcome (said_check result) (tables nodes.new channels.new) ≡ restore_on image.now (tables nodes.old channels.old) }
{
    let header = image_reading::decode(image);
    let Ok(fields) = header else {
        return Err(turned_away(header));
    };
    restoring::headed(image, fields.n, nodes, channels)
}

// Node k of an image, where its record is said to start: the heights go into `row`. As a restore, then 3 and 13.
pub fn read_node(image: &[u8], k: u32, place: u64, row: &mut [u32]) -> Result<NodeRecord, Refusal>
    ensures { outcome (said_as no_node result) row.new ≡ read_node_on image.now k place row.old }
{
    let header = image_reading::decode(image);
    let Ok(fields) = header else {
        return Err(turned_away(header));
    };
    looking::headed(image, fields, k, place, row)
}
