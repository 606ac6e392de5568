// A restore behind its header.
ghost use Rattle.std.specs.Prelude.{◌≡◌, ◌≤◌};
ghost use Rattle.bits.specs.Bits.{unpacked};
ghost use Rattle.lent.specs.Check.{said_check};
ghost use Rattle.refusal.specs.Outcome.{outcome};
ghost use Rattle.image_snapshot.specs.Restore.{restore_of};
ghost use Rattle.tables.specs.Tables.{tables};

use refusal::Refusal;

// An image of n nodes: 1, then the checks, and only then the tables are written.
pub fn headed(image: &[u8], n: u32, nodes: &mut [u32], channels: &mut [u32]) -> Result<(), Refusal>
    requires { (1 ≤ n) × (n ≤ 16) }
    ensures { outcome (said_check result) (tables nodes.new channels.new) ≡ restore_of n (unpacked image.now) (tables nodes.old channels.old) }
{
    if !lent::is_sized(n, nodes, channels) {
        return Err(Refusal::Sizes);
    }
    image_reading::examine(image, n)?;
    image_reading::read_tables(image, n, nodes, channels);
    Ok(())
}
