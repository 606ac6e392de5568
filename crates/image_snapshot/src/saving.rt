// A save of tables in which the check found no fault.
ghost use Rattle.std.specs.Prelude.{◌≡◌};
ghost use Rattle.image.specs.Image.{image};
ghost use Rattle.lent.specs.Check.{check_on};
ghost use Rattle.refusal.specs.Outcome.{outcome, put_front, said_as};
ghost use Rattle.tables.specs.Load.{load};
ghost use Rattle.tables.specs.Tables.{tables};

use refusal::Refusal;

// 14, or the image goes to the front of the bytes.
pub fn checked(n: u32, nodes: &[u32], channels: &[u32], out: &mut [u8]) -> Result<usize, Refusal>
    requires { (check_on n (tables nodes.now channels.now)).number ≡ 0 }
    ensures { outcome (said_as 0 result) out.new ≡ put_front (image n (load n (tables nodes.now channels.now))) out.old }
{
    let size = image_writing::image_length(n, nodes, channels);
    if out.len() < size {
        return Err(Refusal::NoRoom);
    }
    image_writing::write(n, nodes, channels, out);
    Ok(size)
}
