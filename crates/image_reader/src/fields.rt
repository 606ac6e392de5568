// Fields at a bit place of an image's bytes, of any length: the work of `take`.
// Every function but `field_at` takes anything.
ghost use Rattle.std.specs.Prelude.{◌≡◌, ◌+◌, ◌*◌, ◌≤◌, length};
ghost use Rattle.bits.specs.Bits.{field};
ghost use Rattle.refusal.specs.Outcome.{outcome, said_as};
ghost use Rattle.image_reader.specs.Fields.{stands_in, take_on};

use refusal::Refusal;

// Whether `width` bits from a bit place on stand inside the image.
pub fn inside(image: &[u8], at: usize, width: usize) -> bool
    ensures { result ≡ stands_in image.now at width }
{
    match at.checked_add(width) {
        Some(end) => end.div_ceil(8) <= image.len(),
        None => false,
    }
}

// The field at a bit place, from the byte on in which it starts.
fn field_at(image: &[u8], at: usize, width: usize) -> u32
    requires { (width ≤ 32) × (at + width ≤ 8 * length image.now) }
    ensures { result ≡ field image.now at width }
{
    let first = at / 8;
    bits::get(&image[first..], at % 8, width)
}

// The field at a bit place, which moves behind it.
pub fn take_at(image: &[u8], at: &mut usize, width: usize) -> Result<u32, Refusal>
    ensures { outcome (said_as 0 result) at.new ≡ take_on image.now at.old width }
{
    let start = *at;
    if (32 < width) | !inside(image, start, width) {
        return Err(Refusal::BadEnd);
    }
    let field = field_at(image, start, width);
    *at = start + width;
    Ok(field)
}
