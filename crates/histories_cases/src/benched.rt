// Histories on the bench, one by one.

// The event lines of a listing stand behind its first line, 21 bytes, and have 8 bytes each while all their numbers have one digit.
fn is_zero(listing: &[u8], k: u32) -> bool {
    let at = 21 + 8 * (k as usize);
    if listing.len() < at + 8 {
        return false;
    }
    (listing[at + 1] == b' ')
        & (listing[at + 2] == b'0')
        & (listing[at + 3] == b' ')
        & (listing[at + 7] == b'\n')
}

fn all_zero(listing: &[u8], length: u32) -> bool {
    if !(0..length).all(|k| is_zero(listing, k)) {
        return false;
    }
    let at = 21 + 8 * (length as usize);
    if listing.len() <= at {
        return false;
    }
    listing[at] == b's'
}

fn listed(out: &[u8], size: usize, length: u32) -> bool {
    if out.len() < size {
        return false;
    }
    all_zero(&out[..size], length)
}

// Each event of the input answers 0.
fn is_good(input: &[u8], length: u32, out: &mut [u8]) -> bool {
    match bench_run::run(input, out) {
        Ok(size) => listed(out, size, length),
        Err(_) => false,
    }
}

// How many histories of a text answer 0 to each event; each has 4 + 6 bytes for each event, of at most 5.
pub fn zeros(text: &[u8], length: u32) -> u32 {
    let width = 4 + 6 * ((length % 6) as usize);
    let mut out = [0; 256];
    let mut good: u32 = 0;
    for history in text.chunks_exact(width) {
        good = good.wrapping_add(u32::from(is_good(history, length, &mut out)));
    }
    good
}
