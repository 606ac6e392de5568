// A height as seven words of a lent table: tau, oid, r, delta (two's complement), the election time as a positive number, lid, id.
// These are leaves: only our crates call them, with the bounds that `requires` states.
ghost use Rattle.std.specs.Prelude.{◌≡◌, ◌+◌, ◌≤◌, length, neg_ℤ, pos, nat_abs};
ghost use Rattle.height.specs.Words.{height_size, delta_of, delta_word, leader_pair_of, height_at};
ghost use Rattle.height.specs.inner.Stored.{stored_at, Negated};

use super::{Height, LeaderPair, NegatedTime, ReferenceLevel, Time};

// Words of a height.
pub const HEIGHT_SIZE: usize = 7;

// A word as two's complement.
pub fn delta_of(word: u32) -> i32
    ensures { result ≡ delta_of word }
{
    if word < 2147483648 {
        return word as i32;
    }
    let below = (4294967295 - word) as i32;
    -1 - below
}

pub fn delta_word(delta: i32) -> u32
    ensures { result ≡ delta_word delta }
{
    if delta < 0 {
        let below = (-1 - delta) as u32;
        return 4294967295 - below;
    }
    delta as u32
}

// An election time with its sign, and without it.
pub fn nlts_of(word: u32) -> NegatedTime
    ensures { result.0 ≡ neg_ℤ (pos word) }
{
    NegatedTime(0 - (word as i64))
}

pub fn nlts_word(nlts: NegatedTime) -> u32
    requires { Negated nlts.0 }
    ensures { result ≡ nat_abs nlts.0 }
{
    (0 - nlts.0) as u32
}

// The leader pair of an election time without its sign, and a leader.
pub fn pair_of(elected: u32, lid: u32) -> LeaderPair
    ensures { (result ≡ leader_pair_of elected lid) × Negated result.nlts.0 }
{
    let nlts = nlts_of(elected);
    LeaderPair { nlts, lid }
}

// The height whose words stand from `at`.
pub fn load_height(words: &[u32], at: usize) -> Height
    requires { at + height_size ≤ length words.now }
    ensures { (result ≡ height_at words.now at) × Negated result.pair.nlts.0 }
{
    let level = ReferenceLevel {
        tau: Time(words[at]),
        oid: words[at + 1],
        r: words[at + 2],
    };
    let delta = delta_of(words[at + 3]);
    let pair = pair_of(words[at + 4], words[at + 5]);
    Height {
        level,
        delta,
        pair,
        id: words[at + 6],
    }
}

// The height's words, from `at`.
pub fn store_height(words: &mut [u32], at: usize, h: Height)
    requires { (at + height_size ≤ length words.old) × Negated h.pair.nlts.0 }
    ensures { words.new ≡ stored_at words.old at h }
{
    words[at] = h.level.tau.0;
    words[at + 1] = h.level.oid;
    words[at + 2] = h.level.r;
    words[at + 3] = delta_word(h.delta);
    words[at + 4] = nlts_word(h.pair.nlts);
    words[at + 5] = h.pair.lid;
    words[at + 6] = h.id;
}
