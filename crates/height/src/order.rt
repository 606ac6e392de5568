// The orders of heights, levels and leader pairs: lexicographic, as signed numbers.
// There is one comparison, of heights; levels and pairs are parts of it. Callers use it and the tests at the end.
ghost use Rattle.std.specs.Prelude.{◌≡◌, [], ◌∷◌, pos};
ghost use Rattle.height.specs.Comparison.{comparison, order_of, said_order};
ghost use Rattle.height.specs.Height.{level_key, pair_key, height_key};
ghost use Rattle.height.specs.Order.{before, same};
ghost use Rattle.height.specs.inner.Parts.{and_then, is_less, is_equal};

use super::{Height, LeaderPair, ReferenceLevel};

// Less and greater have the place, 1 to 7 in the height, of the first number that differs.
#[derive(Clone, Copy)]
pub enum Order {
    Less(u32),
    Equal,
    Greater(u32),
}

impl Order {
    fn is_less(self) -> bool
        ensures { result ≡ is_less self }
    {
        matches!(self, Order::Less(_))
    }

    fn is_equal(self) -> bool
        ensures { result ≡ is_equal self }
    {
        matches!(self, Order::Equal)
    }
}

// A number as a signed one.
fn signed(x: u32) -> i64
    ensures { result ≡ pos x }
{
    x as i64
}

fn widened(x: i32) -> i64
    ensures { result ≡ x }
{
    x as i64
}

// The order of two numbers that stand at a place.
fn of_numbers(place: u32, a: i64, b: i64) -> Order
    ensures { result ≡ order_of place (a ∷ []) (b ∷ []) }
{
    if a < b {
        return Order::Less(place);
    }
    if b < a {
        return Order::Greater(place);
    }
    Order::Equal
}

// The order of two words that stand at a place.
fn of_words(place: u32, a: u32, b: u32) -> Order
    ensures { result ≡ order_of place (pos a ∷ []) (pos b ∷ []) }
{
    of_numbers(place, signed(a), signed(b))
}

// The first of two that decides.
fn and_then(first: Order, second: Order) -> Order
    ensures { result ≡ and_then first second }
{
    match first {
        Order::Less(place) => Order::Less(place),
        Order::Greater(place) => Order::Greater(place),
        Order::Equal => second,
    }
}

fn of_levels(a: ReferenceLevel, b: ReferenceLevel) -> Order
    ensures { result ≡ order_of 1 (level_key a) (level_key b) }
{
    let tau = of_words(1, a.tau.0, b.tau.0);
    let oid = of_words(2, a.oid, b.oid);
    let r = of_words(3, a.r, b.r);
    and_then(tau, and_then(oid, r))
}

fn of_pairs(a: LeaderPair, b: LeaderPair) -> Order
    ensures { result ≡ order_of 5 (pair_key a) (pair_key b) }
{
    let nlts = of_numbers(5, a.nlts.0, b.nlts.0);
    let lid = of_words(6, a.lid, b.lid);
    and_then(nlts, lid)
}

// The comparison of any two heights.
pub fn of_heights(a: Height, b: Height) -> Order
    ensures { said_order result ≡ comparison a b }
{
    let level = of_levels(a.level, b.level);
    let delta = of_numbers(4, widened(a.delta), widened(b.delta));
    let pair = of_pairs(a.pair, b.pair);
    let id = of_words(7, a.id, b.id);
    and_then(level, and_then(delta, and_then(pair, id)))
}

// ---- the tests that callers use

pub fn level_before(a: ReferenceLevel, b: ReferenceLevel) -> bool
    ensures { result ≡ before (level_key a) (level_key b) }
{
    of_levels(a, b).is_less()
}

pub fn level_same(a: ReferenceLevel, b: ReferenceLevel) -> bool
    ensures { result ≡ same (level_key a) (level_key b) }
{
    of_levels(a, b).is_equal()
}

pub fn pair_before(a: LeaderPair, b: LeaderPair) -> bool
    ensures { result ≡ before (pair_key a) (pair_key b) }
{
    of_pairs(a, b).is_less()
}

pub fn pair_same(a: LeaderPair, b: LeaderPair) -> bool
    ensures { result ≡ same (pair_key a) (pair_key b) }
{
    of_pairs(a, b).is_equal()
}

pub fn height_before(a: Height, b: Height) -> bool
    ensures { result ≡ before (height_key a) (height_key b) }
{
    of_heights(a, b).is_less()
}
