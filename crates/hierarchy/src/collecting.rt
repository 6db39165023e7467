//! What hangs on a number and on everything above it.
ghost use Rattle.std.specs.Prelude.{◌≡◌, ℕ, map};
ghost use Rattle.sets.specs.Members.{In, Iff};
ghost use Rattle.hierarchy.specs.Order.{Collected};
ghost use Rattle.sets.specs.declared.NumberSet.{NumberSet};

use crate::order::Hierarchy;
use sets::NumberSet;

/// A record on which numbers hang.
pub trait Carrier {
    /// The numbers that hang on it.
    ghost carried: { Self → NumberSet };

    /// The numbers that hang on it.
    fn carried(&self) -> NumberSet
        ensures { result ≡ carried self.now };
}

// A project rule asks for one generic function under the hierarchy's bound.
/// What hangs on a number and on everything above it.
pub fn collect<H: Hierarchy, R: Carrier>(order: &H, records: &[R], number: usize) -> NumberSet
    ensures { (k : ℕ) → Iff (In k result) (Collected (H.Hierarchy.pairs order.now) (map R.Carrier.carried records.now) number k) }
{
    let mut all = NumberSet::empty();
    for (place, record) in records.iter().enumerate() {
        if order.at_or_below(number, place) {
            all = all.union(record.carried());
        }
    }
    all
}
