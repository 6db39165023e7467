//! Roles at or below others.
ghost use Rattle.std.specs.Prelude.{◌≡◌, ℕ, true};
ghost use Rattle.sets.specs.Members.{In, Iff};
ghost use Rattle.views.specs.Some.{Exists};

use hierarchy::order::Hierarchy;
use sets::NumberSet;

// Whether the number lies at or below a member of the set.
fn is_below_some<H: Hierarchy>(order: &H, number: usize, set: NumberSet) -> bool
    ensures { Iff (result ≡ true) (Exists (λ s. In s set × H.Hierarchy.pairs order.now number s)) }
{
    set.iter().any(|above| order.at_or_below(number, above))
}

/// Whether each member of a set lies at or below a member of the other.
pub fn are_below<H: Hierarchy>(order: &H, set: NumberSet, other: NumberSet) -> bool
    ensures { Iff (result ≡ true) ((k : ℕ) → In k set → Exists (λ s. In s other × H.Hierarchy.pairs order.now k s)) }
{
    set.iter().all(|number| is_below_some(order, number, other))
}
