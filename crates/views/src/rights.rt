//! The rights of a view, as sets of operations.
ghost use Rattle.std.specs.Prelude.{◌≡◌, ℕ, true, ◌⊎◌};
ghost use Rattle.sets.specs.Members.{In, Iff};
ghost use Rattle.views.specs.Some.{Exists};
ghost use Rattle.views.specs.Rights.{Right, weak_permission, strong_permission, Has, Denies};

use records::View;
use sets::NumberSet;

/// The operations for which the view has a right.
pub fn rights(view: &View) -> NumberSet
    ensures { (o : ℕ) → Iff (In o result) ((x : Right) × Has view.now x o) }
{
    permissions(view).union(denials(view))
}

// One function with a mode for this and `denials` is no plainer: a call would name the mode in place of what it gets.
/// The operations that the view permits.
pub fn permissions(view: &View) -> NumberSet
    ensures { (o : ℕ) → Iff (In o result) (Has view.now weak_permission o ⊎ Has view.now strong_permission o) }
{
    view.weak.permitted.union(view.strong.permitted)
}

/// The operations that the view denies.
pub fn denials(view: &View) -> NumberSet
    ensures { (o : ℕ) → Iff (In o result) ((x : Right) × Denies x × Has view.now x o) }
{
    view.weak.denied.union(view.strong.denied)
}

/// Whether the set has a member.
pub fn has_member(set: NumberSet) -> bool
    ensures { Iff (result ≡ true) (Exists (λ k. In k set)) }
{
    set.lowest().is_some()
}

/// Whether the sets have no common member.
pub fn are_disjoint(a: NumberSet, b: NumberSet) -> bool
    ensures { Iff (result ≡ true) ((k : ℕ) → In k a → In k b → ⊥) }
{
    a.intersection(b).is_empty()
}
