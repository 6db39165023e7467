//! Two views with strong rights of opposite mode.
ghost use Rattle.std.specs.Prelude.{◌≡◌, true};
ghost use Rattle.sets.specs.Members.{Iff};
ghost use Rattle.views.specs.Some.{Exists};
ghost use Rattle.views.specs.ViewRules.{Opposed};

use crate::rights::has_member;
use records::View;

/// Whether the views hold strong rights of opposite mode for some operation.
pub fn are_opposed(view: &View, other: &View) -> bool
    ensures { Iff (result ≡ true) (Exists (λ o. Opposed view.now other.now o)) }
{
    has_member(view.strong.permitted.intersection(other.strong.denied))
        || has_member(view.strong.denied.intersection(other.strong.permitted))
}
