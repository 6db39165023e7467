//! The rules for a view and one that it extends that need no order.
ghost use Rattle.std.specs.Prelude.{◌≡◌, true};
ghost use Rattle.sets.specs.Members.{Iff};
ghost use Rattle.views.specs.ViewRules.{RequirementsFollow, RightsFollow};

use crate::rights::{denials, permissions, rights};
use records::View;
use records::modifiers::Modifier;

/// Whether required views and static are taken over.
pub fn requirements_follow(view: &View, base: &View) -> bool
    ensures { Iff (result ≡ true) (RequirementsFollow view.now base.now) }
{
    base.required.is_subset(view.required)
        && (!base.is(Modifier::Static) || view.is(Modifier::Static))
}

/// Whether the rights are those of the base in an allowed form, and new ones permit.
pub fn rights_follow(view: &View, base: &View) -> bool
    ensures { Iff (result ≡ true) (RightsFollow view.now base.now) }
{
    base.weak.permitted.is_subset(permissions(view))
        && base.strong.permitted.is_subset(view.strong.permitted)
        && base.weak.denied.is_subset(rights(view))
        && base.strong.denied.is_subset(view.strong.denied)
        && denials(view).is_subset(rights(base))
}
