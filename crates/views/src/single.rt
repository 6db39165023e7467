//! The rules for a view by itself that need no order.
ghost use Rattle.std.specs.Prelude.{◌≡◌, true};
ghost use Rattle.sets.specs.Members.{Iff};
ghost use Rattle.views.specs.ViewRules.{OneRight, AssignableDeniesNothing, VirtualHasNone};

use crate::rights::{are_disjoint, denials, permissions, rights};
use records::View;
use records::modifiers::Modifier;

/// Whether no operation has two rights.
pub fn has_one_right(view: &View) -> bool
    ensures { Iff (result ≡ true) (OneRight view.now) }
{
    are_disjoint(view.weak.permitted, view.strong.permitted)
        && are_disjoint(view.weak.denied, view.strong.denied)
        && are_disjoint(permissions(view), denials(view))
}

/// Whether the view denies nothing where it is assignable.
pub fn keeps_assignable(view: &View) -> bool
    ensures { Iff (result ≡ true) (AssignableDeniesNothing view.now) }
{
    !view.is(Modifier::Assignable) || denials(view).is_empty()
}

/// Whether the view has no right where it is virtual.
pub fn keeps_virtual(view: &View) -> bool
    ensures { Iff (result ≡ true) (VirtualHasNone view.now) }
{
    !view.is(Modifier::Virtual) || rights(view).is_empty()
}
