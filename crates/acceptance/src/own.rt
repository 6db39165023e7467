//! The rules for a view by itself.
ghost use Rattle.std.specs.Prelude.{◌≡◌, true};
ghost use Rattle.sets.specs.Members.{Iff};
ghost use Rattle.acceptance.specs.Rules.{OwnOperations};
ghost use Rattle.acceptance.specs.Checks.{Checked, of_view};

use crate::orders::Orders;
use crate::rejection::{Rejection, Rule};
use hierarchy::order::Hierarchy;
use records::View;
use views::rights::rights;
use views::single::{has_one_right, keeps_assignable, keeps_virtual};

impl<H: Hierarchy> Orders<'_, H> {
    // Whether rights are for operations of the controlled type only.
    fn has_own_operations(&self, view: &View) -> bool
        ensures { Iff (result ≡ true) (OwnOperations self.now.records.now view.now) }
    {
        rights(view).is_subset(self.operations(usize::from(view.controlled)))
    }

    /// Checks the view by itself.
    pub(crate) fn check_own(&self, view: &View) -> Result<(), Rejection>
        ensures { Checked (of_view self.now.records.now view.now) result }
    {
        Rule::TwoRights.require(has_one_right(view), view, None)?;
        Rule::ForeignOperation.require(self.has_own_operations(view), view, None)?;
        Rule::AssignableDenial.require(keeps_assignable(view), view, None)?;
        Rule::VirtualRight.require(keeps_virtual(view), view, None)
    }
}
