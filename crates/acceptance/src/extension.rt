//! The rules for a view and a base that it names.
ghost use Rattle.std.specs.Prelude.{◌≡◌, ℕ, ◌<◌, true, length};
ghost use Rattle.sets.specs.Members.{In, Iff};
ghost use Rattle.book.specs.Declarations.{view_at};
ghost use Rattle.acceptance.specs.Rules.{TypeFollows, RestrictionFollows};
ghost use Rattle.acceptance.specs.Checks.{Checked, of_base, up_to};

use crate::orders::Orders;
use crate::rejection::{Rejection, Rule};
use hierarchy::order::Hierarchy;
use records::View;
use views::extending::{requirements_follow, rights_follow};
use views::rights::has_member;

impl<H: Hierarchy> Orders<'_, H> {
    // Whether the controlled type is at or below that of the base.
    fn type_follows(&self, view: &View, base: &View) -> bool
        ensures { Iff (result ≡ true) (TypeFollows self.now.records.now view.now base.now) }
    {
        self.type_is_below(usize::from(view.controlled), usize::from(base.controlled))
    }

    // Whether the restriction follows that of the base.
    fn restriction_follows(&self, view: &View, base: &View) -> bool
        ensures { Iff (result ≡ true) (RestrictionFollows self.now.records.now view.now base.now) }
    {
        !has_member(base.restriction)
            || has_member(view.restriction)
                && self.roles_are_below(view.restriction, base.restriction)
    }

    // Checks the view against a base that it names, the view of that number.
    fn check_base(&self, view: &View, number: usize) -> Result<(), Rejection>
        requires named { In number view.now.bases }
        requires there { number < length self.now.records.now.views }
        ensures { Checked (of_base self.now.records.now view.now number) result }
    {
        let base = self.view(number);
        let other = Some(number);
        Rule::ControlledType.require(self.type_follows(view, base), view, other)?;
        Rule::RoleRestriction.require(self.restriction_follows(view, base), view, other)?;
        Rule::Requirement.require(requirements_follow(view, base), view, other)?;
        Rule::Redefinition.require(rights_follow(view, base), view, other)
    }

    /// Checks the view against its bases, in rising order.
    pub(crate) fn check_bases(&self, view: &View) -> Result<(), Rejection>
        requires { (k : ℕ) → In k view.now.bases → k < length self.now.records.now.views }
        ensures { Checked (up_to (length self.now.records.now.views) (of_base self.now.records.now view.now)) result }
    {
        for number in view.bases.iter() {
            self.check_base(view, number)?;
        }
        Ok(())
    }
}
