//! Judging the records of a book.
ghost use Rattle.std.specs.Prelude.{ℕ, ◌<◌, ◌++◌, length};
ghost use Rattle.sets.specs.Members.{In};
ghost use Rattle.book.specs.Declarations.{Declares};
ghost use Rattle.acceptance.specs.Checks.{Checked, of_view, of_base, of_view_and_bases, of_pair, up_to, checks};

use crate::orders::Orders;
use crate::rejection::{Rejection, Rule};
use book::contents::Records;
use hierarchy::order::Hierarchy;
use records::View;

impl<H: Hierarchy> Orders<'_, H> {
    // Checks the view by itself, and then against its bases.
    fn check_view(&self, view: &View) -> Result<(), Rejection>
        requires { (k : ℕ) → In k view.now.bases → k < length self.now.records.now.views }
        ensures { Checked (of_view self.now.records.now view.now ++ up_to (length self.now.records.now.views) (of_base self.now.records.now view.now)) result }
    {
        self.check_own(view)?;
        self.check_bases(view)
    }

    // Checks the views, in rising order.
    fn check_views(&self) -> Result<(), Rejection>
        ensures { Checked (up_to (length self.now.records.now.views) (of_view_and_bases self.now.records.now)) result }
    {
        for view in self.records.views.as_slice() {
            self.check_view(view)?;
        }
        Ok(())
    }

    // Checks that no two views clash.
    fn check_pairs(&self) -> Result<(), Rejection>
        ensures { Checked (up_to (length self.now.records.now.views) (λ i. up_to (length self.now.records.now.views) (of_pair self.now.records.now i))) result }
    {
        match self.first_clash() {
            Some((first, second)) => Err(Rejection::of_rule(
                Rule::Clashing,
                self.view(first),
                Some(second),
            )),
            None => Ok(()),
        }
    }
}

/// Checks the records: view by view, and then pair by pair.
pub(crate) fn check<H: Hierarchy + Drop>(records: &Records) -> Result<(), Rejection>
    requires { Declares records.now }
    ensures { Checked (checks records.now) result }
{
    let orders = Orders::<H>::of(records);
    orders.check_views()?;
    orders.check_pairs()
}
