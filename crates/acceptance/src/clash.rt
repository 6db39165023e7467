//! The rule for two views that are not related.
ghost use Rattle.std.specs.Prelude.{◌≡◌, ◌<◌, true, length};
ghost use Rattle.sets.specs.Members.{Iff};
ghost use Rattle.acceptance.specs.Rules.{Rivals, Shared};
ghost use Rattle.acceptance.specs.Checks.{FirstClash};

use crate::orders::Orders;
use hierarchy::order::Hierarchy;
use views::opposing::are_opposed;

impl<H: Hierarchy> Orders<'_, H> {
    // Whether neither view extends the other, and they are opposed.
    fn are_rivals(&self, first: usize, second: usize) -> bool
        requires first { first < length self.now.records.now.views }
        requires second { second < length self.now.records.now.views }
        ensures { Iff (result ≡ true) (Rivals self.now.records.now first second) }
    {
        !self.view_is_below(first, second)
            && !self.view_is_below(second, first)
            && are_opposed(self.view(first), self.view(second))
    }

    // Whether the type is at or below both controlled types.
    fn is_shared(&self, number: usize, first: usize, second: usize) -> bool
        requires first { first < length self.now.records.now.views }
        requires second { second < length self.now.records.now.views }
        ensures { Iff (result ≡ true) (Shared self.now.records.now first second number) }
    {
        self.type_is_below(number, usize::from(self.view(first).controlled))
            && self.type_is_below(number, usize::from(self.view(second).controlled))
    }

    /// The first two views that clash: the lowest first, and with it the lowest second.
    pub(crate) fn first_clash(&self) -> Option<(usize, usize)>
        ensures { FirstClash self.now.records.now result }
    {
        let views = self.records.views.len();
        let types = self.records.types.len();
        let mut found = None;
        // Nested loops that are left by a label: a rule of the project asks for this form.
        'pairs: for first in 0..views {
            for second in first + 1..views {
                if self.are_rivals(first, second) {
                    for kind in 0..types {
                        if self.is_shared(kind, first, second) {
                            found = Some((first, second));
                            break 'pairs;
                        }
                    }
                }
            }
        }
        found
    }
}
