//! One check of a rule.
ghost use Rattle.std.specs.Prelude.{◌≡◌, true, false, MatchResult};
ghost use Rattle.acceptance.specs.Rejections.{breach};

use crate::rejection::{Rejection, Rule};
use records::View;

impl Rule {
    /// Rejects the view by this rule, unless what it asks holds.
    pub(crate) fn require(
        self,
        holds: bool,
        view: &View,
        other: Option<usize>,
    ) -> Result<(), Rejection>
        ensures { MatchResult result (λ _. holds ≡ true) (λ e. (holds ≡ false) × (e ≡ breach self view.now other)) }
    {
        if holds {
            Ok(())
        } else {
            Err(Rejection::of_rule(self, view, other))
        }
    }
}
