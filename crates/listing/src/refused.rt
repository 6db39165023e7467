//! Why a book is rejected, as text for its author.
ghost use Rattle.std.specs.Prelude.{◌≡◌, ◌<◌, length, MatchOption, slice_index_or};
ghost use Rattle.book.specs.Declarations.{no_view};
ghost use Rattle.listing.specs.JudgedReports.{NoneAt};

use acceptance::rejection::{Reason, Rejection, Rule};
use records::View;
use std::fmt;

// The number of the first view with that place.
fn view_at(views: &[View], place: usize) -> Option<usize>
    ensures { MatchOption result (NoneAt views.now place (length views.now)) (λ n. (n < length views.now) × ((slice_index_or views.now n no_view).place ≡ place) × NoneAt views.now place n) }
{
    views.iter().position(|view| view.place == place)
}

// The views that break a rule, and how they break it.
#[derive(Clone, Copy)]
struct Broken {
    rule: Rule,
    view: usize,
    other: Option<usize>,
}

impl fmt::Display for Broken {
    fn fmt<W: fmt::Write>(&self, f: &mut fmt::Formatter<W>) -> fmt::Result {
        write!(f, "view {}", self.view)?;
        match (self.rule, self.other) {
            (Rule::Clashing, Some(second)) => write!(f, " and view {second}")?,
            (_, Some(base)) => write!(f, " against its base view {base}")?,
            (_, None) => {}
        }
        write!(f, ": {}", self.rule)
    }
}

/// A rejection, the views that it is about, and what it means.
#[derive(Clone, Copy)]
pub(crate) struct Explained<'a> {
    pub views: &'a [View],
    pub rejection: Rejection,
}

impl fmt::Display for Explained<'_> {
    fn fmt<W: fmt::Write>(&self, f: &mut fmt::Formatter<W>) -> fmt::Result {
        let Rejection {
            reason,
            place,
            other,
        } = self.rejection;
        match (reason, view_at(self.views, place)) {
            (Reason::OfRule(rule), Some(view)) => {
                let number = u8::from(rule);
                let broken = Broken { rule, view, other };
                write!(f, "refused {number} at {place}: {broken}")
            }
            _ => write!(f, "{}", self.rejection),
        }
    }
}
