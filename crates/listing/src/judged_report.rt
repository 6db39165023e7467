//! A book's records, and whether it is accepted or why it is refused, as text.
ghost use Rattle.listing.specs.JudgedReports.{JudgedReports, HoldsWithinLimits};

use crate::listed::Listed;
use crate::refused::Explained;
use acceptance::accepted::Book;
use acceptance::rejection::Rejection;
use book::contents::Records;
use book::read::read;
use book::refusal::Fault;
use hierarchy::kept::Kept;
use std::fmt;

/// What there is to say of a book.
// Three outcomes, so a result in a result is no plainer. No comparison: a derived one would compare the places of a table
// behind its last item, which clauses do not see.
#[derive(Drop)]
pub enum JudgedReport {
    /// The accepted book.
    Accepted(Book),
    /// The records of a book whose form is right, and the rejection by a rule.
    Rejected(Records, Rejection),
    /// Why and where its form is refused.
    Refused(Fault),
}

/// Reads and judges a book, to be reported on.
pub fn judged_report_on(book: &[u8]) -> JudgedReport
    ensures reports { JudgedReports result book.now }
    ensures within { HoldsWithinLimits result }
{
    // Three outcomes come from two results, so no combinator is plainer than this match.
    match Book::judge::<Kept>(book) {
        Ok(accepted) => JudgedReport::Accepted(accepted),
        Err(rejection) => match read(book) {
            Ok(records) => JudgedReport::Rejected(records, rejection),
            Err(fault) => JudgedReport::Refused(fault),
        },
    }
}

impl fmt::Display for JudgedReport {
    fn fmt<W: fmt::Write>(&self, f: &mut fmt::Formatter<W>) -> fmt::Result {
        match self {
            JudgedReport::Accepted(book) => {
                writeln!(f, "{}accepted", Listed::inheriting(book.records()))
            }
            JudgedReport::Rejected(records, rejection) => {
                let why = Explained {
                    views: records.views.as_slice(),
                    rejection: *rejection,
                };
                writeln!(f, "{}{why}", Listed::inheriting(records))
            }
            JudgedReport::Refused(fault) => writeln!(f, "{fault}"),
        }
    }
}
