//! A book's records, or why its form is refused, as text.
ghost use Rattle.std.specs.Prelude.{IfOk};
ghost use Rattle.book.specs.Declarations.{WithinLimits};
ghost use Rattle.listing.specs.Reports.{Reports};

use crate::listed::Listed;
use book::contents::Records;
use book::read::read;
use book::refusal::Fault;
use std::fmt;

/// What there is to say of a book.
#[derive(Drop)]
pub struct Report {
    /// Its records, or why and where its form is refused.
    pub outcome: Result<Records, Fault>,
}

/// Reads a book, to be reported on.
pub fn report_on(book: &[u8]) -> Report
    ensures reports { Reports result book.now }
    ensures within { IfOk result.outcome (λ t. WithinLimits t) }
{
    Report {
        outcome: read(book),
    }
}

impl fmt::Display for Report {
    fn fmt<W: fmt::Write>(&self, f: &mut fmt::Formatter<W>) -> fmt::Result {
        match &self.outcome {
            Ok(records) => write!(f, "{}", Listed::plain(records)),
            Err(fault) => writeln!(f, "{fault}"),
        }
    }
}
