//! The judgement of a book, as the line that programs print.
ghost use Rattle.std.specs.Prelude.{◌≡◌};
ghost use Rattle.listing.specs.Judgements.{Judges};

use acceptance::accepted::Book;
use acceptance::rejection::Rejection;
use hierarchy::order::Hierarchy;
use std::fmt;

/// How a book is judged.
#[derive(Clone, Copy, PartialEq, Eq, Debug)]
pub struct Judgement {
    /// It is accepted, or why and where it is rejected.
    pub outcome: Result<(), Rejection>,
}

impl From<Result<(), Rejection>> for Judgement {
    ghost from_gives = { λ outcome judgement. judgement.outcome ≡ outcome };

    fn from(outcome: Result<(), Rejection>) -> Judgement {
        Judgement { outcome }
    }
}

/// Judges a book, through the hierarchy `H`.
pub fn judgement_of<H: Hierarchy + Drop>(book: &[u8]) -> Judgement
    ensures { Judges result book.now }
{
    Judgement {
        outcome: Book::judge::<H>(book).map(|_| ()),
    }
}

impl fmt::Display for Judgement {
    fn fmt<W: fmt::Write>(&self, f: &mut fmt::Formatter<W>) -> fmt::Result {
        let Err(rejection) = self.outcome else {
            return write!(f, "book ok");
        };
        let number = u8::from(rejection.reason);
        write!(f, "book no {number} {} ", rejection.place)?;
        match rejection.other {
            Some(other) => write!(f, "{other}"),
            None => write!(f, "-"),
        }
    }
}
