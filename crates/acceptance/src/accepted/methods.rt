//! Judging, loading and reading a book.
ghost use Rattle.std.specs.Prelude.{◌≡◌, IfOk, Ok, Err, MatchResult};
ghost use Rattle.book.specs.Contents.{nothing};
ghost use Rattle.book.specs.Declarations.{Declares, WithinLimits};
ghost use Rattle.acceptance.specs.Rules.{Rules};
ghost use Rattle.acceptance.specs.Judgement.{Judged, OneJudgement, AcceptedByRules};
ghost use Rattle.acceptance.specs.Laws.{Kept};

use super::Book;
use crate::judging::check;
use crate::rejection::Rejection;
use book::contents::Records;
use book::read::read;
use hierarchy::order::Hierarchy;

impl Book {
    /// The book of no record, with which a caller starts.
    #[tactic(auto, using(crate::proofs::Accepting::nothing_accepted))]
    pub fn empty() -> Book
        ensures { result.records ≡ nothing }
    {
        Book {
            records: Records::empty(),
        }
    }

    /// The judgement of a book, through the hierarchy `H`.
    #[tactic(auto, using(crate::proofs::Deciding::one_judgement, crate::proofs::Deciding::accepted_by_rules))]
    pub fn judge<H: Hierarchy + Drop>(bytes: &[u8]) -> Result<Book, Rejection>
        ensures judged { MatchResult result (λ b. Judged bytes.now (Ok b.records)) (λ e. Judged bytes.now (Err e)) }
        ensures kept { IfOk result (λ b. Kept b.records) }
        ensures single { OneJudgement }
        ensures rules { AcceptedByRules }
    {
        let records = read(bytes)?;
        check::<H>(&records)?;
        Ok(Book { records })
    }

    /// Replaces the book by another where that is accepted; a rejected one leaves it as it was.
    pub fn load<H: Hierarchy + Drop>(&mut self, bytes: &[u8]) -> Result<(), Rejection>
        ensures { MatchResult result (λ _. Judged bytes.now (Ok self.new.records)) (λ e. Judged bytes.now (Err e) × (self.new ≡ self.old)) }
    {
        *self = Book::judge::<H>(bytes)?;
        Ok(())
    }

    /// The records: whoever has a book has its rules.
    pub fn records(&self) -> &Records
        ensures records { result.now ≡ self.now.records }
        ensures declared { Declares result.now }
        ensures within { WithinLimits result.now }
        ensures rules { Rules result.now }
        ensures kept { Kept result.now }
    {
        &self.records
    }
}
