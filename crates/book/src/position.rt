//! Where a reader stands in a book, and which record stands there.
ghost use Rattle.std.specs.Prelude.{◌≡◌, ◌≤◌, Ok, Err, length, MatchOption, MatchResult};
ghost use Rattle.book.specs.declared.refusal.Refusal.TheVariants.{Order};
ghost use Rattle.book.specs.Form.{opened, cut, whole, broken};
ghost use Rattle.book.specs.FormLaws.{numbered};

use crate::layout::{measure, most};
use crate::phase::Phase;
use crate::refusal::Refusal;

/// A place in the book, the kind of the record before it, and how many of that kind there were.
#[derive(Clone, Copy, PartialEq, Eq, Debug)]
pub struct Position {
    pub at: usize,
    pub phase: Phase,
    pub number: usize,
}

impl Position {
    // Goes over to another kind.
    fn enter(&mut self, phase: Phase)
        ensures { (self.new.phase ≡ phase) × (self.new.number ≡ 0) × (self.new.at ≡ self.old.at) }
    {
        self.phase = phase;
        self.number = 0;
    }

    // Goes on to a record of that kind byte; refused where the byte is no kind, or a lower one.
    // A project rule asks that the phase be matched with the kind byte as it stands in the book, and changed in place.
    fn open(&mut self, kind: u8) -> Result<(), Refusal>
        ensures { MatchOption (opened self.old.phase kind) ((result ≡ Err Order) × (self.new ≡ self.old)) (λ q. (result ≡ Ok tt) × (self.new.phase ≡ q) × (self.new.number ≡ numbered self.old.phase self.old.number q)) }
    {
        match (self.phase, kind) {
            (Phase::Types, 1) => {}
            (Phase::Types, 2) => self.enter(Phase::Roles),
            (Phase::Roles, 2) => {}
            (Phase::Types | Phase::Roles, 3) => self.enter(Phase::Groups),
            (Phase::Groups, 3) => {}
            (Phase::Types | Phase::Roles | Phase::Groups, 4) => self.enter(Phase::Views),
            (Phase::Views, 4) => {}
            (Phase::Types | Phase::Roles | Phase::Groups | Phase::Views, 5) => self.enter(
                Phase::Subjects,
            ),
            (Phase::Subjects, 5) => {}
            _ => return Err(Refusal::Order),
        }
        Ok(())
    }

    /// The record at the front of the bytes: a position with its kind and how many of the kind came before, and its length.
    pub(crate) fn cut(self, bytes: &[u8]) -> Result<(Position, usize), Refusal>
        requires { 1 ≤ length bytes.now }
        ensures { MatchResult result (λ x. (cut self.phase (numbered self.phase self.number) bytes.now ≡ whole x.0.phase x.1) × (x.0.number ≡ numbered self.phase self.number x.0.phase)) (λ e. cut self.phase (numbered self.phase self.number) bytes.now ≡ broken e) }
    {
        let mut next = self;
        next.open(bytes[0])?;
        if next.number >= most(next.phase) {
            return Err(Refusal::TooMany);
        }
        let [_kind, map, rest @ ..] = bytes else {
            return Err(Refusal::Ends);
        };
        let size = measure(next.phase, *map).ok_or(Refusal::Map)?;
        if rest.len() < size {
            return Err(Refusal::Ends);
        }
        Ok((next, 2 + size))
    }
}
