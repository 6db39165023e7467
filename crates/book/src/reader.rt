//! A book's bytes, handed out record by record.
ghost use Rattle.std.specs.Prelude.{◌≡◌, ◌≤◌, min, length};
ghost use Rattle.book.specs.Reading.{Hands};

use crate::part::Part;
use crate::phase::Phase;
use crate::position::Position;
use crate::refusal::Fault;

/// A reader of a book's records. It borrows the book, and hands out its parts in their order.
// A project rule asks for a reader over the lent book whose parts borrow it.
#[derive(Drop)]
pub struct Reader<'a> {
    book: &'a [u8],
    position: Position,
    ghost within: { position.at ≤ length book.now },
}

impl<'a> Reader<'a> {
    /// A reader before the first record, which stands behind the first byte.
    pub fn new(book: &'a [u8]) -> Reader<'a>
        ensures { (result.book.now ≡ book.now) × (result.position ≡ record { at = min 1 (length book.now); phase = Phase.Types; number = 0 }) }
    {
        let at = if book.is_empty() { 0 } else { 1 };
        let position = Position {
            at,
            phase: Phase::Types,
            number: 0,
        };
        Reader { book, position }
    }

    // No `Iterator` is plainer: it owes an end, and a refused reader stays as it was, to be refused again.
    /// The next record of the book, none at its end. A refused reader stays as it was.
    pub fn next(&mut self) -> Result<Option<Part<'a>>, Fault>
        ensures book { self.new.book.now ≡ self.old.book.now }
        ensures handed { Hands self.old.book.now self.old.position result self.new.position }
    {
        let place = self.position.at;
        let bytes = &self.book[place..];
        if bytes.is_empty() {
            return Ok(None);
        }
        let (next, size) = self
            .position
            .cut(bytes)
            .map_err(|refusal| Fault { refusal, place })?;
        self.position = Position {
            at: place + size,
            number: next.number + 1,
            ..next
        };
        Ok(Some(Part {
            phase: next.phase,
            place,
            bytes: &bytes[..size],
        }))
    }
}
