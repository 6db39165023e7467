//! What a book's form is refused for.
ghost use Rattle.std.specs.Prelude.{◌≡◌};
ghost use Rattle.book.specs.Refusals.{number_of};

use thiserror::Error;

/// Why the form of a book is refused. Each case has the number that users see.
#[derive(Clone, Copy, PartialEq, Eq, Debug, Error)]
pub enum Refusal {
    /// The book is empty, or above 16,384 bytes.
    #[error("the book is empty, or has more than 16384 bytes")]
    Size = 1,
    /// The first byte is not 01.
    #[error("the first byte is not 01")]
    Version = 2,
    /// The kind byte is none, or lower than the one before.
    #[error("the kind byte is not 1 to 5, or is lower than the one before")]
    Order = 3,
    /// The book ends inside the record.
    #[error("the book ends inside the record")]
    Ends = 4,
    /// The map has a bit without a field, or a view lacks its controlled type.
    #[error("the map has a bit without a field, or the view has no controlled type")]
    Map = 5,
    /// A set that is present is empty, or modifiers are 0.
    #[error("a set is present and empty, or the modifiers are 0")]
    Empty = 6,
    /// There are as many records of the kind as may be.
    #[error("there are already as many records of this kind as there may be")]
    TooMany = 7,
    /// A number is not declared before, or modifiers are above 7.
    #[error("a number is not declared before, or the modifiers are above 7")]
    Undeclared = 8,
}

/// The number that users see.
impl From<Refusal> for u8 {
    ghost from_gives = { λ refusal number. number ≡ number_of refusal };

    fn from(refusal: Refusal) -> u8 {
        refusal as u8
    }
}

/// A refusal, with the place in the book: the offset of the record's kind byte, or 0 for the book as a whole.
#[derive(Clone, Copy, PartialEq, Eq, Debug, Error)]
#[error("refused {} at {place}: {refusal}", u8::from(*refusal))]
pub struct Fault {
    pub refusal: Refusal,
    pub place: usize,
}
