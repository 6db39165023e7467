//! The accepted book.
ghost use Rattle.book.specs.Declarations.{WithinLimits};
ghost use Rattle.acceptance.specs.Rules.{Accepted};

use book::contents::Records;

// The methods stand in a file of their own, since a type with a ghost field imports all that its file imports.
pub mod methods;

/// A book that was accepted: its records keep every rule, for as long as it exists.
#[derive(Drop)]
pub struct Book {
    records: Records,
    ghost accepted: { ∥ Accepted records ∥₁ },
    ghost within: { WithinLimits records },
}
