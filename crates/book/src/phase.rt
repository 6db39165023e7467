//! The kinds of records, in the order in which a book has them.

/// The part of the book that a record belongs to. Its number is the record's kind byte.
#[derive(Clone, Copy, PartialEq, Eq, Debug)]
pub enum Phase {
    Types = 1,
    Roles = 2,
    Groups = 3,
    Views = 4,
    Subjects = 5,
}
