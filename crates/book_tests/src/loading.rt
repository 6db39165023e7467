//! Loading: an accepted book replaces the one before, and a rejected one leaves it.
use crate::checks::{check, check_eq};
use crate::judged::check_accepted;
use crate::made::{ViewFields, book_of};
use crate::worked::BOOK;
use acceptance::accepted::Book;
use hierarchy::kept::Kept;
use std::test::Fail;

#[test]
fn accepted_books() -> Result<(), Fail> {
    check_accepted(&[1])?;
    check_accepted(&BOOK)
}

#[test]
fn an_accepted_book_replaces() -> Result<(), Fail> {
    let mut book = Book::empty();
    check_eq(book.records().views.len(), 0)?;
    book.load::<Kept>(&BOOK)?;
    check_eq(book.records().views.len(), 3)?;
    book.load::<Kept>(&[1])?;
    check_eq(book.records().views.len(), 0)
}

#[test]
fn a_rejected_book_leaves(rt: HostRuntime) -> Result<(), Fail> {
    let mut book = Book::empty();
    book.load::<Kept>(&BOOK)?;
    check(book.load::<Kept>(&[2]).is_err())?;
    check_eq(book.records().views.len(), 3)?;
    let denies = ViewFields {
        modifiers: 1,
        weakly_denied: 1,
        ..ViewFields::default()
    };
    let rejected = book_of(rt.alloc(), &[denies])?;
    check(book.load::<Kept>(&rejected).is_err())?;
    check_eq(book.records().views.len(), 3)?;
    check_eq(book.records().subjects.len(), 2)
}
