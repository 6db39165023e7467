//! How books are judged, through both orders.
use crate::checks::check_eq;
use acceptance::accepted::Book;
use hierarchy::kept::Kept;
use hierarchy::order::Hierarchy;
use hierarchy::walked::Walked;
use std::test::Fail;

// Checks that a book is rejected through one order.
fn check_through<H: Hierarchy + Drop>(
    book: &[u8],
    number: u8,
    place: usize,
    other: Option<usize>,
) -> Result<(), Fail> {
    let rejection = Book::judge::<H>(book).err().ok_or("the book is accepted")?;
    check_eq(u8::from(rejection.reason), number)?;
    check_eq(rejection.place, place)?;
    check_eq(rejection.other, other)
}

/// Checks that a book is rejected through both orders, with this number, place and other view.
pub fn check_rejected(
    book: &[u8],
    number: u8,
    place: usize,
    other: Option<usize>,
) -> Result<(), Fail> {
    check_through::<Kept>(book, number, place, other)?;
    check_through::<Walked>(book, number, place, other)
}

/// Checks that a book is accepted through both orders.
pub fn check_accepted(book: &[u8]) -> Result<(), Fail> {
    Book::judge::<Kept>(book)?;
    Book::judge::<Walked>(book)?;
    Ok(())
}
