//! What the tests share: how a book is refused, and books that are made by rule.
use crate::checks::check_eq;
use book::phase::Phase;
use book::read::read;
use std::alloc::{AllocError, Global};
use std::test::Fail;

/// Checks that the form of a book is refused, with this number and place.
// The number and not the refusal, here and in `judged`: an enum is no plainer, since users see the number.
pub fn check_refused(book: &[u8], number: u8, place: usize) -> Result<(), Fail> {
    let fault = read(book).err().ok_or("the book passed")?;
    check_eq(u8::from(fault.refusal), number)?;
    check_eq(fault.place, place)
}

/// Checks that the form of a book passes.
pub fn check_passes(book: &[u8]) -> Result<(), Fail> {
    read(book)?;
    Ok(())
}

/// The byte 01, and then so many records with no field, of one kind.
pub fn plain_records(heap: Global, kind: Phase, count: usize) -> Result<Vec<u8>, AllocError> {
    let mut bytes = vec![in heap; 1u8]?;
    bytes.extend_from_slice(&[kind as u8, 0].repeat(heap, count)?)?;
    Ok(bytes)
}
