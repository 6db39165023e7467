//! Books that are made of views on given types and roles.
use std::alloc::{AllocError, Global};

/// A view to be written, its sets as words of bits: by default on type 0 with nothing else.
// Numbers as a book has them, since bytes are what is tested: names are no plainer here.
#[derive(Clone, Copy, Default)]
pub struct ViewFields {
    pub controlled: u8,
    pub bases: u64,
    pub required: u64,
    pub restriction: u64,
    pub modifiers: u8,
    pub weakly_permitted: u64,
    pub strongly_permitted: u64,
    pub weakly_denied: u64,
    pub strongly_denied: u64,
}

/// Where the first view of a book stands.
pub const FIRST: usize = 53;

// The bit of a field, where the field is present.
fn bit(present: bool, worth: u8) -> u8 {
    if present { worth } else { 0 }
}

// The map byte of a view.
fn map_of(view: &ViewFields) -> u8 {
    1 | bit(view.bases != 0, 2)
        | bit(view.required != 0, 4)
        | bit(view.restriction != 0, 8)
        | bit(view.modifiers != 0, 16)
        | bit(view.weakly_permitted != 0, 32)
        | bit(view.strongly_permitted != 0, 64)
        | bit(view.weakly_denied != 0 || view.strongly_denied != 0, 128)
}

// Adds the eight bytes of a set, where it is not empty.
fn push_set(book: &mut Vec<u8>, set: u64) -> Result<(), AllocError> {
    if set != 0 {
        book.extend_from_slice(&set.to_be_bytes())?;
    }
    Ok(())
}

// Adds the record of a view.
fn push_view(book: &mut Vec<u8>, view: &ViewFields) -> Result<(), AllocError> {
    book.extend_from_slice(&[4, map_of(view), view.controlled])?;
    push_set(book, view.bases)?;
    push_set(book, view.required)?;
    push_set(book, view.restriction)?;
    if view.modifiers != 0 {
        book.push(view.modifiers)?;
    }
    push_set(book, view.weakly_permitted)?;
    push_set(book, view.strongly_permitted)?;
    if view.weakly_denied != 0 || view.strongly_denied != 0 {
        book.extend_from_slice(&view.weakly_denied.to_be_bytes())?;
        book.extend_from_slice(&view.strongly_denied.to_be_bytes())?;
    }
    Ok(())
}

/// A book of types, roles and views. Type 0 has the operations 0 and 1, type 1 below it adds operation 2, and type 2
/// has operation 0; role 1 lies below role 0, and role 2 below none.
pub fn book_of(heap: Global, views: &[ViewFields]) -> Result<Vec<u8>, AllocError> {
    let mut book = vec![in heap; 1u8, 1, 2]?;
    push_set(&mut book, 3)?;
    book.extend_from_slice(&[1, 3])?;
    push_set(&mut book, 1)?;
    push_set(&mut book, 4)?;
    book.extend_from_slice(&[1, 2])?;
    push_set(&mut book, 1)?;
    book.extend_from_slice(&[2, 0, 2, 1])?;
    push_set(&mut book, 1)?;
    book.extend_from_slice(&[2, 0])?;
    for view in views {
        push_view(&mut book, view)?;
    }
    Ok(book)
}
