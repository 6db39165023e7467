//! Loads the book of the current folder, and prints the judgement of it.
#![tactic(auto)]

use acceptance::accepted::Book;
use bookfile::{LONGEST, book_bytes};
use hierarchy::kept::Kept;
use listing::judgement::Judgement;
use std::io;

fn main(rt: HostRuntime) -> io::Result<()> {
    let mut buffer = [0u8; LONGEST];
    let bytes = book_bytes(&rt, &mut buffer);
    let mut book = Book::empty();
    let judgement = Judgement::from(book.load::<Kept>(bytes));
    println!(rt; "{judgement}")
}
