//! Lists the book in the current folder, or says why its form is refused.
#![tactic(auto)]

use bookfile::{LONGEST, book_bytes};
use listing::report::report_on;
use std::io;

fn main(rt: HostRuntime) -> io::Result<()> {
    let mut buffer = [0u8; LONGEST];
    let book = book_bytes(&rt, &mut buffer);
    print!(rt; "{}", report_on(book))
}
