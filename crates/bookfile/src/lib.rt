//! The file `book` of the current folder.
#![tactic(auto)]

ghost use Rattle.std.specs.Prelude.{◌≤◌, length};

use std::fs::File;
use std::io::Read;

/// One byte more than a book may have, so that a longer one is seen to be too long.
pub const LONGEST: usize = 16385;

// The caller lends the buffer, since a rule of the project keeps a book in fixed memory.
/// The bytes of the file, as many as the buffer takes. A file that is missing or cannot be read has none.
pub fn book_bytes<'b>(rt: &HostRuntime, buffer: &'b mut [u8]) -> &'b [u8]
    ensures { length result.now ≤ length buffer.old }
{
    let Ok(mut file) = File::open(rt, "book") else {
        return &[];
    };
    let mut len = 0;
    // Std has no call that fills a slice as far as a file goes, so no other form is plainer than this loop.
    while len < buffer.len() {
        match file.read(&mut buffer[len..]) {
            Ok(0) => break,
            Ok(count) => len += count,
            Err(_) => return &[],
        }
    }
    &buffer[..len]
}
