//! Bytes that are written as two lowercase hexadecimal digits each.
ghost use Rattle.std.specs.Prelude.{◌<◌, IfSome};

use std::alloc::{AllocError, Global};

// The value of a digit. `to_digit` and the library `hex` also take uppercase ones, so neither is plainer.
fn digit(character: u8) -> Option<u8>
    ensures { IfSome result (λ x. x < 16) }
{
    match character {
        b'0'..=b'9' => Some(character - b'0'),
        b'a'..=b'f' => Some(character - b'a' + 10),
        _ => None,
    }
}

// The byte that a pair of digits stands for.
fn byte(pair: &[u8]) -> Option<u8> {
    let [high, low] = pair else {
        return None;
    };
    Some(digit(*high)? * 16 + digit(*low)?)
}

/// The bytes that a line stands for, if it is made of pairs of digits.
pub(crate) fn bytes_of(heap: Global, line: &[u8]) -> Result<Option<Vec<u8>>, AllocError> {
    let mut bytes = Vec::new(heap);
    for pair in line.chunks(2) {
        let Some(value) = byte(pair) else {
            return Ok(None);
        };
        bytes.push(value)?;
    }
    Ok(Some(bytes))
}
