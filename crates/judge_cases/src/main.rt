//! Judges the books of the input, one to a line in hexadecimal, through both orders.
#![tactic(auto)]

mod hexadecimal;

use hexadecimal::bytes_of;
use hierarchy::kept::Kept;
use hierarchy::walked::Walked;
use listing::judgement::{Judgement, judgement_of};
use std::io;
use std::io::{BufRead, BufReader};

// The judgement of a book, where both orders give the same one.
fn judged(book: &[u8]) -> Option<Judgement> {
    let kept = judgement_of::<Kept>(book);
    let walked = judgement_of::<Walked>(book);
    (kept == walked).then_some(kept)
}

// Prints what there is to say of a line of the input.
fn answer(rt: &HostRuntime, line: &str) -> io::Result<()> {
    let Some(book) = bytes_of(rt.alloc(), line.as_bytes())? else {
        return println!(rt; "bad line");
    };
    match judged(&book) {
        Some(judgement) => println!(rt; "{judgement}"),
        None => println!(rt; "differ"),
    }
}

fn main(rt: HostRuntime) -> io::Result<()> {
    let heap = rt.alloc();
    for line in BufReader::new(heap, rt.stdin())?.lines(heap) {
        answer(&rt, &line?)?;
    }
    Ok(())
}
