//! Says how many worked cases of the definitions were proved to come out as they must.
#![tactic(auto)]

mod cases;

use cases::worked_cases_hold;
use std::io;

fn main(rt: HostRuntime) -> io::Result<()> {
    let count = worked_cases_hold();
    println!(rt; "{count} worked cases come out as they must")
}
