//! Which books are accepted: the rules that records keep, and the accepted book.
#![tactic(auto)]

pub mod accepted;
mod checking;
mod clash;
mod extension;
pub mod inherited;
mod judging;
mod orders;
mod own;
pub mod rejection;
