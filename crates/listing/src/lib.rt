//! What a book says and how it is judged, as text for its author.
#![tactic(auto)]

pub mod judged_report;
pub mod judgement;
mod lines;
mod listed;
mod named;
mod refused;
pub mod report;
