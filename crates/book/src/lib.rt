//! A site's book of definitions: its bytes, its records, and what its form is refused for.
#![tactic(auto)]

pub mod contents;
mod fields;
mod layout;
mod making;
pub mod part;
pub mod phase;
pub mod position;
pub mod read;
pub mod reader;
pub mod refusal;
