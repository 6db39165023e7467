//! Who lies at or below whom among up to 64 numbers, from the links of each to lower ones.
#![tactic(auto)]

pub mod collecting;
pub mod kept;
pub mod links;
pub mod order;
pub mod rows;
pub mod walked;
