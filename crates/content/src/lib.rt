// What a message is: the reader of items, the test, character positions, edits, updates and strips.
#![tactic(auto)]

pub mod byte;
pub mod edit;
pub mod item;
pub mod position;
pub mod strip;
pub mod test;
pub mod update;
