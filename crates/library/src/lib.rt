// The message library: records in a lent store, whatever their bodies are.
#![tactic(auto)]

pub mod record;
pub mod store;
