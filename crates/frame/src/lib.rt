// Bytes on the wire: the check byte and the table of identifiers, what was received, and how a frame is built; and what is given of a call.
#![tactic(auto)]

pub mod build;
pub mod given;
pub mod holding;
pub mod receive;
pub mod wire;
