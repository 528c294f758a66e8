// The printer: jets and heads, counters, the state, the messages in the store, and every call of the box.
#![tactic(auto)]

pub mod answer;
pub mod call;
pub mod change;
pub mod counter;
pub mod jet;
pub mod messages;
pub mod number;
pub mod print;
pub mod receive;
pub mod request;
pub mod single;
pub mod state;
