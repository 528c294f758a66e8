// What a program on a line needs besides the box itself: the bytes that are held, the time that goes by, and the words it is started with.
#![tactic(auto)]

pub mod hold;
pub mod pace;
pub mod words;
