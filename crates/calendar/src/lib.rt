// The calendar: moments and dates, the next of each and the day before, what is printed of a moment, and the texts of a moment.
#![tactic(auto)]

pub mod clock;
pub mod date_change;
