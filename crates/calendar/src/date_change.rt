// The date change: before this time of day, date items stand for the day before.
ghost use Rattle.std.specs.Prelude.{◌≡◌};
ghost use Rattle.calendar.specs.DateChange.{change_text, is_before, is_time, printed, printed_date, time_of_day};

use crate::clock::{Clock, Date, digits};

// HHMM, in the order of the day.
#[derive(Clone, Copy, Debug, PartialEq, Eq, PartialOrd, Ord)]
pub struct TimeOfDay {
    pub hour: u8,
    pub minute: u8,
}

pub fn time_of_day(hour: u8, minute: u8) -> TimeOfDay
    ensures { result ≡ time_of_day hour minute }
{
    TimeOfDay { hour, minute }
}

impl TimeOfDay {
    // 00:00 to 23:59.
    #[tactic(auto, unfolding(crate::specs::DateChange::is_time))]
    pub fn is_time(self) -> bool
        ensures { result ≡ is_time self }
    {
        self.hour <= 23 && self.minute <= 59
    }

    // 52h's four digits.
    #[tactic(auto, unfolding(crate::specs::DateChange::change_text))]
    pub fn change_text(self) -> [u8; 4]
        ensures { result ≡ change_text self }
    {
        let [h10, h1] = digits(self.hour);
        let [m10, m1] = digits(self.minute);
        [h10, h1, m10, m1]
    }
}

// Whether the clock stands before a time of day.
#[tactic(auto, unfolding(crate::specs::DateChange::is_before))]
fn is_before(clock: Clock, change: TimeOfDay) -> bool
    ensures { result ≡ is_before clock change }
{
    time_of_day(clock.hour, clock.minute) < change
}

// The date that is printed.
#[tactic(auto, unfolding(crate::specs::DateChange::printed_date))]
fn printed_date(change: TimeOfDay, clock: Clock) -> Date
    ensures { result ≡ printed_date change clock }
{
    if is_before(clock, change) {
        clock.date.previous_date()
    } else {
        clock.date
    }
}

// The moment that date items stand for: the clock's time, and the date that is printed.
#[tactic(auto, unfolding(crate::specs::DateChange::printed))]
pub fn printed(change: TimeOfDay, clock: Clock) -> Clock
    ensures { result ≡ printed change clock }
{
    Clock {
        date: printed_date(change, clock),
        ..clock
    }
}
