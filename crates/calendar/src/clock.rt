// The clock: a moment by value, whose tick hands back the next.
ghost use Rattle.std.specs.Prelude.{◌≡◌};
ghost use Rattle.calendar.specs.Clock.{clock_text, date, days_in, entries, is_date, is_leap, is_real, moment, month_entry, next_date, next_hour, next_minute, next_month, next_year, previous_date, previous_month, previous_year, tick, two};

// Years are 0 to 99, for 2000 to 2099. Neither date nor clock derives an order: their fields stand from the smallest part to the largest.
#[derive(Clone, Copy, Debug, PartialEq, Eq)]
pub struct Date {
    pub day: u8,
    pub month: u8,
    pub year: u8,
}

#[derive(Clone, Copy, Debug, PartialEq, Eq)]
pub struct Clock {
    pub second: u8,
    pub minute: u8,
    pub hour: u8,
    pub date: Date,
}

#[tactic(auto, unfolding(crate::specs::Clock::is_leap))]
fn is_leap(year: u8) -> bool
    ensures { result ≡ is_leap year }
{
    let y = 2000 + u16::from(year);
    y % 4 == 0 && (y % 100 != 0 || y % 400 == 0)
}

#[tactic(auto, unfolding(crate::specs::Clock::days_in))]
fn days_in(month: u8, year: u8) -> u8
    ensures { result ≡ days_in month year }
{
    match month {
        2 if is_leap(year) => 29,
        2 => 28,
        4 | 6 | 9 | 11 => 30,
        _ => 31,
    }
}

pub fn date_of(day: u8, month: u8, year: u8) -> Date
    ensures { result ≡ date day month year }
{
    Date { day, month, year }
}

pub fn moment(second: u8, minute: u8, hour: u8, date: Date) -> Clock
    ensures { result ≡ moment second minute hour date }
{
    Clock {
        second,
        minute,
        hour,
        date,
    }
}

impl Date {
    // A day of the years 2000 to 2099.
    #[tactic(auto, unfolding(crate::specs::Clock::is_date))]
    fn is_date(self) -> bool
        ensures { result ≡ is_date self }
    {
        (1..=12).contains(&self.month)
            && (1..=days_in(self.month, self.year)).contains(&self.day)
            && self.year <= 99
    }

    #[tactic(auto, unfolding(crate::specs::Clock::next_year))]
    fn next_year(self) -> Date
        ensures { result ≡ next_year self }
    {
        let year = if self.year < 99 { self.year + 1 } else { 0 };
        date_of(1, 1, year)
    }

    #[tactic(auto, unfolding(crate::specs::Clock::next_month))]
    fn next_month(self) -> Date
        ensures { result ≡ next_month self }
    {
        if self.month < 12 {
            date_of(1, self.month + 1, self.year)
        } else {
            self.next_year()
        }
    }

    // The day after.
    #[tactic(auto, unfolding(crate::specs::Clock::next_date))]
    fn next_date(self) -> Date
        ensures { result ≡ next_date self }
    {
        if self.day < days_in(self.month, self.year) {
            Date {
                day: self.day + 1,
                ..self
            }
        } else {
            self.next_month()
        }
    }

    #[tactic(auto, unfolding(crate::specs::Clock::previous_year))]
    fn previous_year(self) -> Date
        ensures { result ≡ previous_year self }
    {
        let year = if 0 < self.year { self.year - 1 } else { 99 };
        date_of(31, 12, year)
    }

    #[tactic(auto, unfolding(crate::specs::Clock::previous_month))]
    fn previous_month(self) -> Date
        ensures { result ≡ previous_month self }
    {
        let Date { month, year, .. } = self;
        if 1 < month {
            date_of(days_in(month - 1, year), month - 1, year)
        } else {
            self.previous_year()
        }
    }

    // The day before.
    #[tactic(auto, unfolding(crate::specs::Clock::previous_date))]
    pub(crate) fn previous_date(self) -> Date
        ensures { result ≡ previous_date self }
    {
        if 1 < self.day {
            Date {
                day: self.day - 1,
                ..self
            }
        } else {
            self.previous_month()
        }
    }
}

impl Clock {
    // A moment of the years 2000 to 2099.
    #[tactic(auto, unfolding(crate::specs::Clock::is_real))]
    pub fn is_real(self) -> bool
        ensures { result ≡ is_real self }
    {
        self.second <= 59 && self.minute <= 59 && self.hour <= 23 && self.date.is_date()
    }

    #[tactic(auto, unfolding(crate::specs::Clock::next_hour))]
    fn next_hour(self) -> Clock
        ensures { result ≡ next_hour self }
    {
        if self.hour < 23 {
            moment(0, 0, self.hour + 1, self.date)
        } else {
            moment(0, 0, 0, self.date.next_date())
        }
    }

    #[tactic(auto, unfolding(crate::specs::Clock::next_minute))]
    fn next_minute(self) -> Clock
        ensures { result ≡ next_minute self }
    {
        if self.minute < 59 {
            Clock {
                second: 0,
                minute: self.minute + 1,
                ..self
            }
        } else {
            self.next_hour()
        }
    }

    // The moment one second later.
    #[tactic(auto, unfolding(crate::specs::Clock::tick))]
    pub fn tick(self) -> Clock
        ensures { result ≡ tick self }
    {
        if self.second < 59 {
            Clock {
                second: self.second + 1,
                ..self
            }
        } else {
            self.next_minute()
        }
    }
}

// The two digits of a number below 100.
pub(crate) fn digits(n: u8) -> [u8; 2]
    ensures { result ≡ two n }
{
    [n / 10 % 10 + 0x30, n % 10 + 0x30]
}

// The letters of a month; what is no month has no letters.
fn month_entry(month: u8) -> [u8; 3]
    ensures { result ≡ month_entry month }
{
    match month {
        1 => *b"JAN",
        2 => *b"FEV",
        3 => *b"MAR",
        4 => *b"AVR",
        5 => *b"MAI",
        6 => *b"JUN",
        7 => *b"JUI",
        8 => *b"AOU",
        9 => *b"SEP",
        10 => *b"OCT",
        11 => *b"NOV",
        12 => *b"DEC",
        _ => [0; 3],
    }
}

// What the codes of date items stand for at a moment, code b at b - 55h.
#[tactic(auto, unfolding(crate::specs::Clock::entries))]
pub fn entries(c: Clock) -> [u8; 24]
    ensures { result ≡ entries c }
{
    let [h10, h1] = digits(c.hour);
    let [m10, m1] = digits(c.minute);
    let [x, y, z] = month_entry(c.date.month);
    let [d10, d1] = digits(c.date.day);
    [
        h10, h1, 0, m10, m1, 0, x, y, z, 0, 0, 0, d10, d1, 0, 0, 0, 0, 0, 0, 0, 0, 0, 0,
    ]
}

// D6h's answer.
#[tactic(auto, unfolding(crate::specs::Clock::clock_text))]
pub fn clock_text(c: Clock) -> [u8; 22]
    ensures { result ≡ clock_text c }
{
    let [s10, s1] = digits(c.second);
    let [m10, m1] = digits(c.minute);
    let [h10, h1] = digits(c.hour);
    let [d10, d1] = digits(c.date.day);
    let [n10, n1] = digits(c.date.month);
    let [x, y, z] = month_entry(c.date.month);
    let [y10, y1] = digits(c.date.year);
    [
        s10, s1, m10, m1, h10, h1, 0x20, 0x20, d10, d1, 0x20, 0x20, 0x20, 0x20, 0x20, n10, n1, x,
        y, z, y10, y1,
    ]
}

// 52h's answer behind its four digits: "01" to "96", A to Z, the twelve months.
pub const CODES: [u8; 254] =
    *b"010203040506070809101112131415161718192021222324252627282930313233343536373839404142434445464748495051525354555657585960616263646566676869707172737475767778798081828384858687888990919293949596ABCDEFGHIJKLMNOPQRSTUVWXYZJANFEVMARAVRMAIJUNJUIAOUSEPOCTNOVDEC";
