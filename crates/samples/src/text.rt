// Reading the table: its words, decimal numbers, and bytes as the documents write them.
ghost use Rattle.std.specs.Prelude.{◌<◌, ◌≤◌, IfSome};

use crate::show::front;
use calendar::clock::{Clock, Date};
use calendar::date_change::{TimeOfDay, time_of_day};

// More bytes than any line of the table has.
pub(crate) const BYTES: usize = 2_048;

// A line of the table; one space stands between its words.
#[derive(Clone, Copy)]
pub(crate) struct Line<'a>(pub(crate) &'a [u8]);

fn is_space(b: &u8) -> bool {
    *b == b' '
}

// A number with one digit more; digits behind the eighteenth are dropped.
fn with_digit(n: usize, b: u8) -> usize {
    if n > 99_999_999_999_999_999 {
        n
    } else {
        n * 10 + usize::from(b % 16)
    }
}

// The decimal number at the front of a word; 0 where there is none.
fn decimal(word: &[u8]) -> usize {
    word.iter()
        .take_while(|b| b.is_ascii_digit())
        .fold(0, |n, b| with_digit(n, *b))
}

impl<'a> Line<'a> {
    // The word behind k spaces.
    pub(crate) fn word(self, k: u8) -> &'a [u8] {
        self.0.split(is_space).nth(usize::from(k)).unwrap_or(b"")
    }

    // All that stands behind k spaces.
    fn behind(self, k: u8) -> &'a [u8] {
        let k = usize::from(k);
        self.0.splitn(k + 1, is_space).nth(k).unwrap_or(b"")
    }

    pub(crate) fn number(self, k: u8) -> usize {
        decimal(self.word(k))
    }

    // The same for a signed number; where a - stands before it -1, the only one below 0 that the table has.
    pub(crate) fn signed(self, k: u8) -> i64 {
        match self.word(k) {
            [b'-', ..] => -1,
            word => i64::try_from(decimal(word)).unwrap_or(i64::MAX),
        }
    }

    // And for a number of one byte; the cast loses nothing.
    pub(crate) fn small(self, k: u8) -> u8 {
        (self.number(k) % 256) as u8
    }

    // And for a number of milliseconds, or of ticks. A cast: std has no `From` of a `usize` for it.
    pub(crate) fn long(self, k: u8) -> u64 {
        self.number(k) as u64
    }

    // The moment behind k spaces: second, minute, hour, day, month, year.
    pub(crate) fn moment(self, k: u8) -> Clock
        requires { k ≤ 2 }
    {
        Clock {
            second: self.small(k),
            minute: self.small(k + 1),
            hour: self.small(k + 2),
            date: Date {
                day: self.small(k + 3),
                month: self.small(k + 4),
                year: self.small(k + 5),
            },
        }
    }

    // The hour and minute of a date change.
    pub(crate) fn time(self, k: u8) -> TimeOfDay
        requires { k ≤ 7 }
    {
        time_of_day(self.small(k), self.small(k + 1))
    }

    // The bytes that stand in a line behind k spaces, read into a buffer.
    pub(crate) fn bytes<'b>(self, k: u8, out: &'b mut [u8]) -> &'b [u8] {
        let n = read_all(self.behind(k), out);
        front(out, n)
    }
}

// How bytes are written: what is read on each way is its own.
#[derive(Clone, Copy)]
enum Mode {
    // Two hex digits each, of which the first may have been read.
    Hex(Option<u8>),
    // Characters between quotation marks.
    Quoted,
    // `41*508` is 508 times 41h; so much of the number has been read.
    Times(usize),
}

// How far bytes are read: the front of a buffer has those that are whole, so far as there is room for them.
#[derive(Drop)]
struct Reading<'a> {
    out: &'a mut [u8],
    count: usize,
    mode: Mode,
}

// What a capital hex digit comes to.
fn hex_digit(b: u8) -> Option<u8>
    ensures { IfSome result (λ digit. digit < 16) }
{
    match b {
        b'0'..=b'9' => Some(b - b'0'),
        b'A'..=b'F' => Some(b - b'A' + 10),
        _ => None,
    }
}

impl Reading<'_> {
    // One byte more, where there is room.
    fn push(&mut self, b: u8) {
        if self.count < self.out.len() {
            self.out[self.count] = b;
            self.count += 1;
        }
    }

    // The last byte again, so that it stands there so many times. Where these have no room they count all the same: then the whole buffer is
    // what is read, and a byte that is repeated behind them begins it anew.
    fn repeat(&mut self, times: usize) {
        let Some((read, rest)) = self.out.split_at_mut_checked(self.count) else {
            self.count = 0;
            return;
        };
        let again = times.saturating_sub(1);
        if let Some(last) = read.last()
            && again < BYTES
        {
            if let Some(more) = rest.get_mut(..again) {
                more.fill(*last);
            }
            self.count += again;
        }
    }

    fn in_hex(&mut self, half: Option<u8>, b: u8) -> Mode {
        match (b, half, hex_digit(b)) {
            (b'"', ..) => Mode::Quoted,
            (b'*', ..) => Mode::Times(0),
            (_, Some(high), Some(low)) => {
                self.push(high << 4 | low);
                Mode::Hex(None)
            }
            (_, Some(_), None) => Mode::Hex(None),
            (_, None, digit) => Mode::Hex(digit),
        }
    }

    fn read(&mut self, b: u8) {
        self.mode = match self.mode {
            Mode::Hex(half) => self.in_hex(half, b),
            Mode::Quoted if b == b'"' => Mode::Hex(None),
            Mode::Quoted => {
                self.push(b);
                Mode::Quoted
            }
            Mode::Times(n) if b.is_ascii_digit() => Mode::Times(with_digit(n, b)),
            Mode::Times(n) => {
                self.repeat(n);
                Mode::Hex(None)
            }
        };
    }
}

// Bytes as they are written, read into a buffer, and how many they are.
fn read_all(written: &[u8], out: &mut [u8]) -> usize {
    let mut reading = Reading {
        out,
        count: 0,
        mode: Mode::Hex(None),
    };
    for &b in written {
        reading.read(b);
    }
    reading.read(b' ');
    reading.count
}
