// The words that a program on a line is started with: the printer's type, the moment at the start, the watchdog.
ghost use Rattle.std.specs.Prelude.{◌+◌, ◌<◌, length, ◌≡◌};
ghost use Rattle.serving.specs.Words.{digit, is_marked, model_of, moment_of, pair_at, start_of, watchdog_of};

use calendar::clock::{Clock, date_of, moment};

// A digit's number, if the byte is a digit.
#[tactic(auto, unfolding(crate::specs::Words::digit))]
fn digit(b: u8) -> Option<u8>
    ensures { result ≡ digit b }
{
    match b {
        b'0'..=b'9' => Some(b - b'0'),
        _ => None,
    }
}

// The number that two bytes from a place on write, if both are digits.
#[tactic(auto, unfolding(crate::specs::Words::pair), using(crate::proofs::Laws::digit_most))]
fn pair_at(s: &[u8], i: usize) -> Option<u8>
    requires { i + 1 < length s.now }
    ensures { result ≡ pair_at s.now i }
{
    Some(digit(s[i])? * 10 + digit(s[i + 1])?)
}

// The printer's type, "1" to "4", if a word is one.
#[tactic(auto, unfolding(crate::specs::Words::model_of))]
pub fn model_of(s: &[u8]) -> Option<u8>
    ensures { result ≡ model_of s.now }
{
    if s.len() != 1 {
        return None;
    }
    digit(s[0]).filter(|n| (1..=4).contains(n))
}

// The watchdog's seconds, "1" to "99", if a word is such: another rule than the type's, also in how many digits there are.
#[tactic(auto, unfolding(crate::specs::Words::watchdog_of))]
pub fn watchdog_of(s: &[u8]) -> Option<u8>
    ensures { result ≡ watchdog_of s.now }
{
    let seconds = match s.len() {
        1 => digit(s[0]),
        2 => pair_at(s, 0),
        _ => None,
    };
    seconds.filter(|n| (1..=99).contains(n))
}

// The marks of YYYY-MM-DDTHH:MM:SS stand where they should.
#[tactic(auto, unfolding(crate::specs::Words::is_marked))]
fn marked(s: &[u8]) -> bool
    requires { length s.now ≡ 19 }
    ensures { result ≡ is_marked s.now }
{
    s[4] == b'-' && s[7] == b'-' && s[10] == b'T' && s[13] == b':' && s[16] == b':'
}

// The moment that the digits write, if all are digits.
fn written(s: &[u8]) -> Option<Clock>
    requires { length s.now ≡ 19 }
    ensures { result ≡ moment_of s.now }
{
    let year = pair_at(s, 2)?;
    let month = pair_at(s, 5)?;
    let day = pair_at(s, 8)?;
    let hour = pair_at(s, 11)?;
    let minute = pair_at(s, 14)?;
    let second = pair_at(s, 17)?;
    Some(moment(second, minute, hour, date_of(day, month, year)))
}

// The moment at the start, YYYY-MM-DDTHH:MM:SS: a real one of the years 2000 to 2099.
#[tactic(auto, unfolding(crate::specs::Words::start_of))]
pub fn start_of(s: &[u8]) -> Option<Clock>
    ensures { result ≡ start_of s.now }
{
    if s.len() != 19 || !marked(s) || pair_at(s, 0) != Some(20) {
        return None;
    }
    written(s).filter(|clock| clock.is_real())
}
