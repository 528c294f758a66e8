// The time on a line, in milliseconds of the machine's clock: when silence is, and how often the box's clock has to tick.
ghost use Rattle.std.specs.Prelude.{◌≡◌};
ghost use Rattle.serving.specs.Pace.{due, instant_of, is_silence, since, ticked};

use printer::call::tick;

// The clock's seconds that are taken: 30,000 years, so that no number of milliseconds is too large.
const SECONDS: u64 = 1000000000000;

const NANOSECONDS: u64 = 1000000000;

// A moment of the machine's clock, which counts seconds and nanoseconds, in milliseconds; there is none where the clock could not be read.
#[tactic(auto, unfolding(crate::specs::Pace::instant_at))]
pub fn instant_of(seconds: i64, nanoseconds: i64) -> Option<u64>
    ensures { result ≡ instant_of seconds nanoseconds }
{
    let s = u64::try_from(seconds).ok()?;
    let n = u64::try_from(nanoseconds).ok()?;
    if SECONDS < s || NANOSECONDS <= n {
        return None;
    }
    Some(s * 1000 + n / 1000000)
}

// How long it is from an earlier moment to a later one; nothing where the clock went back, which it never does.
pub fn since(earlier: u64, later: u64) -> u64
    ensures { result ≡ since earlier later }
{
    later.saturating_sub(earlier)
}

// Nothing received for the watchdog's seconds is silence.
pub fn is_silence(waited: u64, watchdog: u8) -> bool
    ensures { result ≡ is_silence waited watchdog }
{
    u64::from(watchdog) * 1000 <= waited
}

// How many ticks are due: one for each second gone by since the start, less those made already.
pub fn due(gone: u64, made: u64) -> u64
    ensures { result ≡ due gone made }
{
    since(made, gone / 1000)
}

// Seconds that were missed are made up, one tick each.
#[tactic(auto, using(crate::proofs::Laws::one_more))]
pub fn tick_all(state: &mut [u8], n: u64)
    ensures { state.new ≡ ticked n state.old }
{
    for _ in 0..n {
        let _ = tick(state);
    }
}
