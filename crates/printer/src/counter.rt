// A counter, over its 34 bytes: 26 of settings, whether it is set, value (4), batch (3).
ghost use Rattle.std.specs.Prelude.{◌+◌, ◌<◌, ◌≤◌, ◌^◌, List, ℕ, length, ltb, take, ◌++◌, true, ◌≡◌};
ghost use Rattle.printer.specs.Counter.{batch_size, counted, counter_bytes, counter_of, counter_size, counter_text, good_settings, is_set, set_to, settings_size, valid_counter, value_place, value_size};
ghost use Rattle.std.specs.List.{list_all};
ghost use Rattle.frame.specs.Ground.{both, within};
ghost use Rattle.printer.specs.Number.{all_digits, in_bytes, is_digit, value};

use crate::number::{digits, four_bytes, is_digit, three_bytes};

pub(crate) const SETTINGS: usize = 26;

// Where the value and the batch begin, behind the byte that says whether the counter is set, and where it ends.
const VALUE_AT: usize = SETTINGS + 1;

const BATCH_AT: usize = VALUE_AT + 4;

pub(crate) const COUNTER: usize = BATCH_AT + 3;

// What good settings say; a value has room for a step behind it.
#[derive(Clone, Copy, Debug, PartialEq, Eq)]
struct Settings {
    initial: u32,
    last: u32,
    step: u32,
    lot: u32,
    ghost small: { last + step < 2 ^ 32 },
}

// Whether all bytes are digits.
fn all_digits(s: &[u8]) -> bool
    ensures { result ≡ list_all is_digit s.now }
{
    s.iter().all(|b| is_digit(*b))
}

// What at most nine digits come to.
fn value_of(s: &[u8]) -> u32
    requires { (length s.now ≤ 9) × (all_digits s.now ≡ true) }
    ensures { (result ≡ value s.now) × (result < 1000000000) }
{
    let mut n = 0;
    for b in s {
        n = n * 10 + u32::from(b - 0x30);
    }
    n
}

impl Settings {
    ghost use Rattle.printer.specs.Settings.{Reads, Says};
    ghost use Rattle.printer.specs.Counter.{next_batch, next_value};

    // What settings say, if they are good: control (1), initial (9), final (9), step (2), lot (3), postdate (2).
    #[tactic(auto, using(frame::proofs::Ground::tests, crate::proofs::Numbers::all_digits_listed), unfolding(crate::specs::Counter::good_settings))]
    fn read(q: &[u8]) -> Option<Settings>
        requires { length q.now ≡ settings_size }
        ensures { Reads q.now result }
    {
        if q[0] != 0x89 || !all_digits(&q[1..21]) {
            return None;
        }
        let initial = value_of(&q[1..10]);
        let last = value_of(&q[10..19]);
        let step = value_of(&q[19..21]);
        let lot = three_bytes(q, 21);
        if last < initial || step < 1 || lot < 1 {
            return None;
        }
        Some(Settings {
            initial,
            last,
            step,
            lot,
        })
    }

    // Whether a value lies from initial to final, and a batch below lot: two numbers and no pair, as the rules `next_value` and `next_batch` have
    // them.
    fn counts(self, value: u32, batch: u32) -> bool
        ensures { result ≡ both (within self.initial self.last value) (ltb batch self.lot) }
    {
        (self.initial..=self.last).contains(&value) && batch < self.lot
    }

    // The value and the batch behind a print.
    #[tactic(auto, using(frame::proofs::Ground::tests), unfolding(crate::specs::Counter::next_value, crate::specs::Counter::next_batch, crate::specs::Counter::grown))]
    fn next(self, value: u32, batch: u32) -> (u32, u32)
        requires { (value ≤ self.last) × (batch < self.lot) }
        ensures value { (q : List ℕ) → Says q self → result.0 ≡ next_value q value batch }
        ensures batch { (q : List ℕ) → Says q self → result.1 ≡ next_batch q batch }
    {
        if batch + 1 < self.lot {
            return (value, batch + 1);
        }
        let next = value + self.step;
        if next <= self.last {
            (next, 0)
        } else {
            (self.initial, 0)
        }
    }
}

// Settings come as a slice: with an array each caller would first make one of a part of its data.
pub(crate) fn good_settings(q: &[u8]) -> bool
    requires { length q.now ≡ settings_size }
    ensures { result ≡ good_settings q.now }
{
    Settings::read(q).is_some()
}

// A batch as it lies in a counter: three bytes.
fn batch_bytes(batch: u32) -> [u8; 3]
    ensures { result ≡ in_bytes batch_size batch }
{
    let [_, high, middle, low] = batch.to_be_bytes();
    [high, middle, low]
}

// The bytes of a counter, lent to be read.
#[derive(Clone, Copy)]
pub(crate) struct CounterBytes<'a> {
    pub(crate) bytes: &'a [u8],
    ghost sized: { length bytes.now ≡ counter_size },
}

impl<'a> CounterBytes<'a> {
    #[tactic(auto, unfolding(crate::specs::Counter::counter_of))]
    pub(crate) fn is_set(self) -> bool
        ensures { result ≡ is_set (counter_of self.entry.bytes.now) }
    {
        self.bytes[SETTINGS] == 1
    }

    // What it shows.
    #[tactic(auto, unfolding(crate::specs::Counter::counter_of))]
    pub(crate) fn value(self) -> u32
        ensures { result ≡ (counter_of self.entry.bytes.now).value }
    {
        four_bytes(self.bytes, VALUE_AT)
    }

    #[tactic(auto, unfolding(crate::specs::Counter::counter_of))]
    fn batch(self) -> u32
        ensures { result ≡ (counter_of self.entry.bytes.now).batch }
    {
        three_bytes(self.bytes, BATCH_AT)
    }

    // Whether it is one that a valid state may hold.
    #[tactic(auto, using(frame::proofs::Ground::tests, crate::proofs::Counters::settings_long), unfolding(crate::specs::Counter::counter_of, crate::specs::Counter::valid_counter))]
    pub(crate) fn is_valid(self) -> bool
        ensures { result ≡ valid_counter (counter_of self.entry.bytes.now) }
    {
        // A match in a match: with `is_some_and` the proof stops at a limit, or value and batch are read first, 13 in 100 more.
        match self.bytes[SETTINGS] {
            0 => true,
            1 => match Settings::read(&self.bytes[..SETTINGS]) {
                Some(settings) => settings.counts(self.value(), self.batch()),
                None => false,
            },
            _ => false,
        }
    }

    // 39h's data: nine digits and three bytes.
    pub(crate) fn text(self) -> [u8; 12]
        ensures { result ≡ counter_text (counter_of self.entry.bytes.now) }
    {
        let mut text = [0; 12];
        text[..9].copy_from_slice(&digits(self.value()));
        text[9..].copy_from_slice(&batch_bytes(self.batch()));
        text
    }
}

// Writes a value and a batch behind the settings.
fn put_count(c: &mut [u8], value: u32, batch: u32)
    requires { length c.old ≡ counter_size }
    ensures { c.new ≡ take value_place c.old ++ (in_bytes value_size value ++ in_bytes batch_size batch) }
{
    c[VALUE_AT..BATCH_AT].copy_from_slice(&value.to_be_bytes());
    c[BATCH_AT..].copy_from_slice(&batch_bytes(batch));
}

// A counter with other settings: it counts from the start.
#[tactic(auto, using(crate::proofs::Counters::settings_long))]
pub(crate) fn set_to(c: &mut [u8], q: &[u8])
    requires { (length c.old ≡ counter_size) × (length q.now ≡ settings_size) × (good_settings q.now ≡ true) }
    ensures { c.new ≡ counter_bytes (set_to q.now) }
{
    c[..SETTINGS].copy_from_slice(q);
    c[SETTINGS] = 1;
    put_count(c, Settings::read(q).unwrap().initial, 0);
}

// A counter counts a print, where it is set.
#[tactic(auto, using(crate::proofs::Counters::settings_long))]
pub(crate) fn count(c: &mut [u8])
    requires { (length c.old ≡ counter_size) × (valid_counter (counter_of c.old) ≡ true) }
    ensures { c.new ≡ counter_bytes (counted (counter_of c.old)) }
{
    let counter = CounterBytes { bytes: c };
    if !counter.is_set() {
        return;
    }
    let settings = Settings::read(&counter.bytes[..SETTINGS]).unwrap();
    let (value, batch) = settings.next(counter.value(), counter.batch());
    put_count(c, value, batch);
}
