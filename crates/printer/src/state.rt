// The state: one lent slice, and the only room that knows where in it the type, the clock, the date change and each jet lie.
ghost use Rattle.std.specs.Prelude.{◌+◌, ◌≤◌, length, set, ◌≡◌};
ghost use Rattle.printer.specs.Print.{ready};
ghost use Rattle.printer.specs.State.{bytes_of, fresh_printer, jet_at, jet_place, printer_of, state_size, valid, valid_jets, valid_state, with_clock};
ghost use Rattle.printer.specs.Jet.{jet_of, jet_size};

use crate::jet::{JET, JetBytes, JetNumber, has_jet, jet_index, jet_number};
use calendar::clock::{Clock, date_of, moment};
use calendar::date_change::{TimeOfDay, time_of_day};

// Where the first jet begins, behind type, seconds, minutes, hours, day, month and year, and the date change's hour and minute (1 each).
pub(crate) const JETS: usize = 9;

// How many bytes a state has, with its four jets.
pub const STATE: usize = JETS + 4 * JET;

// The part of a state that a jet is begins here. It asks for 1 to 4, since a jet number holds any byte that a frame may name.
pub(crate) fn jet_place(n: JetNumber) -> usize
    requires { (1 ≤ n.0) × (n.0 ≤ 4) }
    ensures { (result ≡ jet_place n.0) × (result + jet_size ≤ state_size) }
{
    JETS + JET * jet_index(n)
}

// The bytes of a state, lent to be read.
#[derive(Clone, Copy)]
pub(crate) struct StateBytes<'a> {
    pub(crate) bytes: &'a [u8],
    ghost sized: { length bytes.now ≡ state_size },
}

impl<'a> StateBytes<'a> {
    #[tactic(auto, unfolding(crate::specs::State::printer_of))]
    pub(crate) fn model(self) -> u8
        ensures { result ≡ (printer_of self.entry.bytes.now).model }
    {
        self.bytes[0]
    }

    pub(crate) fn clock(self) -> Clock
        ensures { result ≡ (printer_of self.entry.bytes.now).clock }
    {
        let b = self.bytes;
        moment(b[1], b[2], b[3], date_of(b[4], b[5], b[6]))
    }

    pub(crate) fn date_change(self) -> TimeOfDay
        ensures { result ≡ (printer_of self.entry.bytes.now).date_change }
    {
        time_of_day(self.bytes[7], self.bytes[8])
    }

    // The bytes of a jet.
    fn jet(self, n: JetNumber) -> JetBytes<'a>
        requires { (1 ≤ n.0) × (n.0 ≤ 4) }
        ensures { jet_of result.bytes.now ≡ jet_at (printer_of self.entry.bytes.now) n.0 }
    {
        let at = jet_place(n);
        JetBytes {
            bytes: &self.bytes[at..at + JET],
        }
    }

    // Whether every jet holds what a valid state may hold.
    fn are_jets_valid(self) -> bool
        ensures { result ≡ valid_jets (printer_of self.entry.bytes.now) }
    {
        let model = self.model();
        (1..5).all(|k| {
            let n = jet_number(k);
            let present = has_jet(model, n);
            self.jet(n).is_valid(present)
        })
    }

    #[tactic(auto, using(frame::proofs::Ground::tests), unfolding(crate::specs::State::valid))]
    fn is_valid(self) -> bool
        ensures { result ≡ valid (printer_of self.entry.bytes.now) }
    {
        (1..=4).contains(&self.model())
            && self.clock().is_real()
            && self.date_change().is_time()
            && self.are_jets_valid()
    }

    // Whether each jet of the printer has a message and parameters. A chain of its own beside that of `are_jets_valid`: a function over the question
    // would have a longer contract than either.
    pub(crate) fn is_ready(self) -> bool
        ensures { result ≡ ready (printer_of self.entry.bytes.now) }
    {
        let model = self.model();
        (1..5).all(|k| {
            let n = jet_number(k);
            let present = has_jet(model, n);
            self.jet(n).is_ready(present)
        })
    }
}

// Whether bytes are a state that the box can be in.
#[tactic(auto, using(frame::proofs::Ground::tests), unfolding(crate::specs::State::valid_state))]
pub(crate) fn valid_state(state: &[u8]) -> bool
    ensures { result ≡ valid_state state.now }
{
    state.len() == STATE && StateBytes { bytes: state }.is_valid()
}

// The clock, written back.
pub(crate) fn put_clock(state: &mut [u8], clock: Clock)
    requires { length state.old ≡ state_size }
    ensures { state.new ≡ bytes_of (with_clock (printer_of state.old) clock) }
{
    let Clock {
        second,
        minute,
        hour,
        date,
    } = clock;
    state[1..7].copy_from_slice(&[second, minute, hour, date.day, date.month, date.year]);
}

// The date change, written back.
pub(crate) fn put_date_change(state: &mut [u8], time: TimeOfDay)
    requires { length state.old ≡ state_size }
    ensures { state.new ≡ set (set state.old 7 time.hour) 8 time.minute }
{
    state[7] = time.hour;
    state[8] = time.minute;
}

// A printer of a type at a moment, with the date change at midnight and empty jets.
pub(crate) fn put_fresh(state: &mut [u8], model: u8, clock: Clock)
    requires { length state.old ≡ state_size }
    ensures { state.new ≡ bytes_of (fresh_printer model clock) }
{
    state.fill(0);
    state[0] = model;
    put_clock(state, clock);
}
