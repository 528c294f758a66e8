// The other calls of the box: a fresh printer, setting the clock and the date change, and a tick.
ghost use Rattle.std.specs.Prelude.{[], ◌∷◌, length, ◌≡◌};
ghost use Rattle.frame.specs.Ground.{given, test};
ghost use Rattle.frame.specs.Given.{given_in};
ghost use Rattle.printer.specs.Call.{Freshens, first_printer, set_clock, set_date_change, tick_clock};
ghost use Rattle.printer.specs.Order.{Obeys};
ghost use Rattle.printer.specs.State.{bytes_of, state_size, valid_state};

use crate::state::{STATE, StateBytes, put_clock, put_date_change, put_fresh, valid_state};
use calendar::clock::{Clock, date_of, moment};
use calendar::date_change::TimeOfDay;
use frame::given::Refusal;

// The fresh type 1 at 1 January 2000, midnight.
fn put_first(state: &mut [u8])
    requires { length state.old ≡ state_size }
    ensures { state.new ≡ bytes_of first_printer }
{
    put_fresh(state, 1, moment(0, 0, 0, date_of(1, 1, 0)));
}

// A printer of a type at a moment: refused where the bytes have another size than a state's, for another type, and for what is no real
// moment; but for the first it is then the fresh type 1.
pub fn fresh(state: &mut [u8], model: u8, clock: Clock) -> Result<(), Refusal>
    ensures { Freshens state.old model clock (given_in result) state.new }
{
    if state.len() != STATE {
        return Err(Refusal::BadState);
    }
    if !(1..=4).contains(&model) {
        put_first(state);
        return Err(Refusal::NoSuchType);
    }
    if !clock.is_real() {
        put_first(state);
        return Err(Refusal::NoSuchMoment);
    }
    put_fresh(state, model, clock);
    Ok(())
}

// 1: asked before all else where a state must be valid.
fn valid(state: &[u8]) -> Result<(), Refusal>
    ensures { given_in result ≡ given (test (valid_state state.now) 1 ∷ []) }
{
    if !valid_state(state) {
        return Err(Refusal::BadState);
    }
    Ok(())
}

// Sets the clock to any real moment, also an earlier one.
pub fn set_clock(state: &mut [u8], clock: Clock) -> Result<(), Refusal>
    ensures { Obeys (set_clock state.old clock) state.old (given_in result) state.new }
{
    valid(state)?;
    if !clock.is_real() {
        return Err(Refusal::NoSuchMoment);
    }
    put_clock(state, clock);
    Ok(())
}

// Sets the date change to any time of day. Beside `set_clock`, not one with it: a generic one would need a trait for what is tested and where
// it goes.
pub fn set_date_change(state: &mut [u8], time: TimeOfDay) -> Result<(), Refusal>
    ensures { Obeys (set_date_change state.old time) state.old (given_in result) state.new }
{
    valid(state)?;
    if !time.is_time() {
        return Err(Refusal::NoSuchMoment);
    }
    put_date_change(state, time);
    Ok(())
}

// A second passes.
#[tactic(auto, using(crate::proofs::Valid::valid_size))]
pub fn tick(state: &mut [u8]) -> Result<(), Refusal>
    ensures { Obeys (tick_clock state.old) state.old (given_in result) state.new }
{
    valid(state)?;
    let clock = StateBytes { bytes: state }.clock();
    put_clock(state, clock.tick());
    Ok(())
}
