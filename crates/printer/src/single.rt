// The receiver for single bytes: what it needs between them stands in a lent buffer.
ghost use Rattle.std.specs.Prelude.{◌<◌, length, false, ◌≡◌};
ghost use Rattle.frame.specs.Ground.{within};
ghost use Rattle.frame.specs.Given.{given_in};
ghost use Rattle.frame.specs.Holding.{holding_behind, holding_size};
ghost use Rattle.frame.specs.Receive.{received};
ghost use Rattle.frame.specs.declared.holding.Holding.TheVariants.{Held};
ghost use Rattle.printer.specs.Receive.{Ready, handled};
ghost use Rattle.printer.specs.Single.{Takes, TakesByte, Untaken, counted, joined_by, taken};
ghost use Rattle.printer.specs.State.{printer_of};

use crate::answer::{ANSWER, Answered, STRIPS, silent};
use crate::messages::valid_store;
use crate::receive::handle;
use crate::state::valid_state;
use frame::given::Refusal;
use frame::holding::{Holding, is_holding};

// What came of a byte, and what is held behind it.
#[derive(Clone, Copy, Debug, PartialEq, Eq)]
pub struct Taken {
    pub answered: Answered,
    pub holding: Holding,
}

// 1 and 2: the byte is left untaken, and what was held stays.
fn untaken(why: Refusal, holding: Holding) -> Taken
    ensures { Untaken why holding result }
{
    Taken {
        answered: silent(why),
        holding,
    }
}

// What is handed back of a byte that is taken: it is consumed, also where it is held or dropped.
fn counted(answered: Answered) -> Answered
    ensures { result ≡ counted answered }
{
    Answered {
        consumed: 1,
        ..answered
    }
}

// What is held behind a byte that came behind n others: with 3 it is held too, with 4 all is dropped from now on, and with any other
// number it was the last.
fn held_behind(n: usize, outcome: Result<(), Refusal>) -> Holding
    requires small { n < holding_size }
    requires taken { within 1 2 (given_in outcome).number ≡ false }
    ensures { result ≡ holding_behind (Held n) (given_in outcome).number }
{
    match outcome {
        Err(Refusal::NotWhole) => Holding::Held(n + 1),
        Err(Refusal::TooLong) => Holding::Dropping,
        _ => Holding::Held(0),
    }
}

// A byte behind n others that are held.
fn take_held(
    state: &mut [u8],
    store: &mut [u8],
    n: usize,
    buffer: &mut [u8],
    byte: u8,
    answer: &mut [u8],
    strips: &mut [u8],
) -> Taken
    requires { Ready state.old store.old answer.old strips.old × (length buffer.old ≡ holding_size) × (n < holding_size) }
    ensures { Takes (taken (handled (printer_of state.old) store.old (joined_by n buffer.old byte) (received (joined_by n buffer.old byte)))) state.old store.old (Held n) buffer.old byte answer.old strips.old result state.new store.new buffer.new answer.new strips.new }
{
    buffer[n] = byte;
    let answered = handle(state, store, &buffer[..n + 1], answer, strips);
    Taken {
        answered: counted(answered),
        holding: held_behind(n, answered.outcome),
    }
}

// Takes one byte; state, store and buffers keep every byte that is not written. They are lent one by one, as to `receive`.
pub fn take_byte(
    state: &mut [u8],
    store: &mut [u8],
    holding: Holding,
    buffer: &mut [u8],
    byte: u8,
    answer: &mut [u8],
    strips: &mut [u8],
) -> Taken
    ensures { TakesByte state.old store.old holding buffer.old byte answer.old strips.old result state.new store.new buffer.new answer.new strips.new }
{
    if !valid_state(state) || !valid_store(store) || !is_holding(holding, buffer) {
        return untaken(Refusal::BadState, holding);
    }
    if answer.len() < ANSWER || strips.len() < STRIPS {
        return untaken(Refusal::ShortBuffer, holding);
    }
    match holding {
        Holding::Held(n) => take_held(state, store, n, buffer, byte, answer, strips),
        Holding::Dropping => Taken {
            answered: counted(silent(Refusal::NotWhole)),
            holding: Holding::Dropping,
        },
    }
}
