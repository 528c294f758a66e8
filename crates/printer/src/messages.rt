// The messages in the lent store: 1Ch puts one in, 40h lets a jet hold a copy, and the approval screen is shown one.
ghost use Rattle.std.specs.Prelude.{◌≤◌, length, true, ◌≡◌};
ghost use Rattle.frame.specs.Given.{given_in};
ghost use Rattle.library.specs.Record.{records};
ghost use Rattle.printer.specs.Messages.{ChangesStore, Shows, bytes_shown, good_bodies, good_body, select_message, store_tests, stored_body, stored_number, valid_store};
ghost use Rattle.printer.specs.Order.{Obeys, storing};
ghost use Rattle.printer.specs.State.{printer_of, valid_state};

use crate::change::place_in;
use crate::jet::{JET, good_parameters, put_both};
use crate::state::StateBytes;
use content::test::{is_content, test};
use frame::given::Refusal;
use library::record::{HEAD, record_at};
use library::store::{body, is_number, is_store, keep};

// How many parameter bytes stand before the content of a message in the store.
const PARAMETERS: usize = 37;

fn good_body(body: &[u8]) -> bool
    ensures { result ≡ good_body body.now }
{
    PARAMETERS <= body.len()
        && good_parameters(&body[..PARAMETERS])
        && is_content(&body[PARAMETERS..])
}

// Whether the body of every record is good.
fn good_bodies(store: &[u8]) -> bool
    ensures { result ≡ good_bodies (records store.now) }
{
    let mut at = 0;
    while let Some(found) = record_at(store, at) {
        if !good_body(&store[at + HEAD..found.end]) {
            return false;
        }
        at = found.end;
    }
    true
}

// Whether bytes are a store that the box can be lent.
pub(crate) fn valid_store(store: &[u8]) -> bool
    ensures { result ≡ valid_store store.now }
{
    is_store(store) && good_bodies(store)
}

// 1Ch: every check stands before the first change.
pub(crate) fn store_message(store: &mut [u8], d: &[u8]) -> Result<(), Refusal>
    requires { (valid_store store.old ≡ true) × (39 ≤ length d.now) }
    ensures { ChangesStore (store_tests store.old d.now) (storing (stored_number d.now) (stored_body d.now)) store.old (given_in result) store.new }
{
    if !is_number(d[0]) {
        return Err(Refusal::NoSuchMessage);
    }
    let message = &d[1..];
    if !good_parameters(&message[..PARAMETERS]) {
        return Err(Refusal::BadParameters);
    }
    test(&message[PARAMETERS..])?;
    keep(store, d[0], message)
}

// 40h: the store is well formed, so that a message in it is not tested again, and no record has a number that is not 1 to 79.
#[tactic(auto, using(crate::proofs::Valid::valid_size))]
pub(crate) fn select_message(state: &mut [u8], store: &[u8], d: &[u8]) -> Result<(), Refusal>
    requires { (valid_state state.old ≡ true) × (valid_store store.now ≡ true) × (2 ≤ length d.now) }
    ensures { Obeys (select_message (printer_of state.old) store.now d.now) state.old (given_in result) state.new }
{
    let at = place_in(StateBytes { bytes: state }, d).ok_or(Refusal::NoSuchJet)?;
    let found = body(store, d[1]);
    if found.is_empty() {
        return Err(Refusal::NoSuchMessage);
    }
    put_both(
        &mut state[at..at + JET],
        &found[..PARAMETERS],
        &found[PARAMETERS..],
    );
    Ok(())
}

// What the approval screen shows for a number: the content of the record in the store, or the whole content lent where there is none; refused
// for a store that is not well formed and for a number that is not 1 to 79.
pub fn shown<'a>(store: &'a [u8], current: &'a [u8], n: u8) -> Result<&'a [u8], Refusal>
    ensures { Shows store.now current.now n (given_in result) (bytes_shown result) }
{
    if !valid_store(store) {
        return Err(Refusal::BadState);
    }
    if !is_number(n) {
        return Err(Refusal::NoSuchMessage);
    }
    let found = body(store, n);
    if found.is_empty() {
        return Ok(current);
    }
    Ok(&found[PARAMETERS..])
}
