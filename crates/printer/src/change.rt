// What the frames 0Ah, 0Bh, 0Ch, 42h and a field update change: every check stands before the first change.
ghost use Rattle.std.specs.Prelude.{◌+◌, ◌≤◌, length, true, ◌≡◌};
ghost use Rattle.frame.specs.Given.{given_in};
ghost use Rattle.content.specs.Content.{longest_message};
ghost use Rattle.printer.specs.Change.{ChangesJet, change_order, least_data, update_fields};
ghost use Rattle.printer.specs.Jet.{head_jet, jet_of, jet_size};
ghost use Rattle.printer.specs.Order.{Obeys, Places};
ghost use Rattle.printer.specs.State.{jet_place, printer_of, state_size, valid_state};
ghost use Rattle.printer.specs.declared.change.Change.TheVariants.{Both, Characters, Message, Parameters};

use crate::jet::{
    JET, JetBytes, edit_jet, first_head, good_parameters, has_jet, head_jet, jet_number, put_both,
    put_message, put_parameters, update_jet,
};
use crate::state::{StateBytes, jet_place};
use content::item::characters_in_front;
use content::test::test;
use frame::given::Refusal;
use frame::wire::word;

// What a frame changes on the jet that it names: 0Ah the message, 0Bh the parameters, 0Ch both, 42h characters of the message. An enum and no
// closure: the rules `change_tests` and `changed_jet`, and the laws of them, are stated over it.
#[derive(Clone, Copy, Debug, PartialEq, Eq)]
pub(crate) enum Change {
    Message,
    Parameters,
    Both,
    Characters,
}

// Where the parameters of 0Bh and 0Ch end: the jet number and 37 bytes.
const PARAMETERS_END: usize = 38;

// The first data byte is the jet number: where that jet begins, if it is on the printer.
pub(crate) fn place_in(state: StateBytes<'_>, d: &[u8]) -> Option<usize>
    requires { 1 ≤ length d.now }
    ensures { Places (printer_of state.entry.bytes.now) d.now result }
{
    let n = jet_number(d[0]);
    if !has_jet(state.model(), n) {
        return None;
    }
    Some(jet_place(n))
}

// 0Ah.
fn set_message(jet: &mut [u8], d: &[u8]) -> Result<(), Refusal>
    requires { (length jet.old ≡ jet_size) × (2 ≤ length d.now) }
    ensures { ChangesJet Message d.now jet.old (given_in result) jet.new }
{
    let message = &d[1..];
    test(message)?;
    put_message(jet, message);
    Ok(())
}

// 0Bh.
fn set_parameters(jet: &mut [u8], d: &[u8]) -> Result<(), Refusal>
    requires { (length jet.old ≡ jet_size) × (38 ≤ length d.now) }
    ensures { ChangesJet Parameters d.now jet.old (given_in result) jet.new }
{
    let parameters = &d[1..PARAMETERS_END];
    if !good_parameters(parameters) {
        return Err(Refusal::BadParameters);
    }
    put_parameters(jet, parameters);
    Ok(())
}

// 0Ch.
fn set_both(jet: &mut [u8], d: &[u8]) -> Result<(), Refusal>
    requires { (length jet.old ≡ jet_size) × (39 ≤ length d.now) }
    ensures { ChangesJet Both d.now jet.old (given_in result) jet.new }
{
    let message = &d[PARAMETERS_END..];
    let parameters = &d[1..PARAMETERS_END];
    if !good_parameters(parameters) {
        return Err(Refusal::BadParameters);
    }
    test(message)?;
    put_both(jet, parameters, message);
    Ok(())
}

// 42h.
fn edit_message(jet: &mut [u8], d: &[u8]) -> Result<(), Refusal>
    requires { (length jet.old ≡ jet_size) × ((jet_of jet.old).length ≤ longest_message) × (4 ≤ length d.now) }
    ensures { ChangesJet Characters d.now jet.old (given_in result) jet.new }
{
    let now = JetBytes { bytes: jet };
    if !now.has_message() {
        return Err(Refusal::Missing);
    }
    edit_jet(jet, word(d[1], d[2]), &d[3..])
}

// One jet, by what is changed on it.
fn change_jet(jet: &mut [u8], what: Change, d: &[u8]) -> Result<(), Refusal>
    requires { (length jet.old ≡ jet_size) × ((jet_of jet.old).length ≤ longest_message) × (least_data what ≤ length d.now) }
    ensures { ChangesJet what d.now jet.old (given_in result) jet.new }
{
    match what {
        Change::Message => set_message(jet, d),
        Change::Parameters => set_parameters(jet, d),
        Change::Both => set_both(jet, d),
        Change::Characters => edit_message(jet, d),
    }
}

// The jet that a frame names. It asks for a valid state, and no type keeps that: between two writes of one change no state would be one.
#[tactic(auto, using(crate::proofs::Valid::valid_size))]
pub(crate) fn change_order(state: &mut [u8], what: Change, d: &[u8]) -> Result<(), Refusal>
    requires { (valid_state state.old ≡ true) × (least_data what ≤ length d.now) }
    ensures { Obeys (change_order what (printer_of state.old) d.now) state.old (given_in result) state.new }
{
    let at = place_in(StateBytes { bytes: state }, d).ok_or(Refusal::NoSuchJet)?;
    change_jet(&mut state[at..at + JET], what, d)
}

// Where a jet of head 1 begins: the first or the second, from 0.
fn head_place(k: u8) -> usize
    requires { k ≤ 1 }
    ensures { (result ≡ jet_place (head_jet 1 k)) × (result + jet_size ≤ state_size) }
{
    jet_place(head_jet(first_head(), k))
}

// A field update, over the jets of head 1: a character for each field position, jet 1's before jet 2's. It asks for a valid state, as
// `change_order` does.
pub(crate) fn update_fields(state: &mut [u8], text: &[u8]) -> Result<(), Refusal>
    requires { valid_state state.old ≡ true }
    ensures { Obeys (update_fields (printer_of state.old) text.now) state.old (given_in result) state.new }
{
    let first = head_place(0);
    let second = head_place(1);
    let jet_1 = JetBytes {
        bytes: &state[first..first + JET],
    };
    let jet_2 = JetBytes {
        bytes: &state[second..second + JET],
    };
    let taken = jet_1.positions();
    let all = taken + jet_2.positions();
    if all == 0 {
        return Err(Refusal::Missing);
    }
    if text.len() != all {
        return Err(Refusal::WrongCount);
    }
    let i = characters_in_front(text);
    if i < all {
        return Err(Refusal::NoCharacter(i));
    }
    update_jet(&mut state[first..first + JET], &text[..taken]);
    update_jet(&mut state[second..second + JET], &text[taken..]);
    Ok(())
}
