// The box's main call: what it makes of the bytes handed in since the last one consumed.
ghost use Rattle.std.specs.Prelude.{◌≤◌, length, true, ◌≡◌};
ghost use Rattle.frame.specs.Receive.{received};
ghost use Rattle.frame.specs.Wire.{fits, size_of};
ghost use Rattle.printer.specs.Receive.{Fulfils, Meets, Ready, Receives, answer_size, handled, obeyed, order, printer_order, strips_size};
ghost use Rattle.printer.specs.State.{printer_of, valid_state};

use crate::answer::{ANSWER, Answered, STRIPS, bare, settle, silent};
use crate::change::{Change, change_order, update_fields};
use crate::messages::{select_message, store_message, valid_store};
use crate::print::print;
use crate::request::{Request, ask_clock, ask_table, request_order};
use crate::state::{StateBytes, valid_state};
use frame::given::Refusal;
use frame::receive::{Received, receive as received};

// A frame that needs no store, by its identifier in the table's order.
#[tactic(auto, using(crate::proofs::Valid::valid_size))]
fn obey_printer(
    state: &mut [u8],
    identifier: u8,
    d: &[u8],
    consumed: usize,
    answer: &mut [u8],
    strips: &mut [u8],
) -> Answered
    requires { (valid_state state.old ≡ true) × (answer_size ≤ length answer.old) × (strips_size ≤ length strips.old) × (fits (size_of identifier) (length d.now) ≡ true) }
    ensures { Meets (obeyed (printer_of state.old) (printer_order (printer_of state.old) identifier d.now) consumed) state.old answer.old strips.old result state.new answer.new strips.new }
{
    let out = &mut answer[1..];
    let told = match identifier {
        0x0A => bare(change_order(state, Change::Message, d)),
        0x0B => bare(change_order(state, Change::Parameters, d)),
        0x0C => bare(change_order(state, Change::Both, d)),
        0x39 => request_order(state, Request::Counter, d, out),
        0x42 => bare(change_order(state, Change::Characters, d)),
        0x43 => request_order(state, Request::Message, d, out),
        0x52 => ask_table(StateBytes { bytes: state }, out),
        0x94 => return print(state, consumed, answer, strips),
        _ => ask_clock(StateBytes { bytes: state }, out),
    };
    settle(told, consumed, answer)
}

// A frame, by its identifier.
fn obey(
    state: &mut [u8],
    store: &mut [u8],
    identifier: u8,
    d: &[u8],
    consumed: usize,
    answer: &mut [u8],
    strips: &mut [u8],
) -> Answered
    requires { Ready state.old store.old answer.old strips.old × (fits (size_of identifier) (length d.now) ≡ true) }
    ensures { Fulfils (obeyed (printer_of state.old) (order (printer_of state.old) store.old identifier d.now) consumed) state.old store.old answer.old strips.old result state.new store.new answer.new strips.new }
{
    match identifier {
        0x1C => settle(bare(store_message(store, d)), consumed, answer),
        0x40 => settle(bare(select_message(state, store, d)), consumed, answer),
        _ => obey_printer(state, identifier, d, consumed, answer, strips),
    }
}

// In a valid state, with a well-formed store and buffers of the stated size: nothing is tested again.
pub(crate) fn handle(
    state: &mut [u8],
    store: &mut [u8],
    s: &[u8],
    answer: &mut [u8],
    strips: &mut [u8],
) -> Answered
    requires { Ready state.old store.old answer.old strips.old }
    ensures { Fulfils (handled (printer_of state.old) store.old s.now (received s.now)) state.old store.old answer.old strips.old result state.new store.new answer.new strips.new }
{
    match received(s) {
        Received::Partial => silent(Refusal::NotWhole),
        Received::Refused { why, consumed } | Received::Misfit { why, consumed, .. } => {
            settle(Err(why), consumed, answer)
        }
        Received::Enquiry => settle(Ok(0), 1, answer),
        Received::Update { size, consumed } => settle(
            bare(update_fields(state, &s[1..1 + size])),
            consumed,
            answer,
        ),
        Received::Frame {
            identifier,
            size,
            consumed,
        } => obey(
            state,
            store,
            identifier,
            &s[3..3 + size],
            consumed,
            answer,
            strips,
        ),
    }
}

// Takes the bytes handed in since the last one consumed; state, store and buffers keep every byte that is not written. They are lent one by
// one: of a struct that holds `&mut` slices the check doesn't tell what the caller's slices end as.
pub fn receive(
    state: &mut [u8],
    store: &mut [u8],
    s: &[u8],
    answer: &mut [u8],
    strips: &mut [u8],
) -> Answered
    ensures { Receives state.old store.old s.now answer.old strips.old result state.new store.new answer.new strips.new }
{
    if !valid_state(state) || !valid_store(store) {
        return silent(Refusal::BadState);
    }
    if answer.len() < ANSWER || strips.len() < STRIPS {
        return silent(Refusal::ShortBuffer);
    }
    handle(state, store, s, answer, strips)
}
