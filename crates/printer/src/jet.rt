// A jet, over its 559 bytes: length (2), content (512), general (11), counter (34).
ghost use Rattle.std.specs.Prelude.{◌-◌, ◌≤◌, length, true, ◌≡◌};
ghost use Rattle.printer.specs.Change.{BecomesJet, edited_jet, positions, updated_jet, with_both};
ghost use Rattle.printer.specs.Counter.{counter_of, counter_size, valid_counter};
ghost use Rattle.printer.specs.Jet.{counted_jet, good_parameters, has_jet, has_message, has_parameters, head_jet, jet_bytes, jet_of, jet_size, message, parameters, valid_jet, valid_message, with_message, with_parameters};
ghost use Rattle.printer.specs.Print.{ready_jet};
ghost use Rattle.frame.specs.Given.{given_in};
ghost use Rattle.content.specs.Content.{longest_message};
ghost use Rattle.content.specs.Edit.{edit_tests};

use crate::counter::{COUNTER, CounterBytes, SETTINGS, count, good_settings, set_to};
use content::edit::edit;
use content::position::field_positions;
use content::test::{MESSAGE, is_content};
use content::update::lay_text;
use frame::given::Refusal;
use frame::wire::word;

// "A jet number is never a head number": two kinds of number, and `head_jet` the only way across.
#[derive(Clone, Copy, Debug, PartialEq, Eq)]
pub struct JetNumber(u8);

#[derive(Clone, Copy, Debug, PartialEq, Eq)]
pub struct HeadNumber(u8);

// How many of the parameter bytes are general.
const GENERAL: usize = 11;

// Where the parts of a jet begin, the length at 0, and where it ends; the settings of its counter end where it says whether it is set.
const CONTENT_AT: usize = 2;

const GENERAL_AT: usize = CONTENT_AT + MESSAGE;

const COUNTER_AT: usize = GENERAL_AT + GENERAL;

const SET_AT: usize = COUNTER_AT + SETTINGS;

pub(crate) const JET: usize = COUNTER_AT + COUNTER;

// Which jets a printer of a type has.
#[tactic(auto, using(frame::proofs::Ground::tests), unfolding(crate::specs::Jet::has_jet))]
pub(crate) fn has_jet(model: u8, n: JetNumber) -> bool
    ensures { result ≡ has_jet model n.0 }
{
    let k = n.0;
    match model {
        1 => k == 1,
        2 => (1..=2).contains(&k),
        3 => k == 1 || k == 3,
        4 => (1..=4).contains(&k),
        _ => false,
    }
}

// The jet of a number, as a frame or a loop over the jets names it. A function and no `From`: a byte turns into a jet's number here, and never
// unseen.
pub(crate) fn jet_number(b: u8) -> JetNumber
    ensures { result.0 ≡ b }
{
    JetNumber(b)
}

// The place of a jet in the row of four, from 0. It asks for 1 to 4, since a frame may name any byte and a jet number holds any.
pub(crate) fn jet_index(n: JetNumber) -> usize
    requires { (1 ≤ n.0) × (n.0 ≤ 4) }
    ensures { (result ≡ n.0 - 1) × (result ≤ 3) }
{
    usize::from(n.0 - 1)
}

// Head 1.
pub(crate) fn first_head() -> HeadNumber
    ensures { result.0 ≡ 1 }
{
    HeadNumber(1)
}

// The k-th jet of a head, from 0: "Head 1 owns jets 1 and 2, head 2 owns jets 3 and 4."
pub(crate) fn head_jet(head: HeadNumber, k: u8) -> JetNumber
    requires { (1 ≤ head.0) × (head.0 ≤ 2) × (k ≤ 1) }
    ensures { result.0 ≡ head_jet head.0 k }
{
    JetNumber(2 * (head.0 - 1) + 1 + k)
}

// The bytes of a jet, lent to be read.
#[derive(Clone, Copy)]
pub(crate) struct JetBytes<'a> {
    pub(crate) bytes: &'a [u8],
    ghost sized: { length bytes.now ≡ jet_size },
}

impl<'a> JetBytes<'a> {
    // How long the message is; 0 where there is none, since no content is empty.
    #[tactic(auto, using(crate::proofs::Jets::two_read), unfolding(crate::specs::Jet::jet_of))]
    fn message_length(self) -> usize
        ensures { result ≡ (jet_of self.entry.bytes.now).length }
    {
        word(self.bytes[0], self.bytes[1])
    }

    pub(crate) fn has_message(self) -> bool
        ensures { result ≡ has_message (jet_of self.entry.bytes.now) }
    {
        0 < self.message_length()
    }

    // The message, as it lies there.
    #[tactic(auto, using(crate::proofs::Jets::message_lent))]
    pub(crate) fn message(self) -> &'a [u8]
        requires { (jet_of self.bytes.now).length ≤ longest_message }
        ensures { result.now ≡ message (jet_of self.entry.bytes.now) }
    {
        let end = CONTENT_AT + self.message_length();
        &self.bytes[CONTENT_AT..end]
    }

    // How many field positions the message has.
    #[tactic(auto, using(crate::proofs::Jets::positions_short))]
    pub(crate) fn positions(self) -> usize
        requires { (jet_of self.bytes.now).length ≤ longest_message }
        ensures { (result ≡ positions (jet_of self.entry.bytes.now)) × (result ≤ longest_message) }
    {
        field_positions(self.message())
    }

    // The counter is the last part.
    #[tactic(auto, unfolding(crate::specs::Jet::jet_of))]
    pub(crate) fn counter(self) -> CounterBytes<'a>
        ensures { counter_of result.bytes.now ≡ (jet_of self.entry.bytes.now).counter }
    {
        CounterBytes {
            bytes: &self.bytes[COUNTER_AT..],
        }
    }

    pub(crate) fn has_parameters(self) -> bool
        ensures { result ≡ has_parameters (jet_of self.entry.bytes.now) }
    {
        self.counter().is_set()
    }

    // The 37 parameter bytes, as they lie there: 11 general ones, and the settings of the counter right behind them.
    #[tactic(auto, using(crate::proofs::Jets::parameters_lent))]
    pub(crate) fn parameters(self) -> &'a [u8]
        ensures { result.now ≡ parameters (jet_of self.entry.bytes.now) }
    {
        &self.bytes[GENERAL_AT..SET_AT]
    }

    // Whether the message is good where there is one.
    #[tactic(auto, using(frame::proofs::Ground::tests), unfolding(crate::specs::Jet::valid_message))]
    fn is_message_valid(self) -> bool
        ensures { result ≡ valid_message (jet_of self.entry.bytes.now) }
    {
        !self.has_message() || (self.message_length() <= MESSAGE && is_content(self.message()))
    }

    // Whether a jet holds what a valid state may hold; a jet that the printer lacks holds nothing.
    #[tactic(auto, using(frame::proofs::Ground::tests, crate::proofs::Jets::set_lent), unfolding(crate::specs::Jet::valid_jet))]
    pub(crate) fn is_valid(self, present: bool) -> bool
        ensures { result ≡ valid_jet present (jet_of self.entry.bytes.now) }
    {
        if present {
            self.is_message_valid() && self.counter().is_valid()
        } else {
            !self.has_message() && self.bytes[SET_AT] == 0
        }
    }

    // Whether a jet can print: a message and parameters, on each jet that the printer has.
    pub(crate) fn is_ready(self, present: bool) -> bool
        ensures { result ≡ ready_jet present (jet_of self.entry.bytes.now) }
    {
        !present || (self.has_message() && self.has_parameters())
    }
}

// The general bytes are "kept as they come": only the settings are good or not.
#[tactic(auto, using(frame::proofs::Ground::lent_tail), unfolding(crate::specs::Jet::good_parameters))]
pub(crate) fn good_parameters(q: &[u8]) -> bool
    requires { length q.now ≡ 37 }
    ensures { result ≡ good_parameters q.now }
{
    good_settings(&q[GENERAL..])
}

// A jet gets another message; the bytes behind it count for nothing and stay. Who writes takes a slice and asks for its length: of an array or
// a struct made of a part of a lent slice the check doesn't tell what the part ends as.
pub(crate) fn put_message(jet: &mut [u8], message: &[u8])
    requires { (length jet.old ≡ jet_size) × (length message.now ≤ longest_message) }
    ensures { jet.new ≡ jet_bytes (with_message (jet_of jet.old) message.now) }
{
    let n = message.len();
    // 512 at the most: a cast loses nothing, and `try_from` would add a branch.
    jet[..CONTENT_AT].copy_from_slice(&(n as u16).to_be_bytes());
    jet[CONTENT_AT..CONTENT_AT + n].copy_from_slice(message);
}

// A jet gets other parameters: "Accepting them sets the counter to initial and the batch to 0." A slice of 37: with an array each caller would
// first make one of a part of its data.
pub(crate) fn put_parameters(jet: &mut [u8], q: &[u8])
    requires { (length jet.old ≡ jet_size) × (length q.now ≡ 37) × (good_parameters q.now ≡ true) }
    ensures { jet.new ≡ jet_bytes (with_parameters (jet_of jet.old) q.now) }
{
    jet[GENERAL_AT..COUNTER_AT].copy_from_slice(&q[..GENERAL]);
    set_to(&mut jet[COUNTER_AT..JET], &q[GENERAL..]);
}

// A jet gets both, as 0Ch brings them.
pub(crate) fn put_both(jet: &mut [u8], q: &[u8], message: &[u8])
    requires { (length jet.old ≡ jet_size) × (length q.now ≡ 37) × (good_parameters q.now ≡ true) × (length message.now ≤ longest_message) }
    ensures { jet.new ≡ jet_bytes (with_both (jet_of jet.old) q.now message.now) }
{
    put_message(jet, message);
    put_parameters(jet, q);
}

// 42h on one jet: what it gives, and the bytes replaced where that is 0.
pub(crate) fn edit_jet(jet: &mut [u8], address: usize, symbols: &[u8]) -> Result<(), Refusal>
    requires { (length jet.old ≡ jet_size) × ((jet_of jet.old).length ≤ longest_message) }
    ensures { BecomesJet (edit_tests (message (jet_of jet.old)) address symbols.now) (edited_jet (jet_of jet.old) address symbols.now) jet.old (given_in result) jet.new }
{
    let end = CONTENT_AT + JetBytes { bytes: jet }.message_length();
    edit(&mut jet[CONTENT_AT..end], address, symbols)
}

// A jet's field positions take a text.
#[tactic(auto, using(crate::proofs::Jets::updated_left))]
pub(crate) fn update_jet(jet: &mut [u8], text: &[u8])
    requires { (length jet.old ≡ jet_size) × ((jet_of jet.old).length ≤ longest_message) }
    ensures { jet.new ≡ jet_bytes (updated_jet (jet_of jet.old) text.now) }
{
    let end = CONTENT_AT + JetBytes { bytes: jet }.message_length();
    lay_text(&mut jet[CONTENT_AT..end], text);
}

// A jet counts a print, "counter shown or not".
#[tactic(auto, using(crate::proofs::Jets::counted_left), unfolding(crate::specs::Jet::jet_of))]
pub(crate) fn count_jet(jet: &mut [u8])
    requires { (length jet.old ≡ jet_size) × (valid_counter (jet_of jet.old).counter ≡ true) }
    ensures { jet.new ≡ jet_bytes (counted_jet (jet_of jet.old)) }
{
    count(&mut jet[COUNTER_AT..JET]);
}
