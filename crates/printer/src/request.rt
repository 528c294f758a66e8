// What the frames 39h, 43h, 52h and D6h ask: each writes its frame where the answer's stands, behind the 06h, and so asks that slice for its room.
ghost use Rattle.std.specs.Prelude.{◌-◌, ◌≤◌, length, true, [], ◌≡◌};
ghost use Rattle.frame.specs.Build.{frame};
ghost use Rattle.content.specs.Content.{longest_message};
ghost use Rattle.frame.specs.Given.{numbered};
ghost use Rattle.printer.specs.Answer.{Tells, TellsOrder};
ghost use Rattle.calendar.specs.Clock.{clock_text};
ghost use Rattle.calendar.specs.DateChange.{table_text};
ghost use Rattle.printer.specs.Jet.{jet_of};
ghost use Rattle.printer.specs.Request.{TellsJet, request_order};
ghost use Rattle.printer.specs.State.{printer_of, valid_state};
ghost use Rattle.printer.specs.Receive.{answer_size};
ghost use Rattle.printer.specs.declared.request.Request.TheVariants.{Counter, Message};

use crate::change::place_in;
use crate::jet::{JET, JetBytes};
use crate::state::StateBytes;
use calendar::clock::{CODES, clock_text};
use frame::build::{answer, lay, wrap};
use frame::given::Refusal;
use frame::wire::HEAD;

// What a frame asks of the jet that it names: 39h its counter, 43h its message. An enum and no closure: the rules `request_tests` and
// `requested` are stated over it.
#[derive(Clone, Copy, Debug, PartialEq, Eq)]
pub(crate) enum Request {
    Counter,
    Message,
}

// 39h: the counter's digits, and the batch in three bytes. The answer's buffer is written into: its room is asked of the slice.
fn ask_counter(jet: JetBytes<'_>, out: &mut [u8]) -> Result<usize, Refusal>
    requires { answer_size - 1 ≤ length out.old }
    ensures { TellsJet Counter jet.entry.bytes.now out.old (numbered result) out.new }
{
    if !jet.has_parameters() {
        return Err(Refusal::Missing);
    }
    answer(out, 0x39, &jet.counter().text())
}

// 43h: the parameters, and the message behind them, copied from the jet to where the frame has them.
fn ask_message(jet: JetBytes<'_>, out: &mut [u8]) -> Result<usize, Refusal>
    requires { ((jet_of jet.bytes.now).length ≤ longest_message) × (answer_size - 1 ≤ length out.old) }
    ensures { TellsJet Message jet.entry.bytes.now out.old (numbered result) out.new }
{
    if !jet.has_message() || !jet.has_parameters() {
        return Err(Refusal::Missing);
    }
    let text = jet.message();
    let n = 37 + text.len();
    lay(&mut out[HEAD..], jet.parameters());
    lay(&mut out[HEAD + 37..], text);
    wrap(out, 0x43, n)
}

// The jet that a frame names.
#[tactic(auto, using(crate::proofs::Valid::valid_size))]
pub(crate) fn request_order(
    state: &[u8],
    what: Request,
    d: &[u8],
    out: &mut [u8],
) -> Result<usize, Refusal>
    requires { (valid_state state.now ≡ true) × (1 ≤ length d.now) × (answer_size - 1 ≤ length out.old) }
    ensures { TellsOrder (request_order what (printer_of state.now) d.now) out.old (numbered result) out.new }
{
    let at = place_in(StateBytes { bytes: state }, d).ok_or(Refusal::NoSuchJet)?;
    let jet = JetBytes {
        bytes: &state[at..at + JET],
    };
    match what {
        Request::Counter => ask_counter(jet, out),
        Request::Message => ask_message(jet, out),
    }
}

// 52h: the four digits of the date change, and the codes behind them.
pub(crate) fn ask_table(state: StateBytes<'_>, out: &mut [u8]) -> Result<usize, Refusal>
    requires { answer_size - 1 ≤ length out.old }
    ensures { Tells [] (frame 0x52 (table_text (printer_of state.entry.bytes.now).date_change)) out.old (numbered result) out.new }
{
    let digits = state.date_change().change_text();
    lay(&mut out[HEAD..], &digits);
    lay(&mut out[HEAD + 4..], &CODES);
    wrap(out, 0x52, 258)
}

// D6h.
pub(crate) fn ask_clock(state: StateBytes<'_>, out: &mut [u8]) -> Result<usize, Refusal>
    requires { answer_size - 1 ≤ length out.old }
    ensures { Tells [] (frame 0x9C (clock_text (printer_of state.entry.bytes.now).clock)) out.old (numbered result) out.new }
{
    answer(out, 0x9C, &clock_text(state.clock()))
}
