// Printing: every strip first, one behind the other, and then every jet counts.
ghost use Rattle.std.specs.Prelude.{◌≤◌, ◌*◌, length, true, map, ◌≡◌};
ghost use Rattle.frame.specs.Ground.{joined, over};
ghost use Rattle.printer.specs.Jet.{jet_of};
ghost use Rattle.printer.specs.Print.{PrintsJet, counted_jets, print, strips, values};
ghost use Rattle.printer.specs.Receive.{answer_size, Meets, obeyed, strips_size};
ghost use Rattle.printer.specs.State.{bytes_of, printer_of, valid_state};
ghost use Rattle.content.specs.Content.{longest_message};

use crate::answer::{Answered, settle};
use crate::jet::{JET, JetBytes, count_jet};
use crate::number::digits;
use crate::state::{JETS, StateBytes};
use calendar::clock::entries;
use calendar::date_change::printed;
use content::strip::{Values, put_strip};
use frame::given::Refusal;

// What the items of a jet's message stand for, with the entries of the moment.
fn values(entries: [u8; 24], jet: JetBytes<'_>) -> Values
    ensures { result ≡ values entries (jet_of jet.entry.bytes.now) }
{
    Values {
        digits: digits(jet.counter().value()),
        entries,
    }
}

// Writes a jet's strip over the front of a buffer, and hands back its length.
fn print_jet(entries: [u8; 24], jet: JetBytes<'_>, out: &mut [u8]) -> usize
    requires { ((jet_of jet.bytes.now).length ≤ longest_message) × (3 * longest_message ≤ length out.old) }
    ensures { PrintsJet entries (jet_of jet.entry.bytes.now) out.old result out.new }
{
    // What is refused has no strip; there is room, so none is.
    put_strip(jet.message(), values(entries, jet), out).unwrap_or(0)
}

// Writes the strips of all jets, each into the part of the buffer behind the one before.
#[tactic(auto, using(crate::proofs::Valid::valid_size))]
fn print_strips(state: &[u8], out: &mut [u8]) -> [usize; 4]
    requires { (valid_state state.now ≡ true) × (strips_size ≤ length out.old) }
    ensures { (result ≡ map length (strips (printer_of state.now))) × (out.new ≡ over (joined (strips (printer_of state.now))) out.old) }
{
    let now = StateBytes { bytes: state };
    let entries = entries(printed(now.date_change(), now.clock()));
    let mut lengths = [0; 4];
    let mut behind = 0;
    for n in 0..4 {
        let at = JETS + JET * n;
        let jet = JetBytes {
            bytes: &state[at..at + JET],
        };
        let k = print_jet(entries, jet, &mut out[behind..]);
        lengths[n] = k;
        behind += k;
    }
    lengths
}

// Every jet counts a print.
#[tactic(auto, using(crate::proofs::Valid::valid_size))]
fn count_jets(state: &mut [u8])
    requires { valid_state state.old ≡ true }
    ensures { state.new ≡ bytes_of (counted_jets (printer_of state.old)) }
{
    // By place: of `chunks_exact_mut` nothing is known of the slice behind it.
    for n in 0..4 {
        let at = JETS + JET * n;
        count_jet(&mut state[at..at + JET]);
    }
}

// 94h: the strips of all jets, and then every jet counts.
#[tactic(auto, using(crate::proofs::Valid::valid_size))]
pub(crate) fn print(
    state: &mut [u8],
    consumed: usize,
    answer: &mut [u8],
    out: &mut [u8],
) -> Answered
    requires { (valid_state state.old ≡ true) × (answer_size ≤ length answer.old) × (strips_size ≤ length out.old) }
    ensures { Meets (obeyed (printer_of state.old) (print (printer_of state.old)) consumed) state.old answer.old out.old result state.new answer.new out.new }
{
    let before = StateBytes { bytes: state };
    if !before.is_ready() {
        return settle(Err(Refusal::Missing), consumed, answer);
    }
    let lengths = print_strips(state, out);
    count_jets(state);
    Answered {
        strips: lengths,
        ..settle(Ok(0), consumed, answer)
    }
}
