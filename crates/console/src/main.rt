// The console of document 01: a fresh printer of type 1 with an empty store is fed standard input, and each call is a line, but for one that waits for more.
#![tactic(auto)]

ghost use Rattle.std.specs.Prelude.{◌≤◌, length, ◌≡◌};
ghost use Rattle.console.specs.Console.{line_size, Runs, start_state, start_store, Starts, Turns};

use calendar::clock::{Clock, Date};
use frame::given::{Given, Refusal};
use library::store::STORE;
use line::write_line;
use printer::answer::{ANSWER, STRIPS};
use printer::call::fresh;
use printer::receive::receive;
use printer::state::STATE;

// A number of up to three digits, a colon, a place of up to twenty, a space, the longest answer in hex, a newline.
const LINE: usize = 1134;

// A fresh type 1 at 29 February 2024 23:59:58.
fn start(state: &mut [u8])
    ensures { Starts state.old state.new }
{
    let _ = fresh(
        state,
        1,
        Clock {
            second: 58,
            minute: 59,
            hour: 23,
            date: Date {
                day: 29,
                month: 2,
                year: 24,
            },
        },
    );
}

// What a call did: how long its line is, where it has one, and how many bytes it consumed.
#[derive(Drop)]
struct Turn {
    size: Option<usize>,
    consumed: usize,
}

// A call on the bytes that are left, and its line over the text's front; number 3 has none.
fn call(state: &mut [u8], store: &mut [u8], s: &[u8], text: &mut [u8]) -> Turn
    requires { line_size ≤ length text.old }
    ensures { Turns state.old store.old s.now text.old result state.new store.new text.new }
{
    let mut answer = [0; ANSWER];
    let mut strips = [0; STRIPS];
    let done = receive(state, store, s, &mut answer, &mut strips);
    let consumed = done.consumed;
    if done.outcome == Err(Refusal::NotWhole) {
        return Turn {
            size: None,
            consumed,
        };
    }
    let size = write_line(text, Given::from(done.outcome), &answer[..done.answer]);
    Turn { size, consumed }
}

// Calls until the box waits for more or no bytes are left, and gives the place that was come to. A failed write ends it too, with that place as its error: the program then ends without the rest of its lines, and with status 0.
fn run(state: &mut [u8], store: &mut [u8], s: &[u8]) -> Result<usize, usize>
    requires { (state.old ≡ start_state) × (store.old ≡ start_store) }
    ensures { Runs s.now result state.new store.new }
{
    let mut text = [0; LINE];
    // A loop over a place: each turn itself says how far it goes, and the contract speaks of the place.
    let mut at = 0;
    while at < s.len() {
        let turn = call(state, store, &s[at..], &mut text);
        let Some(size) = turn.size else {
            return Ok(at);
        };
        at += turn.consumed;
        if !io::write_all(1, &text[..size]) {
            return Err(at);
        }
    }
    Ok(at)
}

fn main() {
    let mut input = [0; 8192];
    let n = io::read_full(0, &mut input);
    let mut state = [0; STATE];
    start(&mut state);
    let mut store = [0; STORE];
    let _ = run(&mut state, &mut store, &input[..n]);
}
