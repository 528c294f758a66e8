// A byte of a line, taken without a look at the state until something is whole: bytes are gathered until `frame`'s receiver, which needs no state, finds them whole; only then the box is called, which tests it.
ghost use Rattle.std.specs.Prelude.{◌+◌, ◌<◌, ◌≡◌};
ghost use Rattle.frame.specs.declared.holding.Holding.TheVariants.{Held};
ghost use Rattle.serving.specs.Hold.{Serves, behind, uncalled};

use frame::given::Refusal;
use frame::holding::Holding;
use frame::receive::{Received, receive as received};
use printer::answer::Answered;
use printer::receive::receive;
use printer::single::Taken;

// The box is not called: a refusal and nothing else, and so many bytes are taken. The printer's `silent` and `held_behind` are its own: they
// ask what is true there alone, and no public function asks for anything.
fn uncalled(why: Refusal, consumed: usize) -> Answered
    ensures { result ≡ uncalled why consumed }
{
    Answered {
        outcome: Err(why),
        consumed,
        answer: 0,
        strips: [0; 4],
    }
}

// What is handed back of a byte behind n others: 1 and 2 leave it untaken; with 3 it is held too, with 4 all is dropped from now on, and with any other number it was the last.
fn behind(n: usize, answered: Answered) -> Taken
    requires { n + 1 < 18446744073709551616 }
    ensures { result ≡ behind n answered }
{
    let holding = match answered.outcome {
        Err(Refusal::BadState | Refusal::ShortBuffer) => {
            return Taken {
                answered,
                holding: Holding::Held(n),
            };
        }
        Err(Refusal::NotWhole) => Holding::Held(n + 1),
        Err(Refusal::TooLong) => Holding::Dropping,
        _ => Holding::Held(0),
    };
    Taken {
        answered: Answered {
            consumed: 1,
            ..answered
        },
        holding,
    }
}

// A byte behind n others that are held; 1 where there is no room for it, which no burst leaves.
fn serve_held(
    state: &mut [u8],
    store: &mut [u8],
    n: usize,
    buffer: &mut [u8],
    byte: u8,
    answer: &mut [u8],
    strips: &mut [u8],
) -> Taken
    ensures { Serves state.old store.old (Held n) buffer.old byte answer.old strips.old result state.new store.new buffer.new answer.new strips.new }
{
    if buffer.len() <= n {
        return Taken {
            answered: uncalled(Refusal::BadState, 0),
            holding: Holding::Held(n),
        };
    }
    buffer[n] = byte;
    let whole = &buffer[..n + 1];
    if received(whole) == Received::Partial {
        return behind(n, uncalled(Refusal::NotWhole, 0));
    }
    behind(n, receive(state, store, whole, answer, strips))
}

// Takes a byte of the line: it is held or dropped, or completes what is handed in to the box. What is lent is lent one by one, as to the
// printer's calls.
pub fn serve(
    state: &mut [u8],
    store: &mut [u8],
    holding: Holding,
    buffer: &mut [u8],
    byte: u8,
    answer: &mut [u8],
    strips: &mut [u8],
) -> Taken
    ensures { Serves state.old store.old holding buffer.old byte answer.old strips.old result state.new store.new buffer.new answer.new strips.new }
{
    match holding {
        Holding::Held(n) => serve_held(state, store, n, buffer, byte, answer, strips),
        Holding::Dropping => Taken {
            answered: uncalled(Refusal::NotWhole, 1),
            holding: Holding::Dropping,
        },
    }
}
