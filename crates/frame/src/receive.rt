// What was received: nothing is copied, an answer says where the data lies.
ghost use Rattle.std.specs.Prelude.{◌≤◌, ◌==◌, ◌≡◌, IfSome, position};
ghost use Rattle.frame.specs.Receive.{Receives, data_length, framed, judged, run, text_space, updated};
ghost use Rattle.frame.specs.Wire.{longest_data, longest_update, update_closes};

use crate::given::Refusal;
use crate::wire::{AROUND, DATA, HEAD, MARKS, UPDATE, check, size_of, word};

// How many bytes behind the 02h the 03h must stand among.
const TEXT: usize = UPDATE + 1;

// How many bytes the longest update has: 1,024.
const WHOLE: usize = UPDATE + MARKS;

// Sizes, and no slices: the rule `received` and the laws over it (`ReadsBack`, `HasEffect`) speak of numbers.
#[derive(Clone, Copy, Debug, PartialEq, Eq)]
pub enum Received {
    // Not whole yet: number 3, nothing is consumed.
    Partial,
    // A 05h.
    Enquiry,
    // Too long, or a wrong check byte.
    Refused {
        why: Refusal,
        consumed: usize,
    },
    // A field update: size characters from place 1 on.
    Update {
        size: usize,
        consumed: usize,
    },
    // An unknown identifier, or a wrong length: the check byte is right, so identifier and data are read; size data bytes from place 3 on.
    Misfit {
        why: Refusal,
        identifier: u8,
        size: usize,
        consumed: usize,
    },
    // A whole sound frame: size data bytes from place 3 on.
    Frame {
        identifier: u8,
        size: usize,
        consumed: usize,
    },
}

// How many bytes stand between the 02h and the first 03h, if one stands among those that count.
fn update_size(s: &[u8]) -> Option<usize>
    ensures first { result ≡ position (λ b. b == update_closes) (text_space s.now) }
    ensures short { IfSome result (λ n. n ≤ longest_update) }
{
    s.iter().skip(1).take(TEXT).position(|b| *b == 0x03)
}

#[tactic(auto, using(crate::proofs::Folds::ended, crate::proofs::Ground::tests))]
fn receive_update(s: &[u8]) -> Received
    ensures { result ≡ updated s.now (run update_closes (text_space s.now)) }
{
    if let Some(size) = update_size(s) {
        return Received::Update {
            size,
            consumed: size + MARKS,
        };
    }
    if s.len() < WHOLE {
        return Received::Partial;
    }
    Received::Refused {
        why: Refusal::TooLong,
        consumed: s.len(),
    }
}

// A frame whose check byte is right, held to the table.
#[tactic(auto, using(crate::proofs::Ground::tests), unfolding(crate::specs::Receive::judged))]
fn judge(identifier: u8, size: usize) -> Received
    requires { size ≤ longest_data }
    ensures { result ≡ judged identifier size }
{
    let consumed = size + AROUND;
    let why = match size_of(identifier) {
        None => Refusal::UnknownIdentifier,
        Some(asked) if !asked.fits(size) => Refusal::WrongLength,
        Some(_) => {
            return Received::Frame {
                identifier,
                size,
                consumed,
            };
        }
    };
    Received::Misfit {
        why,
        identifier,
        size,
        consumed,
    }
}

#[tactic(auto, using(crate::proofs::Ground::tests), unfolding(crate::specs::Receive::framed))]
fn receive_frame(s: &[u8]) -> Received
    ensures { result ≡ framed s.now (data_length s.now) }
{
    let [identifier, high, low, ..] = *s else {
        return Received::Partial;
    };
    let n = word(high, low);
    if DATA < n {
        return Received::Refused {
            why: Refusal::TooLong,
            consumed: s.len(),
        };
    }
    if s.len() < n + AROUND {
        return Received::Partial;
    }
    if check(&s[..n + HEAD]) != s[n + HEAD] {
        return Received::Refused {
            why: Refusal::WrongCheck,
            consumed: n + AROUND,
        };
    }
    judge(identifier, n)
}

// Sorts what was handed in since the last byte consumed; any bytes, also none.
#[tactic(auto, using(crate::proofs::Ground::tests), unfolding(crate::specs::Receive::received))]
pub fn receive(s: &[u8]) -> Received
    ensures { Receives s.now result }
{
    match s {
        [] => Received::Partial,
        [0x05, ..] => Received::Enquiry,
        [0x02, ..] => receive_update(s),
        _ => receive_frame(s),
    }
}
