// One record: 4Ch 52h, number, length (2), body.
ghost use Rattle.library.specs.Record.{step_at};
ghost use Rattle.std.specs.Prelude.{◌≡◌};

use frame::wire::word;

// How many bytes stand before the body: mark, number and length.
pub const HEAD: usize = 5;

// A record that stands at a place of a store: its number, and where it ends.
#[derive(Clone, Copy, Debug, PartialEq, Eq)]
pub struct Found {
    pub number: u8,
    pub end: usize,
}

// The record at a place; where no whole record begins, the records end.
#[tactic(auto, using(crate::proofs::Walks::ends_short, crate::proofs::Walks::ends_mark, crate::proofs::Walks::ends_second))]
pub fn record_at(store: &[u8], at: usize) -> Option<Found>
    ensures { result ≡ step_at store.now at }
{
    let [0x4C, 0x52, number, high, low, behind @ ..] = store.get(at..)? else {
        return None;
    };
    let length = word(*high, *low);
    if behind.len() < length {
        return None;
    }
    Some(Found {
        number: *number,
        end: at + HEAD + length,
    })
}
