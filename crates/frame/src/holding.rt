// What is held between bytes that come one at a time.
ghost use Rattle.std.specs.Prelude.{◌≡◌};
ghost use Rattle.frame.specs.Holding.{is_held, is_holding, silenced};

use crate::wire::{DATA, HEAD, MARKS, UPDATE, word};

// How many bytes the lent buffer has: as many as the longest update.
pub const HOLDING: usize = UPDATE + MARKS;

// No `Option`: that nothing is held because all is dropped until silence has a name.
#[derive(Clone, Copy, Debug, PartialEq, Eq)]
pub enum Holding {
    // So many bytes at the front of the lent buffer.
    Held(usize),
    // After 4: all is dropped until silence.
    Dropping,
}

// Whether some burst leaves these bytes.
#[tactic(auto, using(crate::proofs::Ground::tests), unfolding(crate::specs::Holding::is_held))]
fn is_held(s: &[u8]) -> bool
    ensures { result ≡ is_held s.now }
{
    match s {
        [] => true,
        [0x05, ..] => false,
        [0x02, text @ ..] => s.len() <= UPDATE + 1 && !text.contains(&0x03),
        [_, high, low, ..] => {
            let n = word(*high, *low);
            n <= DATA && s.len() <= n + HEAD
        }
        // Fewer bytes than tell the length.
        _ => true,
    }
}

// Whether some burst leaves this holding.
#[tactic(auto, using(crate::proofs::Ground::tests), unfolding(crate::specs::Holding::is_holding))]
pub fn is_holding(holding: Holding, buffer: &[u8]) -> bool
    ensures { result ≡ is_holding holding buffer.now }
{
    buffer.len() == HOLDING
        && match holding {
            Holding::Held(n) => n < HOLDING && is_held(&buffer[..n]),
            Holding::Dropping => true,
        }
}

impl Holding {
    // Silence empties it, whatever was held.
    pub fn silence(self) -> Holding
        ensures { result ≡ silenced self }
    {
        Holding::Held(0)
    }
}
