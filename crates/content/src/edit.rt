// The edit of 42h: all addresses, then all symbols, and only then the writing.
ghost use Rattle.std.specs.Prelude.{drop, ◌≡◌};
ghost use Rattle.content.specs.Edit.{Edits, strayed};
ghost use Rattle.frame.specs.Given.{numbered};
ghost use Rattle.content.specs.Machine.{start};
ghost use Rattle.content.specs.Position.{marks};

use crate::item::{begin, characters_in_front};
use crate::position::run_at;
use frame::build::lay;
use frame::given::Refusal;

// The first address at which a symbol would land on no character position, if there is one.
fn strayed(s: &[u8], address: usize, symbols: &[u8]) -> Option<usize>
    ensures { result ≡ strayed address symbols.now (drop address (marks start s.now)) }
{
    if symbols.is_empty() {
        return None;
    }
    if s.len() <= address {
        return Some(address);
    }
    // From here on the symbols have to land, and at the end all have; an end behind the last byte is never come to.
    let mut from = address;
    let end = address + symbols.len();
    let mut reader = begin();
    while let Some(run) = run_at(s, reader) {
        reader = run.next;
        if from < run.from {
            return Some(from);
        }
        if end <= reader.at {
            return None;
        }
        from = from.max(reader.at);
    }
    Some(from)
}

// Replaces bytes of a content from an address on, where all of them are character positions and all symbols characters.
pub fn edit(s: &mut [u8], address: usize, symbols: &[u8]) -> Result<(), Refusal>
    ensures { Edits s.old address symbols.now (numbered result) s.new }
{
    if let Some(i) = strayed(s, address, symbols) {
        return Err(Refusal::NoPosition(i));
    }
    let i = characters_in_front(symbols);
    if i < symbols.len() {
        return Err(Refusal::NoCharacter(i));
    }
    if address <= s.len() {
        lay(&mut s[address..], symbols);
    }
    Ok(())
}
