// The character positions of a content: the runs of characters that the item reader finds, in blocks and in external fields.
ghost use Rattle.std.specs.Prelude.{◌≤◌, length, ◌≡◌};
ghost use Rattle.content.specs.Position.{Runs, field_positions, is_field_position, is_position, item_mark};

use crate::item::{Item, Reader, Token, begin, past, token_at};

// What a byte is to edits and updates.
#[derive(Clone, Copy, Debug, PartialEq, Eq)]
pub enum Mark {
    Structure,
    Character,
    FieldCharacter,
}

// Character positions in a row: what they are, from which place on they stand, and where the reader stands behind them.
#[derive(Clone, Copy, Debug, PartialEq, Eq)]
pub struct Run {
    pub mark: Mark,
    pub from: usize,
    pub next: Reader,
}

// What the bytes of an item are.
fn item_mark(item: Item) -> Mark
    ensures { result ≡ item_mark item }
{
    match item {
        Item::Characters => Mark::Character,
        Item::FieldCharacters => Mark::FieldCharacter,
        _ => Mark::Structure,
    }
}

fn is_position(mark: Mark) -> bool
    ensures { result ≡ is_position mark }
{
    mark != Mark::Structure
}

pub(crate) fn is_field_position(mark: Mark) -> bool
    ensures { result ≡ is_field_position mark }
{
    mark == Mark::FieldCharacter
}

// The first character positions from where the reader stands, if there are any.
pub(crate) fn run_at(s: &[u8], start: Reader) -> Option<Run>
    requires { start.at ≤ length s.now }
    ensures { Runs s.now start result }
{
    let mut reader = start;
    while let Token::Read { item, next } = token_at::<false>(s, reader) {
        let from = reader.at;
        let mark = item_mark(item);
        reader = past(reader, item, next);
        if is_position(mark) {
            return Some(Run {
                mark,
                from,
                next: reader,
            });
        }
    }
    None
}

// How many character positions the external fields of a content have.
pub fn field_positions(s: &[u8]) -> usize
    ensures { result ≡ field_positions s.now }
{
    let mut count = 0;
    let mut reader = begin();
    while let Some(run) = run_at(s, reader) {
        reader = run.next;
        if is_field_position(run.mark) {
            count += reader.at - run.from;
        }
    }
    count
}
