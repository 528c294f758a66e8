// The field update, as far as one content goes: every check stands before the first write.
ghost use Rattle.std.specs.Prelude.{◌≡◌};
ghost use Rattle.content.specs.Machine.{start};
ghost use Rattle.content.specs.Update.{Updates, laid};
ghost use Rattle.frame.specs.Given.{numbered};

use crate::item::{begin, characters_in_front};
use crate::position::{field_positions, is_field_position, run_at};
use frame::build::lay;
use frame::given::Refusal;

// Lays a text over the field positions, as far as both go; it doesn't ask what the text is of.
pub fn lay_text(s: &mut [u8], text: &[u8])
    ensures { s.new ≡ laid text.now start s.old }
{
    let mut rest = text;
    let mut reader = begin();
    while let Some(run) = run_at(s, reader) {
        reader = run.next;
        if is_field_position(run.mark) {
            let size = reader.at - run.from;
            let (now, later) = rest.split_at(size.min(rest.len()));
            lay(&mut s[run.from..reader.at], now);
            rest = later;
        }
    }
}

// Lays a text over the field positions of a content, a character on each.
pub fn update(s: &mut [u8], text: &[u8]) -> Result<(), Refusal>
    ensures { Updates s.old text.now (numbered result) s.new }
{
    if text.len() != field_positions(s) {
        return Err(Refusal::WrongCount);
    }
    let i = characters_in_front(text);
    if i < text.len() {
        return Err(Refusal::NoCharacter(i));
    }
    lay_text(s, text);
    Ok(())
}
