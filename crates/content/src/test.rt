// The content test: nested loops over lines, blocks and items, left at the first byte that can't stand there.
ghost use Rattle.std.specs.Prelude.{◌≡◌};
ghost use Rattle.content.specs.Content.{Reads, Tests, is_content};
ghost use Rattle.frame.specs.Given.{given_in};

use crate::byte::{byte_at, is_count, is_expansion};
use crate::item::{LINES, Seen, Token, item_at, passed};
use frame::given::Refusal;

// The longest message.
pub const MESSAGE: usize = 512;

// Reads any bytes: refused with the place of the first byte that can't stand there, or the count of the bytes where they merely stop early.
// Kept a function of its own: tried written in where it is called, 8 instructions a character against 7.
#[inline(never)]
pub(crate) fn read(s: &[u8]) -> Result<(), usize>
    ensures { Reads s.now result }
{
    if byte_at(s, 0) != 0x0A {
        return Err(0);
    }
    let mut at = 1;
    let mut seen = Seen {
        lines: 1,
        fields: 0,
    };
    // Loops with labels: document 01 wants "nested loops over lines, blocks and items, left by a label at the first unfit byte".
    'content: loop {
        // Behind a line's 0Ah.
        'line: loop {
            // At the expansion of a block.
            if !is_expansion(byte_at(s, at)) {
                break 'content;
            }
            at += 1;
            if !is_count(byte_at(s, at)) {
                break 'content;
            }
            at += 1;
            'block: loop {
                match item_at(s, at, seen) {
                    Token::Read { item, next } => {
                        at = next;
                        seen = passed(item, seen);
                    }
                    Token::Ends => break 'block,
                    Token::Unfit(i) => {
                        at = i;
                        break 'content;
                    }
                }
            }
            if !is_expansion(byte_at(s, at)) {
                break 'line;
            }
        }
        // At the 0Ah or the 0Dh behind a line.
        if byte_at(s, at) == 0x0D {
            at += 1;
            if at == s.len() {
                return Ok(());
            }
            break 'content;
        }
        if LINES <= seen.lines {
            break 'content;
        }
        seen.lines += 1;
        at += 1;
    }
    Err(at)
}

// Document 01's test, for the approval screen: what is no content is refused with the place.
pub fn test(s: &[u8]) -> Result<(), Refusal>
    ensures { Tests s.now (given_in result) }
{
    if MESSAGE < s.len() {
        return Err(Refusal::NoContent(MESSAGE));
    }
    read(s).map_err(Refusal::NoContent)
}

// Whether the bytes are a content.
pub fn is_content(s: &[u8]) -> bool
    ensures { result ≡ is_content s.now }
{
    test(s).is_ok()
}
