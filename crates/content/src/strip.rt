// The strip of a content: each item replaced by what it stands for, in one walk by the item reader.
ghost use Rattle.std.specs.Prelude.{◌+◌, ◌*◌, ◌≤◌, leb, length, ◌≡◌};
ghost use Rattle.content.specs.Strip.{Puts, Strips, character_in, item_shows, printed, put_at, strip};
ghost use Rattle.frame.specs.Ground.{over};
ghost use Rattle.frame.specs.Given.{numbered};

use crate::byte::{Code, byte_at};
use crate::item::{Item, Token, begin, past, token_at};
use crate::test::{MESSAGE, test};
use frame::build::lay;
use frame::given::Refusal;

// What items stand for: the counter's digits, and for the date codes from 55h on a byte each.
#[derive(Clone, Copy, Debug, PartialEq, Eq)]
pub struct Values {
    pub digits: [u8; 9],
    pub entries: [u8; 24],
}

// What a code of a date item stands for.
fn character_in(entries: &[u8], code: Code) -> u8
    ensures { result ≡ character_in entries.now code }
{
    match code {
        Code::Entry(k) => byte_at(entries, usize::from(k)),
        Code::Colon => 0x3A,
        Code::Slash => 0x2F,
        Code::Dot => 0x2E,
        Code::Space => 0x20,
    }
}

// Writes bytes at a place of the buffer, and hands back the place behind them: the buffer is lent, since there is no heap.
fn put(out: &mut [u8], to: usize, bytes: &[u8]) -> usize
    requires { to + length bytes.now ≤ length out.old }
    ensures { (result ≡ to + length bytes.now) × (out.new ≡ put_at to bytes.now out.old) }
{
    let end = to + bytes.len();
    out[to..end].copy_from_slice(bytes);
    end
}

// 00h prints nothing.
#[tactic(auto, unfolding(crate::specs::Strip::printed))]
fn put_printed(out: &mut [u8], to: usize, b: u8) -> usize
    requires { to + length (printed b) ≤ length out.old }
    ensures { (result ≡ to + length (printed b)) × (out.new ≡ put_at to (printed b) out.old) }
{
    if b == 0x00 {
        return to;
    }
    out[to] = b;
    to + 1
}

// Writes what an item stands for, whose own bytes are given. An arm for each item, so that its length is known: tried one for all that stand
// for their bytes, 138 instructions a tabulation with a run against 110.
fn put_item(
    out: &mut [u8],
    to: usize,
    item: Item,
    bytes: &[u8],
    digits: &[u8],
    entries: &[u8],
) -> usize
    requires { to + length (item_shows digits.now entries.now item bytes.now) ≤ length out.old }
    ensures { (result ≡ to + length (item_shows digits.now entries.now item bytes.now)) × (out.new ≡ put_at to (item_shows digits.now entries.now item bytes.now) out.old) }
{
    match item {
        Item::LineOpens => put(out, to, bytes),
        Item::BlockOpens => put(out, to, bytes),
        Item::Characters => put(out, to, bytes),
        Item::FieldCharacters => put(out, to, bytes),
        Item::Tabulation(_) => put(out, to, bytes),
        Item::Counter(_) => put(out, to, digits),
        Item::Date(code) => put_printed(out, to, character_in(entries, code)),
        Item::FieldOpens | Item::FieldCloses | Item::DateOpens | Item::DateCloses => to,
    }
}

// Writes the strip of any bytes over the front of a buffer that has room for it, and hands back its length.
fn write(s: &[u8], values: Values, out: &mut [u8]) -> usize
    requires { length (strip values s.now) ≤ length out.old }
    ensures { (result ≡ length (strip values s.now)) × (out.new ≡ over (strip values s.now) out.old) }
{
    // Two arrays of their own: tried handed on as one, 37 instructions a counter against 32.
    let Values { digits, entries } = values;
    let mut to = 0;
    let mut reader = begin();
    // A loop round a match: there are three ways on, and a `while let` would have to ask again which of two ended it.
    loop {
        match token_at::<true>(s, reader) {
            Token::Read { item, next } => {
                to = put_item(out, to, item, &s[reader.at..next], &digits, &entries);
                reader = past(reader, item, next);
            }
            Token::Ends => {
                out[to] = 0x0D;
                return to + 1;
            }
            Token::Unfit(_) => return to,
        }
    }
}

// Whether there is room for three times as many bytes, by subtracting: the small board has no divide unit, and a product that is tested for
// overflow can take a call there as well.
fn room_for_three(n: usize, room: usize) -> bool
    ensures { result ≡ leb (3 * n) room }
{
    room.checked_sub(n)
        .and_then(|rest| rest.checked_sub(n))
        .is_some_and(|rest| n <= rest)
}

// Writes the strip of any bytes over the front of a buffer of three times their length, which is room enough for every strip.
pub fn put_strip(s: &[u8], values: Values, out: &mut [u8]) -> Result<usize, Refusal>
    ensures { Puts values s.now out.old (numbered result) out.new }
{
    if !room_for_three(s.len(), out.len()) {
        return Err(Refusal::ShortBuffer);
    }
    Ok(write(s, values, out))
}

// Writes the strip of a content over the front of a buffer; what is no content or doesn't fit writes nothing.
pub fn write_strip(s: &[u8], values: Values, out: &mut [u8]) -> Result<usize, Refusal>
    ensures { Strips values s.now out.old (numbered result) out.new }
{
    test(s)?;
    let mut whole = [0u8; 3 * MESSAGE];
    let n = write(s, values, &mut whole);
    if lay(out, &whole[..n]) {
        Ok(n)
    } else {
        Err(Refusal::ShortBuffer)
    }
}
