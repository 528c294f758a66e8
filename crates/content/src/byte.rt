// What a single byte may be: a kind of its own, or a code of a date item.
ghost use Rattle.std.specs.Prelude.{◌≡◌, get_or};
ghost use Rattle.content.specs.Byte.{code_of, is_character, is_count, is_expansion, kind_of};
ghost use Rattle.frame.specs.Ground.{within};

// What a byte can be at the place of an item.
#[derive(Clone, Copy, Debug, PartialEq, Eq)]
pub enum Kind {
    Line,
    End,
    Field,
    Date,
    Counter,
    Tabulation,
    Expansion,
    Character,
    Other,
}

// A code of a date item: the place of its byte among the 24 that are handed in for the codes from 55h on, or a sign of its own.
#[derive(Clone, Copy, Debug, PartialEq, Eq)]
pub enum Code {
    Entry(u8),
    Colon,
    Slash,
    Dot,
    Space,
}

// A byte from the first to the second; a public function, which stays.
pub fn within(least: u8, most: u8, b: u8) -> bool
    ensures { result ≡ within least most b }
{
    (least..=most).contains(&b)
}

// A character, 20h to 7Eh.
#[tactic(auto, unfolding(crate::specs::Byte::is_character))]
pub(crate) fn is_character(b: u8) -> bool
    ensures { result ≡ is_character b }
{
    within(0x20, 0x7E, b)
}

// An expansion, 01h to 09h.
#[tactic(auto, unfolding(crate::specs::Byte::is_expansion))]
pub(crate) fn is_expansion(b: u8) -> bool
    ensures { result ≡ is_expansion b }
{
    within(0x01, 0x09, b)
}

// A font byte or the n of a tabulation, 1 to 255.
#[tactic(auto, unfolding(crate::specs::Byte::is_count))]
pub(crate) fn is_count(b: u8) -> bool
    ensures { result ≡ is_count b }
{
    within(1, 255, b)
}

// The ranges are tests behind the single bytes: tried as patterns, they make the table of the match longer, and each block takes one jump by a
// table more.
#[tactic(auto, unfolding(crate::specs::Byte::kind_of))]
pub(crate) fn kind_of(b: u8) -> Kind
    ensures { result ≡ kind_of b }
{
    match b {
        0x0A => Kind::Line,
        0x0D => Kind::End,
        0x12 => Kind::Field,
        0x1B => Kind::Date,
        0x1C => Kind::Counter,
        0x1E => Kind::Tabulation,
        _ if is_expansion(b) => Kind::Expansion,
        _ if is_character(b) => Kind::Character,
        _ => Kind::Other,
    }
}

// The code that a byte is in a date item. Tried: one `match` (with or without its ranges in it), 12.5 to 17 instructions a code passed
// against 10.
#[tactic(auto, unfolding(crate::specs::Byte::code_of))]
pub(crate) fn code_of(b: u8) -> Option<Code>
    ensures { result ≡ code_of b }
{
    if within(0x55, 0x5D, b) {
        return Some(Code::Entry(b - 0x55));
    }
    if within(0x61, 0x63, b) {
        return Some(Code::Entry(b - 0x55));
    }
    if b == 0x70 {
        return Some(Code::Colon);
    }
    if b == 0x71 {
        return Some(Code::Slash);
    }
    if b == 0x72 {
        return Some(Code::Dot);
    }
    if b == 0x73 {
        return Some(Code::Space);
    }
    None
}

// The byte at a place, and 0, which stands nowhere in a content, behind the end.
pub(crate) fn byte_at(s: &[u8], at: usize) -> u8
    ensures { result ≡ get_or s.now at 0 }
{
    s.get(at).copied().unwrap_or(0)
}
