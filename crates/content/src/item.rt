// The item reader: what stands at a place of a content, an item or a mark of one, or what opens a line or a block.
ghost use Rattle.std.specs.Prelude.{◌+◌, ◌≤◌, ◌<◌, length, get_or, ◌≡◌};
ghost use Rattle.frame.specs.Ground.{pick};
ghost use Rattle.content.specs.Byte.{characters_in_front, kind_of};
ghost use Rattle.content.specs.Item.{begin, behind, block_token, characters_end, closing, codes_end, content_token, counted, date_token, enclosed, field_token, item_at, line_token, one_byte, one_more, open_block, opened, opens, opening, passed, past, piece_at, token_at, whole_field};

use crate::byte::{Code, Kind, byte_at, code_of, is_character, is_count, is_expansion, kind_of};

// At most so many lines and external fields.
pub const LINES: u8 = 4;

pub const FIELDS: u8 = 10;

// In what we are.
#[derive(Clone, Copy, Debug, PartialEq, Eq)]
pub enum Place {
    // Before the first line.
    Content,
    // Behind a line's 0Ah, before its first block.
    Line,
    Block,
    Field,
    Date,
}

// How many lines and external fields have begun.
#[derive(Clone, Copy, Debug, PartialEq, Eq)]
pub struct Seen {
    pub lines: u8,
    pub fields: u8,
}

// Where the reader stands: at which place of the bytes, in what, and what has begun before it.
#[derive(Clone, Copy, Debug, PartialEq, Eq)]
pub struct Reader {
    pub at: usize,
    pub place: Place,
    pub seen: Seen,
}

#[derive(Clone, Copy, Debug, PartialEq, Eq)]
pub enum Item {
    LineOpens,
    // The expansion and the font of a block.
    BlockOpens,
    // One character or more in a row.
    Characters,
    // The same in an external field.
    FieldCharacters,
    Tabulation(u8),
    Counter(u8),
    FieldOpens,
    FieldCloses,
    DateOpens,
    Date(Code),
    DateCloses,
}

// What the reader finds: three answers, and no `Result` of an `Option`, since document 01 wants "an enum of item kinds inside the answer of the item reader".
#[derive(Clone, Copy, Debug, PartialEq, Eq)]
pub enum Token {
    // An item, and the place behind it.
    Read { item: Item, next: usize },
    // The byte ends the block, or, where what opens the next is read too, the content.
    Ends,
    // The place of the byte that can't stand there; the length where the bytes stop early.
    Unfit(usize),
}

// In what we are behind an item.
fn behind(item: Item) -> Place
    ensures { result ≡ behind item }
{
    match item {
        Item::LineOpens => Place::Line,
        Item::FieldOpens | Item::FieldCharacters => Place::Field,
        Item::DateOpens | Item::Date(_) => Place::Date,
        _ => Place::Block,
    }
}

// Before the first byte.
pub(crate) fn begin() -> Reader
    ensures { result ≡ begin }
{
    Reader {
        at: 0,
        place: Place::Content,
        seen: Seen {
            lines: 0,
            fields: 0,
        },
    }
}

// Behind an item.
pub(crate) fn past(reader: Reader, item: Item, next: usize) -> Reader
    ensures { result ≡ past reader item next }
{
    Reader {
        at: next,
        place: behind(item),
        seen: counted(item, reader.seen),
    }
}

// One more, but not more than the most.
#[tactic(auto, unfolding(crate::specs::Item::one_more))]
fn one_more(most: u8, n: u8) -> u8
    ensures { result ≡ one_more most n }
{
    if n < most { n + 1 } else { n }
}

// What has begun with an item.
fn counted(item: Item, seen: Seen) -> Seen
    ensures { result ≡ counted item seen }
{
    match item {
        Item::LineOpens => Seen {
            lines: one_more(LINES, seen.lines),
            ..seen
        },
        Item::FieldOpens => Seen {
            fields: one_more(FIELDS, seen.fields),
            ..seen
        },
        _ => seen,
    }
}

// What has begun behind an item that was passed as a whole.
pub(crate) fn passed(item: Item, seen: Seen) -> Seen
    requires { seen.fields < 255 }
    ensures { result ≡ passed item seen }
{
    match item {
        Item::FieldCloses => Seen {
            fields: seen.fields + 1,
            ..seen
        },
        _ => seen,
    }
}

// How many characters stand in front: the index of the first byte that is none, or the count where all are.
#[tactic(auto, unfolding(crate::specs::Item::characters_end))]
pub fn characters_in_front(s: &[u8]) -> usize
    ensures { result ≡ characters_in_front s.now }
{
    characters_end(s, 0)
}

// The place behind the characters that stand in a row from a place on. Tried: a part from the place on and `take_while`, 5 instructions
// a row more.
#[tactic(auto, unfolding(crate::specs::Item::characters_end))]
fn characters_end(s: &[u8], at: usize) -> usize
    requires { at ≤ length s.now }
    ensures { result ≡ characters_end s.now at }
{
    for i in at..s.len() {
        if !is_character(s[i]) {
            return i;
        }
    }
    s.len()
}

// The place behind the codes that stand in a row from a place on; for the loop and its test the same was tried.
#[tactic(auto, unfolding(crate::specs::Item::codes_end))]
fn codes_end(s: &[u8], at: usize) -> usize
    requires { at ≤ length s.now }
    ensures { result ≡ codes_end s.now at }
{
    for i in at..s.len() {
        if code_of(s[i]).is_none() {
            return i;
        }
    }
    s.len()
}

// A place in some bytes, at their end at the furthest.
#[derive(Clone, Copy)]
struct Point<'a> {
    s: &'a [u8],
    at: usize,
    ghost inside: { at ≤ length s.now },
}

impl<'a> Point<'a> {
    // The byte here; at the end it is 00h.
    fn byte(self) -> u8
        ensures { result ≡ get_or self.entry.s.now self.entry.at 0 }
    {
        byte_at(self.s, self.at)
    }

    // What it is.
    fn kind(self) -> Kind
        ensures { result ≡ kind_of (get_or self.entry.s.now self.entry.at 0) }
    {
        kind_of(self.byte())
    }

    // The byte so many behind it.
    fn byte_behind(self, k: u8) -> u8
        ensures { result ≡ get_or self.entry.s.now (self.entry.at + k) 0 }
    {
        byte_at(self.s, self.at + usize::from(k))
    }

    // The place behind one byte.
    fn next(self) -> Point<'a>
        requires { self.at < length self.s.now }
        ensures { (result.s.now ≡ self.entry.s.now) × (result.at ≡ self.entry.at + 1) }
    {
        Point {
            s: self.s,
            at: self.at + 1,
        }
    }

    // The place behind the characters that stand in a row from here on.
    #[tactic(auto, using(crate::proofs::Front::characters_inside))]
    fn past_characters(self) -> Point<'a>
        ensures { (result.s.now ≡ self.entry.s.now) × (result.at ≡ characters_end self.entry.s.now self.entry.at) }
    {
        Point {
            s: self.s,
            at: characters_end(self.s, self.at),
        }
    }

    // The place behind the codes that stand in a row from here on.
    #[tactic(auto, using(crate::proofs::Front::codes_inside))]
    fn past_codes(self) -> Point<'a>
        ensures { (result.s.now ≡ self.entry.s.now) × (result.at ≡ codes_end self.entry.s.now self.entry.at) }
    {
        Point {
            s: self.s,
            at: codes_end(self.s, self.at),
        }
    }

    // An item of one byte.
    fn one_byte(self, item: Item) -> Token
        ensures { result ≡ one_byte self.entry.at item }
    {
        Token::Read {
            item,
            next: self.at + 1,
        }
    }

    // A number between two marks.
    #[tactic(auto, unfolding(crate::specs::Item::enclosed))]
    fn enclosed(self, fits: bool, mark: u8, item: Item) -> Token
        ensures { result ≡ enclosed self.entry.s.now self.entry.at fits mark item }
    {
        if !fits {
            Token::Unfit(self.at + 1)
        } else if self.byte_behind(2) == mark {
            Token::Read {
                item,
                next: self.at + 3,
            }
        } else {
            Token::Unfit(self.at + 2)
        }
    }

    // A 0Ah opens a line, the fourth at the most; a 12h an external field, the tenth at the most.
    #[tactic(auto, unfolding(crate::specs::Item::opens))]
    fn opens(self, begun: u8, most: u8, item: Item) -> Token
        ensures { result ≡ opens self.entry.at begun most item }
    {
        if begun < most {
            self.one_byte(item)
        } else {
            Token::Unfit(self.at)
        }
    }

    // An expansion, and a font behind it, open a block.
    #[tactic(auto, unfolding(crate::specs::Item::open_block))]
    fn open_block(self) -> Token
        ensures { result ≡ open_block self.entry.s.now self.entry.at }
    {
        if is_count(self.byte_behind(1)) {
            Token::Read {
                item: Item::BlockOpens,
                next: self.at + 2,
            }
        } else {
            Token::Unfit(self.at + 1)
        }
    }

    #[tactic(auto, unfolding(crate::specs::Item::content_token))]
    fn content_token(self, seen: Seen) -> Token
        ensures { result ≡ content_token self.entry.s.now self.entry.at seen }
    {
        if self.byte() == 0x0A {
            self.opens(seen.lines, LINES, Item::LineOpens)
        } else {
            Token::Unfit(self.at)
        }
    }

    #[tactic(auto, unfolding(crate::specs::Item::line_token))]
    fn line_token(self) -> Token
        ensures { result ≡ line_token self.entry.s.now self.entry.at }
    {
        if is_expansion(self.byte()) {
            self.open_block()
        } else {
            Token::Unfit(self.at)
        }
    }

    fn block_token(self, kind: Kind, seen: Seen) -> Token
        ensures { result ≡ block_token self.entry.s.now self.entry.at kind seen }
    {
        match kind {
            Kind::Line | Kind::End | Kind::Expansion => Token::Ends,
            Kind::Field => self.opens(seen.fields, FIELDS, Item::FieldOpens),
            Kind::Date => self.one_byte(Item::DateOpens),
            Kind::Counter => {
                let n = self.byte_behind(1);
                self.enclosed(n == 0x01, 0x1C, Item::Counter(n))
            }
            Kind::Tabulation => {
                let n = self.byte_behind(1);
                self.enclosed(is_count(n), 0x1E, Item::Tabulation(n))
            }
            Kind::Character => Token::Read {
                item: Item::Characters,
                next: self.past_characters().at,
            },
            Kind::Other => Token::Unfit(self.at),
        }
    }

    #[tactic(auto, unfolding(crate::specs::Item::field_token))]
    fn field_token(self) -> Token
        ensures { result ≡ field_token self.entry.s.now self.entry.at }
    {
        let b = self.byte();
        if b == 0x12 {
            self.one_byte(Item::FieldCloses)
        } else if is_character(b) {
            Token::Read {
                item: Item::FieldCharacters,
                next: self.past_characters().at,
            }
        } else {
            Token::Unfit(self.at)
        }
    }

    #[tactic(auto, unfolding(crate::specs::Item::date_token))]
    fn date_token(self) -> Token
        ensures { result ≡ date_token self.entry.s.now self.entry.at }
    {
        let b = self.byte();
        if b == 0x1B {
            return self.one_byte(Item::DateCloses);
        }
        match code_of(b) {
            Some(code) => self.one_byte(Item::Date(code)),
            None => Token::Unfit(self.at),
        }
    }

    // The mark that closes an item, behind what stands in it.
    #[tactic(auto, unfolding(crate::specs::Item::closing))]
    fn closing(self, mark: u8, item: Item) -> Token
        ensures { result ≡ closing self.entry.s.now self.entry.at mark item }
    {
        if self.byte() == mark {
            self.one_byte(item)
        } else {
            Token::Unfit(self.at)
        }
    }

    // An external field, the tenth at the most, as a whole.
    #[tactic(auto, unfolding(crate::specs::Item::whole_field))]
    fn whole_field(self, seen: Seen) -> Token
        requires { self.at < length self.s.now }
        ensures { result ≡ whole_field self.entry.s.now self.entry.at seen }
    {
        if FIELDS <= seen.fields {
            Token::Unfit(self.at)
        } else {
            self.next()
                .past_characters()
                .closing(0x12, Item::FieldCloses)
        }
    }

    // What a byte that ends a block opens.
    fn opening(self, kind: Kind, seen: Seen) -> Token
        ensures { result ≡ opening self.entry.s.now self.entry.at kind seen }
    {
        match kind {
            Kind::Line => self.opens(seen.lines, LINES, Item::LineOpens),
            Kind::Expansion => self.open_block(),
            _ => Token::Ends,
        }
    }

    // The same where a token is found already.
    fn opened(self, found: Token, seen: Seen) -> Token
        ensures { result ≡ opened self.entry.s.now self.entry.at found seen }
    {
        match found {
            Token::Ends => self.opening(self.kind(), seen),
            _ => found,
        }
    }
}

// What stands at a place in a block for the test, by its first byte: external fields and date items are passed as a whole, and a byte
// that ends the block is left to it.
#[tactic(auto, using(crate::proofs::Tokens::field_stands, crate::proofs::Tokens::date_stands))]
pub(crate) fn item_at(s: &[u8], at: usize, seen: Seen) -> Token
    requires { at ≤ length s.now }
    ensures { result ≡ item_at s.now at (kind_of (get_or s.now at 0)) seen }
{
    let here = Point { s, at };
    match here.kind() {
        Kind::Field => here.whole_field(seen),
        Kind::Date => here.next().past_codes().closing(0x1B, Item::DateCloses),
        kind => here.block_token(kind, seen),
    }
}

// What stands where the reader does: for the strip each code by itself, for the positions a date item's codes passed with the mark behind
// them. Each of the two is compiled by itself, for speed.
pub(crate) fn token_at<const EACH: bool>(s: &[u8], reader: Reader) -> Token
    requires { reader.at ≤ length s.now }
    ensures { result ≡ pick EACH (token_at s.now reader.at reader.place reader.seen) (piece_at s.now reader.at reader.place reader.seen) }
{
    let Reader { at, place, seen } = reader;
    let here = Point { s, at };
    match place {
        Place::Content => here.content_token(seen),
        Place::Line => here.line_token(),
        Place::Block => here.opened(here.block_token(here.kind(), seen), seen),
        Place::Field => here.field_token(),
        Place::Date if EACH => here.date_token(),
        Place::Date => here.past_codes().date_token(),
    }
}
