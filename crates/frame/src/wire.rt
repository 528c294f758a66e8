// The check byte, numbers of two bytes and the table of identifiers.
ghost use Rattle.std.specs.Prelude.{◌≡◌};
ghost use Rattle.frame.specs.Wire.{Words, check, fits_size, size_of};

// How many data bytes a frame has at the most.
pub const DATA: usize = 550;

// How many bytes stand before the data: identifier and length.
pub const HEAD: usize = 3;

// How many bytes stand around the data: identifier, length and check byte.
pub const AROUND: usize = 4;

// How many characters a field update has at the most.
pub(crate) const UPDATE: usize = 1022;

// How many bytes stand around the characters: 02h and 03h.
pub(crate) const MARKS: usize = 2;

// How many data bytes an identifier asks for, where the table has it: two kinds of size, neither of which is none.
#[derive(Clone, Copy, Debug, PartialEq, Eq)]
pub enum Size {
    Exactly(usize),
    AtLeast(usize),
}

// The number that two bytes give, the high byte first.
pub fn word(high: u8, low: u8) -> usize
    ensures { Words high low result }
{
    usize::from(u16::from_be_bytes([high, low]))
}

// The exclusive OR of all bytes.
#[tactic(auto, using(crate::proofs::Folds::check_folds, crate::proofs::Folds::one_apart))]
pub(crate) fn check(s: &[u8]) -> u8
    ensures { result ≡ check s.now }
{
    s.iter().fold(0, |c, b| c ^ b)
}

// The table of documents 01 and 02, a row for each identifier.
#[tactic(auto, unfolding(crate::specs::Wire::size_of))]
pub(crate) fn size_of(identifier: u8) -> Option<Size>
    ensures { result ≡ size_of identifier }
{
    match identifier {
        0x0A => Some(Size::AtLeast(2)),
        0x0B => Some(Size::Exactly(38)),
        0x0C | 0x1C => Some(Size::AtLeast(39)),
        0x40 => Some(Size::Exactly(2)),
        0x42 => Some(Size::AtLeast(4)),
        0x39 | 0x43 => Some(Size::Exactly(1)),
        0x52 | 0x94 | 0xD6 => Some(Size::Exactly(0)),
        _ => None,
    }
}

impl Size {
    // Whether n data bytes are as the table says.
    pub(crate) fn fits(self, n: usize) -> bool
        ensures { result ≡ fits_size self n }
    {
        match self {
            Size::Exactly(k) => n == k,
            Size::AtLeast(k) => k <= n,
        }
    }
}
