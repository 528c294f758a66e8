// Numbers in digits and in bytes.
ghost use Rattle.std.specs.Prelude.{◌+◌, ◌<◌, ◌≤◌, drop, length, take, ◌≡◌};
ghost use Rattle.printer.specs.Number.{digits, is_digit, number_of};

// The powers of ten, from the highest that a number of 32 bits has.
const POWERS: [u32; 10] = [
    1_000_000_000,
    100_000_000,
    10_000_000,
    1_000_000,
    100_000,
    10_000,
    1_000,
    100,
    10,
    1,
];

// The nine digits of a counter. Each turn subtracts a power of ten or goes on to the next: the small board has no divide unit. One loop
// for all powers, since a loop for each is a division to the compiler.
pub(crate) fn digits(n: u32) -> [u8; 9]
    ensures { result ≡ digits n }
{
    let powers = POWERS;
    let mut row = [0x30; 10];
    let mut left = n;
    let mut i = 0;
    while i < 10 {
        let power = powers[i];
        if power <= left {
            left -= power;
            row[i] += 1;
        } else {
            i += 1;
        }
    }
    <[u8; 9]>::try_from(&row[1..]).unwrap()
}

#[tactic(auto, unfolding(crate::specs::Number::is_digit))]
pub(crate) fn is_digit(b: u8) -> bool
    ensures { result ≡ is_digit b }
{
    b.is_ascii_digit()
}

// What three bytes from a place on come to, the high byte first. One for each width: one over the width would be a loop.
pub(crate) fn three_bytes(s: &[u8], at: usize) -> u32
    requires { at + 3 ≤ length s.now }
    ensures { (result ≡ number_of (take 3 (drop at s.now))) × (result < 16777216) }
{
    u32::from_be_bytes([0, s[at], s[at + 1], s[at + 2]])
}

// The same for four.
pub(crate) fn four_bytes(s: &[u8], at: usize) -> u32
    requires { at + 4 ≤ length s.now }
    ensures { result ≡ number_of (take 4 (drop at s.now)) }
{
    u32::from_be_bytes([s[at], s[at + 1], s[at + 2], s[at + 3]])
}
