// The console's line for a call: the number in decimal, where it has a place a colon and the place, a space, the answer in capital hex, and a newline.
#![tactic(auto)]

ghost use Rattle.std.specs.Prelude.{◌*◌, ◌<◌, ◌≤◌, length, ◌≡◌};
ghost use Rattle.frame.specs.Ground.{over};
ghost use Rattle.line.specs.Line.{Writes, decimal, given_text, hex, hex_digit};

use frame::given::Given;

// The capital hex digit of a number below 16.
#[tactic(auto, unfolding(crate::specs::Line::hex_digit))]
fn hex_digit(n: u8) -> u8
    requires { n < 16 }
    ensures { result ≡ hex_digit n }
{
    if n < 10 { n + 0x30 } else { n + 0x37 }
}

// How many digits a number has in decimal, 20 at most.
#[tactic(auto, using(crate::proofs::Laws::digits_of_power, crate::proofs::Laws::one_width, crate::proofs::Laws::usize_digits))]
fn width(n: usize) -> usize
    ensures { (result ≡ length (decimal n)) × (result ≤ 20) }
{
    match n.checked_ilog10() {
        // Below 20: a cast loses nothing.
        Some(k) => k as usize + 1,
        None => 1,
    }
}

// Writes a number in decimal over the front of a buffer, from the last digit to the first, and hands back how many it has: the buffer is lent,
// since there is no heap.
fn write_decimal(out: &mut [u8], n: usize) -> usize
    requires { length (decimal n) ≤ length out.old }
    ensures { (result ≡ length (decimal n)) × (out.new ≡ over (decimal n) out.old) }
{
    let digits = width(n);
    let mut left = n;
    for i in (0..digits).rev() {
        // Below 10: a cast loses nothing.
        out[i] = (left % 10) as u8 + 0x30;
        left /= 10;
    }
    digits
}

// How long a number, a colon and a place are, 24 at most.
fn given_width(given: Given) -> usize
    ensures { (result ≡ length (given_text given)) × (result ≤ 24) }
{
    let digits = width(usize::from(given.number));
    match given.place {
        None => digits,
        Some(i) => digits + 1 + width(i),
    }
}

// Writes a number, and where it has a place a colon and the place, over the front of a buffer; hands back how many bytes they are.
fn write_given(out: &mut [u8], given: Given) -> usize
    requires { length (given_text given) ≤ length out.old }
    ensures { (result ≡ length (given_text given)) × (out.new ≡ over (given_text given) out.old) }
{
    let digits = write_decimal(out, usize::from(given.number));
    let Some(i) = given.place else {
        return digits;
    };
    out[digits] = 0x3A;
    let from = digits + 1;
    from + write_decimal(&mut out[from..], i)
}

// Writes bytes in capital hex over the front of a buffer, which is lent, two digits a byte.
fn write_hex(out: &mut [u8], bytes: &[u8])
    requires { 2 * length bytes.now ≤ length out.old }
    ensures { out.new ≡ over (hex bytes.now) out.old }
{
    for (i, b) in bytes.iter().enumerate() {
        out[2 * i] = hex_digit(b / 16);
        out[2 * i + 1] = hex_digit(b % 16);
    }
}

// Writes the line of what is given of a call and of its answer over the front of a buffer, and gives its length; none, and nothing written, where it doesn't fit.
pub fn write_line(out: &mut [u8], given: Given, answer: &[u8]) -> Option<usize>
    ensures { Writes out.old given answer.now result out.new }
{
    let width = given_width(given);
    let n = answer.len();
    if out.len() / 2 < n {
        return None;
    }
    let size = width + 2 * n + 2;
    if out.len() < size {
        return None;
    }
    let at = write_given(out, given);
    out[at] = 0x20;
    let from = at + 1;
    write_hex(&mut out[from..], answer);
    out[size - 1] = 0x0A;
    Some(size)
}
