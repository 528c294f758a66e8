// Writing the outcome behind a line: numbers in decimal, a place behind a colon, bytes in capital hex.
use frame::given::Given;

pub(crate) fn text(s: &[u8]) {
    io::write_all(1, s);
}

// A cast: std has no `From` of a `usize` for it.
pub(crate) fn count(n: usize) {
    io::print_decimal(1, n as u64);
}

pub(crate) fn large(n: u64) {
    text(b" ");
    io::print_decimal(1, n);
}

pub(crate) fn number(n: u8) {
    large(u64::from(n));
}

pub(crate) fn size(n: usize) {
    text(b" ");
    count(n);
}

// A number, and where it has a place a colon and the place.
pub(crate) fn given(what: Given) {
    number(what.number);
    if let Some(i) = what.place {
        text(b":");
        count(i);
    }
}

// The first n bytes of a buffer, all of them where it has fewer.
pub(crate) fn front(buffer: &[u8], n: usize) -> &[u8] {
    buffer.get(..n).unwrap_or(buffer)
}

const HEX: &[u8; 16] = b"0123456789ABCDEF";

fn byte(b: u8) {
    text(&[b' ', HEX[usize::from(b / 16)], HEX[usize::from(b % 16)]]);
}

// Equal bytes: each by itself, but 16 or more as the table has them.
fn equal(run: &[u8]) {
    match run {
        [first, ..] if run.len() >= 16 => {
            byte(*first);
            text(b"*");
            count(run.len());
        }
        _ => {
            for &b in run {
                byte(b);
            }
        }
    }
}

// Bytes, each behind a space.
pub(crate) fn bytes(s: &[u8]) {
    for run in s.chunk_by(|a, b| a == b) {
        equal(run);
    }
}

// What fills a buffer before a call.
pub(crate) const UNWRITTEN: u8 = 0xEE;

// Whether no byte of a buffer was written from a place on.
pub(crate) fn unwritten(buffer: &[u8], from: usize) -> bool {
    buffer.iter().skip(from).all(|b| *b == UNWRITTEN)
}
