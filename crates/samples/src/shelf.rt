// The calls that are lent the store alone, and what lines themselves read or write of a buffer.
use crate::bench::Bench;
use crate::show::{bytes, front, given, number, size, text};
use crate::text::{BYTES, Line};
use frame::build::lay;
use frame::given::Given;
use library::record::Found;
use library::store::keep;
use printer::messages::shown;

// Bytes over a buffer from a place on, if they fit.
pub(crate) fn lay_at(buffer: &mut [u8], at: usize, s: &[u8]) {
    if let Some(rest) = buffer.get_mut(at..) {
        lay(rest, s);
    }
}

// So many bytes of a buffer, from a place on.
pub(crate) fn look(line: Line, buffer: &[u8]) {
    if let Some(rest) = buffer.get(line.number(1)..) {
        bytes(front(rest, line.number(2)));
    }
}

// What the approval screen is shown for a number, with a content: the number of the call, and the bytes.
pub(crate) fn show(line: Line, bench: &Bench) {
    let Some(store) = bench.now.store.get(..bench.rooms.store) else {
        return;
    };
    let mut s = [0; BYTES];
    let current = line.bytes(2, &mut s);
    match shown(store, current, line.small(1)) {
        Ok(content) => {
            number(0);
            bytes(content);
        }
        Err(why) => given(why.given()),
    }
}

// The number and the end of a record, or none.
pub(crate) fn show_record(found: Option<Found>) {
    match found {
        Some(found) => {
            number(found.number);
            size(found.end);
        }
        None => text(b" none"),
    }
}

// Bytes stored under a number in so many bytes of the store, by the library's own call: its number.
pub(crate) fn lodge(line: Line, store: &mut [u8]) {
    let mut s = [0; BYTES];
    let body = line.bytes(3, &mut s);
    if let Some(store) = store.get_mut(..line.number(1)) {
        given(Given::from(keep(store, line.small(2), body)));
    }
}
