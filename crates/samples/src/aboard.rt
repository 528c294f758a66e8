// The calls for a program on a line besides its bytes: the moment that it is started at, and the time that goes by.
use crate::bench::Bench;
use crate::show::{bytes, large, text};
use crate::text::Line;
use calendar::clock::{Clock, clock_text};
use serving::pace::tick_all;

// The moment at the start, laid out as D6h's data.
pub(crate) fn show_start(start: Option<Clock>) {
    match start {
        Some(clock) => bytes(&clock_text(clock)),
        None => text(b" none"),
    }
}

// A moment of the machine's clock, in milliseconds.
pub(crate) fn show_instant(instant: Option<u64>) {
    match instant {
        Some(n) => large(n),
        None => text(b" none"),
    }
}

pub(crate) fn show_silence(silent: bool) {
    text(if silent { b" yes" } else { b" no" });
}

// So many ticks.
pub(crate) fn make_up(bench: &mut Bench, line: Line) {
    if let Some(state) = bench.now.state.get_mut(..bench.rooms.state) {
        tick_all(state, line.long(1));
    }
}
