// The lines for single bytes: what is held from line to line, and what comes of each byte.
use crate::bench::{Bench, is_waiting};
use crate::show::{count, size, text};
use crate::text::{BYTES, Line};
use frame::build::lay;
use frame::holding::Holding;
use printer::answer::Answered;

// What is held: so many bytes, or none while all is dropped.
fn show_held(holding: Holding) {
    match holding {
        Holding::Held(n) => {
            text(b" held");
            size(n);
        }
        Holding::Dropping => text(b" dropping"),
    }
}

// What a line says is held, also what no burst leaves: bytes over the front of the buffer, and how many of them are held.
pub(crate) fn hold(bench: &mut Bench, line: Line) {
    let mut s = [0; BYTES];
    lay(&mut bench.now.buffer, line.bytes(2, &mut s));
    bench.holding = match line.word(1) {
        b"dropping" => Holding::Dropping,
        _ => Holding::Held(line.number(1)),
    };
}

// A byte by itself: its outcome, whatever its number, and what is held behind it.
pub(crate) fn alone<F>(bench: &mut Bench, line: Line, take: F)
where
    F: FnOnce(&mut Bench, u8) -> Option<Answered>,
    requires { F.IsAlwaysCallable take }
{
    let mut s = [0; BYTES];
    if let Some(byte) = line.bytes(1, &mut s).first() {
        let done = take(bench, *byte);
        bench.show(done);
    }
    show_held(bench.holding);
}

// A burst, byte for byte: of each byte that something comes of, which of them it is and its outcome; then what is held.
pub(crate) fn burst<F>(bench: &mut Bench, line: Line, take: F)
where
    F: Fn(&mut Bench, u8) -> Option<Answered>,
    requires { F.IsAlwaysCallable take }
{
    let mut s = [0; BYTES];
    for (i, &byte) in line.bytes(1, &mut s).iter().enumerate() {
        let done = take(bench, byte);
        if !is_waiting(done) {
            text(b" at ");
            count(i + 1);
            bench.show(done);
        }
    }
    show_held(bench.holding);
}

// What is held behind a silence.
pub(crate) fn silence(bench: &mut Bench) {
    bench.holding = bench.holding.silence();
    show_held(bench.holding);
}
