// The lines of the table, one after the other: what each of them says, and the call that it makes.
use crate::aboard::{make_up, show_instant, show_silence, show_start};
use crate::bench::{ANSWERS, Bench, HELD, Memory, ROOM, Rooms, SPACE, STRIPS};
use crate::lower::{built, edited, laid, lined, strip, texted, updated};
use crate::shelf::{lay_at, lodge, look, show, show_record};
use crate::show::{UNWRITTEN, bytes, given, large, number, size, text};
use crate::single::{alone, burst, hold, silence};
use crate::text::{BYTES, Line};
use calendar::clock::{Clock, Date, clock_text};
use calendar::date_change::{TimeOfDay, printed, time_of_day};
use content::position::field_positions;
use content::strip::{put_strip, write_strip};
use content::test::test;
use frame::build::{answer, build, wrap};
use frame::given::{Given, placed, plain};
use frame::holding::{HOLDING, Holding};
use library::record::record_at;
use library::store::STORE;
use printer::answer::{ANSWER, STRIPS as STRIP_BUFFER};
use printer::call::{fresh, set_clock, set_date_change, tick};
use printer::single::take_byte;
use printer::state::STATE;
use serving::hold::serve;
use serving::pace::{due, instant_of, is_silence, since};
use serving::words::{model_of, start_of, watchdog_of};

// What stands behind the bytes handed in: who looks too far finds the end of an update.
const BEHIND: u8 = 0x03;

// More bytes than a line overwrites in the state.
const DAMAGE: usize = 64;

// No day is the 0th.
const UNREAL: Clock = Clock {
    second: 0,
    minute: 0,
    hour: 0,
    date: Date {
        day: 0,
        month: 0,
        year: 0,
    },
};

// Bytes overwritten, and the state in each call: the numbers for 05h, for no bytes, for setting a moment that is not real and a date change
// that is no time of day, and for a tick. Then so many bytes as a line overwrites are as before.
fn damage(bench: &mut Bench, line: Line) {
    let at = line.number(1);
    let before = bench.now.state;
    let Some(rest) = before.get(at..) else {
        return;
    };
    lay_at(&mut bench.now.state, at, line.bytes(2, &mut [0; DAMAGE]));
    bench.numbers();
    bench.on_state(|state| set_clock(state, UNREAL));
    bench.on_state(|state| set_date_change(state, time_of_day(24, 0)));
    bench.on_state(tick);
    if let Some(damaged) = rest.get(..DAMAGE) {
        lay_at(&mut bench.now.state, at, damaged);
    }
}

// The moment that date items stand for, laid out as D6h's data.
fn show_night(clock: Clock, time: TimeOfDay) {
    bytes(&clock_text(printed(time, clock)));
}

// A line that makes a call which is lent nothing of the bench.
fn unlent(line: Line) {
    let s = &mut [0; BYTES];
    let n = line.number(1);
    match line.word(0) {
        b"night" => show_night(line.moment(1), line.time(7)),
        b"record" => show_record(record_at(line.bytes(2, s), n)),
        b"model" => number(model_of(line.bytes(1, s)).unwrap_or(0)),
        b"watchdog" => number(watchdog_of(line.bytes(1, s)).unwrap_or(0)),
        b"start" => show_start(start_of(line.bytes(1, s))),
        b"instant" => show_instant(instant_of(line.signed(1), line.signed(2))),
        b"since" => large(since(line.long(1), line.long(2))),
        b"silent" => show_silence(is_silence(line.long(1), line.small(2))),
        b"due" => large(due(line.long(1), line.long(2))),
        b"edit" => edited(n, line.number(2), line.bytes(3, s)),
        b"update" => updated(n, line.bytes(2, s)),
        b"text" => texted(n, line.bytes(2, s)),
        b"lay" => laid(n, line.bytes(2, s)),
        b"strip" => strip(n, line.bytes(2, s), write_strip),
        b"put" => strip(n, line.bytes(2, s), put_strip),
        b"positions" => size(field_positions(line.bytes(2, s))),
        b"build" => built(n, line.bytes(2, s), build),
        b"answer" => built(n, line.bytes(2, s), answer),
        b"line" => lined(n, line.bytes(2, s), plain),
        b"lineat" => lined(n, line.bytes(3, s), |k| placed(k, line.number(2))),
        // wrap, and what is no word of the table too.
        _ => built(n, line.bytes(2, s), |out, identifier, _| {
            wrap(out, identifier, line.number(3))
        }),
    }
}

// A line that makes a call.
fn obey(bench: &mut Bench, line: Line) {
    let s = &mut [BEHIND; BYTES];
    match line.word(0) {
        b"same" => bench.same(),
        b"damage" => damage(bench, line),
        b"fresh" => bench.on_state(|state| fresh(state, line.small(1), line.moment(2))),
        b"set" => bench.on_state(|state| set_clock(state, line.moment(1))),
        b"change" => bench.on_state(|state| set_date_change(state, line.time(1))),
        b"tick" => bench.on_state(tick),
        b"nothing" => bench.hand_in(b""),
        b"frame" => bench.frame(line.bytes(1, s)),
        b"test" => given(Given::from(test(line.bytes(1, s)))),
        b"byte" => alone(bench, line, |bench, byte| bench.take(byte, take_byte)),
        b"burst" => burst(bench, line, |bench, byte| bench.take(byte, take_byte)),
        b"served" => alone(bench, line, |bench, byte| bench.take(byte, serve)),
        b"serve" => burst(bench, line, |bench, byte| bench.take(byte, serve)),
        b"silence" => silence(bench),
        b"peek" => look(line, &bench.now.buffer),
        b"look" => look(line, &bench.now.store),
        b"lodge" => lodge(line, &mut bench.now.store),
        b"shown" => show(line, bench),
        [b'a'..=b'z', ..] => unlent(line),
        _ => bench.hand_in(line.bytes(0, s)),
    }
}

// What a line does; but for those that only prepare, its outcome stands behind it.
fn act(bench: &mut Bench, line: Line) {
    let n = line.number(1);
    match line.word(0) {
        b"size" => bench.rooms.state = n,
        b"store" => bench.rooms.store = n,
        b"buffer" => bench.rooms.buffer = n,
        b"rooms" => {
            bench.rooms.answer = n;
            bench.rooms.strips = line.number(2);
        }
        b"keep" => bench.keep(),
        b"blank" => bench.now.store[..STORE].fill(0),
        b"back" => bench.now.store.copy_from_slice(&bench.kept.store),
        b"fill" => lay_at(&mut bench.now.store, n, line.bytes(2, &mut [0; BYTES])),
        b"poke" => lay_at(&mut bench.now.state, n, line.bytes(2, &mut [0; DAMAGE])),
        b"ticks" => make_up(bench, line),
        b"holding" => hold(bench, line),
        _ => {
            text(b" =");
            obey(bench, line);
        }
    }
}

// A line, and unless it is a title or empty what it does.
fn turn(bench: &mut Bench, line: &[u8]) {
    text(line);
    if !matches!(line, [] | [b'#', ..]) {
        act(bench, Line(line));
    }
    text(b"\n");
}

pub(crate) fn run(s: &[u8]) {
    let mut bench = Bench {
        now: Memory {
            state: [UNWRITTEN; ROOM],
            store: [UNWRITTEN; SPACE],
            buffer: [UNWRITTEN; HELD],
        },
        kept: Memory {
            state: [0; ROOM],
            store: [0; SPACE],
            buffer: [0; HELD],
        },
        answer: [UNWRITTEN; ANSWERS],
        strips: [UNWRITTEN; STRIPS],
        rooms: Rooms {
            state: STATE,
            store: STORE,
            buffer: HOLDING,
            answer: ANSWER,
            strips: STRIP_BUFFER,
        },
        holding: Holding::Held(0),
    };
    for line in s.split_inclusive(|b| *b == b'\n') {
        turn(&mut bench, line.strip_suffix(b"\n").unwrap_or(line));
    }
}
