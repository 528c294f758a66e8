// What the box is tried on: all that lines leave to one another, and the box's own calls with their outcome.
ghost use Rattle.std.specs.Prelude.{◌≤◌, length};

use crate::show::{UNWRITTEN, bytes, count, front, given, number, size, text, unwritten};
use frame::build::build;
use frame::given::{Given, Refusal};
use frame::holding::Holding;
use printer::answer::Answered;
use printer::receive::receive;
use printer::single::Taken;

// The room for a state, for a store and for what single bytes are held in.
pub(crate) const ROOM: usize = 2_816;

pub(crate) const SPACE: usize = 8_256;

pub(crate) const HELD: usize = 1_088;

// More than any buffer that the table asks for.
pub(crate) const ANSWERS: usize = 608;

pub(crate) const STRIPS: usize = 6_400;

// How much of the state, of the store and of the buffers is handed in.
#[derive(Drop)]
pub(crate) struct Rooms {
    pub state: usize,
    pub store: usize,
    // Of the buffer that single bytes are held in.
    pub buffer: usize,
    pub answer: usize,
    pub strips: usize,
}

// What a call may change besides the buffers for its outcome.
#[derive(Drop)]
pub(crate) struct Memory {
    pub state: [u8; ROOM],
    pub store: [u8; SPACE],
    pub buffer: [u8; HELD],
}

#[derive(Drop)]
pub(crate) struct Bench {
    pub now: Memory,
    pub kept: Memory,
    pub answer: [u8; ANSWERS],
    pub strips: [u8; STRIPS],
    pub rooms: Rooms,
    pub holding: Holding,
}

// The number that the box gives, and its place where it has one; 99, which it never gives, where the table asks for more room than there is.
fn outcome(done: Option<Answered>) {
    match done {
        Some(done) => given(Given::from(done.outcome)),
        None => number(99),
    }
}

// Whether a byte is held or dropped, and nothing comes of it yet.
pub(crate) fn is_waiting(done: Option<Answered>) -> bool {
    done.is_some_and(|done| done.outcome == Err(Refusal::NotWhole))
}

// The first bytes of a buffer are as before the call again.
fn clear(buffer: &mut [u8], n: usize) {
    if let Some(written) = buffer.get_mut(..n) {
        written.fill(UNWRITTEN);
    }
}

// The strips of all jets, which stand one behind the other, and what stands behind them.
fn all_strips<'a>(strips: &'a [u8], sizes: &[usize; 4]) -> &'a [u8]
    ensures { length result.now ≤ length strips.now }
{
    let mut rest = strips;
    for (jet, &n) in sizes.iter().enumerate() {
        if n != 0 {
            text(b" strip ");
            count(jet + 1);
            text(b":");
            let (strip, behind) = rest.split_at(n.min(rest.len()));
            bytes(strip);
            rest = behind;
        }
    }
    rest
}

impl Bench {
    // State, store and what single bytes are held in, as they are.
    pub(crate) fn keep(&mut self) {
        self.kept.state.copy_from_slice(&self.now.state);
        self.kept.store.copy_from_slice(&self.now.store);
        self.kept.buffer.copy_from_slice(&self.now.buffer);
    }

    // Whether all is as it was kept, and no byte of the other buffers is written.
    pub(crate) fn same(&self) {
        if self.now.state != self.kept.state {
            text(b" no, the state");
        } else if self.now.store != self.kept.store {
            text(b" no, the store");
        } else if self.now.buffer != self.kept.buffer {
            text(b" no, the buffer of what is held");
        } else if !unwritten(&self.answer, 0) {
            text(b" no, the answer buffer");
        } else if !unwritten(&self.strips, 0) {
            text(b" no, the strip buffer");
        } else {
            text(b" yes");
        }
    }

    // A call that is lent the state alone: its number.
    pub(crate) fn on_state<F: FnOnce(&mut [u8]) -> Result<(), Refusal>>(&mut self, call: F)
        requires { F.IsAlwaysCallable call }
    {
        if let Some(state) = self.now.state.get_mut(..self.rooms.state) {
            given(Given::from(call(state)));
        }
    }

    // The box, with so much of the state, of the store and of the buffers as the rooms say; none where there is less.
    fn receive(&mut self, s: &[u8]) -> Option<Answered> {
        Some(receive(
            self.now.state.get_mut(..self.rooms.state)?,
            self.now.store.get_mut(..self.rooms.store)?,
            s,
            self.answer.get_mut(..self.rooms.answer)?,
            self.strips.get_mut(..self.rooms.strips)?,
        ))
    }

    // The same for a byte that comes alone, by the receiver for single bytes or a program on a line.
    pub(crate) fn take<F>(&mut self, byte: u8, taker: F) -> Option<Answered>
    where
        F: FnOnce(&mut [u8], &mut [u8], Holding, &mut [u8], u8, &mut [u8], &mut [u8]) -> Taken,
        requires { F.IsAlwaysCallable taker }
    {
        let taken = taker(
            self.now.state.get_mut(..self.rooms.state)?,
            self.now.store.get_mut(..self.rooms.store)?,
            self.holding,
            self.now.buffer.get_mut(..self.rooms.buffer)?,
            byte,
            self.answer.get_mut(..self.rooms.answer)?,
            self.strips.get_mut(..self.rooms.strips)?,
        );
        self.holding = taken.holding;
        Some(taken.answered)
    }

    // The number with its place, the count consumed, the answer and the strips, which are then as if they were not written.
    pub(crate) fn show(&mut self, done: Option<Answered>) {
        outcome(done);
        let Some(done) = done else {
            size(0);
            return;
        };
        size(done.consumed);
        bytes(front(&self.answer, done.answer));
        clear(&mut self.answer, done.answer);
        let rest = all_strips(&self.strips, &done.strips).len();
        clear(&mut self.strips, STRIPS - rest);
    }

    // Bytes handed in.
    pub(crate) fn hand_in(&mut self, s: &[u8]) {
        let done = self.receive(s);
        self.show(done);
    }

    // The frame of an identifier and data, which stand in a row, handed in.
    pub(crate) fn frame(&mut self, s: &[u8]) {
        let Some((identifier, data)) = s.split_first() else {
            return;
        };
        let mut out = [0; ANSWERS];
        match build(&mut out, *identifier, data) {
            Ok(n) => self.hand_in(front(&out, n)),
            Err(why) => {
                text(b" not built");
                given(why.given());
            }
        }
    }

    // The numbers for 05h and for no bytes.
    pub(crate) fn numbers(&mut self) {
        let enquiry = self.receive(b"\x05");
        outcome(enquiry);
        if let Some(done) = enquiry {
            clear(&mut self.answer, done.answer);
        }
        outcome(self.receive(b""));
    }
}
