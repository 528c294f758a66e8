// The line: what comes is read as it comes, the time is looked at after each read, and each byte is served.
ghost use Rattle.std.specs.Prelude.{◌<◌, ◌≤◌, ◌≡◌, sum};
ghost use Rattle.std.specs.Io.{ReadsAtMost};
ghost use Rattle.thebox.specs.Line.{Feeds, Passes, Steps, Takes};

use crate::asked::Asked;
use crate::say::{Failure, failed};
use frame::holding::{HOLDING, Holding};
use library::store::STORE;
use machine::machine_time;
use printer::answer::{ANSWER, STRIPS};
use printer::call::fresh;
use printer::state::STATE;
use serving::hold::serve;
use serving::pace::{due, instant_of, is_silence, since, tick_all};
use std::fs::File;
use std::io;
use std::io::{IsTerminal, Print, Read, Write};
use std::process::ExitCode;

// How many bytes are read at a time.
const READ: usize = 256;

// What the program was started with.
#[derive(Clone, Copy)]
struct Settings {
    tty: bool,
    watchdog: u8,
    // When it was started, in the machine's milliseconds.
    began: u64,
}

// What the box reads from and writes to, and what it writes.
#[derive(Drop)]
struct Outside<'a> {
    rt: &'a HostRuntime,
    // Where the strips go, if anywhere.
    file: Option<File>,
    answer: [u8; ANSWER],
    strips: [u8; STRIPS],
}

// The box on the line: what it was started with, and what it keeps from turn to turn.
#[derive(Drop)]
struct Line {
    settings: Settings,
    state: [u8; STATE],
    store: [u8; STORE],
    holding: Holding,
    // Where the bytes stand that are held.
    buffer: [u8; HOLDING],
    // When the last byte came.
    heard: u64,
    // How many ticks were made.
    ticked: u64,
}

fn now(rt: &HostRuntime) -> Result<u64, Failure> {
    let time = machine_time(rt).ok_or(Failure::Clock)?;
    instant_of(time.tv_sec, time.tv_nsec).ok_or(Failure::Clock)
}

// How many bytes the strips of a print have, one behind the other.
fn printed(strips: &[usize]) -> usize
    requires { sum strips.now < 18446744073709551616 }
    ensures { result ≡ sum strips.now }
{
    strips.iter().sum()
}

impl<'a> Outside<'a> {
    // One read of what has come. A tty that is none any more is an error too: a line that is cut off while nobody reads gives no bytes for ever after.
    fn read(&self, tty: bool, bytes: &mut [u8]) -> io::Result<usize>
        ensures { ReadsAtMost result bytes.new }
    {
        let mut stdin = self.rt.stdin();
        let n = stdin.read(bytes)?;
        if n == 0 && tty && !stdin.is_terminal() {
            return Err(io::Error::other("it is a terminal no longer"));
        }
        Ok(n)
    }

    // So many bytes of the strips and of the answer. Each print is appended whole, before it is acknowledged: a print head would hang here.
    fn write(&mut self, strips: usize, answer: usize) -> Result<(), Failure>
        requires strips { strips ≤ STRIPS }
        requires answer { answer ≤ ANSWER }
    {
        if let Some(file) = &mut self.file {
            file.write_all(&self.strips[..strips])
                .map_err(Failure::Print)?;
        }
        self.rt
            .write_all(&self.answer[..answer])
            .map_err(Failure::Answer)
    }
}

impl Line {
    // One byte, and what it came to is written.
    fn feed_byte(&mut self, byte: u8, outside: &mut Outside) -> Result<(), Failure>
        ensures { Steps self.old byte self.new }
    {
        let served = serve(
            &mut self.state,
            &mut self.store,
            self.holding,
            &mut self.buffer,
            byte,
            &mut outside.answer,
            &mut outside.strips,
        );
        self.holding = served.holding;
        let answered = served.answered;
        outside.write(printed(&answered.strips), answered.answer)
    }

    // The bytes of a read, as they would come one by one.
    fn feed(&mut self, s: &[u8], outside: &mut Outside) -> Result<(), Failure>
        ensures { Feeds self.old s.now result self.new }
    {
        for &byte in s {
            self.feed_byte(byte, outside)?;
        }
        Ok(())
    }

    // What time makes of it before the bytes of a read are looked at: ticks that are due, and silence.
    fn pass(&mut self, at: u64)
        ensures { Passes self.old at self.new }
    {
        let ticks = due(since(self.settings.began, at), self.ticked);
        tick_all(&mut self.state, ticks);
        self.ticked += ticks;
        if is_silence(since(self.heard, at), self.settings.watchdog) {
            self.holding = self.holding.silence();
        }
    }

    // What was read is served; on a tty no bytes are half a second gone by, on a pipe they are the end. Whether there is more to read.
    fn take(&mut self, s: &[u8], at: u64, outside: &mut Outside) -> Result<bool, Failure>
        ensures { Takes self.old at s.now result self.new }
    {
        self.pass(at);
        if s.is_empty() {
            return Ok(self.settings.tty);
        }
        self.heard = at;
        self.feed(s, outside)?;
        Ok(true)
    }

    // One read and what it came to, and whether there is more to read.
    fn turn(&mut self, outside: &mut Outside) -> Result<bool, Failure> {
        let mut bytes = [0; READ];
        let n = outside
            .read(self.settings.tty, &mut bytes)
            .map_err(Failure::Read)?;
        let at = now(outside.rt)?;
        self.take(&bytes[..n], at, outside)
    }

    // Turn by turn, until the end of a pipe or a failure. A proved loop has to end, and nothing says that a line does: so turns are counted, up
    // to a number that no run comes to.
    fn serve(&mut self, outside: &mut Outside) -> Result<(), Failure> {
        for _ in 0..u64::MAX {
            if !self.turn(outside)? {
                break;
            }
        }
        Ok(())
    }
}

// A fresh printer of the type at the moment, with an empty store, on standard input and output, and the status that the program then ends with. What fails is said while the file for the strips is still open; it is closed as `outside` goes. Not inlined, so that it is not on the stack while the words are read.
#[inline(never)]
pub(crate) fn run(rt: &HostRuntime, asked: Asked) -> ExitCode {
    let tty = rt.stdin().is_terminal();
    let began = match now(rt) {
        Ok(at) => at,
        Err(why) => return failed(rt, &why),
    };
    let mut outside = Outside {
        rt,
        file: asked.strips,
        answer: [0; ANSWER],
        strips: [0; STRIPS],
    };
    let mut line = Line {
        settings: Settings {
            tty,
            watchdog: asked.watchdog,
            began,
        },
        state: [0; STATE],
        store: [0; STORE],
        holding: Holding::Held(0),
        buffer: [0; HOLDING],
        heard: began,
        ticked: 0,
    };
    let _ = fresh(&mut line.state, asked.model, asked.clock);
    match line.serve(&mut outside) {
        Ok(()) => ExitCode::SUCCESS,
        Err(why) => failed(rt, &why),
    }
}
