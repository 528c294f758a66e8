// What was asked on the command line: TYPE YYYY-MM-DDTHH:MM:SS [WATCHDOG [STRIPS]].
ghost use Rattle.std.specs.Prelude.{◌≤◌, length};

use crate::say::Failure;
use calendar::clock::Clock;
use serving::words::{model_of, start_of, watchdog_of};
use std::env::FillError;
use std::fs::{File, OpenOptions};
use std::io;
use std::io::{Error, ErrorKind};
use std::rt::Env;

#[derive(Drop)]
pub(crate) struct Asked {
    pub(crate) model: u8,
    pub(crate) clock: Clock,
    pub(crate) watchdog: u8,
    // Where the strips go, if anywhere.
    pub(crate) strips: Option<File>,
}

// Document 000: the watchdog is 3 s where none is given.
const WATCHDOG: u8 = 3;

// The longest word that is read, which is also the longest path.
const WORD: usize = 4096;

// Whether there is a word i; word 0 is the program's own name. Asked before a word is read: one that is there and can't be read is a wrong word,
// and none at all is not.
fn has_word(rt: &impl Env, i: usize) -> bool {
    let mut word = [0; WORD];
    !matches!(rt.arg(i, &mut word), Err(FillError::NotPresent))
}

// What is read of a word; nothing of one that is missing or has no room.
fn word<T, F: FnOnce(&[u8]) -> Option<T>>(rt: &impl Env, i: usize, read: F) -> Option<T>
    requires { F.IsAlwaysCallable read }
{
    let mut word = [0; WORD];
    let n = rt.arg(i, &mut word).ok()?;
    read(&word[..n])
}

// A file that isn't there is made; every print goes to its end, wherever that is by then.
fn open_strips(rt: &HostRuntime, path: &str) -> io::Result<File> {
    let _ = OpenOptions::new()
        .write(true)
        .create_new(true)
        .open(rt, path);
    OpenOptions::new().append(true).open(rt, path)
}

// A path that isn't UTF-8, or is longer than any path, names no file.
fn strips(rt: &HostRuntime) -> io::Result<File> {
    word(rt, 4, |s| {
        str::from_utf8(s).ok().map(|path| open_strips(rt, path))
    })
    .unwrap_or_else(|| Err(Error::from(ErrorKind::InvalidFilename)))
}

// The words in their order; the file is opened once all others are good. Not inlined, so that their buffers are off the stack once the box runs.
#[inline(never)]
pub(crate) fn read_words(rt: &HostRuntime) -> Result<Asked, Failure> {
    if !has_word(rt, 2) || has_word(rt, 5) {
        return Err(Failure::Words);
    }
    let model = word(rt, 1, model_of).ok_or(Failure::Type)?;
    let clock = word(rt, 2, start_of).ok_or(Failure::Moment)?;
    let watchdog = if has_word(rt, 3) {
        word(rt, 3, watchdog_of).ok_or(Failure::Watchdog)?
    } else {
        WATCHDOG
    };
    let strips = if has_word(rt, 4) {
        Some(strips(rt).map_err(Failure::Strips)?)
    } else {
        None
    };
    Ok(Asked {
        model,
        clock,
        watchdog,
        strips,
    })
}
