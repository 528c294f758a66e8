// What the box says on standard error before it ends, and the status that it then ends with.
use std::fmt;
use std::fmt::Display;
use std::io::{Eprint, Error};
use std::process::ExitCode;

// Why the box ends. The reason that the system gave stands behind a colon.
#[derive(Drop)]
pub(crate) enum Failure {
    // Too few words, or too many.
    Words,
    Type,
    Moment,
    Watchdog,
    // The file for the strips can't be opened.
    Strips(Error),
    Read(Error),
    Answer(Error),
    Print(Error),
    Clock,
}

impl Display for Failure {
    fn fmt<W: fmt::Write>(&self, f: &mut fmt::Formatter<W>) -> fmt::Result {
        match self {
            Failure::Words => f.write_str(
                "takes TYPE YYYY-MM-DDTHH:MM:SS [WATCHDOG [STRIPS]], as in box 1 2024-02-29T23:59:58 3 strips",
            ),
            Failure::Type => f.write_str("the type, the first word, is 1, 2, 3 or 4"),
            Failure::Moment => f.write_str(
                "the start time, the second word, is a real moment of the years 2000 to 2099, as 2024-02-29T23:59:58",
            ),
            Failure::Watchdog => f.write_str(
                "the watchdog, the third word, is a number of seconds from 1 to 99",
            ),
            Failure::Strips(why) => {
                write!(f, "the file for the strips, the fourth word: {why}")
            },
            Failure::Read(why) => write!(
                f,
                "standard input can't be read, or the line has ended: {why}"
            ),
            Failure::Answer(why) => write!(f, "an answer can't be written: {why}"),
            Failure::Print(why) => write!(
                f,
                "a print can't be written to the file for the strips: {why}"
            ),
            Failure::Clock => f.write_str("the machine's clock can't be read"),
        }
    }
}

// One line. Where it can't be written, the status alone tells that the box failed.
pub(crate) fn failed(rt: &impl Eprint, why: &Failure) -> ExitCode {
    let _ = eprintln!(rt; "box: {why}");
    ExitCode::FAILURE
}
