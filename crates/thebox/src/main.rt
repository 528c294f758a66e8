// The box on a line: standard input is what comes, standard output what is answered, and each second of the machine's clock is a tick. A tty is set by `stty raw -echo min 0 time 5` beforehand.
#![tactic(auto)]

mod asked;
mod line;
mod say;

use asked::read_words;
use line::run;
use say::failed;
use std::process::ExitCode;

fn main(rt: HostRuntime) -> ExitCode {
    match read_words(&rt) {
        Ok(asked) => run(&rt, asked),
        Err(why) => failed(&rt, &why),
    }
}
