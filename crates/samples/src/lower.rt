// The calls of the lower crates that document 01's own calls rest on, each with its outcome.
use crate::show::{UNWRITTEN, bytes, front, given, size, text, unwritten};
use content::edit::edit;
use content::strip::Values;
use content::update::{lay_text, update};
use frame::build::lay;
use frame::given::{Given, Refusal};
use line::write_line;

// More than any buffer that the table asks for.
const BUFFER: usize = 1_600;

// Digits of a counter, and for the date codes from 55h on a letter each.
const VALUES: Values = Values {
    digits: *b"123456789",
    entries: *b"abcdefghijklmnopqrstuvwx",
};

// No byte behind those written is touched.
fn mark(buffer: &[u8], written: usize) {
    if !unwritten(buffer, written) {
        text(b" bytes behind changed");
    }
}

// How many bytes are written, and the bytes.
fn show_written(out: &[u8], n: usize) {
    size(n);
    bytes(front(out, n));
    mark(out, n);
}

fn show_built(out: &[u8], built: Result<usize, Refusal>) {
    match built {
        Ok(n) => show_written(out, n),
        Err(why) => {
            text(b" refused");
            given(why.given());
            mark(out, 0);
        }
    }
}

fn show_lined(out: &[u8], lined: Option<usize>) {
    match lined {
        Some(n) => show_written(out, n),
        None => {
            text(b" short");
            mark(out, 0);
        }
    }
}

// A call that writes into the first bytes of a buffer; what is shown of it looks at the others too.
fn in_room<T, F: FnOnce(&mut [u8]) -> T, S: FnOnce(&[u8], T)>(room: usize, call: F, show: S)
    requires called { F.IsAlwaysCallable call }
    requires shown { S.IsAlwaysCallable show }
{
    let mut out = [UNWRITTEN; BUFFER];
    if let Some(part) = out.get_mut(..room) {
        let done = call(part);
        show(&out, done);
    }
}

// The same for bytes that are laid as they are.
pub(crate) fn laid(room: usize, s: &[u8]) {
    in_room(
        room,
        |out| {
            if lay(out, s) {
                Ok(s.len())
            } else {
                Err(Refusal::ShortBuffer)
            }
        },
        show_built,
    );
}

// The strip of a content, or of any bytes as far as they can be read.
pub(crate) fn strip<F: FnOnce(&[u8], Values, &mut [u8]) -> Result<usize, Refusal>>(
    room: usize,
    s: &[u8],
    write: F,
)
    requires { F.IsAlwaysCallable write }
{
    in_room(room, |out| write(s, VALUES, out), show_built);
}

// A frame of the first byte and the others.
pub(crate) fn built<F: FnOnce(&mut [u8], u8, &[u8]) -> Result<usize, Refusal>>(
    room: usize,
    s: &[u8],
    build: F,
)
    requires { F.IsAlwaysCallable build }
{
    if let Some((&first, rest)) = s.split_first() {
        in_room(room, |out| build(out, first, rest), show_built);
    }
}

// The console's line of them, where the first byte is a number with a place or without.
pub(crate) fn lined<F: FnOnce(u8) -> Given>(room: usize, s: &[u8], what: F)
    requires { F.IsAlwaysCallable what }
{
    if let Some((&first, rest)) = s.split_first() {
        in_room(room, |out| write_line(out, what(first), rest), show_lined);
    }
}

// The first k bytes change the others: the number with its place, and the bytes.
fn changed<F: FnOnce(&mut [u8], &[u8]) -> Result<(), Refusal>>(k: usize, s: &[u8], change: F)
    requires { F.IsAlwaysCallable change }
{
    let mut out = [UNWRITTEN; BUFFER];
    let Some((text, rest)) = s.split_at_checked(k) else {
        return;
    };
    if let Some(part) = out.get_mut(..rest.len()) {
        part.copy_from_slice(rest);
        given(Given::from(change(part, text)));
        bytes(part);
    }
}

// An edit from an address on, as 42h does.
pub(crate) fn edited(address: usize, k: usize, s: &[u8]) {
    changed(k, s, |s, text| edit(s, address, text));
}

// An update.
pub(crate) fn updated(k: usize, s: &[u8]) {
    changed(k, s, update);
}

// A text laid as far as it goes.
pub(crate) fn texted(k: usize, s: &[u8]) {
    changed(k, s, |s, text| {
        lay_text(s, text);
        Ok(())
    });
}
