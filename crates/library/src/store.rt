// The store: records one behind the other from the start, and 00h behind the last.
ghost use Rattle.std.specs.Prelude.{◌+◌, ◌≤◌, length, replicate, ◌≡◌};
ghost use Rattle.library.specs.Record.{head_size, records, written};
ghost use Rattle.std.specs.List.{list_all};
ghost use Rattle.frame.specs.Given.{given_in};
ghost use Rattle.library.specs.Store.{Closes, Keeps, PutsLast, blank, body_of, is_number, is_store, store_size, without};

use crate::record::{HEAD, record_at};
use frame::given::Refusal;

// How many bytes a store has.
pub const STORE: usize = 8192;

// The highest number of a record; the lowest is 1.
const LAST: u8 = 79;

// Whether a record may have a number.
pub fn is_number(n: u8) -> bool
    ensures { result ≡ is_number n }
{
    (1..=LAST).contains(&n)
}

// How many bytes are tested at once: a count that the compiler knows, and few, so that a store with another byte near the front of its rest
// is refused early.
const STRETCH: usize = 256;

// Whether every byte is 00h, by one OR over all, which the compiler makes wide words of.
#[tactic(auto, using(crate::proofs::Stores::any_blank))]
fn blank_at_once(s: &[u8]) -> bool
    ensures { result ≡ blank s.now }
{
    s.iter().fold(0, |any, b| any | b) == 0
}

// Whether every part is blank, up to the first that is not.
fn blank_parts(parts: &[[u8; STRETCH]]) -> bool
    ensures { result ≡ list_all blank parts.now }
{
    parts.iter().all(|part| blank_at_once(part))
}

// Whether every byte is 00h.
#[tactic(auto, using(crate::proofs::Stores::parts_blank, crate::proofs::Stores::parts_not))]
fn blank(s: &[u8]) -> bool
    ensures { result ≡ blank s.now }
{
    let (parts, behind) = s.as_chunks::<STRETCH>();
    blank_parts(parts) && blank_at_once(behind)
}

// Whether bytes are a well-formed store.
pub fn is_store(store: &[u8]) -> bool
    ensures { result ≡ is_store store.now }
{
    if store.len() != STORE {
        return false;
    }
    let mut seen = [false; 80];
    let mut at = 0;
    while let Some(found) = record_at(store, at) {
        let number = usize::from(found.number);
        if !is_number(found.number) || seen[number] {
            return false;
        }
        seen[number] = true;
        at = found.end;
    }
    blank(&store[at..])
}

// The body of the record of a number, no bytes where there is none. No `Option`: `body_of` and `BodyUnique` promise it so, and no good body is
// empty.
#[tactic(auto, using(crate::proofs::Walks::ahead, crate::proofs::Walks::inside, crate::proofs::Walks::body_here, crate::proofs::Walks::body_past, crate::proofs::Walks::body_none))]
pub fn body(store: &[u8], n: u8) -> &[u8]
    ensures { result.now ≡ body_of n (records store.now) }
{
    let mut at = 0;
    while let Some(found) = record_at(store, at) {
        if found.number == n {
            return &store[at + HEAD..found.end];
        }
        at = found.end;
    }
    &store[at..at]
}

// How many bytes the records of all other numbers take.
#[tactic(auto, using(crate::proofs::Walks::ahead, crate::proofs::Walks::inside, crate::proofs::Walks::left_here, crate::proofs::Walks::left_past, crate::proofs::Walks::left_none))]
fn others(store: &[u8], n: u8) -> usize
    ensures { (result ≡ length (written (without n (records store.now)))) × (result ≤ length store.now) }
{
    let mut size = 0;
    let mut at = 0;
    while let Some(found) = record_at(store, at) {
        if found.number != n {
            size += found.end - at;
        }
        at = found.end;
    }
    size
}

// Takes out any record of a number and closes the gap; behind the records that stay other bytes are left.
#[tactic(auto, using(crate::proofs::Walks::ahead, crate::proofs::Walks::inside))]
fn close(store: &mut [u8], n: u8)
    ensures { Closes store.old n store.new }
{
    let mut at = 0;
    let mut to = 0;
    while let Some(found) = record_at(store, at) {
        if found.number != n {
            // One moves only where there is a gap before it.
            if to < at {
                store.copy_within(at..found.end, to);
            }
            to += found.end - at;
        }
        at = found.end;
    }
}

// Writes a record at a place, and 00h behind it up to the end.
fn put_last(store: &mut [u8], at: usize, n: u8, body: &[u8])
    requires { (length store.old ≡ store_size) × (at + (head_size + length body.now) ≤ store_size) }
    ensures { PutsLast store.old at n body.now store.new }
{
    // 8,187 at the most: a cast loses nothing, and `try_from` would add a branch.
    let [high, low] = (body.len() as u16).to_be_bytes();
    let from = at + HEAD;
    let end = from + body.len();
    store[at..from].copy_from_slice(&[0x4C, 0x52, n, high, low]);
    store[from..end].copy_from_slice(body);
    store[end..].fill(0);
}

// Stores a body under a number, last; bytes of another size than a store's and a body without room are refused, and nothing is changed.
pub fn keep(store: &mut [u8], n: u8, body: &[u8]) -> Result<(), Refusal>
    ensures { Keeps store.old n body.now (given_in result) store.new }
{
    if store.len() != STORE {
        return Err(Refusal::BadState);
    }
    let at = others(store, n);
    if STORE < at + HEAD + body.len() {
        return Err(Refusal::NoRoom);
    }
    close(store, n);
    put_last(store, at, n, body);
    Ok(())
}
