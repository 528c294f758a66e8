// Frames are written over the front of a lent buffer; what doesn't fit is refused and nothing is written.
ghost use Rattle.std.specs.Prelude.{◌≡◌, ◌+◌, ◌≤◌, IfOk};
ghost use Rattle.frame.specs.Build.{Answers, Builds, Lays, Sends, Wraps, answered};
ghost use Rattle.frame.specs.Given.{numbered};
ghost use Rattle.frame.specs.Wire.{around, longest_data};

use crate::given::Refusal;
use crate::wire::{AROUND, DATA, HEAD, check, size_of};

// Lays bytes over the front of a buffer, if they fit. A function round a method, and a `bool`: so its contract `Lays` promises it to all callers.
pub fn lay(out: &mut [u8], bytes: &[u8]) -> bool
    ensures { Lays out.old bytes.now result out.new }
{
    if out.len() < bytes.len() {
        return false;
    }
    out[..bytes.len()].copy_from_slice(bytes);
    true
}

// The length of the frame around n data bytes, if it may be written in so much room.
#[tactic(auto, using(crate::proofs::Ground::tests), unfolding(crate::specs::Build::answered))]
fn frame_length(room: usize, n: usize) -> Result<usize, Refusal>
    ensures answer { numbered result ≡ answered room n }
    ensures fits { IfOk result (λ length. (length ≡ n + around) × (length ≤ room) × (n ≤ longest_data)) }
{
    if room < AROUND || room - AROUND < n {
        return Err(Refusal::ShortBuffer);
    }
    if DATA < n {
        return Err(Refusal::TooLong);
    }
    Ok(n + AROUND)
}

// Writes the head and the check byte around n data bytes that stand in the buffer from place 3 on, and gives the frame's length.
pub fn wrap(out: &mut [u8], identifier: u8, n: usize) -> Result<usize, Refusal>
    ensures { Wraps out.old identifier n (numbered result) out.new }
{
    let length = frame_length(out.len(), n)?;
    let [.., high, low] = n.to_be_bytes();
    out[..HEAD].copy_from_slice(&[identifier, high, low]);
    let c = check(&out[..n + HEAD]);
    out[n + HEAD] = c;
    Ok(length)
}

// Writes a frame, if it fits and its identifier is known.
fn send(out: &mut [u8], identifier: u8, bytes: &[u8], known: bool) -> Result<usize, Refusal>
    ensures { Sends out.old identifier bytes.now known (numbered result) out.new }
{
    frame_length(out.len(), bytes.len())?;
    if !known {
        return Err(Refusal::UnknownIdentifier);
    }
    lay(&mut out[HEAD..], bytes);
    wrap(out, identifier, bytes.len())
}

// Writes a frame with any identifier: also one that stands only in answers, as 9Ch.
pub fn answer(out: &mut [u8], identifier: u8, bytes: &[u8]) -> Result<usize, Refusal>
    ensures { Answers out.old identifier bytes.now (numbered result) out.new }
{
    send(out, identifier, bytes, true)
}

// Writes a frame that the box can be sent.
pub fn build(out: &mut [u8], identifier: u8, bytes: &[u8]) -> Result<usize, Refusal>
    ensures { Builds out.old identifier bytes.now (numbered result) out.new }
{
    send(out, identifier, bytes, size_of(identifier).is_some())
}
