// What the box hands back, and the answers it writes.
ghost use Rattle.std.specs.Prelude.{◌+◌, ◌≤◌, IfOk, length, ◌≡◌};
ghost use Rattle.printer.specs.Answer.{Settles, Silent, bare};

use frame::given::Refusal;

// How many bytes the box's buffers must have: the longest answer is 06h and a frame of 549 data bytes, and the strip of a message of
// 512 bytes has three times as many at the most.
pub const ANSWER: usize = 554;

pub const STRIPS: usize = 6144;

// Document 01: "the answer's length and the length of each jet's strip (0 where none)"; so lengths, and no slices.
#[derive(Clone, Copy, Debug, PartialEq, Eq)]
pub struct Answered {
    // Done, or why it is refused.
    pub outcome: Result<(), Refusal>,
    // How many of the bytes handed in are consumed.
    pub consumed: usize,
    // How many bytes of the answer buffer are the answer.
    pub answer: usize,
    // The length of each jet's strip, 0 where there is none.
    pub strips: [usize; 4],
}

// Numbers 1 to 3: nothing is consumed or written.
pub(crate) fn silent(why: Refusal) -> Answered
    ensures { Silent why result }
{
    Answered {
        outcome: Err(why),
        consumed: 0,
        answer: 0,
        strips: [0; 4],
    }
}

// What is told of a change that is done: no frame is answered.
pub(crate) fn bare(done: Result<(), Refusal>) -> Result<usize, Refusal>
    ensures { result ≡ bare done }
{
    done.map(|()| 0)
}

// 06h for what is done, before a frame of so many bytes that stands there already; 15h alone for a refusal.
pub(crate) fn settle(told: Result<usize, Refusal>, consumed: usize, out: &mut [u8]) -> Answered
    requires room { 1 ≤ length out.old }
    requires small { IfOk told (λ frame. frame + 1 ≤ length out.old) }
    ensures { Settles told consumed out.old result out.new }
{
    match told {
        Ok(frame) => {
            out[0] = 0x06;
            Answered {
                outcome: Ok(()),
                consumed,
                answer: frame + 1,
                strips: [0; 4],
            }
        }
        Err(why) => {
            out[0] = 0x15;
            Answered {
                outcome: Err(why),
                consumed,
                answer: 1,
                strips: [0; 4],
            }
        }
    }
}
