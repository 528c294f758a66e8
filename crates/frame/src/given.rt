// What is given of a call: a number of document 01 and, where it has one, a place. In the code a refusal is a name, and here alone it becomes its number.
ghost use Rattle.std.specs.Prelude.{◌≡◌};
ghost use Rattle.frame.specs.Ground.{placed, plain};
ghost use Rattle.frame.specs.Given.{given_in, given_of};

// Why a call is refused, in the order in which it is asked. A place is counted from 0.
#[derive(Clone, Copy, Debug, PartialEq, Eq)]
pub enum Refusal {
    // 1: of a state, of a store, and of what is held between single bytes.
    BadState,
    // 2.
    ShortBuffer,
    // 3: more bytes are to come.
    NotWhole,
    // 4.
    TooLong,
    // 5: of the check byte.
    WrongCheck,
    // 6.
    UnknownIdentifier,
    // 7: of the data.
    WrongLength,
    // 8.
    NoSuchJet,
    // 17: of a message in the store.
    NoSuchMessage,
    // 9.
    BadParameters,
    // 10, and the place in the content.
    NoContent(usize),
    // 16: in the store.
    NoRoom,
    // 11: a message, parameters or field positions.
    Missing,
    // 18: of an update's characters.
    WrongCount,
    // 12, and the address.
    NoPosition(usize),
    // 13, and the index among the new symbols or the update's characters.
    NoCharacter(usize),
    // 14: of a printer.
    NoSuchType,
    // 15: of a clock or of a day.
    NoSuchMoment,
}

#[derive(Clone, Copy, Debug, PartialEq, Eq)]
pub struct Given {
    pub number: u8,
    // Where what is refused stands: for 10, 12 and 13 alone.
    pub place: Option<usize>,
}

// A number that has no place.
pub fn plain(number: u8) -> Given
    ensures { result ≡ plain number }
{
    Given {
        number,
        place: None,
    }
}

// A number and its place.
pub fn placed(number: u8, place: usize) -> Given
    ensures { result ≡ placed number place }
{
    Given {
        number,
        place: Some(place),
    }
}

impl Refusal {
    // Its number and, where it has one, its place.
    pub fn given(self) -> Given
        ensures { result ≡ given_of self }
    {
        match self {
            Refusal::BadState => plain(1),
            Refusal::ShortBuffer => plain(2),
            Refusal::NotWhole => plain(3),
            Refusal::TooLong => plain(4),
            Refusal::WrongCheck => plain(5),
            Refusal::UnknownIdentifier => plain(6),
            Refusal::WrongLength => plain(7),
            Refusal::NoSuchJet => plain(8),
            Refusal::NoSuchMessage => plain(17),
            Refusal::BadParameters => plain(9),
            Refusal::NoContent(i) => placed(10, i),
            Refusal::NoRoom => plain(16),
            Refusal::Missing => plain(11),
            Refusal::WrongCount => plain(18),
            Refusal::NoPosition(i) => placed(12, i),
            Refusal::NoCharacter(i) => placed(13, i),
            Refusal::NoSuchType => plain(14),
            Refusal::NoSuchMoment => plain(15),
        }
    }
}

// What is given of a call that is done or refused; 0 is "done".
impl From<Result<(), Refusal>> for Given {
    ghost from_gives = { λ outcome given. given ≡ given_in outcome };

    fn from(outcome: Result<(), Refusal>) -> Given {
        match outcome {
            Ok(()) => plain(0),
            Err(why) => why.given(),
        }
    }
}
