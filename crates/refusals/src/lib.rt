// Number and place of a refusal (01, "Refusal numbers", and 02's so far), for what is printed and for callers in other
// languages. They are functions: a case with a place has no number that `as` reads, and an impl of `From` for the
// refusal of `model` and a number of the language could not stand here.
#![tactic(auto)]

ghost use Rattle.std.specs.Prelude.{◌≡◌};
ghost use Rattle.model.specs.Answers.{number_of, place_of, refusal_values};
ghost use Rattle.model.specs.InOne.{in_one};

use board::MOST_LINES;
use model::Refusal;

// The place of a line too many.
const LINE_TOO_MANY: u32 = MOST_LINES as u32 + 1;

// So many numbers has the lower half of a number of 64 bits room for.
const HALF: u64 = 1 << 32;

// The refusal's number.
pub fn number(r: Refusal) -> u32
    ensures { result ≡ number_of r }
{
    match r {
        Refusal::TextTooLong => 1,
        Refusal::Malformed(_) => 2,
        Refusal::TooManyLines => 3,
        Refusal::JobOutOfSequence(_) => 4,
        Refusal::BadStart(_) => 5,
        Refusal::NeverStarted(_) => 6,
        Refusal::GiveWithoutTake(_) => 7,
        Refusal::TwoLasting(_) => 9,
        Refusal::LeadsBack(_) => 10,
        Refusal::ListTooShort(_) => 11,
        Refusal::NotATake(_) => 12,
        Refusal::NoSuchDevice(_) => 13,
        Refusal::StaleTable(_) => 14,
        Refusal::IllegalStep(_) => 15,
        Refusal::HeldTwice(_) => 16,
        Refusal::HeldLate(_) => 17,
    }
}

// The refusal's place.
pub fn place(r: Refusal) -> u32
    ensures { result ≡ place_of r }
{
    match r {
        Refusal::TextTooLong => 0,
        Refusal::TooManyLines => LINE_TOO_MANY,
        Refusal::TwoLasting(device) | Refusal::LeadsBack(device) => device,
        Refusal::ListTooShort(needed) => needed,
        Refusal::NotATake(asked) | Refusal::NoSuchDevice(asked) => asked,
        Refusal::IllegalStep(position) => position,
        Refusal::Malformed(line)
        | Refusal::JobOutOfSequence(line)
        | Refusal::BadStart(line)
        | Refusal::NeverStarted(line)
        | Refusal::GiveWithoutTake(line)
        | Refusal::StaleTable(line)
        | Refusal::HeldTwice(line)
        | Refusal::HeldLate(line) => line,
    }
}

// Both as a list, in the order in which they are printed.
pub fn values(r: Refusal) -> [u32; 2]
    ensures { result ≡ refusal_values r }
{
    [number(r), place(r)]
}

// Both in one number: the refusal's number in the upper half, its place in the lower.
pub fn in_one(r: Refusal) -> u64
    ensures { result ≡ in_one (refusal_values r) }
{
    u64::from(number(r)) * HALF + u64::from(place(r))
}
