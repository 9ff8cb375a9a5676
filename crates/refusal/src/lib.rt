// Why a call is refused: every refusal of documents 01 and 02, with its number and its place.
#![tactic(auto)]

ghost use Rattle.std.specs.Prelude.{◌≡◌};
ghost use Rattle.refusal.specs.Refusal.{refusal_number, refusal_place};

// The documents' numbers 1 to 9 and 11 to 17 in this order. A case that has a place holds it.
#[derive(Clone, Copy)]
pub enum Refusal {
    ShortWork,
    ShortBuffer,
    Cut(usize),
    UnknownKind(usize),
    Misplaced(usize),
    WrongCount(usize),
    WrongNumber(usize),
    OutOfRange(usize),
    TooManyRuns(usize),
    NoStar,
    NotWhole(usize),
    NoTurn(usize),
    Miscounted(usize),
    OtherJob(usize),
    Untrue(usize),
    Coincident(usize),
}

// The documents' number of a refusal.
pub fn number(refusal: Refusal) -> u32
    ensures { result ≡ refusal_number refusal }
{
    match refusal {
        Refusal::ShortWork => 1,
        Refusal::ShortBuffer => 2,
        Refusal::Cut(_) => 3,
        Refusal::UnknownKind(_) => 4,
        Refusal::Misplaced(_) => 5,
        Refusal::WrongCount(_) => 6,
        Refusal::WrongNumber(_) => 7,
        Refusal::OutOfRange(_) => 8,
        Refusal::TooManyRuns(_) => 9,
        Refusal::NoStar => 11,
        Refusal::NotWhole(_) => 12,
        Refusal::NoTurn(_) => 13,
        Refusal::Miscounted(_) => 14,
        Refusal::OtherJob(_) => 15,
        Refusal::Untrue(_) => 16,
        Refusal::Coincident(_) => 17,
    }
}

// The place of a refusal, 0 for one that has none.
pub fn place(refusal: Refusal) -> usize
    ensures { result ≡ refusal_place refusal }
{
    match refusal {
        Refusal::ShortWork | Refusal::ShortBuffer | Refusal::NoStar => 0,
        Refusal::Cut(at)
        | Refusal::UnknownKind(at)
        | Refusal::Misplaced(at)
        | Refusal::WrongCount(at)
        | Refusal::WrongNumber(at)
        | Refusal::OutOfRange(at)
        | Refusal::TooManyRuns(at)
        | Refusal::NotWhole(at)
        | Refusal::NoTurn(at)
        | Refusal::Miscounted(at)
        | Refusal::OtherJob(at)
        | Refusal::Untrue(at)
        | Refusal::Coincident(at) => at,
    }
}
