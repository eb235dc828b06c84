// Refusals: one enum for all calls, and the paper's number of each. A call that answers nothing else is a Result<(), Refusal>.
ghost use Rattle.std.specs.Prelude.{◌≡◌};
ghost use Rattle.trits.specs.Refusal.{number_of, code_of};

// Why a call was turned back.
#[derive(Clone, Copy, PartialEq, Eq)]
pub enum Refusal {
    Size, // a size outside its range
    Length, // a length differs from what the sizes say
    BothPlanes, // a bit is set in both planes
    PastEnd, // a bit is set past the length
    PackedByte, // a packed byte above 242
    StreamEnd, // the stream ends too soon
    NoPermutation, // an order is no permutation
    ZeroTrit, // a zero where none may be
    RankU, // H_U lacks rank
    RankV, // H_V lacks rank
    Line, // a line of none of the three forms
    FirstPartV, // the first part lacks rank in V
    FirstPartU, // the first part lacks rank in U
    Weight, // the weight is not w
    PackedPastEnd, // a nonzero trit past the length in packed bytes
    NoKey, // no key begun, or rows missing at a check
    WholeKey, // a row offered to a whole key
    OtherKey, // another key number than the held one
}

// The paper's number of a refusal.
impl From<Refusal> for u64 {
    fn from(refusal: Refusal) -> u64
        ensures { result ≡ number_of refusal }
    {
        match refusal {
            Refusal::Size => 1,
            Refusal::Length => 2,
            Refusal::BothPlanes => 3,
            Refusal::PastEnd => 4,
            Refusal::PackedByte => 5,
            Refusal::StreamEnd => 6,
            Refusal::NoPermutation => 7,
            Refusal::ZeroTrit => 8,
            Refusal::RankU => 9,
            Refusal::RankV => 10,
            Refusal::Line => 11,
            Refusal::FirstPartV => 12,
            Refusal::FirstPartU => 13,
            Refusal::Weight => 14,
            Refusal::PackedPastEnd => 15,
            Refusal::NoKey => 20,
            Refusal::WholeKey => 21,
            Refusal::OtherKey => 22,
        }
    }
}

// The number that a host is told: 0 where nothing is refused.
pub fn code(outcome: Result<(), Refusal>) -> u64
    ensures { result ≡ code_of outcome }
{
    match outcome {
        Ok(()) => 0,
        Err(refusal) => u64::from(refusal),
    }
}
