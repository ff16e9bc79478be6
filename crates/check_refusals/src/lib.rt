// What a service answers: that it accepts, or why it refuses; the rules behind the refusals are definitions.
#![tactic(auto)]

ghost use Rattle.std.specs.Prelude.{◌≡◌};
ghost use Rattle.check_refusals.specs.Outcomes.{refusal_number, outcome_number, outcome_report};

// Why a service refuses. Each has its number in the documents.
#[derive(Clone, Copy, PartialEq, Eq)]
pub enum Refusal {
    WrongLength,
    WrongMark,
    WrongCounts,
    BadVertices,
    BadBaseRecords,
    BadBaseMarks,
    BadBaseFaces,
    UnusedVertices,
    BadCuts,
    // The first leaf edge found hanging: its record and its edge code.
    HangingEdge(usize, u8),
    WrongSelectionLength,
    WrongSelectionMark,
    AnotherJob,
    AnotherRound,
    BadNumbers,
    NamesCut,
    NamesLast,
    LastRound,
    Exceeds,
    TooShort,
    NotWhole,
    LeftHandedRecords,
    HangingVertices,
    NamesUncut,
}

impl Refusal {
    pub fn number(self) -> u32
        ensures { result ≡ refusal_number self }
    {
        match self {
            Refusal::WrongLength => 1,
            Refusal::WrongMark => 2,
            Refusal::WrongCounts => 3,
            Refusal::BadVertices => 4,
            Refusal::BadBaseRecords => 5,
            Refusal::BadBaseMarks => 6,
            Refusal::BadBaseFaces => 7,
            Refusal::UnusedVertices => 8,
            Refusal::BadCuts => 9,
            Refusal::HangingEdge(_, _) => 10,
            Refusal::WrongSelectionLength => 11,
            Refusal::WrongSelectionMark => 12,
            Refusal::AnotherJob => 13,
            Refusal::AnotherRound => 14,
            Refusal::BadNumbers => 15,
            Refusal::NamesCut => 16,
            Refusal::NamesLast => 17,
            Refusal::LastRound => 18,
            Refusal::Exceeds => 19,
            Refusal::TooShort => 20,
            Refusal::NotWhole => 21,
            Refusal::LeftHandedRecords => 22,
            Refusal::HangingVertices => 23,
            Refusal::NamesUncut => 30,
        }
    }
}

// The number that C is given: 0 where nothing is refused.
pub fn outcome_number(outcome: Result<(), Refusal>) -> u32
    ensures { result ≡ outcome_number outcome }
{
    match outcome {
        Ok(()) => 0,
        Err(refusal) => refusal.number(),
    }
}

// What check returns. Kept numbers: it is C's struct.
#[repr(C)]
#[derive(Clone, Copy)]
pub struct Report {
    pub number: u64,
    pub leaves: u64,
    pub deepest: u64,
    pub sixfold: u64,
    pub record: u64,
    pub edge: u64,
}

// What there is to report before the figures: a refusal's number, and of a hanging edge its record and edge too.
pub fn outcome_report(outcome: Result<(), Refusal>) -> Report
    ensures { result ≡ outcome_report outcome }
{
    let (record, edge) = match outcome {
        Err(Refusal::HangingEdge(record, edge)) => (record as u64, edge as u64),
        _ => (0, 0),
    };
    Report {
        number: outcome_number(outcome) as u64,
        leaves: 0,
        deepest: 0,
        sixfold: 0,
        record,
        edge,
    }
}
