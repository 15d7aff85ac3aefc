// What the operations answer: the reasons for a refusal, with document 01's number for each.
#![tactic(auto)]

ghost use Rattle.std.specs.Prelude.{◌≡◌};
ghost use Rattle.answers.specs.Answer.{number_of};

// Why an operation refuses. In document 01 each is a number, which `number_of` in specs/ gives. Its 8, a line without operands, is retired (request W2).
#[derive(Clone, Copy, Debug, PartialEq, Eq)]
pub enum Refusal {
    // Under 16 bytes.
    HeaderShort,
    // No line, or over 64 of them.
    Lines,
    // No level, or over 8 of them.
    Levels,
    Offset,
    FileLength,
    // A sign that is none, or a kind that the file's layout does not have.
    SignOrKind,
    // A selected line that is none of the model's.
    StraySelection,
    // A set with a line that is none of the model's, or a lower bound not within its upper bound.
    Bounds,
    // More queries than the ceiling allows.
    Ceiling,
    Tree,
    // A lent slice or buffer too short.
    Room,
    // A lent slice that is not as long as the counts say.
    SliceLength,
    // A threshold on a line that is no vote, or a vote that needs nothing or more operands than it has (request W4).
    Threshold,
    // Two models to be joined whose levels or signs differ (request W6).
    LevelsDiffer,
}

// The number of a refusal.
impl From<Refusal> for u64 {
    ghost from_gives = { λ r n. n ≡ number_of r };

    fn from(r: Refusal) -> u64 {
        match r {
            Refusal::HeaderShort => 1,
            Refusal::Lines => 2,
            Refusal::Levels => 3,
            Refusal::Offset => 4,
            Refusal::FileLength => 5,
            Refusal::SignOrKind => 6,
            Refusal::StraySelection => 7,
            Refusal::Bounds => 9,
            Refusal::Ceiling => 10,
            Refusal::Tree => 11,
            Refusal::Room => 12,
            Refusal::SliceLength => 13,
            Refusal::Threshold => 14,
            Refusal::LevelsDiffer => 15,
        }
    }
}
