// The refusals of document 01, and what calls find. Each call answers with a Result: what was asked, or the refusal of the call.
#![tactic(auto)]

ghost use Rattle.std.specs.Prelude.{◌≡◌};
ghost use Rattle.answers.specs.Number.{number_of};

// The refusals, in the order of their numbers.
#[derive(Clone, Copy, PartialEq, Eq)]
pub enum Refusal {
    UnexpectedEnd,
    UnknownCommand,
    OutOfTurn,
    NonterminalTooLarge,
    TooManyRules,
    TooManyPlaces,
    FurtherByte,
    InvalidGrammar,
    InputLength,
    ChartTooShort,
    OutputTooShort,
    NotADerivation,
    OnlyLargerTrees,
    InvalidRecognizer,
    RecognizerFull,
    RangeReversed,
    InvalidName,
    TextTooLong,
    NoPoint,
    NotOneRule,
    YearsReversed,
}

// Where the bytes of a book, or of a rule that is learnt, are refused: the refusal, and the offset that it names.
#[derive(Clone, Copy, PartialEq, Eq)]
pub struct Fault {
    pub refusal: Refusal,
    pub at: usize,
}

// What count finds: how many derivations there are, or that there are more than 4,096.
#[derive(Clone, Copy, PartialEq, Eq)]
pub enum Figure {
    Exactly(usize),
    More,
}

// The number that document 01 gives a refusal.
impl From<Refusal> for u8 {
    fn from(r: Refusal) -> u8
        ensures { result ≡ number_of r }
    {
        match r {
            Refusal::UnexpectedEnd => 1,
            Refusal::UnknownCommand => 2,
            Refusal::OutOfTurn => 3,
            Refusal::NonterminalTooLarge => 4,
            Refusal::TooManyRules => 5,
            Refusal::TooManyPlaces => 6,
            Refusal::FurtherByte => 7,
            Refusal::InvalidGrammar => 8,
            Refusal::InputLength => 9,
            Refusal::ChartTooShort => 10,
            Refusal::OutputTooShort => 11,
            Refusal::NotADerivation => 12,
            Refusal::OnlyLargerTrees => 13,
            Refusal::InvalidRecognizer => 14,
            Refusal::RecognizerFull => 15,
            Refusal::RangeReversed => 16,
            Refusal::InvalidName => 17,
            Refusal::TextTooLong => 18,
            Refusal::NoPoint => 19,
            Refusal::NotOneRule => 20,
            Refusal::YearsReversed => 21,
        }
    }
}
