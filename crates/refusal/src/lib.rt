// Why an operation refuses: a name for each number of SCOPE 7.
#![tactic(auto)]

ghost use Rattle.refusal.specs.Number.{Numbers};

// The refusals, in the order of their numbers.
#[derive(Clone, Copy, Debug, PartialEq, Eq)]
pub enum Refusal {
    BookLength,
    Kinds,
    Sizes,
    Bodies,
    Generator,
    Limits,
    DualWords,
    Alike,
    InputLength,
    OutputLength,
    InputSymbol,
    NoCodeWord,
    ZeroInverse,
    WordCount,
}

// The number, as C and the program tell it.
impl From<Refusal> for u8 {
    ghost from_gives = { Numbers };

    fn from(why: Refusal) -> u8 {
        match why {
            Refusal::BookLength => 1,
            Refusal::Kinds => 2,
            Refusal::Sizes => 3,
            Refusal::Bodies => 4,
            Refusal::Generator => 5,
            Refusal::Limits => 6,
            Refusal::DualWords => 7,
            Refusal::Alike => 8,
            Refusal::InputLength => 9,
            Refusal::OutputLength => 10,
            Refusal::InputSymbol => 11,
            Refusal::NoCodeWord => 12,
            Refusal::ZeroInverse => 13,
            Refusal::WordCount => 14,
        }
    }
}
