// The numbers and answers of document 01; specs/ has its definitions.
#![tactic(auto)]

ghost use Rattle.std.specs.Prelude.{◌≡◌};
ghost use Rattle.paper.specs.Answers.{number};

// Three sorts of number, so that none can stand in for another.
#[derive(Clone, Copy, Debug, PartialEq, Eq)]
pub struct State(pub u16);

#[derive(Clone, Copy, Debug, PartialEq, Eq)]
pub struct Terminal(pub u16);

#[derive(Clone, Copy, Debug, PartialEq, Eq)]
pub struct Production(pub u16);

// The caller names the mode: archive as the Rust did, intake by the string lists alone.
#[derive(Clone, Copy, Debug, PartialEq, Eq)]
pub enum Mode {
    Archive,
    Intake,
}

// Why a call refuses: 1 to 14, in the order of their numbers.
#[derive(Clone, Copy, Debug, PartialEq, Eq)]
pub enum Refusal {
    Length,
    Range,
    Order,
    Shape,
    Loose,
    Split,
    Tree,
    // the first table's production, then the second's
    Clash(Production, Production),
    Mismatch,
    Short,
    None,
    Root,
    // the byte offset of the first bad line
    Text(usize),
    Full,
}

// A table as it is lent: prod0, k, and four numbers a row.
#[derive(Clone, Copy)]
pub struct Table<'a> {
    pub prod0: i32,
    pub k: usize,
    pub rows: &'a [i32],
}

// The strings that one production may begin with: the length of each, and the tokens of all, one string after the other.
#[derive(Clone, Copy)]
pub struct StringList<'a> {
    pub production: i32,
    pub tokens: &'a [u16],
    pub lengths: &'a [usize],
}

// Build, unite, shrink and intake's call: of a table whose rows stand at the front of the output.
#[derive(Clone, Copy, Debug, PartialEq, Eq)]
pub struct Heading {
    pub prod0: i32,
    pub k: usize,
    pub rows: usize,
    pub states: usize,
}

// Text in: of a table whose rows stand at the front of the output.
#[derive(Clone, Copy, Debug, PartialEq, Eq)]
pub struct Title {
    pub prod0: i32,
    pub k: usize,
    pub rows: usize,
}

// Predict: the production, and the count of rows entered.
#[derive(Clone, Copy, Debug, PartialEq, Eq)]
pub struct Prediction {
    pub production: Production,
    pub entered: usize,
}

impl Refusal {
    // The paper's number of a refusal.
    pub fn number(self) -> usize
        ensures { result ≡ number self }
    {
        match self {
            Refusal::Length => 1,
            Refusal::Range => 2,
            Refusal::Order => 3,
            Refusal::Shape => 4,
            Refusal::Loose => 5,
            Refusal::Split => 6,
            Refusal::Tree => 7,
            Refusal::Clash(_, _) => 8,
            Refusal::Mismatch => 9,
            Refusal::Short => 10,
            Refusal::None => 11,
            Refusal::Root => 12,
            Refusal::Text(_) => 13,
            Refusal::Full => 14,
        }
    }
}
