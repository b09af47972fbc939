// The refusals: why a call cannot do what it is asked. Paper 01 gives each a number.
#![tactic(auto)]

ghost use Rattle.std.specs.Prelude.{◌≡◌};
ghost use Rattle.refusal.specs.Numbers.{number, number_of};

#[derive(Clone, Copy)]
pub enum Refusal {
    // The bytes of a topology end before the tree is complete, or there are none.
    Incomplete,
    // Bytes follow a complete tree.
    Excess,
    TooManyNodes,
    TooManyChildren,
    // A node lies nine steps down.
    TooDeep,
    // A map does not give one image for each source node.
    MapLength,
    // An image past the last target node.
    NoSuchImage,
    // Rule 1 to 4.
    SharedImage,
    RootMoved,
    LeafMoved,
    OrderBroken,
    NoMap,
    NoSuchChild,
    EndsAboveLeaf,
    Full,
    Empty,
    Limit,
    State,
    NoSuchBranch,
    UnknownCommand,
    CutShort,
    OutOfTurn,
    LateFinish,
    Rules,
    NoLeaf,
    PassedNode,
    Degree,
}

impl From<Refusal> for u8 {
    ghost from_gives = { λ r n. n ≡ number r };

    fn from(refusal: Refusal) -> u8 {
        match refusal {
            Refusal::Incomplete => 1,
            Refusal::Excess => 2,
            Refusal::TooManyNodes => 3,
            Refusal::TooManyChildren => 4,
            Refusal::TooDeep => 5,
            Refusal::MapLength => 6,
            Refusal::NoSuchImage => 7,
            Refusal::SharedImage => 8,
            Refusal::RootMoved => 9,
            Refusal::LeafMoved => 10,
            Refusal::OrderBroken => 11,
            Refusal::NoMap => 12,
            Refusal::NoSuchChild => 13,
            Refusal::EndsAboveLeaf => 14,
            Refusal::Full => 15,
            Refusal::Empty => 16,
            Refusal::Limit => 17,
            Refusal::State => 18,
            Refusal::NoSuchBranch => 19,
            Refusal::UnknownCommand => 20,
            Refusal::CutShort => 21,
            Refusal::OutOfTurn => 22,
            Refusal::LateFinish => 23,
            Refusal::Rules => 24,
            Refusal::NoLeaf => 25,
            Refusal::PassedNode => 26,
            Refusal::Degree => 27,
        }
    }
}

// The number of an outcome: its refusal's, or 0.
// It is no `From`: Rust allows one only where one of the two types is of this crate, and neither Result nor u8 is.
pub fn number_of(outcome: Result<(), Refusal>) -> u8
    ensures { result ≡ number_of outcome }
{
    match outcome {
        Ok(()) => 0,
        Err(refusal) => refusal.into(),
    }
}
