// Why a call is turned back: the reasons, each with its number.
#![tactic(auto)]

ghost use Rattle.std.specs.Prelude.{◌≡◌};
ghost use Rattle.refusal.specs.Refusal.{number_of};

use std::fmt;

// The reasons, by rising number.
#[derive(Clone, Copy, Debug, PartialEq, Eq)]
pub enum Refusal {
    // The file is longer than the longest job file.
    LongFile,
    // A lent buffer is too short.
    ShortBuffer,
    // The file ends where a line is due.
    FileEnds,
    // The line due has not its letter, its fields or its end byte.
    WrongLine,
    // A number of the J line is past its limits.
    WrongHead,
    // An R line is out of order, or its final mark or a next state is none.
    WrongRuleLine,
    // A P line is out of order, or names what the job lacks.
    WrongNode,
    // An F line names a node that is none, or does not ascend.
    WrongEdge,
    // Bytes follow the last line.
    BytesFollow,
    // No node is an entry.
    NoEntry,
    // A plan has not a byte for each node.
    WrongPlanLength,
    // A plan has a byte that its node may not have.
    WrongPlanByte,
    // What is lent as a rule is none, or no place for one.
    WrongRule,
    // The symbol is none of the rule's.
    NoSymbol,
    // The record's state is none of the rule's.
    NoState,
    // The volume file is not one line for each node.
    WrongVolumes,
    // A text of rows is not rows alone.
    WrongRows,
    // Two rows name one pair.
    PairTwice,
    // No row names a pair.
    PairMissing,
    // A text is no expression.
    WrongExpression,
    // An expression's rule has more than sixteen states.
    ManyStates,
    // Lent lists are not edges with their index, or the edge cannot be put in or taken out.
    WrongEdges,
    // The price file is not its sixteen lines.
    WrongPrices,
}

// The number of a reason.
impl From<Refusal> for u64 {
    ghost from_gives = { λ r n. n ≡ number_of r };

    fn from(refusal: Refusal) -> u64 {
        match refusal {
            Refusal::LongFile => 1,
            Refusal::ShortBuffer => 2,
            Refusal::FileEnds => 3,
            Refusal::WrongLine => 4,
            Refusal::WrongHead => 5,
            Refusal::WrongRuleLine => 6,
            Refusal::WrongNode => 7,
            Refusal::WrongEdge => 8,
            Refusal::BytesFollow => 9,
            Refusal::NoEntry => 10,
            Refusal::WrongPlanLength => 11,
            Refusal::WrongPlanByte => 12,
            Refusal::WrongRule => 13,
            Refusal::NoSymbol => 14,
            Refusal::NoState => 15,
            Refusal::WrongVolumes => 16,
            Refusal::WrongRows => 17,
            Refusal::PairTwice => 18,
            Refusal::PairMissing => 19,
            Refusal::WrongExpression => 20,
            Refusal::ManyStates => 21,
            Refusal::WrongEdges => 22,
            Refusal::WrongPrices => 28,
        }
    }
}

// A reason is told by its number.
impl fmt::Display for Refusal {
    fn fmt<W: fmt::Write>(&self, f: &mut fmt::Formatter<W>) -> fmt::Result {
        let number = u64::from(*self);
        write!(f, "{number}")
    }
}
