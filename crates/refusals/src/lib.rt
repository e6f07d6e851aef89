// Refusals: why an operation does not answer. Each is the number of the question that is answered by a no.
#![tactic(auto)]

ghost use Rattle.std.specs.Prelude.{◌≡◌};
ghost use Rattle.refusals.specs.Numbers.{number};

use std::fmt;

// What is refused, in the order of the numbers, which are 1 to 16. The names are those of the C interface.
#[derive(Clone, Copy, Debug, PartialEq, Eq)]
pub enum Refusal {
    // The sheet has less than five bytes, or another version.
    Version,
    // The length field is not the sheet's length.
    Length,
    // More atoms or records than the format takes.
    Limits,
    // A record is cut off or has no room for what it counts, or bytes are left behind the last one.
    Record,
    // A record's kind is unknown, or its head is not what the kind asks.
    Kind,
    // A list of atoms does not rise, or names an atom that is not there.
    Atoms,
    // A component has more atoms than the format takes.
    Component,
    // The sequence is none for this program.
    Sequence,
    // A chain is not found in the sequence.
    Chain,
    // The output has more bytes or words than the buffer.
    Room,
    // More atoms have to be decided than the count takes.
    Negated,
    // There is no record of that number.
    Number,
    // With the fresh ones there are more atoms than the format takes.
    Fresh,
    // No chain is missing.
    Found,
    // More atoms, or more in a component, than the service takes.
    Large,
    // A longer sequence than the service takes.
    Long,
}

// A refusal as a number, for a caller in C.
impl From<Refusal> for u32 {
    ghost from_gives = { λ refusal k. k ≡ number refusal };

    fn from(refusal: Refusal) -> u32 {
        match refusal {
            Refusal::Version => 1,
            Refusal::Length => 2,
            Refusal::Limits => 3,
            Refusal::Record => 4,
            Refusal::Kind => 5,
            Refusal::Atoms => 6,
            Refusal::Component => 7,
            Refusal::Sequence => 8,
            Refusal::Chain => 9,
            Refusal::Room => 10,
            Refusal::Negated => 11,
            Refusal::Number => 12,
            Refusal::Fresh => 13,
            Refusal::Found => 14,
            Refusal::Large => 15,
            Refusal::Long => 16,
        }
    }
}

// The line of a refusal, as the programs print it.
impl fmt::Display for Refusal {
    fn fmt<W: fmt::Write>(&self, f: &mut fmt::Formatter<W>) -> fmt::Result {
        write!(f, "refused {}", u32::from(*self))
    }
}
