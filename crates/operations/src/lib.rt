// What the operations answer where nothing is refused.
#![tactic(auto)]

ghost use Rattle.std.specs.Prelude.{◌≡◌};
ghost use Rattle.asp.specs.Count.{verdict};
ghost use Rattle.operations.specs.Verdicts.{code, from_verdict};

use std::fmt;

// Where a record's body starts and ends in the sheet, and its number of positive atoms.
#[derive(Clone, Copy)]
pub struct BodyPlace {
    pub start: usize,
    pub end: usize,
    pub positives: usize,
}

// The numbers of words written, of variables and of clauses.
#[derive(Clone, Copy)]
pub struct ClauseNumbers {
    pub words: usize,
    pub variables: usize,
    pub clauses: usize,
}

// Whether there is no stable model, one, or more.
#[derive(Clone, Copy, Debug, PartialEq, Eq)]
pub enum Verdict {
    None,
    Clear,
    Split,
}

impl Verdict {
    // The verdict on a number of stable models.
    pub fn on(states: u64) -> Verdict
        ensures { from_verdict result ≡ verdict states }
    {
        match states {
            0 => Verdict::None,
            1 => Verdict::Clear,
            _ => Verdict::Split,
        }
    }
}

// A verdict as a number, for a caller in C.
impl From<Verdict> for u64 {
    ghost from_gives = { λ v k. k ≡ code (from_verdict v) };

    fn from(v: Verdict) -> u64 {
        match v {
            Verdict::None => 0,
            Verdict::Clear => 1,
            Verdict::Split => 2,
        }
    }
}

// A verdict as the count program prints it.
impl fmt::Display for Verdict {
    fn fmt<W: fmt::Write>(&self, f: &mut fmt::Formatter<W>) -> fmt::Result {
        f.write_str(match self {
            Verdict::None => "none",
            Verdict::Clear => "clear",
            Verdict::Split => "split",
        })
    }
}

// The number of stable models, with the verdict.
#[derive(Clone, Copy)]
pub struct Counted {
    pub states: u64,
    pub verdict: Verdict,
}
