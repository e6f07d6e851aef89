// What a C interface does with an answer: it stores its numbers and returns 0, or it returns the number of the refusal.
#![tactic(auto)]

ghost use Rattle.std.specs.Prelude.{◌∷◌, [], ◌≤◌, IfOk};
ghost use Rattle.operations.specs.Outcome.{from_read, from_write, from_test, from_clauses, from_count};
ghost use Rattle.interface.specs.Exported.{Stores, from_shown};

use operations::{BodyPlace, ClauseNumbers, Counted};
use reader::Header;
use refusals::Refusal;

// Of reading: the numbers of atoms and records.
pub fn store_read(answer: Result<Header, Refusal>, atoms: &mut u64, records: &mut u64) -> u32
    ensures { Stores (from_read answer) result
        (atoms.old ∷ records.old ∷ []) (atoms.new ∷ records.new ∷ []) }
{
    match answer {
        Ok(header) => {
            *atoms = header.atoms as u64;
            *records = header.records as u64;
            0
        }
        Err(not_read) => not_read.into(),
    }
}

// Of finding a body: its number of positive atoms, where it starts, and its length.
pub fn store_body(
    place: Result<BodyPlace, Refusal>,
    positives: &mut u64,
    offset: &mut u64,
    length: &mut u64,
) -> u32
    requires { IfOk place (λ p. p.start ≤ p.end) }
    ensures { Stores (from_shown place) result
        (positives.old ∷ offset.old ∷ length.old ∷ [])
        (positives.new ∷ offset.new ∷ length.new ∷ []) }
{
    match place {
        Ok(body) => {
            *positives = body.positives as u64;
            *offset = body.start as u64;
            *length = (body.end - body.start) as u64;
            0
        }
        Err(not_found) => not_found.into(),
    }
}

// Of an operation that writes: the length written.
pub fn store_length(answer: Result<usize, Refusal>, written: &mut u64) -> u32
    ensures { Stores (from_write answer) result (written.old ∷ []) (written.new ∷ []) }
{
    match answer {
        Ok(length) => {
            *written = length as u64;
            0
        }
        Err(not_written) => not_written.into(),
    }
}

// Of testing a sequence: nothing.
pub fn store_test(answer: Result<(), Refusal>) -> u32
    ensures { Stores (from_test answer) result [] [] }
{
    match answer {
        Ok(()) => 0,
        Err(not_passed) => not_passed.into(),
    }
}

// Of writing clauses: the numbers of words written, of variables and of clauses.
pub fn store_clauses(
    answer: Result<ClauseNumbers, Refusal>,
    written: &mut u64,
    variables: &mut u64,
    clauses: &mut u64,
) -> u32
    ensures { Stores (from_clauses answer) result
        (written.old ∷ variables.old ∷ clauses.old ∷ [])
        (written.new ∷ variables.new ∷ clauses.new ∷ []) }
{
    match answer {
        Ok(numbers) => {
            *written = numbers.words as u64;
            *variables = numbers.variables as u64;
            *clauses = numbers.clauses as u64;
            0
        }
        Err(no_clauses) => no_clauses.into(),
    }
}

// Of counting: the number of stable models, and the verdict.
pub fn store_count(answer: Result<Counted, Refusal>, count: &mut u64, verdict: &mut u64) -> u32
    ensures { Stores (from_count answer) result
        (count.old ∷ verdict.old ∷ []) (count.new ∷ verdict.new ∷ []) }
{
    match answer {
        Ok(counted) => {
            *count = counted.states;
            *verdict = counted.verdict.into();
            0
        }
        Err(not_counted) => not_counted.into(),
    }
}
