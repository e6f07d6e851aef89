// Showing a record's body: its number of positive atoms, its place, and its slice of the sheet.
#![tactic(auto)]

ghost use Rattle.std.specs.Prelude.{◌<◌};
ghost use Rattle.sheet.specs.inner.Walk.{Walk};
ghost use Rattle.operations.specs.Outcome.{from_body};
ghost use Rattle.operations.specs.Calls.{nothing, Promised};
ghost use Rattle.operations.specs.Calls as call;
ghost use Rattle.operations.specs.Bodies.{SlicePromise, FindPromise};
ghost use Rattle.operations.specs.Requirements.{Supported};
ghost use Rattle.body_operations.specs.inner.Places.{Placed};

use bits::byte_at;
use operations::BodyPlace;
use refusals::Refusal;
use sheet::{Limits, next_record, record_end};
use sheet_check::check_sheet;

// Where a record stands, of m records that have passed.
fn record_place(s: &[u8], n: usize, m: usize, number: usize) -> usize
    requires { Walk s.now n m 5 × (number < m) }
    ensures { Placed s.now n number result }
{
    let mut at = 5;
    for i in 0..number {
        at = next_record(s, at, m - i, n);
    }
    at
}

// Showing a body: the refusal, or where it stands.
pub fn find_body(limits: Limits, s: &[u8], number: usize) -> Result<BodyPlace, Refusal>
    requires { Supported limits }
    ensures { FindPromise limits number s.now result }
{
    let mut edges = [0u64; 64];
    let mut names = [0u8; 64];
    let mut sets = [0u64; 64];
    let a = check_sheet(limits, s, &mut edges, &mut names, &mut sets)?;
    let m = a.records;
    if m <= number {
        return Err(Refusal::Number);
    }
    let at = record_place(s, a.written, m, number);
    let end = record_end(s, at);
    let positives = byte_at(s, at + 3);
    let start = at + 4;
    Ok(BodyPlace {
        start,
        end,
        positives,
    })
}

// Showing a body: the refusal, or p.
pub fn body(limits: Limits, s: &[u8], number: usize) -> Result<usize, Refusal>
    requires { Supported limits }
    ensures { Promised limits (call.body number s.now) (from_body result) nothing }
{
    Ok(find_body(limits, s, number)?.positives)
}

// Showing a body: its slice of the sheet, empty on a refusal.
pub fn body_slice(limits: Limits, s: &[u8], number: usize) -> &[u8]
    requires { Supported limits }
    ensures { SlicePromise limits number s.now s.entry.ref_ptr result.now result.ref_ptr }
{
    let Ok(place) = find_body(limits, s, number) else {
        return &s[0..0];
    };
    &s[place.start..place.end]
}
