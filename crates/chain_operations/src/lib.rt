// The operations on the chains of a sheet: testing a sequence, and finding the chain that it lacks.
#![tactic(auto)]

ghost use Rattle.operations.specs.Outcome.{from_test, from_write};
ghost use Rattle.operations.specs.Calls.{nothing, naturals, Promised};
ghost use Rattle.operations.specs.Calls as call;
ghost use Rattle.operations.specs.Requirements.{Supported, TableFor};

use missing::put_missing;
use missing_start::find_start;
use refusals::Refusal;
use sequence_check::{check_entries, check_sequence};
use sheet::Limits;
use sheet_check::check_sheet;

// Testing a sequence: every chain must be found in it.
pub fn test(limits: Limits, s: &[u8], q: &[u8], table: &mut [u64]) -> Result<(), Refusal>
    requires { Supported limits × TableFor limits table.old }
    ensures { Promised limits (call.test s.now q.now) (from_test result) nothing }
{
    let mut edges = [0u64; 64];
    let mut names = [0u8; 64];
    let mut sets = [0u64; 64];
    let a = check_sheet(limits, s, &mut edges, &mut names, &mut sets)?;
    check_sequence(limits, a.atoms, &edges, &sets, q, table)
}

// Finding the missing chain: the shortest chain that is not found in the sequence.
pub fn missing(
    limits: Limits,
    s: &[u8],
    q: &[u8],
    out: &mut [u8],
    table: &mut [u64],
) -> Result<usize, Refusal>
    requires { Supported limits × TableFor limits table.old }
    ensures { Promised limits (call.missing s.now q.now out.old) (from_write result) (naturals out.new) }
{
    let mut edges = [0u64; 64];
    let mut names = [0u8; 64];
    let mut sets = [0u64; 64];
    let a = check_sheet(limits, s, &mut edges, &mut names, &mut sets)?;
    let n = a.atoms;
    check_entries(limits, n, q)?;
    let Some(start) = find_start(table, n, &edges, &sets, q) else {
        return Err(Refusal::Found);
    };
    if out.len() < start.length {
        return Err(Refusal::Room);
    }
    Ok(put_missing(out, table, &edges, q, start))
}
