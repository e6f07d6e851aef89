// Counting the stable models of a sheet.
#![tactic(auto)]

ghost use Rattle.operations.specs.Outcome.{from_count};
ghost use Rattle.operations.specs.Calls.{nothing, Promised};
ghost use Rattle.operations.specs.Calls as call;
ghost use Rattle.operations.specs.Requirements.{Supported};

use operations::{Counted, Verdict};
use refusals::Refusal;
use sheet::Limits;
use sheet_check::check_records;

// Counting the stable models.
pub fn count(limits: Limits, s: &[u8]) -> Result<Counted, Refusal>
    requires { Supported limits }
    ensures { Promised limits (call.count s.now) (from_count result) nothing }
{
    let mut records = [0u64; 384];
    let mut edges = [0u64; 64];
    let mut names = [0u8; 64];
    let mut sets = [0u64; 64];
    let mut ancestors = [0u64; 64];
    let a = check_records(
        limits,
        s,
        &mut records,
        &mut edges,
        &mut names,
        &mut sets,
        &mut ancestors,
    )?;
    let Some(states) = counting::count(a.records, &mut records, &ancestors) else {
        return Err(Refusal::Negated);
    };
    Ok(Counted {
        states,
        verdict: Verdict::on(states),
    })
}
