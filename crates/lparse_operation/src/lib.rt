// Writing a sheet as lparse text.
#![tactic(auto)]

ghost use Rattle.operations.specs.Outcome.{from_write};
ghost use Rattle.operations.specs.Calls.{naturals, Promised};
ghost use Rattle.operations.specs.Calls as call;
ghost use Rattle.operations.specs.Requirements.{Supported};

use lparse_output::put_lparse;
use lparse_sizes::lparse_length;
use refusals::Refusal;
use sheet::Limits;
use sheet_check::check_records;

// Writing lparse text.
pub fn lparse(limits: Limits, s: &[u8], out: &mut [u8]) -> Result<usize, Refusal>
    requires { Supported limits }
    ensures { Promised limits (call.lparse s.now out.old) (from_write result) (naturals out.new) }
{
    let mut records = [0u64; 384];
    let mut edges = [0u64; 64];
    let mut names = [0u8; 64];
    let mut sets = [0u64; 64];
    let mut none = [0u64; 0];
    let a = check_records(
        limits,
        s,
        &mut records,
        &mut edges,
        &mut names,
        &mut sets,
        &mut none,
    )?;
    let n = a.written;
    let m = a.records;
    if out.len() < lparse_length(n, m, &records) {
        return Err(Refusal::Room);
    }
    Ok(put_lparse(out, n, m, &records))
}
