// Writing the unfolded program of a sheet and a sequence.
#![tactic(auto)]

ghost use Rattle.operations.specs.Outcome.{from_write};
ghost use Rattle.operations.specs.Calls.{naturals, Promised};
ghost use Rattle.operations.specs.Calls as call;
ghost use Rattle.operations.specs.Requirements.{Supported, TableFor};

use copies::Unfolding;
use program_check::check_program;
use refusals::Refusal;
use sheet::Limits;
use unfolded_output::put_unfolded;
use unfolded_sizes::unfolded_length;

// Writing the unfolded program.
pub fn unfolded(
    limits: Limits,
    s: &[u8],
    q: &[u8],
    out: &mut [u32],
    table: &mut [u64],
) -> Result<usize, Refusal>
    requires { Supported limits × TableFor limits table.old }
    ensures { Promised limits (call.unfolded s.now q.now out.old) (from_write result) (naturals out.new) }
{
    let mut records = [0u64; 384];
    let mut program = [0u32; 192];
    let mut components = [0u64; 64];
    let size = check_program(
        limits,
        s,
        q,
        &mut records,
        &mut program,
        &mut components,
        table,
    )?;
    let u = Unfolding {
        size,
        records: &records,
        program: &program,
        q,
        components: &components,
    };
    let words = unfolded_length(&u);
    if out.len() < words {
        return Err(Refusal::Room);
    }
    Ok(put_unfolded(out, &u))
}
