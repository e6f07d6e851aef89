// Writing the clauses of a sheet and a sequence.
#![tactic(auto)]

ghost use Rattle.operations.specs.Outcome.{from_clauses};
ghost use Rattle.operations.specs.Calls.{integers, Promised};
ghost use Rattle.operations.specs.Calls as call;
ghost use Rattle.operations.specs.Requirements.{Supported, TableFor};

use clause_output::put_clauses;
use clause_sizes::numbers_of;
use copies::Unfolding;
use operations::ClauseNumbers;
use program_check::check_program;
use refusals::Refusal;
use sheet::Limits;

// Writing clauses.
pub fn clauses(
    limits: Limits,
    s: &[u8],
    q: &[u8],
    out: &mut [i32],
    table: &mut [u64],
) -> Result<ClauseNumbers, Refusal>
    requires { Supported limits × TableFor limits table.old }
    ensures { Promised limits (call.clauses s.now q.now out.old) (from_clauses result) (integers out.new) }
{
    let mut records = [0u64; 384];
    let mut program = [0u32; 192];
    let mut components = [0u64; 64];
    let size = check_program(
        limits,
        s,
        q,
        &mut records,
        &mut program,
        &mut components,
        table,
    )?;
    let u = Unfolding {
        size,
        records: &records,
        program: &program,
        q,
        components: &components,
    };
    let numbers = numbers_of(&u);
    if out.len() < numbers.words {
        return Err(Refusal::Room);
    }
    let words = put_clauses(out, &u);
    Ok(ClauseNumbers {
        words,
        variables: numbers.variables,
        clauses: numbers.clauses,
    })
}
