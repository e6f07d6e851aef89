// The questions about a sheet and a sequence, and the table of the sheet's program behind them.
#![tactic(auto)]

ghost use Rattle.std.specs.Prelude.{◌≡◌, ◌≤◌, length};
ghost use Rattle.components.specs.inner.Reachability.{NamesLow};
ghost use Rattle.operations.specs.Requirements.{Supported, TableFor};
ghost use Rattle.program_check.specs.inner.Checked.{NamedSets, ProgramChecked};

use program::ProgramSize;
use refusals::Refusal;
use sequence_check::check_sequence;
use sheet::Limits;
use sheet_check::check_records;
use tables::{Program, Table};
use translation::program_of;

// For each of the atoms the set of its component's name.
fn component_sets(atoms: usize, names: &[u8; 64], sets: &[u64; 64], components: &mut [u64; 64])
    requires { (atoms ≤ 64) × NamesLow atoms names.now × (length components.old ≡ 64) }
    ensures { NamedSets atoms names.now sets.now components.new }
{
    for a in 0..atoms {
        let c = usize::from(names[a]);
        components[a] = sets[c];
    }
}

// The questions about a sheet, then those about a sequence; behind them the size of the sheet's program. The sheet's records and its
// program are left in the two tables, and for each atom the set of its component.
pub fn check_program(
    limits: Limits,
    s: &[u8],
    q: &[u8],
    records: &mut Table,
    program: &mut Program,
    components: &mut [u64; 64],
    table: &mut [u64],
) -> Result<ProgramSize, Refusal>
    requires { Supported limits × TableFor limits table.old × (length records.old ≡ 384) × (length program.old ≡ 192)
        × (length components.old ≡ 64) }
    ensures { ProgramChecked limits s.now q.now components.new records.new program.new result }
{
    let mut edges = [0u64; 64];
    let mut names = [0u8; 64];
    let mut sets = [0u64; 64];
    let mut none = [0u64; 0];
    let a = check_records(
        limits, s, records, &mut edges, &mut names, &mut sets, &mut none,
    )?;
    check_sequence(limits, a.atoms, &edges, &sets, q, table)?;
    component_sets(a.atoms, &names, &sets, components);
    Ok(program_of(a.written, a.records, records, program))
}
