// The questions about a sheet, in two steps: those about its bytes and records, then those about the graph of its records.
#![tactic(auto)]

ghost use Rattle.std.specs.Prelude.{◌≡◌, length};
ghost use Rattle.translation.specs.inner.Records.{held, records_in};
ghost use Rattle.refusals.specs.Numbers.{refusal_of};
ghost use Rattle.operations.specs.Requirements.{Supported};
ghost use Rattle.sheet_check.specs.inner.Checked.{BytesChecked, Expands, GraphArrays, sizes_refusal, GraphChecked, SheetChecked, RecordsChecked};

use components::{components_of, largest};
use reader::{read_header, read_records};
use refusals::Refusal;
use sheet::Limits;
use tables::Table;
use translation::{choices_in, edges_of};

// What the questions about a sheet find: its numbers of written atoms, of records and of all atoms.
#[derive(Clone, Copy)]
pub struct SheetNumbers {
    pub written: usize,
    pub records: usize,
    pub atoms: usize,
}

// The questions about the bytes and the records of a sheet: 1 to 3, then 4 to 6 as its records are read, then 13. The records are left in
// the table.
pub fn check_bytes(limits: Limits, s: &[u8], records: &mut Table) -> Result<SheetNumbers, Refusal>
    requires { Supported limits × (length records.old ≡ 384) }
    ensures { BytesChecked limits s.now records.new result }
{
    let header = read_header(limits, s)?;
    let written = header.atoms;
    let m = header.records;
    read_records(s, written, m, records)?;
    let atoms = written + choices_in(records, m);
    if limits.atoms < atoms {
        return Err(Refusal::Fresh);
    }
    Ok(SheetNumbers {
        written,
        records: m,
        atoms,
    })
}

// The questions about components, of which the largest has so many of the atoms: 7, then 15.
fn check_sizes(limits: Limits, atoms: usize, largest: usize) -> Result<(), Refusal>
    ensures { refusal_of result ≡ sizes_refusal limits atoms largest }
{
    if limits.component < largest {
        return Err(Refusal::Component);
    }
    if limits.taken.atoms < atoms {
        return Err(Refusal::Large);
    }
    if limits.taken.component < largest {
        return Err(Refusal::Large);
    }
    Ok(())
}

// The questions about the graph of records: 7, then 15. The edges of their program, its components' names and their sets are left in the
// arrays, and the atoms that lead to each where there is room for them.
pub fn check_graph(
    limits: Limits,
    numbers: SheetNumbers,
    records: &Table,
    edges: &mut [u64; 64],
    names: &mut [u8; 64],
    sets: &mut [u64; 64],
    ancestors: &mut [u64],
) -> Result<(), Refusal>
    requires { Expands (held numbers.records records.now) numbers × GraphArrays edges.old names.old sets.old }
    ensures { GraphChecked limits numbers.written (records_in (held numbers.records records.now))
        edges.new names.new sets.new (refusal_of result) }
{
    let atoms = numbers.atoms;
    edges_of(numbers.written, numbers.records, records, edges);
    components_of(atoms, edges, names, sets, ancestors);
    check_sizes(limits, atoms, largest(sets, atoms))
}

// The questions about a sheet: 1 to 6, 13, then 7 and 15. The records are left in the table, and their graph in the arrays.
pub fn check_records(
    limits: Limits,
    s: &[u8],
    records: &mut Table,
    edges: &mut [u64; 64],
    names: &mut [u8; 64],
    sets: &mut [u64; 64],
    ancestors: &mut [u64],
) -> Result<SheetNumbers, Refusal>
    requires { Supported limits × (length records.old ≡ 384) × GraphArrays edges.old names.old sets.old }
    ensures { RecordsChecked limits s.now records.new edges.new names.new sets.new result }
{
    let numbers = check_bytes(limits, s, records)?;
    check_graph(limits, numbers, records, edges, names, sets, ancestors)?;
    Ok(numbers)
}

// The same, where the records are not needed behind the questions.
pub fn check_sheet(
    limits: Limits,
    s: &[u8],
    edges: &mut [u64; 64],
    names: &mut [u8; 64],
    sets: &mut [u64; 64],
) -> Result<SheetNumbers, Refusal>
    requires { Supported limits × GraphArrays edges.old names.old sets.old }
    ensures { SheetChecked limits s.now edges.new names.new sets.new result }
{
    let mut records = [0u64; 384];
    let mut none = [0u64; 0];
    check_records(limits, s, &mut records, edges, names, sets, &mut none)
}
