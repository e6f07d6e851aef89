// A program as a table: the rules of its entries come first, in sheet order, and behind them the constraints.
#![tactic(auto)]

ghost use Rattle.std.specs.Prelude.{◌≡◌, ◌<◌};
ghost use Rattle.program.specs.inner.Held.{table_rule};

use tables::{Program, Table, entry_at, record_at};

// The numbers of atoms, of rules and of constraints.
#[derive(Clone, Copy)]
pub struct ProgramSize {
    pub atoms: usize,
    pub rules: usize,
    pub constraints: usize,
}

// A rule as a table has it: its head, the sets of its positive and negative atoms, and an atom added to the negative ones, where a + 1
// stands for the atom a and 0 for none. A constraint's head means nothing.
#[derive(Clone, Copy)]
pub struct TableRule {
    pub head: u8,
    pub pos: u64,
    pub neg: u64,
    pub added: u8,
}

// The rule at entry i, with the sets of the record at its source.
pub fn rule_at(records: &Table, program: &Program, i: usize) -> TableRule
    requires { i < 192 }
    ensures { result ≡ table_rule records.now program.now i }
{
    let entry = entry_at(program, i);
    let source = record_at(records, usize::from(entry.source));
    TableRule {
        head: entry.head,
        pos: source.pos,
        neg: source.neg,
        added: entry.added,
    }
}
