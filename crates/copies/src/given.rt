// What the emitters are given.
#![tactic(auto)]

ghost use Rattle.std.specs.Prelude.{◌≡◌, ◌≤◌, ◌<◌};
ghost use Rattle.program.specs.inner.Held.{table_rule};

use program::{ProgramSize, TableRule, rule_at};
use tables::{Program, Table};

// The program of a table, to be unfolded along a sequence: its sizes, the records and the entries, the sequence, and for each atom the set
// of its component.
#[derive(Clone, Copy)]
pub struct Unfolding<'a> {
    pub size: ProgramSize,
    pub records: &'a Table,
    pub program: &'a Program,
    pub q: &'a [u8],
    pub components: &'a [u64; 64],
    pub ghost few: { size.rules ≤ 192 },
}

impl Unfolding<'_> {
    // The rule at entry i.
    pub fn rule_at(&self, i: usize) -> TableRule
        requires { i < 192 }
        ensures { result ≡ table_rule self.now.records.now self.now.program.now i }
    {
        rule_at(self.records, self.program, i)
    }
}
