// Where a missing chain starts: in one component, by its table over sets, and the earlier of two.
#![tactic(auto)]

ghost use Rattle.std.specs.Prelude.{◌≡◌, true, ◌≤◌, length, drop};
ghost use Rattle.lists.specs.Lists.{below};
ghost use Rattle.bits.specs.inner.Visited.{listed};
ghost use Rattle.chain_rows.specs.inner.Subsets.{Roomy};
ghost use Rattle.starts.specs.inner.Starts.{ComponentStart, Earlier};

use bits::{list_set, lowest, subset};
use chain_rows::power;
use chain_table::fill;
use missing_places::shortest;

// Where a missing chain starts: how many atoms it has, the first of them, and the atoms of its component.
#[derive(Clone, Copy)]
pub struct Start {
    pub length: usize,
    pub atom: usize,
    pub set: u64,
}

// The one that comes first: by length, then by first atom. None comes behind every start.
pub fn earlier(a: Option<Start>, b: Option<Start>) -> Option<Start>
    ensures { Earlier a b result }
{
    match (a, b) {
        (Some(x), Some(y)) if (y.length, y.atom) < (x.length, x.atom) => b,
        (None, _) => b,
        _ => a,
    }
}

// The start of the shortest missing chain of the component with these atoms, among equals that with the smallest first atom.
pub fn component_start(table: &mut [u64], rows: &[u64; 64], x: u64, q: &[u8]) -> Option<Start>
    requires { Roomy (length (listed x)) (length table.old) × (3 ≤ length q.now) × (below 64 (drop 3 q.now) ≡ true) }
    ensures { ComponentStart rows.now x (drop 3 q.now) result }
{
    let list = list_set(x);
    let atoms = list.as_slice();
    fill(table, rows, atoms, q, 3);
    let full = power(atoms.len()) - 1;
    if subset(full as u64, table[full]) {
        return None;
    }
    let found = shortest(table, full as u64, atoms.len());
    let atom = usize::from(atoms[lowest(found.places)]);
    Some(Start {
        length: found.length,
        atom,
        set: x,
    })
}
