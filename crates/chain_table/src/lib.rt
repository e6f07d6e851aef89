// The table over the sets of a component's atoms: filled by one pass over the sequence, from its last entry to its first.
#![tactic(auto)]

ghost use Rattle.std.specs.Prelude.{◌≡◌, true, ◌≤◌, length, drop};
ghost use Rattle.lists.specs.Lists.{below};
ghost use Rattle.bits.specs.inner.Listed.{Low};
ghost use Rattle.chain_rows.specs.inner.Subsets.{Roomy};
ghost use Rattle.chain_table.specs.inner.Filled.{Cleared, Filled};

use chain_rows::{enter, power};

// Empties all rows below a size.
fn clear(table: &mut [u64], size: usize)
    requires { size ≤ length table.old }
    ensures { Cleared size table.new }
{
    table[..size].fill(0);
}

// Fills the table for a component by the entries from a position of the sequence on.
#[tactic(auto, using(crate::proofs::Filling::reading_start, crate::proofs::Filling::reading_turn))]
pub fn fill(table: &mut [u64], rows: &[u64; 64], atoms: &[u8], q: &[u8], from: u16)
    requires { Roomy (length atoms.now) (length table.old) × Low atoms.now (length atoms.now) × (3 ≤ from) × (from ≤ length q.now) × (below 64 (drop 3 q.now) ≡ true) }
    ensures { Filled rows.now atoms.now (length atoms.now) (drop from q.now) table.new }
{
    clear(table, power(atoms.len()));
    for &x in q[usize::from(from)..].iter().rev() {
        enter(table, rows, atoms, usize::from(x));
    }
}
