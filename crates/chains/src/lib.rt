// The chain question: the table of each component, filled by the sequence, says whether all its chains are found.
#![tactic(auto)]

ghost use Rattle.std.specs.Prelude.{◌≡◌, true, ◌≤◌, length, drop};
ghost use Rattle.lists.specs.Lists.{below};
ghost use Rattle.bits.specs.inner.Sets.{Gathered};
ghost use Rattle.bits.specs.inner.Listed.{Low};
ghost use Rattle.bits.specs.inner.Visited.{listed};
ghost use Rattle.chain_rows.specs.inner.Subsets.{Roomy};
ghost use Rattle.chains.specs.inner.Components.{Tested, SetTested, Small, PassesBy};

use bits::{gather, list_set, size, subset};
use chain_rows::power;
use chain_table::fill;

// Is every chain of a component found in the sequence?
fn chains_found(table: &mut [u64], rows: &[u64; 64], atoms: &[u8], q: &[u8]) -> bool
    requires { Roomy (length atoms.now) (length table.old) × Low atoms.now (length atoms.now) × (3 ≤ length q.now) × (below 64 (drop 3 q.now) ≡ true) }
    ensures { Tested rows.now atoms.now (length atoms.now) (drop 3 q.now) result }
{
    fill(table, rows, atoms, q, 3);
    let full = power(atoms.len()) - 1;
    subset(full as u64, table[full])
}

// Is every chain of the component with these atoms found in the sequence, which has the set `entries` of atoms? An atom alone has one chain, itself.
#[tactic(auto, using(bits::proofs::Listing::listed_low, crate::proofs::Components::places_roomy, crate::proofs::Components::set_tested))]
fn component_found(table: &mut [u64], rows: &[u64; 64], x: u64, q: &[u8], entries: u64) -> bool
    requires { Roomy (length (listed x)) (length table.old) × (3 ≤ length q.now) × (below 64 (drop 3 q.now) ≡ true) × Gathered (drop 3 q.now) entries }
    ensures { SetTested rows.now x (drop 3 q.now) result }
{
    if size(x) <= 1 {
        return subset(x, entries);
    }
    chains_found(table, rows, &list_set(x), q)
}

// The chain question, of a program of n atoms with its edges and the sets of its components. The table is filled anew for each component.
#[tactic(auto, using(crate::proofs::Components::asking_start, crate::proofs::Components::asking_turn, crate::proofs::Components::asking_fails, crate::proofs::Components::asking_end, crate::proofs::Components::entries_low))]
pub fn passes(table: &mut [u64], n: usize, rows: &[u64; 64], sets: &[u64; 64], q: &[u8]) -> bool
    requires { (n ≤ 64) × Small n sets.now (length table.old) × (3 ≤ length q.now) × (below n (drop 3 q.now) ≡ true) }
    ensures { PassesBy n rows.now sets.now (drop 3 q.now) result }
{
    let entries = gather(&q[3..]);
    for &x in &sets[..n] {
        if !component_found(table, rows, x, q, entries) {
            return false;
        }
    }
    true
}
