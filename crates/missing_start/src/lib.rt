// Where the shortest missing chain of a program starts, component by component.
#![tactic(auto)]

ghost use Rattle.std.specs.Prelude.{◌≡◌, true, ◌≤◌, length, drop};
ghost use Rattle.lists.specs.Lists.{below};
ghost use Rattle.bits.specs.inner.Sets.{Gathered};
ghost use Rattle.bits.specs.inner.Visited.{listed};
ghost use Rattle.chain_rows.specs.inner.Subsets.{Roomy};
ghost use Rattle.chains.specs.inner.Components.{Small};
ghost use Rattle.missing_start.specs.inner.StartOf.{Improved, StartOf};

use bits::{gather, size, subset};
use starts::{Start, component_start, earlier};

// The earlier of a start and that of the component with these atoms; `entries` is the set of the sequence's atoms.
#[tactic(auto, using(crate::proofs::Sofar::improved_lacking))]
fn improved(
    table: &mut [u64],
    best: Option<Start>,
    rows: &[u64; 64],
    x: u64,
    q: &[u8],
    entries: u64,
) -> Option<Start>
    requires { Roomy (length (listed x)) (length table.old) × (3 ≤ length q.now) × (below 64 (drop 3 q.now) ≡ true) × Gathered (drop 3 q.now) entries }
    ensures { Improved best rows.now x (drop 3 q.now) result }
{
    // An atom alone has one chain, itself.
    if size(x) <= 1 && subset(x, entries) {
        return best;
    }
    earlier(best, component_start(table, rows, x, q))
}

// The start of the shortest missing chain, of a program of n atoms with its edges and the sets of its components.
#[tactic(auto, using(crate::proofs::Sofar::sofar_start, crate::proofs::Sofar::sofar_turn, chains::proofs::Components::entries_low))]
pub fn find_start(
    table: &mut [u64],
    n: usize,
    rows: &[u64; 64],
    sets: &[u64; 64],
    q: &[u8],
) -> Option<Start>
    requires { (n ≤ 64) × Small n sets.now (length table.old) × (3 ≤ length q.now) × (below n (drop 3 q.now) ≡ true) }
    ensures { StartOf n rows.now sets.now (drop 3 q.now) result }
{
    let entries = gather(&q[3..]);
    let mut best = None;
    for &x in &sets[..n] {
        best = improved(table, best, rows, x, q, entries);
    }
    best
}
