// The shortest chain that a sequence lacks, written atom by atom from its start.
#![tactic(auto)]

ghost use Rattle.std.specs.Prelude.{◌≡◌, true, ◌+◌, ◌≤◌, ◌<◌, length, drop};
ghost use Rattle.lists.specs.Lists.{below};
ghost use Rattle.bits.specs.inner.Listed.{Low, RisesTo};
ghost use Rattle.bits.specs.inner.Visited.{listed};
ghost use Rattle.chain_rows.specs.inner.Subsets.{Roomy};
ghost use Rattle.positions.specs.inner.Positions.{Position};
ghost use Rattle.missing.specs.inner.Extending.{Fits, SomeLacks, Next, ChainPut};
ghost use Rattle.missing.specs.inner.Missing.{SomeMissing, MissingPut};

use bits::{intersection, list_set, lowest, place_of, without};
use chain_rows::{followers, power};
use chain_table::fill;
use missing_places::lacking;
use positions::behind;
use starts::Start;
use writer::put;

// How a chain goes on: the position in the sequence behind its atoms so far, the places that are unused, the next of them, and how many
// atoms are left to write, that one included.
#[derive(Clone, Copy)]
pub struct Extension {
    pub from: u16,
    pub unused: u64,
    pub place: usize,
    pub left: usize,
}

// The extension behind: of the unused places that follow, the first from which a chain of as many atoms as are left is missing.
fn next_extension(
    table: &mut [u64],
    rows: &[u64; 64],
    atoms: &[u8],
    q: &[u8],
    extension: Extension,
) -> Extension
    requires { Roomy (length atoms.now) (length table.old) × Low atoms.now (length atoms.now) × RisesTo atoms.now (length atoms.now) × (below 64 (drop 3 q.now) ≡ true)
        × Fits (length atoms.now) q.now extension × (1 < extension.left) × SomeLacks rows.now atoms.now (length atoms.now) q.now extension }
    ensures { Next rows.now atoms.now (length atoms.now) q.now extension result }
{
    let last = extension.place;
    let x = usize::from(atoms[last]);
    let from = behind(q, extension.from, x);
    let unused = without(extension.unused, last);
    let left = extension.left - 1;
    fill(table, rows, atoms, q, from);
    let after = followers(rows, atoms, x);
    let place = lowest(intersection(after, lacking(table, unused, left)));
    Extension {
        from,
        unused,
        place,
        left,
    }
}

// Writes the first missing chain from the extension's place on, and answers the index behind it.
fn put_chain(
    out: &mut [u8],
    at: usize,
    table: &mut [u64],
    rows: &[u64; 64],
    atoms: &[u8],
    q: &[u8],
    extension: Extension,
) -> usize
    requires { (at + extension.left ≤ length out.old) × Roomy (length atoms.now) (length table.old) × Low atoms.now (length atoms.now) × RisesTo atoms.now (length atoms.now)
        × (below 64 (drop 3 q.now) ≡ true) × Fits (length atoms.now) q.now extension × SomeLacks rows.now atoms.now (length atoms.now) q.now extension }
    ensures { ChainPut rows.now atoms.now (length atoms.now) q.now extension out.old at out.new result }
{
    let at = put(out, at, atoms[extension.place]);
    if extension.left <= 1 {
        return at;
    }
    let extension = next_extension(table, rows, atoms, q, extension);
    put_chain(out, at, table, rows, atoms, q, extension)
}

// Writes the shortest missing chain, which starts there, and answers its number of atoms.
pub fn put_missing(
    out: &mut [u8],
    table: &mut [u64],
    rows: &[u64; 64],
    q: &[u8],
    start: Start,
) -> usize
    requires { (start.length ≤ length out.old) × Roomy (length (listed start.set)) (length table.old) × Position q.now 3 × (below 64 (drop 3 q.now) ≡ true) × SomeMissing rows.now (drop 3 q.now) start }
    ensures { MissingPut rows.now (drop 3 q.now) start out.old out.new result }
{
    let list = list_set(start.set);
    let atoms = list.as_slice();
    let extension = Extension {
        from: 3,
        unused: (power(atoms.len()) - 1) as u64,
        place: place_of(atoms, start.atom).unwrap(),
        left: start.length,
    };
    put_chain(out, 0, table, rows, atoms, q, extension)
}
