// Components of a program's positive dependency graph, from a table of 64 rows closed row by row, and how large they are.
#![tactic(auto)]

ghost use Rattle.std.specs.Prelude.{◌≡◌, ◌≤◌, ◌<◌, length, replicate};
ghost use Rattle.components.specs.inner.Reachability.{RowThrough, ClosedBy, ClosedTable};
ghost use Rattle.components.specs.inner.Reachability.{NameOf, NamedBy, NamesLow, SetsOf, Largest, GraphOf};

use bits::{has, lowest, rest, size, with};

// One row of a round for k, whose own row is given.
fn row_through(x: u64, k: usize, row: u64) -> u64
    requires { k < 64 }
    ensures { RowThrough x k row result }
{
    if has(x, k) {
        return x | row;
    }
    x
}

// A round for k of the first n rows.
fn close_by(rows: &mut [u64; 64], k: usize, n: usize)
    requires { (length rows.old ≡ 64) × (k < n) × (n ≤ 64) }
    ensures { ClosedBy k n rows.old rows.new }
{
    let row = rows[k];
    for x in &mut rows[..n] {
        *x = row_through(*x, k, row);
    }
}

// The rounds for 0 .. n - 1.
fn close(rows: &mut [u64; 64], n: usize)
    requires { (length rows.old ≡ 64) × (n ≤ 64) }
    ensures { ClosedTable n rows.old rows.new }
{
    for k in 0..n {
        close_by(rows, k, n);
    }
}

// The smallest atom of a's component, of a closed table: the first of those that lead to a to which a leads.
fn name_of(rows: &[u64; 64], a: usize) -> usize
    requires { a < 64 }
    ensures { NameOf rows.now a result }
{
    let mut left = rows[a];
    while 0 < left {
        let b = lowest(left);
        if a <= b {
            return a;
        }
        if has(rows[b], a) {
            return b;
        }
        left = rest(left);
    }
    a
}

// The names of the first n atoms' components, of a closed table: their smallest atoms.
fn store_names(names: &mut [u8; 64], rows: &[u64; 64], n: usize)
    requires { (length names.old ≡ 64) × (n ≤ 64) }
    ensures { NamedBy n rows.now names.new }
{
    for a in 0..n {
        names[a] = name_of(rows, a) as u8;
    }
}

// For each name of the first n atoms the atoms that have it.
fn store_sets(sets: &mut [u64; 64], names: &[u8; 64], n: usize)
    requires { (sets.old ≡ replicate 64 0) × (n ≤ 64) × NamesLow n names.now }
    ensures { SetsOf names.now n sets.new }
{
    for a in 0..n {
        let c = usize::from(names[a]);
        sets[c] = with(sets[c], a);
    }
}

// How many atoms the largest of the first n sets has.
pub fn largest(sets: &[u64; 64], n: usize) -> usize
    requires { n ≤ 64 }
    ensures { Largest n sets.now result }
{
    let mut most = 0;
    for &x in &sets[..n] {
        most = usize::max(most, size(x) as usize);
    }
    most
}

// Copies rows, as many as there is room for.
fn copy_rows(rows: &[u64; 64], out: &mut [u64]) {
    let k = out.len().min(64);
    out[..k].copy_from_slice(&rows[..k]);
}

// The components of a program of n atoms, by its edges: each atom's component's name, and the set of each name. The atoms that lead to each
// are copied too, where there is room, and nothing is promised of them: the count puts records in order by them.
pub fn components_of(
    n: usize,
    edges: &[u64; 64],
    names: &mut [u8; 64],
    sets: &mut [u64; 64],
    ancestors: &mut [u64],
)
    requires { (n ≤ 64) × (length edges.now ≡ 64) × (length names.old ≡ 64) × (sets.old ≡ replicate 64 0) }
    ensures { GraphOf n edges.now names.new sets.new }
{
    let mut rows = *edges;
    close(&mut rows, n);
    store_names(names, &rows, n);
    store_sets(sets, names, n);
    copy_rows(&rows, ancestors);
}
