// The rows of the table over the sets of a component's atoms: what an entry of the sequence changes in them.
#![tactic(auto)]

ghost use Rattle.std.specs.Prelude.{◌≡◌, true, ◌≤◌, ◌<◌, length, get_or};
ghost use Rattle.bits.specs.inner.Sets.{has};
ghost use Rattle.bits.specs.inner.Listed.{Low};
ghost use Rattle.chain_rows.specs.inner.Subsets.{Roomy, RowAfter, NextWith, TableAfter, Followers, Power, WithEntry};

use bits::{has, intersection, place_of, subset, with, with_if, without};

// The row of a set with i after an entry at place i, which has edges to the places `after`.
#[tactic(auto, using(crate::proofs::Rows::row_covered, crate::proofs::Rows::row_lacking))]
fn row_after(table: &[u64], set: usize, i: usize, after: u64) -> u64
    requires { (set < length table.now) × (i < 64) × (has set i ≡ true) }
    ensures { RowAfter table.now set i after result }
{
    let row = table[set];
    let less = without(set as u64, i);
    if subset(intersection(after, less), table[less as usize]) {
        return with(row, i);
    }
    row
}

// How many sets of k places there are.
#[tactic(auto, using(crate::proofs::Places::power_is))]
pub fn power(k: usize) -> usize
    requires { k ≤ 10 }
    ensures { Power k result }
{
    1 << k
}

// The set that comes next of those with i.
fn next_with(set: usize, i: usize) -> usize
    requires { (set < 1024) × (i ≤ 10) × (has set i ≡ true) }
    ensures { NextWith set i result }
{
    (set + 1) | power(i)
}

// All rows below a size after such an entry: in place, since rows of sets with i are written and others are read.
fn step(table: &mut [u64], size: usize, i: usize, after: u64)
    requires { (size ≤ length table.old) × (size ≤ 1024) × (i ≤ 10) }
    ensures { TableAfter table.old size i after table.new }
{
    let mut set = power(i);
    while set < size {
        table[set] = row_after(table, set, i, after);
        set = next_with(set, i);
    }
}

// Has x an edge to a?
fn leads(rows: &[u64; 64], x: usize, a: usize) -> bool
    requires { (x < 64) × (a < 64) }
    ensures { result ≡ has (get_or rows.now a 0) x }
{
    has(rows[a], x)
}

// The places of the atoms that x has edges to.
#[tactic(auto, using(crate::proofs::Places::following_start, crate::proofs::Places::following_turn, crate::proofs::Places::following_end))]
pub fn followers(rows: &[u64; 64], atoms: &[u8], x: usize) -> u64
    requires { (length atoms.now ≤ 16) × Low atoms.now (length atoms.now) × (x < 64) }
    ensures { Followers rows.now atoms.now (length atoms.now) x result }
{
    let mut set: u64 = 0;
    for (p, &a) in atoms.iter().enumerate() {
        set = with_if(set, p, leads(rows, x, usize::from(a)));
    }
    set
}

// One entry more, in front of those read.
#[tactic(auto, using(crate::proofs::Turning::with_own, crate::proofs::Turning::with_other))]
pub fn enter(table: &mut [u64], rows: &[u64; 64], atoms: &[u8], x: usize)
    requires { Roomy (length atoms.now) (length table.old) × Low atoms.now (length atoms.now) × (x < 64) }
    ensures { WithEntry rows.now atoms.now (length atoms.now) x table.old table.new }
{
    if let Some(p) = place_of(atoms, x) {
        step(table, power(atoms.len()), p, followers(rows, atoms, x));
    }
}
