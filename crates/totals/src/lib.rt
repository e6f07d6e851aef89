// How many rules and constraints the unfolded program has, and how many atoms stand in their bodies.
#![tactic(auto)]

ghost use Rattle.std.specs.Prelude.{◌≡◌, ◌≤◌};
ghost use Rattle.copies.specs.inner.Bodies.{body_atoms};
ghost use Rattle.copies.specs.inner.Kept.{Inside};
ghost use Rattle.copies.specs.inner.Given.{ReadyIn, unfolded_by};
ghost use Rattle.totals.specs.inner.Totals.{atoms_at, SmallSizes, SizesOf, ListedSum, KeptTotals, TotalsOf};

use bits::size;
use copies::{Unfolding, copy_step, negative_atoms};
use program::TableRule;

// How many atoms a body has.
fn body_atoms(rule: TableRule) -> usize
    ensures { result ≡ body_atoms rule }
{
    size(rule.pos) as usize + negative_atoms(rule.neg, rule.added) as usize
}

// For each rule how many atoms its body has.
fn body_sizes(u: &Unfolding) -> [u8; 192]
    ensures { SizesOf u.now.records.now u.now.program.now u.now.size.rules result }
{
    let mut sizes = [0u8; 192];
    for j in 0..u.size.rules {
        sizes[j] = body_atoms(u.rule_at(j)) as u8;
    }
    sizes
}

// The sizes of the bodies at the entries that are listed, added up.
fn listed_sum(sizes: &[u8; 192], listed: &[u8]) -> usize
    requires { SmallSizes sizes.now × Inside listed.now }
    ensures { ListedSum sizes.now listed.now result }
{
    let mut sum = 0;
    for &i in listed {
        sum += usize::from(sizes[usize::from(i)]);
    }
    sum
}

// How many rules the copies keep, and how many atoms their bodies have; the same of the constraints.
#[derive(Clone, Copy)]
pub struct Totals {
    pub rules: usize,
    pub atoms: usize,
    pub constraints: usize,
    pub literals: usize,
}

// The totals of the rules that the copies keep.
fn kept_totals(u: &Unfolding) -> Totals
    requires { ReadyIn u.now }
    ensures { KeptTotals (unfolded_by u.now) result }
{
    let sizes = body_sizes(u);
    let mut entries = [0u8; 192];
    let mut keeping: u64 = 0;
    let mut rules = 0;
    let mut atoms = 0;
    for &a in &u.q[3..] {
        let step = copy_step(u, &mut entries, usize::from(a), keeping);
        rules += step.kept;
        atoms += listed_sum(&sizes, &entries[..step.kept]);
        keeping = step.keeping;
    }
    Totals {
        rules,
        atoms,
        constraints: 0,
        literals: 0,
    }
}

// How many atoms the bodies of the entries from .. to - 1 have.
fn atoms_at(u: &Unfolding, from: usize, to: usize) -> usize
    requires { (from ≤ to) × (to ≤ 192) }
    ensures { result ≡ atoms_at u.now.records.now u.now.program.now from to }
{
    let mut atoms = 0;
    for j in from..to {
        atoms += body_atoms(u.rule_at(j));
    }
    atoms
}

// The totals of the unfolded program.
pub fn totals_of(u: &Unfolding) -> Totals
    requires { ReadyIn u.now }
    ensures { TotalsOf (unfolded_by u.now) result }
{
    let from = u.size.rules;
    let constraints = u.size.constraints;
    let literals = atoms_at(u, from, from + constraints);
    let kept = kept_totals(u);
    Totals {
        rules: kept.rules,
        atoms: kept.atoms,
        constraints,
        literals,
    }
}
