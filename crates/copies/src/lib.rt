// Copies of atoms along a sequence: what stands for each atom in the rules of a copy, and which rules are kept for it.
#![tactic(auto)]

ghost use Rattle.std.specs.Prelude.{true, ◌≡◌, ◌+◌, ◌≤◌, ◌<◌, length};
ghost use Rattle.lists.specs.Lists.{below};
ghost use Rattle.unfolding.specs.Unfolded.{last};
ghost use Rattle.sheet.specs.Sequence.{entries};
ghost use Rattle.program.specs.inner.Held.{table_rule};
ghost use Rattle.copies.specs.inner.Tables.{Values, Overlaid};
ghost use Rattle.copies.specs.inner.Bodies.{negative_atoms};
ghost use Rattle.copies.specs.inner.Made.{EntryAt, LastPlaces, Made};
ghost use Rattle.copies.specs.inner.Given.{table_in};
ghost use Rattle.copies.specs.inner.Kept.{keeps, Marked, Kept, Selected, CopyMade};

pub mod given;

use bits::{intersection, lowest, rest, size, subset, with_if, without};
pub use given::Unfolding;
use std::array::from_fn;
use tables::{entry_at, record_at};

// The variable of every atom's last copy.
pub fn last_copies() -> [u32; 64]
    ensures { Values last result }
{
    from_fn(|b| b as u32 + 1)
}

// The variables of a set's atoms are put into a table.
fn overlay(vars: &mut [u32; 64], source: &[u32; 64], set: u64)
    requires { length vars.old ≡ 64 }
    ensures { Overlaid set source.now vars.old vars.new }
{
    let mut left = set;
    while 0 < left {
        let b = lowest(left);
        vars[b] = source[b];
        left = rest(left);
    }
}

// For each atom of a sequence the index of its last entry.
pub fn last_places(q: &[u8]) -> [u16; 64]
    requires { (below 64 (entries q.now) ≡ true) × (3 ≤ length q.now) × (length q.now ≤ 643) }
    ensures { LastPlaces q.now result }
{
    let mut places = [0u16; 64];
    for i in 3..q.len() {
        places[usize::from(q[i])] = i as u16;
    }
    places
}

// The copy of an entry: its atom and its variable; and the highest variable, with it, of the copies that are not their atom's last.
#[derive(Clone, Copy)]
pub struct EntryCopy {
    pub atom: usize,
    pub var: u32,
    pub highest: u32,
}

// The copy of the entry at an index.
pub fn copy_at(q: &[u8], i: usize, places: &[u16; 64], highest: u32) -> EntryCopy
    requires { EntryAt q.now i × LastPlaces q.now places.now × (highest < 4294967295) }
    ensures { Made q.now i highest result }
{
    let atom = usize::from(q[i]);
    if usize::from(places[atom]) == i {
        return EntryCopy {
            atom,
            var: (atom + 1) as u32,
            highest,
        };
    }
    EntryCopy {
        atom,
        var: highest + 1,
        highest: highest + 1,
    }
}

// Is the rule at entry i kept for a copy of a: is a its head, and does the latest copy of every positive atom of a's component keep a
// rule? The record at its source is read for few entries only.
fn is_kept(u: &Unfolding, i: usize, a: usize, component: u64, keeping: u64) -> bool
    requires { i < 192 }
    ensures { result ≡ keeps a component keeping (table_rule u.now.records.now u.now.program.now i) }
{
    let entry = entry_at(u.program, i);
    if usize::from(entry.head) != a {
        return false;
    }
    let source = record_at(u.records, usize::from(entry.source));
    subset(intersection(source.pos, component), keeping)
}

// How many negative atoms a body has, with one that may be added.
pub fn negative_atoms(neg: u64, added: u8) -> u32
    ensures { result ≡ negative_atoms neg added }
{
    size(neg) + u32::from(added != 0)
}

// The atoms whose latest copy keeps a rule, behind a copy of a that keeps so many.
fn mark(keeping: u64, a: usize, rules: usize) -> u64
    requires { a < 64 }
    ensures { Marked keeping a rules result }
{
    with_if(without(keeping, a), a, 0 < rules)
}

// The rules kept for a copy of a: their entries are listed, and how many there are is returned.
fn kept_rules(
    u: &Unfolding,
    a: usize,
    component: u64,
    keeping: u64,
    entries: &mut [u8; 192],
) -> usize
    requires { length entries.old ≡ 192 }
    ensures { Kept (table_in u.now) a component keeping entries.new result }
{
    let mut kept = 0;
    for j in 0..u.size.rules {
        if is_kept(u, j, a, component, keeping) {
            entries[kept] = j as u8;
            kept += 1;
        }
    }
    kept
}

// What is selected: the atoms of the copy's component, how many rules are kept, and the atoms whose latest copy keeps a rule, with the copy.
#[derive(Clone, Copy)]
pub struct CopyStep {
    pub component: u64,
    pub kept: usize,
    pub keeping: u64,
}

// The step of one copy of a, behind copies of which these atoms' latest keep a rule: the entries of the rules that it keeps are listed.
pub fn copy_step(u: &Unfolding, entries: &mut [u8; 192], a: usize, keeping: u64) -> CopyStep
    requires { (a < 64) × (length entries.old ≡ 192) }
    ensures { Selected (table_in u.now) u.now.components.now a keeping entries.new result }
{
    let component = u.components[a];
    let kept = kept_rules(u, a, component, keeping, entries);
    CopyStep {
        component,
        kept,
        keeping: mark(keeping, a, kept),
    }
}

// The rules of one copy, which becomes its atom's latest. In the table of variables, which has the last copies, the latest copies of the
// atoms of its component are put in: these stand for positive atoms in its rules.
pub fn next_copy(
    u: &Unfolding,
    entries: &mut [u8; 192],
    latest: &mut [u32; 64],
    vars: &mut [u32; 64],
    entry: EntryCopy,
    keeping: u64,
) -> CopyStep
    requires { (entry.atom < 64) × (length entries.old ≡ 192) × (length latest.old ≡ 64) × (length vars.old ≡ 64) }
    ensures { CopyMade (table_in u.now) u.now.components.now latest.old vars.old
        entry keeping entries.new latest.new vars.new result }
{
    let step = copy_step(u, entries, entry.atom, keeping);
    overlay(vars, latest, step.component);
    latest[entry.atom] = entry.var;
    step
}
