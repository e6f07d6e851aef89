// Writing the words of one body in the unfolded program.
#![tactic(auto)]

ghost use Rattle.std.specs.Prelude.{◌+◌, ◌≤◌, length};
ghost use Rattle.unfolding.specs.Unfolded.{last};
ghost use Rattle.bits.specs.inner.Visited.{listed};
ghost use Rattle.program.specs.inner.Held.{added_atom};
ghost use Rattle.writer.specs.inner.Wrote.{Wrote};
ghost use Rattle.copies.specs.inner.Tables.{Values};
ghost use Rattle.copies.specs.inner.Bodies.{body_atoms};
ghost use Rattle.body_words.specs.inner.Words.{eight_words, rule_body_words, SetWrote, AddedWrote};

use bits::{has_eight, lowest, rest, size, without_eight};
use copies::negative_atoms;
use program::TableRule;
use writer::put;

// The variables of the eight atoms from a on.
fn put_eight(out: &mut [u32], at: usize, a: usize, vars: &[u32; 64]) -> usize
    requires { (a + 8 ≤ 64) × (at + 8 ≤ length out.old) }
    ensures { Wrote out.old at (eight_words vars.now a) out.new result }
{
    out[at..at + 8].copy_from_slice(&vars[a..a + 8]);
    at + 8
}

// The variables of a set's atoms, eight at once where eight atoms in a row are in the set.
fn put_runs(out: &mut [u32], at: usize, x: u64, vars: &[u32; 64]) -> usize
    requires { at + length (listed x) ≤ length out.old }
    ensures { SetWrote out.old at vars.now x out.new result }
{
    let mut next = at;
    let mut left = x;
    while 0 < left {
        let a = lowest(left);
        if has_eight(left, a) {
            left = without_eight(left, a);
            next = put_eight(out, next, a, vars);
            continue;
        }
        next = put(out, next, vars[a]);
        left = rest(left);
    }
    next
}

// The variables of a set's atoms, one by one.
fn put_each(out: &mut [u32], at: usize, x: u64, vars: &[u32; 64]) -> usize
    requires { at + length (listed x) ≤ length out.old }
    ensures { SetWrote out.old at vars.now x out.new result }
{
    let mut next = at;
    let mut left = x;
    while 0 < left {
        next = put(out, next, vars[lowest(left)]);
        left = rest(left);
    }
    next
}

// The variables of a set's atoms. Few atoms mostly stand apart, and are then written faster one by one.
fn put_set(out: &mut [u32], at: usize, x: u64, vars: &[u32; 64]) -> usize
    requires { at + length (listed x) ≤ length out.old }
    ensures { SetWrote out.old at vars.now x out.new result }
{
    if size(x) < 24 {
        return put_each(out, at, x, vars);
    }
    put_runs(out, at, x, vars)
}

// The last copy of an added atom a is the variable a + 1, which stands for the atom in the table.
fn put_added(out: &mut [u32], at: usize, added: u8) -> usize
    requires { at + length (added_atom added) ≤ length out.old }
    ensures { AddedWrote out.old at added out.new result }
{
    if added == 0 {
        return at;
    }
    put(out, at, u32::from(added))
}

// A rule's body: the numbers of positive and of negative atoms, and their variables.
#[tactic(auto, unfolding(copies::specs::inner::Bodies::body_atoms, copies::specs::inner::Bodies::negative_atoms))]
pub fn put_body(
    out: &mut [u32],
    at: usize,
    rule: TableRule,
    vars: &[u32; 64],
    lasts: &[u32; 64],
) -> usize
    requires { Values last lasts.now × (at + 2 + body_atoms rule ≤ length out.old) }
    ensures { Wrote out.old at (rule_body_words vars.now rule) out.new result }
{
    let second = put(out, at, size(rule.pos));
    let first = put(out, second, negative_atoms(rule.neg, rule.added));
    let middle = put_set(out, first, rule.pos, vars);
    let end = put_set(out, middle, rule.neg, lasts);
    put_added(out, end, rule.added)
}
