// Writing the clauses of one rule.
#![tactic(auto)]

ghost use Rattle.std.specs.Prelude.{[], ◌∷◌, ◌+◌, ◌≤◌, ◌<◌, length};
ghost use Rattle.unfolding.specs.Unfolded.{last};
ghost use Rattle.unfolding.specs.Clauses.{signed, clause_words};
ghost use Rattle.bits.specs.inner.Visited.{listed};
ghost use Rattle.program.specs.inner.Held.{added_atom};
ghost use Rattle.writer.specs.inner.Wrote.{Wrote};
ghost use Rattle.copies.specs.inner.Tables.{Values};
ghost use Rattle.rule_clauses.specs.inner.Literals.{literal_of, pairs_words, flipped_words, added_pair_words, added_flipped_words};
ghost use Rattle.rule_clauses.specs.inner.Literals.{body_pairs_words, back_words, rule_words, SmallVariables};

use bits::{lowest, rest};
use program::TableRule;
use writer::{put_negated, put_plain};

// The literal v or -v.
fn put_literal(out: &mut [i32], at: usize, plain: bool, v: u32) -> usize
    requires { (at < length out.old) × (v < 2147483648) }
    ensures { Wrote out.old at (signed (literal_of plain v) ∷ []) out.new result }
{
    if plain {
        return put_plain(out, at, v);
    }
    put_negated(out, at, v)
}

// A clause of two literals.
fn put_two(out: &mut [i32], at: usize, x: bool, u: u32, y: bool, v: u32) -> usize
    requires { (at + 3 ≤ length out.old) × (u < 2147483648) × (v < 2147483648) }
    ensures { Wrote out.old at (clause_words (literal_of x u ∷ literal_of y v ∷ [])) out.new result }
{
    let second = put_literal(out, at, x, u);
    let end = put_literal(out, second, y, v);
    put_plain(out, end, 0)
}

// For each atom of a body's positive or negative set the clause of -d and its literal.
fn put_pairs(out: &mut [i32], at: usize, d: u32, x: u64, vars: &[u32; 64], plain: bool) -> usize
    requires { SmallVariables vars.now × (d < 2147483648) × (at + length (pairs_words vars.now plain d x) ≤ length out.old) }
    ensures { Wrote out.old at (pairs_words vars.now plain d x) out.new result }
{
    let mut next = at;
    let mut left = x;
    while 0 < left {
        next = put_two(out, next, false, d, plain, vars[lowest(left)]);
        left = rest(left);
    }
    next
}

// The literals of a body's positive or negative set, negated.
fn put_flipped(out: &mut [i32], at: usize, x: u64, vars: &[u32; 64], plain: bool) -> usize
    requires { SmallVariables vars.now × (at + length (listed x) ≤ length out.old) }
    ensures { Wrote out.old at (flipped_words vars.now plain x) out.new result }
{
    let mut next = at;
    let mut left = x;
    while 0 < left {
        next = put_literal(out, next, !plain, vars[lowest(left)]);
        left = rest(left);
    }
    next
}

// For an added atom a the clause of -d and its literal: its last copy is the variable a + 1, which stands for it in the table.
fn put_added_pair(out: &mut [i32], at: usize, d: u32, added: u8) -> usize
    requires { (d < 2147483648) × (at + length (added_pair_words d added) ≤ length out.old) }
    ensures { Wrote out.old at (added_pair_words d added) out.new result }
{
    if added == 0 {
        return at;
    }
    put_two(out, at, false, d, false, u32::from(added))
}

// The literal of an added atom, negated.
fn put_added_flipped(out: &mut [i32], at: usize, added: u8) -> usize
    requires { at + length (added_atom added) ≤ length out.old }
    ensures { Wrote out.old at (added_flipped_words added) out.new result }
{
    if added == 0 {
        return at;
    }
    put_plain(out, at, u32::from(added))
}

// For each literal of a rule's body the clause of -d and it.
fn put_body_pairs(
    out: &mut [i32],
    at: usize,
    d: u32,
    rule: TableRule,
    vars: &[u32; 64],
    lasts: &[u32; 64],
) -> usize
    requires { SmallVariables vars.now × Values last lasts.now × (d < 2147483648)
        × (at + length (body_pairs_words vars.now d rule) ≤ length out.old) }
    ensures { Wrote out.old at (body_pairs_words vars.now d rule) out.new result }
{
    let middle = put_pairs(out, at, d, rule.pos, vars, true);
    let end = put_pairs(out, middle, d, rule.neg, lasts, false);
    put_added_pair(out, end, d, rule.added)
}

// The clause of the negated literals of a rule's body.
pub fn put_back(
    out: &mut [i32],
    at: usize,
    rule: TableRule,
    vars: &[u32; 64],
    lasts: &[u32; 64],
) -> usize
    requires { SmallVariables vars.now × Values last lasts.now × (at + length (back_words vars.now rule) ≤ length out.old) }
    ensures { Wrote out.old at (back_words vars.now rule) out.new result }
{
    let middle = put_flipped(out, at, rule.pos, vars, true);
    let behind = put_flipped(out, middle, rule.neg, lasts, false);
    let last = put_added_flipped(out, behind, rule.added);
    put_plain(out, last, 0)
}

// The clauses of a rule, with the variable d, for h.
pub fn put_rule(
    out: &mut [i32],
    at: usize,
    h: u32,
    d: u32,
    rule: TableRule,
    vars: &[u32; 64],
    lasts: &[u32; 64],
) -> usize
    requires { SmallVariables vars.now × Values last lasts.now × (h < 2147483648) × (d < 2147483648)
        × (at + length (rule_words vars.now h d rule) ≤ length out.old) }
    ensures { Wrote out.old at (rule_words vars.now h d rule) out.new result }
{
    let first = put_two(out, at, true, h, false, d);
    let second = put_body_pairs(out, first, d, rule, vars, lasts);
    let third = put_plain(out, second, d);
    put_back(out, third, rule, vars, lasts)
}
