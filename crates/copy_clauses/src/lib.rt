// Writing the completion clauses of one copy.
#![tactic(auto)]

ghost use Rattle.std.specs.Prelude.{◌+◌, ◌≤◌, ◌<◌, length};
ghost use Rattle.unfolding.specs.Unfolded.{last};
ghost use Rattle.writer.specs.inner.Wrote.{Wrote};
ghost use Rattle.copies.specs.inner.Tables.{Values};
ghost use Rattle.copies.specs.inner.Kept.{Inside};
ghost use Rattle.rule_clauses.specs.inner.Literals.{SmallVariables};
ghost use Rattle.copy_clauses.specs.inner.Ends.{rules_words, numbers_words, first_words, CopyReady, CopyPut};

use copies::Unfolding;
use rule_clauses::put_rule;
use writer::{put_negated, put_plain};

// Where the next word goes, and the variable of the next rule.
#[derive(Clone, Copy)]
pub struct Ends {
    pub at: usize,
    pub rule: u32,
}

// The clauses of a copy's rules, whose entries are listed; their variables are counted on.
fn put_rules(
    out: &mut [i32],
    from: Ends,
    var: u32,
    u: &Unfolding,
    listed: &[u8],
    vars: &[u32; 64],
    lasts: &[u32; 64],
) -> usize
    requires { SmallVariables vars.now × Values last lasts.now × Inside listed.now
        × (var < 2147483648) × (from.rule + length listed.now < 2147483648)
        × (from.at + length (rules_words u.now.records.now u.now.program.now vars.now var from.rule listed.now) ≤ length out.old) }
    ensures { Wrote out.old from.at
        (rules_words u.now.records.now u.now.program.now vars.now var from.rule listed.now)
        out.new result }
{
    let mut rule = from.rule;
    let mut next = from.at;
    for &i in listed {
        let entry = u.rule_at(usize::from(i));
        next = put_rule(out, next, var, rule, entry, vars, lasts);
        rule += 1;
    }
    next
}

// The variables from .. to - 1.
fn put_range(out: &mut [i32], at: usize, from: u32, to: u32) -> usize
    requires { (at + length (numbers_words from to) ≤ length out.old) × (to < 2147483648) }
    ensures { Wrote out.old at (numbers_words from to) out.new result }
{
    let mut next = at;
    for v in from..to {
        next = put_plain(out, next, v);
    }
    next
}

// The clause of -h and its rules' variables, which are d, d + 1 and on, k of them.
fn put_first(out: &mut [i32], at: usize, h: u32, d: u32, k: u32) -> usize
    requires { (at + k + 2 ≤ length out.old) × (h < 2147483648) × (d + k < 2147483648) }
    ensures { Wrote out.old at (first_words h d k) out.new result }
{
    let second = put_negated(out, at, h);
    let end = put_range(out, second, d, d + k);
    put_plain(out, end, 0)
}

// The clauses of a copy, its words and its rules' variables from these ends on. The entries of the rules that it keeps are listed.
pub fn put_copy(
    out: &mut [i32],
    from: Ends,
    var: u32,
    u: &Unfolding,
    listed: &[u8],
    vars: &[u32; 64],
    lasts: &[u32; 64],
) -> Ends
    requires { CopyReady u.now.records.now u.now.program.now vars.now lasts.now from var listed.now out.old }
    ensures { CopyPut u.now.records.now u.now.program.now vars.now from var listed.now
        out.old out.new result }
{
    let rule = from.rule;
    let rules = listed.len() as u32;
    let at = put_first(out, from.at, var, rule, rules);
    let ends = Ends { at, rule };
    Ends {
        at: put_rules(out, ends, var, u, listed, vars, lasts),
        rule: rule + rules,
    }
}
