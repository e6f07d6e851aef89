// Writing the completion clauses of the unfolded program.
#![tactic(auto)]

ghost use Rattle.std.specs.Prelude.{◌+◌, ◌≤◌, length};
ghost use Rattle.unfolding.specs.Unfolded.{last};
ghost use Rattle.unfolding.specs.Clauses.{clauses, signed_words};
ghost use Rattle.writer.specs.inner.Wrote.{Wrote};
ghost use Rattle.copies.specs.inner.Tables.{Values};
ghost use Rattle.copies.specs.inner.Given.{ReadyIn, unfolded_by};
ghost use Rattle.clause_output.specs.inner.Words.{copies_clause_words, backs_words, CopiesReady};

use copies::{Unfolding, copy_at, last_copies, last_places, next_copy};
use copy_clauses::{Ends, put_copy};
use rule_clauses::put_back;

// The clauses of all copies, in sequence order.
fn put_copies(out: &mut [i32], u: &Unfolding, lasts: &[u32; 64]) -> usize
    requires { ReadyIn u.now × CopiesReady (unfolded_by u.now) lasts.now out.old }
    ensures { Wrote out.old 0 (copies_clause_words (unfolded_by u.now)) out.new result }
{
    let places = last_places(u.q);
    let mut latest = [0u32; 64];
    let mut entries = [0u8; 192];
    let mut keeping: u64 = 0;
    let mut highest = u.size.atoms as u32;
    let rule = (u.q.len() - 2) as u32;
    let mut ends = Ends { at: 0, rule };
    for i in 3..u.q.len() {
        let entry = copy_at(u.q, i, &places, highest);
        highest = entry.highest;
        let mut vars = *lasts;
        let step = next_copy(u, &mut entries, &mut latest, &mut vars, entry, keeping);
        let listed = &entries[..step.kept];
        ends = put_copy(out, ends, entry.var, u, listed, &vars, lasts);
        keeping = step.keeping;
    }
    ends.at
}

// The clauses of the constraints at the entries from .. to - 1, by last copies.
fn put_backs(
    out: &mut [i32],
    at: usize,
    from: usize,
    to: usize,
    u: &Unfolding,
    lasts: &[u32; 64],
) -> usize
    requires { Values last lasts.now × (to ≤ 192) × (at + length (backs_words u.now.records.now u.now.program.now lasts.now from to) ≤ length out.old) }
    ensures { Wrote out.old at (backs_words u.now.records.now u.now.program.now lasts.now from to) out.new result }
{
    let mut next = at;
    for j in from..to {
        let rule = u.rule_at(j);
        next = put_back(out, next, rule, lasts, lasts);
    }
    next
}

// All clauses.
pub fn put_clauses(out: &mut [i32], u: &Unfolding) -> usize
    requires { ReadyIn u.now × (length (signed_words (clauses (unfolded_by u.now))) ≤ length out.old) }
    ensures { Wrote out.old 0 (signed_words (clauses (unfolded_by u.now)))
        out.new result }
{
    let from = u.size.rules;
    let to = from + u.size.constraints;
    let lasts = last_copies();
    let at = put_copies(out, u, &lasts);
    put_backs(out, at, from, to, u, &lasts)
}
