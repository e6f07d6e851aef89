// Writing the unfolded program's words.
#![tactic(auto)]

ghost use Rattle.std.specs.Prelude.{◌+◌, ◌≤◌, length};
ghost use Rattle.unfolding.specs.Unfolded.{last, words};
ghost use Rattle.writer.specs.inner.Wrote.{Wrote};
ghost use Rattle.copies.specs.inner.Tables.{Values};
ghost use Rattle.copies.specs.inner.Given.{ReadyIn, unfolded_by};
ghost use Rattle.unfolded_output.specs.inner.Words.{entries_words, copies_words, CopiesReady};

use body_words::put_body;
use copies::{Unfolding, copy_at, last_copies, last_places, next_copy};
use copy_words::put_copy;
use writer::put;

// All copies, in sequence order, behind the number of them.
fn put_copies(out: &mut [u32], u: &Unfolding, lasts: &[u32; 64]) -> usize
    requires { ReadyIn u.now × CopiesReady (unfolded_by u.now) lasts.now out.old }
    ensures { Wrote out.old 1 (copies_words (unfolded_by u.now))
        out.new result }
{
    let places = last_places(u.q);
    let mut latest = [0u32; 64];
    let mut entries = [0u8; 192];
    let mut keeping: u64 = 0;
    let mut highest = u.size.atoms as u32;
    let mut at = 1;
    for i in 3..u.q.len() {
        let entry = copy_at(u.q, i, &places, highest);
        highest = entry.highest;
        let mut vars = *lasts;
        let step = next_copy(u, &mut entries, &mut latest, &mut vars, entry, keeping);
        let listed = &entries[..step.kept];
        at = put_copy(out, at, entry.var, u, listed, &vars, lasts);
        keeping = step.keeping;
    }
    at
}

// The bodies of the entries from .. to - 1, by last copies.
fn put_entries(
    out: &mut [u32],
    at: usize,
    from: usize,
    to: usize,
    u: &Unfolding,
    lasts: &[u32; 64],
) -> usize
    requires { Values last lasts.now × (to ≤ 192)
        × (at + length (entries_words u.now.records.now u.now.program.now lasts.now from to) ≤ length out.old) }
    ensures { Wrote out.old at (entries_words u.now.records.now u.now.program.now lasts.now from to)
        out.new result }
{
    let mut next = at;
    for j in from..to {
        let rule = u.rule_at(j);
        next = put_body(out, next, rule, lasts, lasts);
    }
    next
}

// The unfolded program: the number of copies, the copies, the number of constraints and those.
pub fn put_unfolded(out: &mut [u32], u: &Unfolding) -> usize
    requires { ReadyIn u.now × (length (words (unfolded_by u.now)) ≤ length out.old) }
    ensures { Wrote out.old 0 (words (unfolded_by u.now))
        out.new result }
{
    let from = u.size.rules;
    let constraints = u.size.constraints;
    let lasts = last_copies();
    let count = u.q.len() - 3;
    put(out, 0, count as u32);
    let behind = put_copies(out, u, &lasts);
    let next = put(out, behind, constraints as u32);
    put_entries(out, next, from, from + constraints, u, &lasts)
}
