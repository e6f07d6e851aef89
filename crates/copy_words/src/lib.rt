// Writing the words of one copy in the unfolded program.
#![tactic(auto)]

ghost use Rattle.std.specs.Prelude.{◌+◌, ◌≤◌, length};
ghost use Rattle.unfolding.specs.Unfolded.{last};
ghost use Rattle.writer.specs.inner.Wrote.{Wrote};
ghost use Rattle.copies.specs.inner.Tables.{Values};
ghost use Rattle.copies.specs.inner.Kept.{Inside};
ghost use Rattle.copy_words.specs.inner.Words.{listed_words, kept_words, CopyReady};

use body_words::put_body;
use copies::Unfolding;
use writer::put;

// The bodies of the entries that are listed.
fn put_listed(
    out: &mut [u32],
    at: usize,
    u: &Unfolding,
    listed: &[u8],
    vars: &[u32; 64],
    lasts: &[u32; 64],
) -> usize
    requires { Values last lasts.now × Inside listed.now
        × (at + length (listed_words u.now.records.now u.now.program.now vars.now listed.now) ≤ length out.old) }
    ensures { Wrote out.old at
        (listed_words u.now.records.now u.now.program.now vars.now listed.now) out.new result }
{
    let mut next = at;
    for &i in listed {
        let rule = u.rule_at(usize::from(i));
        next = put_body(out, next, rule, vars, lasts);
    }
    next
}

// A copy: its variable, the number of the rules kept, whose entries are listed, and those.
#[tactic(auto, unfolding(crate::specs::inner::Words::kept_words))]
pub fn put_copy(
    out: &mut [u32],
    at: usize,
    var: u32,
    u: &Unfolding,
    listed: &[u8],
    vars: &[u32; 64],
    lasts: &[u32; 64],
) -> usize
    requires { CopyReady u.now.records.now u.now.program.now vars.now lasts.now at var listed.now out.old }
    ensures { Wrote out.old at
        (kept_words u.now.records.now u.now.program.now vars.now var listed.now) out.new result }
{
    let second = put(out, at, var);
    let next = put(out, second, listed.len() as u32);
    put_listed(out, next, u, listed, vars, lasts)
}
