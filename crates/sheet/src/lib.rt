// The bytes of records and of sequences: questions 4, 5 and 8, and walking from record to record.
#![tactic(auto)]

ghost use Rattle.std.specs.Prelude.{◌≡◌, true, ◌+◌, ◌≤◌, ◌<◌, length};
ghost use Rattle.sheet.specs.Format.{complete, kind_fits, kind_passes, end};
ghost use Rattle.sheet.specs.inner.Walk.{Complete, Walk, Stepped};
ghost use Rattle.sheet.specs.Sequence.{entries, sequence_fits};
ghost use Rattle.lists.specs.Lists.{below};

use bits::byte_at;

// What a service takes: the most atoms of a sheet, fresh ones counted, atoms of a component, and entries of a sequence.
#[derive(Clone, Copy)]
pub struct Taken {
    pub atoms: usize,
    pub component: usize,
    pub entries: usize,
}

// The limits of the format: the most atoms of a sheet, also with the fresh ones, records, atoms of a component and entries of a sequence; and
// what the service takes of these.
#[derive(Clone, Copy)]
pub struct Limits {
    pub atoms: usize,
    pub records: usize,
    pub component: usize,
    pub entries: usize,
    pub taken: Taken,
}

// Question 5.
fn kind_fits(kind: usize, head: usize, n: usize) -> bool
    ensures { result ≡ kind_fits n kind head }
{
    match kind {
        0 => head < n,
        1 => head == 0,
        2 => head < n,
        _ => false,
    }
}

// Question 4, of the record at an offset.
pub fn is_complete(s: &[u8], at: usize) -> bool
    ensures { result ≡ complete s.now at }
{
    if s.len() <= at {
        return false;
    }
    let k = byte_at(s, at);
    if k < 3 {
        return false;
    }
    if s.len() - at <= k {
        return false;
    }
    byte_at(s, at + 3) <= k - 3
}

// Question 5, of the record at an offset.
pub fn kind_passes(s: &[u8], at: usize, n: usize) -> bool
    requires { Complete s.now at }
    ensures { result ≡ kind_passes n s.now at }
{
    kind_fits(byte_at(s, at + 1), byte_at(s, at + 2), n)
}

// Where the record at an offset ends.
pub fn record_end(s: &[u8], at: usize) -> usize
    requires { at < length s.now }
    ensures { result ≡ end s.now at }
{
    at + 1 + byte_at(s, at)
}

// Where the record at an offset ends, of a sheet whose records from there on have passed.
pub fn next_record(s: &[u8], at: usize, left: usize, n: usize) -> usize
    requires { Walk s.now n left at × (0 < left) }
    ensures { Stepped s.now n left at result }
{
    record_end(s, at)
}

// Are the entries of a sequence below n?
fn entries_fit(q: &[u8], n: usize) -> bool
    requires { 3 ≤ length q.now }
    ensures { result ≡ below n (entries q.now) }
{
    let entries = &q[3..];
    for &a in entries {
        if n <= usize::from(a) {
            return false;
        }
    }
    true
}

// Question 8, of a sequence for n atoms.
pub fn sequence_fits(limits: Limits, n: usize, q: &[u8]) -> bool
    ensures { result ≡ sequence_fits limits n q.now }
{
    if q.len() < 3 {
        return false;
    }
    if byte_at(q, 0) != 1 {
        return false;
    }
    let t = byte_at(q, 1) * 256 + byte_at(q, 2);
    if limits.entries < t {
        return false;
    }
    if q.len() != t + 3 {
        return false;
    }
    entries_fit(q, n)
}
