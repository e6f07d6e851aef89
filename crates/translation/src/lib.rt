// What the records of a sheet stand for: the number of choice rules, the edges of the program's graph, and the program itself.
#![tactic(auto)]

ghost use Rattle.std.specs.Prelude.{cond, ◌≡◌, suc, ◌≤◌, ◌<◌, eqb, length, replicate};
ghost use Rattle.program.specs.inner.Held.{table_of};
ghost use Rattle.sheet.specs.Sheet.{record_rules};
ghost use Rattle.reader.specs.inner.Tabled.{record_of};
ghost use Rattle.translation.specs.inner.Records.{held, records_in, ChoicesIn, Expandable, FreshFor};
ghost use Rattle.translation.specs.inner.Linked.{Linked, RecordLinked, EdgesIn};
ghost use Rattle.translation.specs.inner.Translated.{entries, Room, Appended, EntryAppended, AddedTo, constraint_of, Translated};

use bits::{has, union};
use program::ProgramSize;
use tables::{Program, ProgramEntry, SheetRecord, Table, record_at, store_entry};

// The number that comes behind a record of this kind, where each choice rule takes one.
fn next_fresh(kind: u8, fresh: usize) -> usize
    requires { fresh < 256 }
    ensures { result ≡ cond (eqb kind 2) (suc fresh) fresh }
{
    match kind {
        2 => fresh + 1,
        _ => fresh,
    }
}

// The number of choice rules among the first m records.
pub fn choices_in(records: &Table, m: usize) -> usize
    requires { m ≤ 128 }
    ensures { ChoicesIn records.now m result }
{
    let mut number = 0;
    for j in 0..m {
        number = next_fresh(record_at(records, j).kind, number);
    }
    number
}

// The atoms of a set get edges to h.
fn link(rows: &mut [u64; 64], h: usize, pos: u64)
    requires { (length rows.old ≡ 64) × (h < 64) }
    ensures { Linked h pos rows.old rows.new }
{
    rows[h] = union(rows[h], pos);
}

// The edges of a record's rules, each in the row of the atom that it leads to; the fresh atom that comes next.
fn link_record(rows: &mut [u64; 64], r: SheetRecord, fresh: usize) -> usize
    requires { (length rows.old ≡ 64) × FreshFor r fresh }
    ensures { RecordLinked r fresh rows.old rows.new result }
{
    match r.kind {
        0 => {
            link(rows, usize::from(r.head), r.pos);
            fresh
        }
        2 => {
            link(rows, usize::from(r.head), r.pos);
            link(rows, fresh, r.pos);
            fresh + 1
        }
        _ => fresh,
    }
}

// The edges of the program of the first m records over n written atoms, put into rows that are empty.
pub fn edges_of(n: usize, m: usize, records: &Table, rows: &mut [u64; 64])
    requires { Expandable n (held m records.now) × (rows.old ≡ replicate 64 0) }
    ensures { EdgesIn n (held m records.now) rows.new }
{
    let mut fresh = n;
    for j in 0..m {
        let r = record_at(records, j);
        fresh = link_record(rows, r, fresh);
    }
}

// What is entered for an atom that is added to negative ones: nothing, where it is among them already.
fn added_atom(neg: u64, a: usize) -> u8
    requires { a < 64 }
    ensures { AddedTo neg a result }
{
    if has(neg, a) {
        return 0;
    }
    (a + 1) as u8
}

// Stores an entry at k; the index that comes next.
fn store(program: &mut Program, k: usize, e: ProgramEntry) -> usize
    requires { Room 1 (entries k program.old) × (e.source < 128) }
    ensures { EntryAppended (entries k program.old) e (entries result program.new) }
{
    store_entry(program, k, e);
    k + 1
}

// Stores the rules of a record from k on, with the index of the record as their source; the index that comes next.
fn store_rules(program: &mut Program, k: usize, r: SheetRecord, source: u8, fresh: usize) -> usize
    requires { Room (length (record_rules fresh (record_of r))) (entries k program.old) × FreshFor r fresh × (source < 128) }
    ensures { Appended source r (entries k program.old) (record_rules fresh (record_of r)) (entries result program.new) }
{
    match r.kind {
        0 => {
            let rule = ProgramEntry {
                head: r.head,
                source,
                added: 0,
            };
            store(program, k, rule)
        }
        2 => {
            let chosen = ProgramEntry {
                head: r.head,
                source,
                added: added_atom(r.neg, fresh),
            };
            let second = store(program, k, chosen);
            let other = ProgramEntry {
                head: fresh as u8,
                source,
                added: added_atom(r.neg, usize::from(r.head)),
            };
            store(program, second, other)
        }
        _ => k,
    }
}

// Stores a record at k, where it is a constraint, with its source; the index that comes next.
fn store_constraint(program: &mut Program, k: usize, r: SheetRecord, source: u8) -> usize
    requires { Room (length (constraint_of (record_of r))) (entries k program.old) × (source < 128) }
    ensures { Appended source r (entries k program.old) (constraint_of (record_of r)) (entries result program.new) }
{
    if r.kind == 1 {
        let body = ProgramEntry {
            head: r.head,
            source,
            added: 0,
        };
        return store(program, k, body);
    }
    k
}

// The program of the first m records over n written atoms: the rules of each record in its place, and behind them the constraints. The
// source of an entry is the record that it comes from.
pub fn program_of(n: usize, m: usize, records: &Table, program: &mut Program) -> ProgramSize
    requires { Expandable n (held m records.now) × Room 0 (entries 0 program.old) }
    ensures { Translated n (records_in (held m records.now)) (table_of result records.now program.new) }
{
    let mut fresh = n;
    let mut rules = 0;
    for j in 0..m {
        let r = record_at(records, j);
        rules = store_rules(program, rules, r, j as u8, fresh);
        fresh = next_fresh(r.kind, fresh);
    }
    let mut all = rules;
    for i in 0..m {
        let r = record_at(records, i);
        all = store_constraint(program, all, r, i as u8);
    }
    ProgramSize {
        atoms: fresh,
        rules,
        constraints: all - rules,
    }
}
