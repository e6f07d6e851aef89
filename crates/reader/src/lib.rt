// Reading a sheet, in one pass that asks questions 1 to 6 and gathers its records into a table.
#![tactic(auto)]

ghost use Rattle.std.specs.Prelude.{◌≡◌, ◌≤◌, length};
ghost use Rattle.sheet.specs.inner.Walk.{Complete};
ghost use Rattle.reader.specs.inner.Tabled.{ListRead, ListsRead, EntryRead, HeaderRead, RecordsRead};

use bits::{byte_at, with};
use refusals::Refusal;
use sheet::{Limits, is_complete, kind_passes};
use tables::{SheetRecord, Table, store_record};

// Question 6 of a list, and the set of its atoms.
fn gather_list(l: &[u8], n: usize) -> Result<u64, Refusal>
    requires { n ≤ 64 }
    ensures { ListRead n l.now result }
{
    let mut set: u64 = 0;
    let mut low = 0;
    for &b in l {
        let a = usize::from(b);
        if a < low {
            return Err(Refusal::Atoms);
        }
        if n <= a {
            return Err(Refusal::Atoms);
        }
        set = with(set, a);
        low = a + 1;
    }
    Ok(set)
}

// A record, and where it ends.
#[derive(Clone, Copy)]
pub struct Entry {
    pub row: SheetRecord,
    pub end: usize,
}

// Question 6 of a record that has passed questions 4 and 5, and the record.
fn read_lists(s: &[u8], at: usize, n: usize) -> Result<Entry, Refusal>
    requires { Complete s.now at × (n ≤ 64) }
    ensures { ListsRead n s.now at result }
{
    let a = at + 4;
    let middle = a + byte_at(s, at + 3);
    let end = at + 1 + byte_at(s, at);
    let pos = gather_list(&s[a..middle], n)?;
    let neg = gather_list(&s[middle..end], n)?;
    let row = SheetRecord {
        kind: s[at + 1],
        head: s[at + 2],
        pos,
        neg,
    };
    Ok(Entry { row, end })
}

// Questions 4, 5 and 6 of the record at an offset, and the record.
fn read_record(s: &[u8], at: usize, n: usize) -> Result<Entry, Refusal>
    requires { n ≤ 64 }
    ensures { EntryRead n s.now at result }
{
    if !is_complete(s, at) {
        return Err(Refusal::Record);
    }
    if !kind_passes(s, at, n) {
        return Err(Refusal::Kind);
    }
    read_lists(s, at, n)
}

// What a sheet's first five bytes say: the numbers of atoms and of records.
#[derive(Clone, Copy)]
pub struct Header {
    pub atoms: usize,
    pub records: usize,
}

// Questions 1 to 3, and the numbers of atoms and of records.
pub fn read_header(limits: Limits, s: &[u8]) -> Result<Header, Refusal>
    ensures { HeaderRead limits s.now result }
{
    if s.len() < 5 {
        return Err(Refusal::Version);
    }
    if byte_at(s, 0) != 1 {
        return Err(Refusal::Version);
    }
    if byte_at(s, 1) * 256 + byte_at(s, 2) != s.len() {
        return Err(Refusal::Length);
    }
    let atoms = byte_at(s, 3);
    let records = byte_at(s, 4);
    if limits.atoms < atoms {
        return Err(Refusal::Limits);
    }
    if limits.records < records {
        return Err(Refusal::Limits);
    }
    Ok(Header { atoms, records })
}

// Questions 4, 5 and 6 of the m records from byte 5 on, which are stored; then, does nothing remain?
pub fn read_records(s: &[u8], n: usize, m: usize, records: &mut Table) -> Result<(), Refusal>
    requires { (5 ≤ length s.now) × (n ≤ 64) × (m ≤ 128) × (length records.old ≡ 384) }
    ensures { RecordsRead n m s.now records.new result }
{
    let mut at = 5;
    for j in 0..m {
        let entry = read_record(s, at, n)?;
        store_record(records, j, entry.row);
        at = entry.end;
    }
    if at == s.len() {
        return Ok(());
    }
    Err(Refusal::Record)
}
