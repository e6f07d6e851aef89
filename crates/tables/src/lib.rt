// The two arrays that operations lend each other: a sheet's records, and the entries of its program. What they hold is read and stored
// here alone.
#![tactic(auto)]

ghost use Rattle.std.specs.Prelude.{◌≡◌, ◌<◌, length};
ghost use Rattle.lists.specs.Rows.{Stored};
ghost use Rattle.tables.specs.inner.Rows.{row_at, entry_at};

// A record.
#[derive(Clone, Copy)]
pub struct SheetRecord {
    pub kind: u8,
    pub head: u8,
    pub pos: u64,
    pub neg: u64,
}

// 128 records, three words each: kind * 256 + head, the positive atoms, the negative atoms.
pub type Table = [u64; 384];

// The record at j.
pub fn record_at(records: &Table, j: usize) -> SheetRecord
    requires { j < 128 }
    ensures { result ≡ row_at records.now j }
{
    let at = 3 * j;
    let word = records[at];
    SheetRecord {
        kind: (word / 256 % 256) as u8,
        head: (word % 256) as u8,
        pos: records[at + 1],
        neg: records[at + 2],
    }
}

// Stores a record at j.
pub fn store_record(records: &mut Table, j: usize, r: SheetRecord)
    requires { (j < 128) × (length records.old ≡ 384) }
    ensures { Stored row_at records.old j r records.new }
{
    let at = 3 * j;
    records[at] = (r.kind as u64) * 256 + r.head as u64;
    records[at + 1] = r.pos;
    records[at + 2] = r.neg;
}

// An entry of a program: a rule's head, the record that has its two sets, and the atom that is added to the negative ones, where a + 1
// stands for the atom a and 0 for none.
#[derive(Clone, Copy)]
pub struct ProgramEntry {
    pub head: u8,
    pub source: u8,
    pub added: u8,
}

// 192 entries, a word each: added * 65536 + source * 256 + head.
pub type Program = [u32; 192];

// The entry at i.
pub fn entry_at(program: &Program, i: usize) -> ProgramEntry
    requires { i < 192 }
    ensures { result ≡ entry_at program.now i }
{
    let word = program[i];
    ProgramEntry {
        head: (word % 256) as u8,
        source: (word / 256 % 128) as u8,
        added: (word / 65536 % 256) as u8,
    }
}

// Stores an entry at i.
pub fn store_entry(program: &mut Program, i: usize, e: ProgramEntry)
    requires { (i < 192) × (length program.old ≡ 192) × (e.source < 128) }
    ensures { Stored entry_at program.old i e program.new }
{
    program[i] = (e.added as u32) * 65536 + (e.source as u32) * 256 + e.head as u32;
}
