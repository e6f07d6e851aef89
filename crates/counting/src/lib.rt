// The stable models of a sheet's program, counted over its records: a choice rule is a free rule, which applies only in states that hold
// its head, so no fresh atom is looked at.
#![tactic(auto)]

ghost use Rattle.std.specs.Prelude.{◌≡◌, ◌≤◌, ◌<◌, length};
ghost use Rattle.bits.specs.inner.Visited.{listed};
ghost use Rattle.reader.specs.inner.Tabled.{ExactSets};
ghost use Rattle.search.specs.inner.Rules.{LowHeads, Returning};
ghost use Rattle.count_preparation.specs.inner.Asked.{Countable, AskedIn};
ghost use Rattle.counting.specs.inner.Gates.{GatesOf};
ghost use Rattle.counting.specs.inner.Returns.{Entered, Firsts};
ghost use Rattle.counting.specs.inner.RecordsCounted.{ModelsCounted, RecordsCounted};

use bits::{difference, lowest, rest, size, union, with_if};
use count_preparation::{asked_atoms, in_order, rules_first};
use search::{Decisions, Rules, Sizes};
use tables::{Table, record_at};

// Enters j for each atom of a set.
fn enter(at: &mut [u8; 64], set: u64, j: usize)
    requires { (length at.old ≡ 64) × (j < 256) }
    ensures { Entered at.old set j at.new }
{
    let mut left = set;
    while 0 < left {
        let a = lowest(left);
        at[a] = j as u8;
        left = rest(left);
    }
}

// For each atom the first of k rules with the atom among its positive ones, or more than any index.
fn firsts(records: &Table, k: usize) -> [u8; 64]
    requires { k ≤ 128 }
    ensures { Firsts records.now k result }
{
    let mut at: [u8; 64] = [255; 64];
    let mut seen: u64 = 0;
    for j in 0..k {
        let r = record_at(records, j);
        enter(&mut at, difference(r.pos, seen), j);
        seen = union(seen, r.pos);
    }
    at
}

// For each rule the index at which a pass goes on when the rule adds its head: that of the first rule with the head among its positive
// atoms, or of the rule's successor.
fn returns_of(records: &Table, k: usize) -> [u8; 128]
    requires { (k ≤ 128) × LowHeads records.now k }
    ensures { Returning records.now result k }
{
    let first = firsts(records, k);
    let mut at: [u8; 128] = [0; 128];
    for j in 0..k {
        let head = usize::from(record_at(records, j).head);
        at[j] = usize::from(first[head]).min(j + 1) as u8;
    }
    at
}

// The gates of the first k rules: a choice rule's head, and otherwise nothing.
fn gates_of(records: &Table, k: usize) -> [u64; 128]
    requires { (k ≤ 128) × LowHeads records.now k }
    ensures { GatesOf records.now k result }
{
    let mut at: [u64; 128] = [0; 128];
    for j in 0..k {
        let r = record_at(records, j);
        at[j] = with_if(0, usize::from(r.head), r.kind == 2);
    }
    at
}

// The number of stable models of the program of m records, x being the atoms to decide. The records are put in order.
fn count_models(m: usize, records: &mut Table, ancestors: &[u64; 64], x: u64) -> u64
    requires { Countable m records.old × (length records.old ≡ 384) × ExactSets m records.old × AskedIn records.old m x
        × (length (listed x) ≤ 16) }
    ensures { ModelsCounted m records.old result }
{
    let k = rules_first(records, m);
    in_order(records, ancestors, k);
    let back = returns_of(records, k);
    let gate = gates_of(records, k);
    let sizes = Sizes {
        rules: k,
        constraints: m - k,
    };
    let rules = Rules {
        records,
        gate: &gate,
        back: &back,
        sizes,
    };
    let d = Decisions {
        atoms: x,
        ins: 0,
        outs: 0,
    };
    rules.branch(d, true)
}

// The stable models of the program of m records, counted, unless there are too many atoms to decide. The records are put in another
// order, which the atoms' sets of ancestors give.
pub fn count(m: usize, records: &mut Table, ancestors: &[u64; 64]) -> Option<u64>
    requires { Countable m records.old × (length records.old ≡ 384) × ExactSets m records.old }
    ensures { RecordsCounted m records.old result }
{
    let x = asked_atoms(records, m);
    if 16 < size(x) {
        return None;
    }
    Some(count_models(m, records, ancestors, x))
}
