// The places from which a chain is missing, by the table over the sets of a component's atoms.
#![tactic(auto)]

ghost use Rattle.std.specs.Prelude.{◌<◌, length};
ghost use Rattle.missing_places.specs.inner.Lacking.{LackingIn, Lacking, ShortestAt};

use bits::{difference, intersection, size, subset, union};

// The places that a set's row lacks, where the set lies in `unused` and has at most m places.
fn lacking_in(table: &[u64], unused: u64, m: usize, set: usize) -> u64
    requires { set < length table.now }
    ensures { LackingIn table.now unused m set result }
{
    let places = set as u64;
    if !subset(places, unused) {
        return 0;
    }
    if m < size(places) as usize {
        return 0;
    }
    difference(places, table[set])
}

// The places from which some chain of at most m atoms is missing, its places all of `unused`: those that some set's row lacks. What a set
// has of `unused` is a set of `unused`, so that no set needs a test for that.
#[tactic(auto, using(crate::proofs::Rows::below_start, crate::proofs::Rows::part_low, crate::proofs::Rows::part_turn, crate::proofs::Rows::part_last))]
pub fn lacking(table: &[u64], unused: u64, m: usize) -> u64
    requires { unused < length table.now }
    ensures { Lacking table.now unused m result }
{
    let mut places: u64 = 0;
    for set in 0..=unused as usize {
        let part = intersection(set as u64, unused) as usize;
        places = union(places, lacking_in(table, unused, m, part));
    }
    places
}

// The shortest missing chains of a component: how many atoms they have, and the places that they start at.
#[derive(Clone, Copy)]
pub struct ShortestChains {
    pub length: usize,
    pub places: u64,
}

// The shortest missing chains, of a component of k atoms that lacks one.
#[tactic(auto, using(crate::proofs::Rows::none_start, crate::proofs::Rows::none_turn, crate::proofs::Rows::none_end_at, crate::proofs::Rows::none_found_at))]
pub fn shortest(table: &[u64], full: u64, k: usize) -> ShortestChains
    requires { full < length table.now }
    ensures { ShortestAt table.now full k result }
{
    for m in 1..k {
        let places = lacking(table, full, m);
        if places != 0 {
            return ShortestChains { length: m, places };
        }
    }
    ShortestChains {
        length: k,
        places: lacking(table, full, k),
    }
}
