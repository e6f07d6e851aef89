// Sets of atoms below 64 in a u64: atom a is in the set where digit a of the number is 1.
#![tactic(auto)]

ghost use Rattle.std.specs.Prelude.{◌≡◌, ◌==◌, true, ◌+◌, ◌≤◌, ◌<◌, length, position};
ghost use Rattle.bits.specs.inner.Sets.{has, With, WithIf, Without, ByteAt, Gathered, Subset, Both, Either, Difference, Size};
ghost use Rattle.bits.specs.inner.Visited.{listed, Lowest, Rest, HasRun, WithoutRun};
ghost use Rattle.lists.specs.Lists.{below};

use arrayvec::ArrayVec;

// Is a in the set?
pub fn has(x: u64, a: usize) -> bool
    requires { a < 64 }
    ensures { result ≡ has x a }
{
    (x >> a) % 2 == 1
}

// The set with a.
#[tactic(auto, using(crate::proofs::Digits::or_grows, crate::proofs::Digits::with_has))]
pub fn with(x: u64, a: usize) -> u64
    requires { a < 64 }
    ensures { With x a result }
{
    x | (1 << a)
}

// The byte at an index.
pub fn byte_at(s: &[u8], i: usize) -> usize
    requires { i < length s.now }
    ensures { ByteAt s.now i result }
{
    s[i] as usize
}

// The set of the atoms of a list.
#[tactic(auto, using(crate::proofs::Gathering::gathering_start, crate::proofs::Gathering::gathering_end))]
pub fn gather(l: &[u8]) -> u64
    requires { below 64 l.now ≡ true }
    ensures { Gathered l.now result }
{
    let mut x: u64 = 0;
    for &b in l {
        x = with(x, usize::from(b));
    }
    x
}

// Is every atom of x in y?
#[tactic(auto, using(crate::proofs::Digits::subset_test))]
pub fn subset(x: u64, y: u64) -> bool
    ensures { Subset x y result }
{
    x & y == x
}

// The atoms in both sets.
#[tactic(auto, using(crate::proofs::Digits::and_has))]
pub fn intersection(x: u64, y: u64) -> u64
    ensures { Both x y result }
{
    x & y
}

// The atoms of x that are not in y.
#[tactic(auto, using(crate::proofs::Digits::less_has))]
pub fn difference(x: u64, y: u64) -> u64
    ensures { Difference x y result }
{
    x ^ (x & y)
}

// How many atoms are in the set.
#[tactic(auto, using(crate::proofs::Digits::ones_counted))]
pub fn size(x: u64) -> u32
    ensures { Size x result }
{
    u64::count_ones(x)
}

// The atoms in one set or the other.
#[tactic(auto, using(crate::proofs::Digits::or_has))]
pub fn union(x: u64, y: u64) -> u64
    ensures { Either x y result }
{
    x | y
}

// The set with a, where b holds.
#[tactic(auto, using(crate::proofs::Digits::with_yes, crate::proofs::Digits::with_no))]
pub fn with_if(x: u64, a: usize, b: bool) -> u64
    requires { a < 64 }
    ensures { WithIf x a b result }
{
    if b {
        return with(x, a);
    }
    x
}

// The set without a.
pub fn without(x: u64, a: usize) -> u64
    requires { a < 64 }
    ensures { Without x a result }
{
    difference(x, with(0, a))
}

// The smallest atom of a set.
#[tactic(auto, using(crate::proofs::Visiting::trailing_lowest))]
pub fn lowest(x: u64) -> usize
    requires { 0 < x }
    ensures { Lowest x result }
{
    u64::trailing_zeros(x) as usize
}

// The set without its smallest atom.
#[tactic(auto, using(crate::proofs::Visiting::rest_is))]
pub fn rest(x: u64) -> u64
    requires { 0 < x }
    ensures { Rest x result }
{
    x & (x - 1)
}

// Are the eight atoms from a on all in the set?
#[tactic(auto, using(crate::proofs::Runs::eight_has))]
pub fn has_eight(x: u64, a: usize) -> bool
    requires { a < 64 }
    ensures { HasRun x a 8 result }
{
    subset(255, x >> a)
}

// The set without the eight atoms from a on.
#[tactic(auto, using(crate::proofs::Runs::eight_without))]
pub fn without_eight(x: u64, a: usize) -> u64
    requires { a + 8 ≤ 64 }
    ensures { WithoutRun x a 8 result }
{
    difference(x, 255 << a)
}

// The atoms of a set of at most 16.
#[tactic(auto, using(crate::proofs::Listing::walking_room, crate::proofs::Listing::walking_turn, crate::proofs::Listing::walking_end))]
pub fn list_set(x: u64) -> ArrayVec<u8, 16>
    requires { length (listed x) ≤ 16 }
    ensures { result.items ≡ listed x }
{
    let mut atoms = ArrayVec::new();
    let mut left = x;
    while 0 < left {
        atoms.push(lowest(left) as u8);
        left = rest(left);
    }
    atoms
}

// The place of a number in a list.
pub fn place_of(l: &[u8], a: usize) -> Option<usize>
    ensures { result ≡ position (λ b. b == a) l.now }
{
    l.iter().position(|&b| usize::from(b) == a)
}
