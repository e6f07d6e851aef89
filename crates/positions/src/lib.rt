// Positions in a sequence of at most 640 entries.
#![tactic(auto)]

ghost use Rattle.positions.specs.inner.Positions.{Position, Behind};

use bits::place_of;

// The position behind the first a of the sequence from a position on, or its end.
pub fn behind(q: &[u8], from: u16, a: usize) -> u16
    requires { Position q.now from }
    ensures { Behind q.now from a result }
{
    match place_of(&q[usize::from(from)..], a) {
        Some(p) => from + p as u16 + 1,
        None => q.len() as u16,
    }
}
