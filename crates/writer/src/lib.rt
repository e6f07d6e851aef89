// Writing into a lent buffer that has room.
#![tactic(auto)]

ghost use Rattle.std.specs.Prelude.{[], ◌∷◌, ◌<◌, pos, neg_ℤ, length};
ghost use Rattle.writer.specs.inner.Wrote.{Wrote};

// One element.
pub fn put<T: Copy>(out: &mut [T], at: usize, x: T) -> usize
    requires { at < length out.old }
    ensures { Wrote out.old at (x ∷ []) out.new result }
{
    out[at] = x;
    at + 1
}

// The signed word v.
pub fn put_plain(out: &mut [i32], at: usize, v: u32) -> usize
    requires { (at < length out.old) × (v < 2147483648) }
    ensures { Wrote out.old at (pos v ∷ []) out.new result }
{
    put(out, at, v as i32)
}

// The signed word -v.
pub fn put_negated(out: &mut [i32], at: usize, v: u32) -> usize
    requires { (at < length out.old) × (v < 2147483648) }
    ensures { Wrote out.old at (neg_ℤ (pos v) ∷ []) out.new result }
{
    put(out, at, -(v as i32))
}
