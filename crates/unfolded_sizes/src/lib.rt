// How many words the unfolded program has.
#![tactic(auto)]

ghost use Rattle.std.specs.Prelude.{◌≡◌, length};
ghost use Rattle.unfolding.specs.Unfolded.{words};
ghost use Rattle.copies.specs.inner.Given.{ReadyIn, unfolded_by};

use copies::Unfolding;
use totals::totals_of;

// Two words for each copy, rule and constraint, one for each of their atoms, and the two numbers.
pub fn unfolded_length(u: &Unfolding) -> usize
    requires { ReadyIn u.now }
    ensures { result ≡ length (words (unfolded_by u.now)) }
{
    let count = u.q.len() - 3;
    let totals = totals_of(u);
    let headers = count + totals.rules + totals.constraints + 1;
    2 * headers + totals.atoms + totals.literals
}
