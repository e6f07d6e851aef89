// How many words, variables and clauses there are.
#![tactic(auto)]

ghost use Rattle.copies.specs.inner.Given.{ReadyIn, unfolded_by};
ghost use Rattle.clause_sizes.specs.inner.Numbers.{NumbersOf};

use copies::Unfolding;
use totals::totals_of;

// How many words the clauses have, how many variables, and how many clauses there are.
#[derive(Clone, Copy)]
pub struct Numbers {
    pub words: usize,
    pub variables: usize,
    pub clauses: usize,
}

// A copy has two words and one clause of its own, a rule six words, two clauses and a variable, an atom of its body four words
// and a clause; a constraint is one clause, of one word and one for each atom.
pub fn numbers_of(u: &Unfolding) -> Numbers
    requires { ReadyIn u.now }
    ensures { NumbersOf (unfolded_by u.now) result }
{
    let count = u.q.len() - 3;
    let totals = totals_of(u);
    let rules = totals.rules;
    let atoms = totals.atoms;
    let constraints = totals.constraints;
    Numbers {
        words: 2 * count + 6 * rules + 4 * atoms + constraints + totals.literals,
        variables: count + rules,
        clauses: count + 2 * rules + atoms + constraints,
    }
}
