// Variables are filled in as an assignment says.
ghost use Rattle.std.specs.Prelude.{◌≡◌, ◌<◌, ℕ, slice_index_or, length};
ghost use Rattle.rules.specs.declared.Term.TheVariants.{Constant};
ghost use Rattle.rules.specs.Logic.{formula_of};
ghost use Rattle.rules.specs.Matches.{value, under};
ghost use Rattle.matches.specs.Lists.{look, under_atom};

use rules::{Atom, Term};

/// What an assignment that is a list gives a variable; past its end the constant 0.
pub fn look_up(h: &[Term], i: usize) -> Term
    ensures { result ≡ look h.now i }
{
    h.get(i).copied().unwrap_or(Term::Constant(0))
}

/// The atom with its variables as `h` says.
pub fn atom_under(a: &Atom, h: &[Term]) -> Atom
    ensures meant { formula_of result ≡ under (look h.now) (formula_of a.now) }
    ensures whole { result ≡ under_atom (look h.now) a.now }
{
    Atom {
        terms: values_of(a.terms, h),
        ..*a
    }
}

fn value_of(t: Term, h: &[Term]) -> Term
    ensures { result ≡ value (look h.now) t }
{
    match t {
        Term::Variable(v) => look_up(h, v as usize),
        _ => t,
    }
}

fn values_of(terms: [Term; 4], h: &[Term]) -> [Term; 4]
    ensures long { length result ≡ length terms }
    ensures each { (i : ℕ) → i < length terms → slice_index_or result i (Constant 0) ≡ value (look h.now) (slice_index_or terms i (Constant 0)) }
{
    terms.map(|t| value_of(t, h))
}
