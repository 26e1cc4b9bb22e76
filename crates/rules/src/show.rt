ghost use Rattle.std.specs.Prelude.{ℕ, Bool, true, List, map, Option, Some, None, codes};
ghost use Rattle.std.specs.Fmt.{WritesOnOk};
ghost use Rattle.rules.specs.Logic.{formula_of};
ghost use Rattle.rules.specs.Rules.{meaning};
ghost use Rattle.rules.specs.Text.{separated, letters_by, term_by, formula_by, term_text, formula_text, rule_text};

use crate::parts::have;
use crate::{Atom, Rule, Term};
use std::fmt;

impl fmt::Display for Term {
    ghost output = { λ t. Some (term_text t) };

    fn fmt<W: fmt::Write>(&self, f: &mut fmt::Formatter<W>) -> fmt::Result {
        self.show(None, f)
    }
}

impl fmt::Display for Atom {
    ghost output = { λ a. Some (formula_text (formula_of a)) };

    fn fmt<W: fmt::Write>(&self, f: &mut fmt::Formatter<W>) -> fmt::Result {
        self.show(None, f)
    }
}

impl fmt::Display for Rule {
    ghost output = { λ r. Some (rule_text (meaning r)) };

    fn fmt<W: fmt::Write>(&self, f: &mut fmt::Formatter<W>) -> fmt::Result {
        let body = self.body();
        show_all(body, ", ", Some(body), f)?;
        f.write_str(" -> ")?;
        show_all(self.head(), ", ", Some(body), f)
    }
}

/// What is printed by itself, or in a rule with this body: there a variable that stands in no body atom has another letter.
trait Show {
    ghost text: { (ℕ → Bool) → Self → List ℕ };

    fn show<W: fmt::Write>(&self, body: Option<&[Atom]>, f: &mut fmt::Formatter<W>) -> fmt::Result
        ensures { WritesOnOk W.write_str_gives f.old result (text (letters_by body.entry) self.now) f.new };
}

impl Show for Term {
    ghost text = { term_by };

    fn show<W: fmt::Write>(&self, body: Option<&[Atom]>, f: &mut fmt::Formatter<W>) -> fmt::Result {
        match *self {
            Term::Constant(n) => write!(f, "{n}"),
            Term::Variable(n) => {
                if body.is_none_or(|atoms| have(atoms, n)) {
                    write!(f, "x{n}")
                } else {
                    write!(f, "z{n}")
                }
            }
            Term::Null(n) => write!(f, "n{n}"),
        }
    }
}

impl Show for Atom {
    ghost text = { λ universal a. formula_by universal (formula_of a) };

    fn show<W: fmt::Write>(&self, body: Option<&[Atom]>, f: &mut fmt::Formatter<W>) -> fmt::Result {
        let p = self.predicate;
        write!(f, "p{p}(")?;
        show_all(self.args(), ",", body, f)?;
        f.write_str(")")
    }
}

/// Each of the items, with the separator between each two.
fn show_all<T: Show, W: fmt::Write>(
    items: &[T],
    separator: &str,
    body: Option<&[Atom]>,
    f: &mut fmt::Formatter<W>,
) -> fmt::Result
    ensures { WritesOnOk W.write_str_gives f.old result (separated separator.now (map (T.text (letters_by body.entry)) items.now)) f.new }
{
    let Some((head, tail)) = items.split_first() else {
        return Ok(());
    };
    head.show(body, f)?;
    for item in tail {
        f.write_str(separator)?;
        item.show(body, f)?;
    }
    Ok(())
}
