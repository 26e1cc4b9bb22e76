//! A question on two rules, its answer, and how both are printed.
ghost use Rattle.std.specs.Prelude.{◌≡◌, ◌≤◌, true, Some, IfOk, Decides};
ghost use Rattle.rules.specs.Rules.{meaning};
ghost use Rattle.reliances.specs.Sheets.{Shows, Holds};
ghost use Rattle.reliance_times.specs.Answers.{Right, answer_text, asked_text};

use reliances::{Kind, Sheet, ask, verify};
use std::num::NonZeroU32;
use std::time::{Clock, Instant};
use std::{fmt, io};
use volumes::NumberedRule;

/// Whether a relation holds between two rules.
#[derive(Clone, Copy)]
pub struct Asked<'a> {
    pub kind: Kind,
    pub first: &'a NumberedRule,
    pub second: &'a NumberedRule,
}

/// An answer, where the sheet of a yes was tested.
#[derive(Clone, Copy)]
pub enum Answer {
    No,
    Yes,
    /// A yes whose sheet does not meet the definition. By the contract of `judge` it never comes.
    Unshown,
}

impl<'a> Asked<'a> {
    /// The answer, and how many nanoseconds a call took, by so many in a row.
    pub fn answer(&self, clock: &impl Clock, rounds: NonZeroU32) -> io::Result<(Answer, u128)>
        ensures { let q = self.now in IfOk result (λ r. Right r.0 q.kind (meaning q.first.now.rule) (meaning q.second.now.rule)) }
    {
        let mut sheet = Sheet::BLANK;
        let start = Instant::now(clock)?;
        let yes = self.repeat(rounds.get(), &mut sheet);
        let time = start.elapsed(clock)?;
        Ok((
            self.judge(yes, &sheet),
            time.as_nanos() / u128::from(rounds.get()),
        ))
    }

    /// Asks so many times in a row. The sheet is lent each time, so that no call can be left out.
    fn repeat(&self, rounds: u32, sheet: &mut Sheet) -> bool
        requires { 1 ≤ rounds }
        ensures holds { let q = self.now in Decides result (Holds q.kind (meaning q.first.now.rule) (meaning q.second.now.rule)) }
        ensures shown { let q = self.now in result ≡ true → Shows q.kind (meaning q.first.now.rule) (meaning q.second.now.rule) sheet.new }
    {
        let mut yes = ask(self.kind, &self.first.rule, &self.second.rule, sheet);
        for _ in 1..rounds {
            yes = ask(self.kind, &self.first.rule, &self.second.rule, sheet);
        }
        yes
    }

    /// The answer, after the sheet of a yes was tested.
    fn judge(&self, yes: bool, sheet: &Sheet) -> Answer
        requires holds { let q = self.now in Decides yes (Holds q.kind (meaning q.first.now.rule) (meaning q.second.now.rule)) }
        requires shown { let q = self.now in yes ≡ true → Shows q.kind (meaning q.first.now.rule) (meaning q.second.now.rule) sheet.now }
        ensures { let q = self.now in Right result q.kind (meaning q.first.now.rule) (meaning q.second.now.rule) }
    {
        if !yes {
            return Answer::No;
        }
        if verify(self.kind, &self.first.rule, &self.second.rule, sheet) {
            Answer::Yes
        } else {
            Answer::Unshown
        }
    }
}

/// The numbers of the two rules, and a letter for the relation.
impl<'a> fmt::Display for Asked<'a> {
    ghost output = { λ q. Some (asked_text q.first.now.number q.second.now.number q.kind) };

    fn fmt<W: fmt::Write>(&self, f: &mut fmt::Formatter<W>) -> fmt::Result {
        let first = self.first.number;
        let second = self.second.number;
        match self.kind {
            Kind::Positive => write!(f, "{first} {second} P"),
            Kind::Restraint => write!(f, "{first} {second} R"),
        }
    }
}

impl fmt::Display for Answer {
    ghost output = { λ a. Some (answer_text a) };

    fn fmt<W: fmt::Write>(&self, f: &mut fmt::Formatter<W>) -> fmt::Result {
        f.write_str(match *self {
            Answer::No => "0",
            Answer::Yes => "1",
            Answer::Unshown => "!",
        })
    }
}
