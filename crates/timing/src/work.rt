//! What is timed, and how.
ghost use Rattle.std.specs.Prelude.{◌≤◌, IfOk};

use std::io;
use std::num::NonZeroU32;
use std::time::{Clock, Instant};

/// Something that can be done any number of times.
pub trait Work {
    type Answer: Drop;

    // What an answer says of the work.
    ghost Right: { Self → Self.Answer → Type 0 };

    fn once(&self) -> Self::Answer
        ensures { Right self.now result };
}

/// The answer, and how many nanoseconds the work took, by so many times in a row.
pub fn time<W: Work>(
    work: &W,
    clock: &impl Clock,
    rounds: NonZeroU32,
) -> io::Result<(W::Answer, u128)>
    ensures { IfOk result (λ r. W.Right work.now r.0) }
{
    let start = Instant::now(clock)?;
    let answer = repeat(work, rounds.get());
    let time = start.elapsed(clock)?;
    Ok((answer, time.as_nanos() / u128::from(rounds.get())))
}

/// The last answer of so many.
fn repeat<W: Work>(work: &W, rounds: u32) -> W::Answer
    ensures { W.Right work.now result }
{
    let mut answer = work.once();
    for _ in 1..rounds {
        answer = work.once();
    }
    answer
}
