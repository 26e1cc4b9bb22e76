//! How often what is timed is done.
ghost use Rattle.std.specs.Prelude.{IfOk, IfSome};
ghost use Rattle.inputs.specs.Rounds.{Few};

use std::env::Env;
use std::num::NonZeroU32;
use std::{env, io};

/// More rounds than these are no number of rounds.
const MOST_ROUNDS: u32 = 1_000_000;

/// The number of rounds that the program is given, or none where it is given nothing.
pub fn read_rounds<R: Env + Alloc>(rt: &R) -> io::Result<Option<NonZeroU32>>
    ensures few { IfOk result (λ o. IfSome o Few) }
{
    let mut words = env::args(rt)?.skip(1);
    let Some(word) = words.next() else {
        return Ok(None);
    };
    let rounds = parse_rounds(word.as_str());
    if rounds.is_none() || words.next().is_some() {
        return Err(io::Error::other("give nothing, or a number of rounds from 1 to 1000000"));
    }
    Ok(rounds)
}

fn parse_rounds(word: &str) -> Option<NonZeroU32>
    ensures few { IfSome result Few }
{
    let rounds = word.parse::<u32>().ok()?;
    if rounds > MOST_ROUNDS {
        return None;
    }
    NonZeroU32::new(rounds)
}
