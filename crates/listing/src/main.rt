//! Lists the rules of the volume on standard input: which reliances hold between them, and their grades.
#![tactic(auto)]

mod asked;
mod listing;
mod printed;

use inputs::read_volume;
use listing::list;
use std::io::{self, Write};

fn main(rt: HostRuntime) -> io::Result<()> {
    let bytes = read_volume(rt.stdin(), rt.alloc())?;
    let text = list(bytes.as_slice(), rt.alloc())?;
    rt.stdout().write_all(text.as_slice())
}
