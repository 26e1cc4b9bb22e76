//! The volume on standard input.
ghost use Rattle.std.specs.Prelude.{◌≡◌, take, IfOk, IfSome};

use std::alloc::Global;
use std::io::{self, Read};

/// Longer input is cut here.
const MOST_BYTES: u64 = 65536;

/// The bytes that remain of the input, or the first 65,536 of them. (Of an input of which it is not known what remains, as
/// standard input, nothing is said.)
pub fn read_volume<R: Read + Drop>(input: R, heap: Global) -> io::Result<Vec<u8>>
    ensures { IfOk result (λ bytes. IfSome (R.remaining input) (λ all. bytes.items ≡ take 65536 all)) }
{
    let mut bytes = Vec::new(heap);
    input.take(MOST_BYTES).read_to_end(&mut bytes)?;
    Ok(bytes)
}
