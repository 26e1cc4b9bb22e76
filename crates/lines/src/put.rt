//! The call that puts a line into a buffer.
ghost use Rattle.std.specs.Prelude.{◌≡◌, ◌<◌, ◌≤◌, length, Ok, Err};
ghost use Rattle.faults.specs.declared.line.LineFault.TheVariants.{ShortBuffer};
ghost use Rattle.lines.specs.Lines.{ended_text, over};

use crate::Line;
use crate::text::{MOST, put_line};
use faults::LineFault;

/// Puts the line with its newline at the start of the buffer, and says how many bytes it has. The rest of the buffer stays as
/// it is; all of it does where it has under 40 bytes.
pub fn line(line: &Line, buffer: &mut [u8]) -> Result<usize, LineFault>
    ensures put { 40 ≤ length buffer.old → (result ≡ Ok (length (ended_text line.now))) × (buffer.new ≡ over (ended_text line.now) buffer.old) }
    ensures declined { length buffer.old < 40 → (result ≡ Err ShortBuffer) × (buffer.new ≡ buffer.old) }
    ensures fits { length (ended_text line.now) ≤ 40 }
{
    // Before the buffer is looked at, since it is promised in any case that the line fits 40 bytes.
    let mut text = [0; MOST];
    let start = put_line(&mut text, *line);
    if buffer.len() < MOST {
        return Err(LineFault::ShortBuffer);
    }
    let size = MOST - start;
    buffer[..size].copy_from_slice(&text[start..]);
    Ok(size)
}
