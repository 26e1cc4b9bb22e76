//! Prints what the volume on standard input holds: a rule or a fact to a line, or its first fault.
#![tactic(auto)]

ghost use Rattle.std.specs.Prelude.{Some};
ghost use Rattle.std.specs.Fmt.{WritesOnOk};
ghost use Rattle.volumes.specs.Text.{lines};
ghost use Rattle.contents.specs.Text.{answer_text, volume_text};

use inputs::read_volume;
use std::{fmt, io};
use volumes::{Entries, Facts, Rules, Volume};

/// A volume in bytes, printed as what it holds or as its first fault.
#[derive(Clone, Copy)]
struct Contents<'a> {
    bytes: &'a [u8],
}

/// A volume whose first byte is 2 is a fact volume, and any other a rule volume.
impl<'a> fmt::Display for Contents<'a> {
    ghost output = { λ c. Some (volume_text c.bytes.now) };

    fn fmt<W: fmt::Write>(&self, f: &mut fmt::Formatter<W>) -> fmt::Result {
        if self.bytes.first() == Some(&2) {
            write_volume::<Facts, W>(self.bytes, f)
        } else {
            write_volume::<Rules, W>(self.bytes, f)
        }
    }
}

fn write_volume<E: Entries, W: fmt::Write>(bytes: &[u8], f: &mut fmt::Formatter<W>) -> fmt::Result
    ensures { WritesOnOk W.write_str_gives f.old result (answer_text (lines E.text) (E.read bytes.now)) f.new }
{
    match E::check(bytes) {
        Ok(_) => {
            let volume = Volume::<E>::take_up(bytes);
            write!(f, "{volume}")
        }
        Err(fault) => writeln!(f, "{fault}"),
    }
}

fn main(rt: HostRuntime) -> io::Result<()> {
    let bytes = read_volume(rt.stdin(), rt.alloc())?;
    let bytes = bytes.as_slice();
    rt.print(Contents { bytes })
}
