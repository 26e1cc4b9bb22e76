//! Fields of one byte and of two.
ghost use Rattle.std.specs.Prelude.{◌≡◌, ◌+◌, ◌≤◌, length, OnOk};
ghost use Rattle.volumes.specs.Layout.{pair};
ghost use Rattle.volumes.specs.Reading.{read_byte, read_pair};
ghost use Rattle.volumes.specs.Moves.{Past};

use crate::cursor::Cursor;
use faults::Cut;

/// The two-byte number at a place, high byte first.
pub(crate) fn pair_at(bytes: &[u8], p: usize) -> u16
    requires { p + 2 ≤ length bytes.now }
    ensures { result ≡ pair bytes.now p }
{
    u16::from_be_bytes([bytes[p], bytes[p + 1]])
}

impl<'a> Cursor<'a> {
    /// The next byte.
    pub(crate) fn byte(&mut self) -> Result<u8, Cut>
        ensures value { result ≡ read_byte self.old.bytes.now self.old.end self.old.place }
        ensures moved { OnOk result (Past self.old 1 self.new) }
    {
        if self.place == self.end {
            return Err(Cut { place: self.end });
        }
        let byte = self.bytes[self.place];
        self.place += 1;
        Ok(byte)
    }

    /// The next two-byte number.
    pub(crate) fn pair(&mut self) -> Result<u16, Cut>
        ensures value { result ≡ read_pair self.old.bytes.now self.old.end self.old.place }
        ensures moved { OnOk result (Past self.old 2 self.new) }
    {
        if self.end - self.place < 2 {
            return Err(Cut { place: self.end });
        }
        let pair = pair_at(self.bytes, self.place);
        self.place += 2;
        Ok(pair)
    }
}
