//! A reader that hands out a rule's atoms one by one.
ghost use Rattle.std.specs.Prelude.{◌≡◌};
ghost use Rattle.volumes.specs.Items.{Hands};

use crate::cursor::Cursor;
use crate::kind::VolumeKind;
use faults::AtomFault;
use rules::Atom;

/// What is left of a rule's atoms: so many of the body, then so many of the head.
#[derive(Drop)]
pub struct RuleAtoms<'a> {
    pub(crate) cursor: Cursor<'a>,
    pub(crate) bodies: u8,
    pub(crate) heads: u8,
}

/// An atom with its part of the volume's bytes and the place of the first of them.
#[derive(Clone, Copy)]
pub struct Placed<'a> {
    pub atom: Atom,
    pub bytes: &'a [u8],
    pub place: usize,
}

/// What the reader hands out: an atom of the body, or one of the head.
#[derive(Clone, Copy)]
pub enum Item<'a> {
    Body(Placed<'a>),
    Head(Placed<'a>),
}

impl<'a> RuleAtoms<'a> {
    /// A reader that is at its end.
    pub(crate) fn none(bytes: &'a [u8]) -> RuleAtoms<'a>
        ensures bytes { result.cursor.bytes.now ≡ bytes.now }
        ensures none { (result.bodies ≡ 0) × (result.heads ≡ 0) }
    {
        let cursor = Cursor {
            bytes,
            place: 0,
            end: 0,
        };
        RuleAtoms {
            cursor,
            bodies: 0,
            heads: 0,
        }
    }

    /// The next atom, or none at the end; or what is wrong with the atom that should stand here. After an end or a
    /// fault the reader stands as it stood, so that asking again gives the same answer.
    pub fn next_item(&mut self) -> Result<Option<Item<'a>>, AtomFault>
        ensures { Hands self.old result self.new }
    {
        if self.bodies == 0 && self.heads == 0 {
            return Ok(None);
        }
        let Cursor { bytes, place, .. } = self.cursor;
        let mut cursor = self.cursor;
        let atom = cursor.atom(VolumeKind::Rules)?;
        self.cursor = cursor;
        let placed = Placed {
            atom,
            bytes: &bytes[place..cursor.place],
            place,
        };
        if self.bodies > 0 {
            self.bodies -= 1;
            Ok(Some(Item::Body(placed)))
        } else {
            self.heads -= 1;
            Ok(Some(Item::Head(placed)))
        }
    }
}
