//! The kinds of volumes, and of terms in them.
ghost use Rattle.std.specs.Prelude.{◌≡◌};
ghost use Rattle.volumes.specs.Layout.{first_byte_of, most, width};
ghost use Rattle.volumes.specs.Reading.{kind_of};

/// What a volume holds. Its first byte is this number.
#[derive(Clone, Copy)]
pub(crate) enum VolumeKind {
    Rules = 1,
    Facts = 2,
}

#[derive(Clone, Copy)]
pub(crate) enum TermKind {
    Constant,
    Variable,
    Null,
}

// A table for each number, and no constants of a trait: so both kinds stand side by side.
impl VolumeKind {
    pub(crate) fn first_byte(self) -> u8
        ensures { result ≡ first_byte_of self }
    {
        self as u8
    }

    /// The largest count.
    pub(crate) fn most(self) -> usize
        ensures { result ≡ most self }
    {
        match self {
            VolumeKind::Rules => 64,
            VolumeKind::Facts => 2048,
        }
    }

    /// How many bytes the contents have for each rule or fact.
    pub(crate) fn width(self) -> usize
        ensures { result ≡ width self }
    {
        match self {
            VolumeKind::Rules => 4,
            VolumeKind::Facts => 2,
        }
    }

    /// The kind of a term that has this kind byte, or none where no such term may stand in the volume.
    pub(crate) fn term_kind(self, byte: u8) -> Option<TermKind>
        ensures { result ≡ kind_of self byte }
    {
        match (self, byte) {
            (_, 0) => Some(TermKind::Constant),
            (VolumeKind::Rules, 1) => Some(TermKind::Variable),
            (VolumeKind::Facts, 2) => Some(TermKind::Null),
            _ => None,
        }
    }
}
