//! What a shelf of rules declines.
ghost use Rattle.std.specs.Prelude.{◌≡◌};
ghost use Rattle.faults.specs.Shelves.{shelf_number, shelf_rank, shelf_index, shelf_place};

/// Why a shelf declines a call.
#[derive(Clone, Copy, PartialEq, Eq, Debug)]
pub enum ShelfFault {
    /// The shelf holds 64 rules, so the one of this number is not admitted.
    Full { number: u16 },
    /// A rule of this number is held already.
    AlreadyHeld { number: u16 },
    /// No rule of this number is held.
    NotHeld { number: u16 },
    /// The volume has no rule of this index.
    NoRule { index: usize },
    /// No numbering keeps the reliances of the rules held.
    NoNumbering,
}

// The four parts of a refusal, as `Fault` has them: here the layer is always the shelf, and no index in the contents is
// concerned.
impl ShelfFault {
    /// The refusal's number, 11 to 14 or 22.
    pub fn number(self) -> u8
        ensures { result ≡ shelf_number self }
    {
        match self {
            ShelfFault::Full { .. } => 11,
            ShelfFault::AlreadyHeld { .. } => 12,
            ShelfFault::NotHeld { .. } => 13,
            ShelfFault::NoRule { .. } => 14,
            ShelfFault::NoNumbering => 22,
        }
    }

    /// The rank of the layer, which is 6.
    pub fn rank(self) -> u8
        ensures { result ≡ shelf_rank self }
    {
        6
    }

    /// The index in the contents, which is 0.
    pub fn index(self) -> usize
        ensures { result ≡ shelf_index self }
    {
        0
    }

    /// The rule's number, or the index that was asked for; for want of a numbering 0.
    pub fn place(self) -> usize
        ensures { result ≡ shelf_place self }
    {
        match self {
            ShelfFault::Full { number }
            | ShelfFault::AlreadyHeld { number }
            | ShelfFault::NotHeld { number } => number as usize,
            ShelfFault::NoRule { index } => index,
            ShelfFault::NoNumbering => 0,
        }
    }
}
