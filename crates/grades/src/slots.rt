ghost use Rattle.std.specs.Prelude.{ℕ, ◌<◌, ◌≡◌, ◌⊎◌, ◌↔◌, Decides};
ghost use Rattle.grades.specs.Pairs.{HasSlot};
ghost use Rattle.grades.specs.Sets.{Taken, Emptiness};

/// A set of slots.
#[derive(Clone, Copy)]
pub struct Slots {
    // Slot i is bit i.
    pub(crate) bits: u64,
}

impl Slots {
    /// No slot.
    pub fn new() -> Slots
        ensures { (i : ℕ) → HasSlot result i → ⊥ }
    {
        Slots { bits: 0 }
    }

    /// Whether the slot is in the set. No slot over 63 is.
    pub fn has(self, slot: usize) -> bool
        ensures { Decides result (HasSlot self slot) }
    {
        slot < 64 && (self.bits >> slot) & 1 == 1
    }

    /// Adds the slot. Over 63 there is none, and nothing is added.
    pub fn put(&mut self, slot: usize)
        ensures { (i : ℕ) → HasSlot self.new i ↔ (HasSlot self.old i ⊎ ((i ≡ slot) × (slot < 64))) }
    {
        if slot < 64 {
            self.bits |= 1 << slot;
        }
    }

    pub(crate) fn is_empty(self) -> bool
        ensures { Emptiness self result }
    {
        self.bits == 0
    }

    /// The slots that are in both sets.
    pub(crate) fn within(self, other: Slots) -> Slots
        ensures { (i : ℕ) → HasSlot result i ↔ (HasSlot self i × HasSlot other i) }
    {
        Slots {
            bits: self.bits & other.bits,
        }
    }

    /// The slots that are not in the other set.
    pub(crate) fn without(self, other: Slots) -> Slots
        ensures { (i : ℕ) → HasSlot result i ↔ (HasSlot self i × (HasSlot other i → ⊥)) }
    {
        Slots {
            bits: self.bits & !other.bits,
        }
    }

    /// The slots that are in one of the sets.
    pub(crate) fn with(self, other: Slots) -> Slots
        ensures { (i : ℕ) → HasSlot result i ↔ (HasSlot self i ⊎ HasSlot other i) }
    {
        Slots {
            bits: self.bits | other.bits,
        }
    }

    /// Takes the lowest slot out, or nothing where the set is empty.
    pub(crate) fn take_lowest(&mut self) -> Option<usize>
        ensures { Taken self.old self.new result }
    {
        if self.bits == 0 {
            return None;
        }
        let slot = self.bits.trailing_zeros();
        self.bits &= !(1 << slot);
        Some(slot as usize)
    }
}
