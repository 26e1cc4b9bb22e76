ghost use Rattle.std.specs.Prelude.{ℕ, ◌<◌, ◌≡◌, ◌⊎◌, ◌↔◌, Decides};
ghost use Rattle.grades.specs.Pairs.{HasSlot, Related, PairCount};

use crate::Slots;

/// A relation between slots, as the set of its pairs.
#[derive(Clone, Copy)]
pub struct Pairs {
    // The pair of slots i and j is bit j of row i.
    rows: [u64; 64],
}

impl Pairs {
    /// No pair.
    pub fn new() -> Pairs
        ensures { (i j : ℕ) → Related result i j → ⊥ }
    {
        Pairs { rows: [0; 64] }
    }

    /// Whether the pair is in the relation. No pair with a slot over 63 is.
    pub fn has(&self, first: usize, second: usize) -> bool
        ensures { Decides result (Related self.now first second) }
    {
        first < 64 && self.row(first).has(second)
    }

    /// Adds the pair. Over 63 there is no slot, and nothing is added.
    pub fn put(&mut self, first: usize, second: usize)
        ensures { (i j : ℕ) → Related self.new i j
            ↔ (Related self.old i j ⊎ ((i ≡ first) × (j ≡ second) × (first < 64) × (second < 64))) }
    {
        if first < 64 {
            let mut row = self.row(first);
            row.put(second);
            self.rows[first] = row.bits;
        }
    }

    /// How many pairs there are.
    pub fn count(&self) -> u16
        ensures { PairCount (Related self.now) result }
    {
        let mut total = 0;
        for row in self.rows {
            total += row.count_ones() as u16;
        }
        total
    }

    /// The slots that the slot is related to.
    fn row(&self, slot: usize) -> Slots
        requires { slot < 64 }
        ensures { (j : ℕ) → HasSlot result j ↔ Related self.now slot j }
    {
        Slots {
            bits: self.rows[slot],
        }
    }

    /// The slots that some slot of the set is related to.
    pub(crate) fn after(&self, set: Slots) -> Slots
        ensures { (j : ℕ) → HasSlot result j ↔ ((i : ℕ) × HasSlot set i × Related self.now i j) }
    {
        let mut rest = set;
        let mut found = Slots::new();
        while let Some(slot) = rest.take_lowest() {
            found = found.with(self.row(slot));
        }
        found
    }
}
