//! What can be wrong with a volume, layer by layer: each layer's fault carries that of the layer below. And what a shelf of
//! rules, a source of facts and a buffer for a line are declined for.
#![tactic(auto)]

ghost use Rattle.std.specs.Prelude.{◌≡◌};
ghost use Rattle.faults.specs.declared.TermFault.TheVariants.{Ended};
ghost use Rattle.faults.specs.declared.AtomFault.TheVariants.{CutShort};
ghost use Rattle.faults.specs.declared.EntryFault.TheVariants.{EntryEnded};
ghost use Rattle.faults.specs.Faults.{atom_fault, entry_fault, in_volume, entry_place, atom_place, term_place, rank_of, number_of};

mod line;
mod shelf;
mod show;
mod source;

pub use line::LineFault;
pub use shelf::ShelfFault;
pub use source::SourceFault;

/// The bytes ended inside a field. The place is where they end.
#[derive(Clone, Copy, PartialEq, Eq, Debug)]
pub struct Cut {
    pub place: usize,
}

/// What is wrong with a term.
#[derive(Clone, Copy, PartialEq, Eq, Debug)]
pub enum TermFault {
    Ended(Cut),
    /// The kind is not one that may stand here.
    Kind { place: usize },
    /// A variable's number is over 11.
    Number { place: usize },
}

/// What is wrong with an atom.
#[derive(Clone, Copy, PartialEq, Eq, Debug)]
pub enum AtomFault {
    CutShort(Cut),
    /// The arity is not 1 to 4.
    Arity { place: usize },
    InTerm(TermFault),
}

/// What is wrong with an entry of the contents: a rule or a fact.
#[derive(Clone, Copy, PartialEq, Eq, Debug)]
pub enum EntryFault {
    EntryEnded(Cut),
    /// The count of body atoms or that of head atoms is not allowed.
    Count { place: usize },
    /// The atoms end before the rule does.
    Left { place: usize },
    /// The rule has over four existential variables.
    Existentials { place: usize },
    InAtom(AtomFault),
}

/// What is wrong with a volume.
#[derive(Clone, Copy, PartialEq, Eq, Debug)]
pub enum VolumeFault {
    /// Shorter than its head or its contents.
    Short,
    /// The first byte is not that of such a volume.
    FirstByte,
    /// The count is too large.
    TooMany,
    /// The entries do not end where the volume does.
    Ends,
    /// A rule's number is not above the one before it.
    NotRising,
    /// A fact does not begin where the contents say.
    Misplaced,
    InEntry(EntryFault),
}

/// The first fault of a volume: what is wrong, by layers; the index in the contents, or 0; and the place in the bytes.
#[derive(Clone, Copy, PartialEq, Eq, Debug)]
pub struct Fault {
    pub layer: VolumeFault,
    pub index: u16,
    pub place: usize,
}

/// An entry's fault with the entry's index in the contents.
#[derive(Clone, Copy, PartialEq, Eq, Debug)]
pub struct EntryAt {
    pub index: u16,
    pub fault: EntryFault,
}

// Each From is written out, since a clause has to know which variant a `?` makes.
impl From<Cut> for TermFault {
    ghost from_gives = { λ c r. r ≡ Ended c };

    fn from(cut: Cut) -> TermFault {
        TermFault::Ended(cut)
    }
}

impl From<Cut> for AtomFault {
    ghost from_gives = { λ c r. r ≡ CutShort c };

    fn from(cut: Cut) -> AtomFault {
        AtomFault::CutShort(cut)
    }
}

impl From<Cut> for EntryFault {
    ghost from_gives = { λ c r. r ≡ EntryEnded c };

    fn from(cut: Cut) -> EntryFault {
        EntryFault::EntryEnded(cut)
    }
}

/// A cut is one of the rule or fact, in whatever layer it is found: it goes up as it is.
impl From<TermFault> for AtomFault {
    ghost from_gives = { λ t r. r ≡ atom_fault t };

    fn from(t: TermFault) -> AtomFault {
        match t {
            TermFault::Ended(c) => AtomFault::CutShort(c),
            other => AtomFault::InTerm(other),
        }
    }
}

impl From<AtomFault> for EntryFault {
    ghost from_gives = { λ a r. r ≡ entry_fault a };

    fn from(a: AtomFault) -> EntryFault {
        match a {
            AtomFault::CutShort(c) => EntryFault::EntryEnded(c),
            other => EntryFault::InAtom(other),
        }
    }
}

impl From<EntryAt> for Fault {
    ghost from_gives = { λ f r. r ≡ in_volume f.index f.fault };

    fn from(f: EntryAt) -> Fault {
        Fault {
            layer: VolumeFault::InEntry(f.fault),
            index: f.index,
            place: f.fault.place(),
        }
    }
}

impl TermFault {
    /// The first byte of the wrong field, or where the bytes end.
    pub fn place(self) -> usize
        ensures { result ≡ term_place self }
    {
        match self {
            TermFault::Ended(c) => c.place,
            TermFault::Kind { place } | TermFault::Number { place } => place,
        }
    }
}

impl AtomFault {
    /// The first byte of the wrong field, or where the bytes end.
    pub fn place(self) -> usize
        ensures { result ≡ atom_place self }
    {
        match self {
            AtomFault::CutShort(c) => c.place,
            AtomFault::Arity { place } => place,
            AtomFault::InTerm(t) => t.place(),
        }
    }
}

impl EntryFault {
    /// The first byte of the wrong field, or where the bytes end.
    pub fn place(self) -> usize
        ensures { result ≡ entry_place self }
    {
        match self {
            EntryFault::EntryEnded(c) => c.place,
            EntryFault::Count { place }
            | EntryFault::Left { place }
            | EntryFault::Existentials { place } => place,
            EntryFault::InAtom(a) => a.place(),
        }
    }
}

impl Fault {
    // A number, and no enum of its own: the layers already tell the refusals apart, and what is printed is the number.
    /// The refusal's number, 1 to 10.
    pub fn number(self) -> u8
        ensures { result ≡ number_of self.layer }
    {
        match self.layer {
            VolumeFault::Short => 1,
            VolumeFault::FirstByte => 2,
            VolumeFault::TooMany => 3,
            VolumeFault::NotRising | VolumeFault::Misplaced => 4,
            VolumeFault::Ends => 5,
            VolumeFault::InEntry(EntryFault::Count { .. }) => 6,
            VolumeFault::InEntry(EntryFault::EntryEnded(_)) => 7,
            VolumeFault::InEntry(EntryFault::Left { .. }) => 7,
            VolumeFault::InEntry(EntryFault::Existentials { .. }) => 10,
            VolumeFault::InEntry(EntryFault::InAtom(AtomFault::CutShort(_))) => 7,
            VolumeFault::InEntry(EntryFault::InAtom(AtomFault::Arity { .. })) => 8,
            VolumeFault::InEntry(EntryFault::InAtom(AtomFault::InTerm(TermFault::Ended(_)))) => 7,
            VolumeFault::InEntry(EntryFault::InAtom(AtomFault::InTerm(_))) => 9,
        }
    }

    // A number for the same reason.
    /// The rank of the fault's layer: volume 1, contents 2, rule or fact 3, atom 4, term 5.
    pub fn rank(self) -> u8
        ensures { result ≡ rank_of self.layer }
    {
        match self.layer {
            VolumeFault::NotRising | VolumeFault::Misplaced => 2,
            VolumeFault::InEntry(EntryFault::InAtom(AtomFault::Arity { .. })) => 4,
            VolumeFault::InEntry(EntryFault::InAtom(AtomFault::InTerm(TermFault::Kind { .. }))) =>
                5,
            VolumeFault::InEntry(EntryFault::InAtom(AtomFault::InTerm(TermFault::Number { .. }))) =>
                5,
            VolumeFault::InEntry(_) => 3,
            _ => 1,
        }
    }
}
