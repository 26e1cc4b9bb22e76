//! What a source of facts declines.
ghost use Rattle.std.specs.Prelude.{◌≡◌};
ghost use Rattle.faults.specs.Sources.{source_number, source_rank, source_index, source_place};

/// Why a source of facts declines rows, to give a fact, or to apply a rule.
#[derive(Clone, Copy, PartialEq, Eq, Debug)]
pub enum SourceFault {
    /// There are over 4,096 rows.
    TooManyRows { rows: usize },
    /// A row is no fact: its arity or a kind in it is wrong. The first such row.
    WrongRow { row: usize },
    /// There is no fact of this index.
    NoFact { index: usize },
    /// What the variables are given is no match of the rule on the facts below.
    NoMatch,
    /// The match is satisfied on the facts below.
    SatisfiedMatch,
    /// A new null would be numbered over 65,535.
    NullTooLarge,
    /// There would be over 4,096 facts.
    TooManyFacts,
}

// The four parts of a refusal, as `Fault` has them: here the layer is always the source, and no index in the contents is
// concerned.
impl SourceFault {
    /// The refusal's number, 15 to 21.
    pub fn number(self) -> u8
        ensures { result ≡ source_number self }
    {
        match self {
            SourceFault::TooManyRows { .. } => 15,
            SourceFault::WrongRow { .. } => 16,
            SourceFault::NoFact { .. } => 17,
            SourceFault::NoMatch => 18,
            SourceFault::SatisfiedMatch => 19,
            SourceFault::NullTooLarge => 20,
            SourceFault::TooManyFacts => 21,
        }
    }

    /// The rank of the layer, which is 7.
    pub fn rank(self) -> u8
        ensures { result ≡ source_rank self }
    {
        7
    }

    /// The index in the contents, which is 0.
    pub fn index(self) -> usize
        ensures { result ≡ source_index self }
    {
        0
    }

    /// How many rows there are, the index of the wrong row, or the index that was asked for; for an application 0.
    pub fn place(self) -> usize
        ensures { result ≡ source_place self }
    {
        match self {
            SourceFault::TooManyRows { rows } => rows,
            SourceFault::WrongRow { row } => row,
            SourceFault::NoFact { index } => index,
            _ => 0,
        }
    }
}
