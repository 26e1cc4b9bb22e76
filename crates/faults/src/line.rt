//! What a buffer for a line is declined for.
ghost use Rattle.std.specs.Prelude.{◌≡◌};
ghost use Rattle.faults.specs.Lines.{line_number, line_rank, line_index, line_place};

/// Why no line is put into a buffer.
#[derive(Clone, Copy, PartialEq, Eq, Debug)]
pub enum LineFault {
    /// The buffer has under 40 bytes.
    ShortBuffer,
}

// The four parts of a refusal, as `Fault` has them: here the layer is always the line, and no index in the contents and no
// place is concerned.
impl LineFault {
    /// The refusal's number, which is 23.
    pub fn number(self) -> u8
        ensures { result ≡ line_number self }
    {
        match self {
            LineFault::ShortBuffer => 23,
        }
    }

    /// The rank of the layer, which is 8.
    pub fn rank(self) -> u8
        ensures { result ≡ line_rank self }
    {
        8
    }

    /// The index in the contents, which is 0.
    pub fn index(self) -> usize
        ensures { result ≡ line_index self }
    {
        0
    }

    /// The place, which is 0.
    pub fn place(self) -> usize
        ensures { result ≡ line_place self }
    {
        match self {
            LineFault::ShortBuffer => 0,
        }
    }
}
