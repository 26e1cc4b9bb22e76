//! Where the reading of the bytes stands.
ghost use Rattle.std.specs.Prelude.{◌≤◌, length};

/// A place in the bytes, and the end of the part that is read.
#[derive(Clone, Copy)]
pub(crate) struct Cursor<'a> {
    pub(crate) bytes: &'a [u8],
    pub(crate) place: usize,
    pub(crate) end: usize,
    ghost within: { (place ≤ end) × (end ≤ length bytes.now) },
}
