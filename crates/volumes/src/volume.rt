//! Volumes that are taken up: the bytes, and how many rules or facts they hold.
ghost use Rattle.std.specs.Prelude.{◌≡◌, ℕ, List, length, Some, Result, ⊤};
ghost use Rattle.faults.specs.declared.Fault.{Fault};
ghost use Rattle.volumes.specs.Answers.{TheAnswer, TakenUp, Had, counted, taken};

use faults::Fault;
use std::alloc::AllocError;
use std::fmt;
use std::marker::PhantomData;

/// What a volume is of, with what differs between the two: `Rules` or `Facts`.
pub trait Entries {
    /// A rule or fact as it is handed out.
    type Entry: fmt::Display + Drop;

    // What an entry means, and the text that a meaning is printed as.
    ghost Thing: { Type 0 };

    ghost means: { Self.Entry → Thing };

    ghost text: { Thing → List ℕ };

    // What bytes hold, or their first fault; and what the layout says that they hold.
    ghost read: { List ℕ → Result (List Thing) Fault };

    ghost Says: { List ℕ → Result (List Thing) Fault → Type 0 };

    /// How many rules or facts the bytes hold, or their first fault.
    fn check(bytes: &[u8]) -> Result<usize, Fault>
        ensures value { result ≡ counted (read bytes.now) }
        ensures exact { TheAnswer (Says bytes.now) (read bytes.now) };

    /// The rule or fact of an index in the contents, or none where there are not so many.
    fn entry(volume: &Volume<'_, Self>, index: usize) -> Option<Self::Entry>
        ensures { Had means (taken (read volume.now.bytes.now)) index result };

    // An entry is printed as what it means.
    ghost shown: { (x : Self.Entry) → Self.Entry.output x ≡ Some (text (means x)) };
}

/// A volume that is taken up. What fails the check is taken up as a volume of nothing.
pub struct Volume<'a, E: Entries> {
    pub(crate) bytes: &'a [u8],
    pub(crate) count: usize,
    entries: PhantomData<E>,
    ghost counted: { count ≡ length (taken (E.read bytes.now)) },
}

impl<'a, E: Entries> Volume<'a, E> {
    /// The volume in the bytes; one of nothing where they fail the check.
    pub fn take_up(bytes: &'a [u8]) -> Volume<'a, E>
        ensures holds { TakenUp (E.Says bytes.now) (taken (E.read result.bytes.now)) }
        ensures same { result.bytes.now ≡ bytes.now }
    {
        Volume {
            bytes,
            count: E::check(bytes).unwrap_or(0),
            entries: PhantomData,
        }
    }

    /// How many rules or facts there are.
    pub fn count(&self) -> usize
        ensures { result ≡ length (taken (E.read self.now.bytes.now)) }
    {
        self.count
    }
}

// Written out, since a derive does not cover a type parameter beside a fact.
impl<'a, E: Entries> Clone for Volume<'a, E> {
    ghost is_clone = { λ a b. b ≡ a };

    ghost is_infallible = { λ _. ⊤ };

    fn clone(&self) -> Result<Volume<'a, E>, AllocError> {
        Ok(*self)
    }
}

impl<'a, E: Entries> Copy for Volume<'a, E> {}
