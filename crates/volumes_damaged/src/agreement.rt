//! Whether the check, what is taken up and the reader of a rule's atoms agree.
use rules::{Atom, Rule};
use volumes::{Entries, Facts, Item, NumberedRule, Placed, RuleAtoms, Rules, Volume};

/// What must agree beside the entries themselves.
pub trait Agrees: Entries {
    /// Whether what the volume has of the index is that of the entry.
    fn agrees(volume: &Volume<'_, Self>, index: usize, entry: &Self::Entry) -> bool;

    /// Whether, past the entries, the volume has nothing else of the index either.
    fn is_past(volume: &Volume<'_, Self>, index: usize) -> bool;
}

/// The atoms of each rule.
impl Agrees for Rules {
    fn agrees(volume: &Volume<'_, Rules>, index: usize, entry: &NumberedRule) -> bool {
        hands_out(volume.atoms(index), &entry.rule)
    }

    fn is_past(volume: &Volume<'_, Rules>, index: usize) -> bool {
        is_at_end(&mut volume.atoms(index))
    }
}

/// Nothing: a fact is all that the volume has of its index.
impl Agrees for Facts {
    fn agrees(_: &Volume<'_, Facts>, _: usize, _: &Atom) -> bool {
        true
    }

    fn is_past(_: &Volume<'_, Facts>, _: usize) -> bool {
        true
    }
}

/// Whether there are as many rules or facts as the check says, each of them is there with what the volume has of it, and
/// none past them. The volume is taken up once, and each entry is had once.
pub fn entries_agree<E: Agrees>(bytes: &[u8]) -> bool {
    let volume = Volume::<E>::take_up(bytes);
    let count = E::check(bytes).unwrap_or(0);
    let all = (0..count).all(|i| {
        E::entry(&volume, i).is_some_and(|entry| E::agrees(&volume, i, &entry))
    });
    let none_past = E::entry(&volume, count).is_none() && E::is_past(&volume, count);
    all && volume.count() == count && none_past
}

/// Whether the reader hands out the rule's atoms in their order and then ends.
fn hands_out(mut atoms: RuleAtoms<'_>, rule: &Rule) -> bool {
    let body = rule.body().iter().all(|atom| {
        matches!(atoms.next_item(), Ok(Some(Item::Body(placed))) if is_same(placed, atom))
    });
    let head = rule.head().iter().all(|atom| {
        matches!(atoms.next_item(), Ok(Some(Item::Head(placed))) if is_same(placed, atom))
    });
    body && head && is_at_end(&mut atoms)
}

/// Whether this is the atom, in as many bytes as one of its arity has.
fn is_same(placed: Placed<'_>, atom: &Atom) -> bool {
    placed.atom == *atom && placed.bytes.len() == 3 + 3 * atom.arity as usize
}

// It answers a bool, and only steps the reader that it is lent.
fn is_at_end(atoms: &mut RuleAtoms<'_>) -> bool {
    matches!(atoms.next_item(), Ok(None))
}
