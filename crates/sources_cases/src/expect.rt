//! What a case expects of a source, whatever kind it is of.
use faults::SourceFault;
use rules::Atom;
use sources::FactSource;
use std::process::Abort;
use std::test::Fail;

/// A fault's number, the rank of its layer, its index and its place.
pub type Expected = (u8, u8, usize, usize);

pub fn told(fault: SourceFault) -> Expected {
    (fault.number(), fault.rank(), fault.index(), fault.place())
}

/// There is no fact of the index.
fn expect_none<S: FactSource>(rt: &impl Abort, source: &S, index: usize) -> Result<(), Fail> {
    let Err(fault) = source.fact(index) else {
        return Err(Fail::new("a fact past the last one"));
    };
    assert_eq!(rt; told(fault), (17, 7, 0, index));
    Ok(())
}

/// The source has these facts, in this order, and no others.
pub fn expect_facts<S: FactSource>(
    rt: &impl Abort,
    source: &S,
    facts: &[Atom],
) -> Result<(), Fail> {
    assert_eq!(rt; source.count(), facts.len());
    for (index, fact) in facts.iter().enumerate() {
        let Ok(given) = source.fact(index) else {
            return Err(Fail::new("too few facts"));
        };
        assert!(rt; given == *fact);
    }
    expect_none(rt, source, facts.len())?;
    expect_none(rt, source, facts.len().wrapping_add(1))?;
    expect_none(rt, source, 4096)?;
    expect_none(rt, source, usize::MAX)
}
