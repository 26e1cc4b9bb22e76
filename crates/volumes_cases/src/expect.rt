//! What a case expects, and whether it is so.
use crate::build::changed;
use std::alloc::{AllocError, Global};
use std::process::Abort;
use std::test::Fail;
use volumes::{Entries, Volume};

/// A fault's number, the rank of its layer, its index and its place.
pub type Expected = (u8, u8, u16, usize);

/// The bytes have this fault, and are taken up as a volume of nothing.
pub fn expect_fault<E: Entries>(
    rt: &impl Abort,
    bytes: &[u8],
    expected: Expected,
) -> Result<(), Fail> {
    assert_eq!(rt; Volume::<E>::take_up(bytes).count(), 0);
    let Err(f) = E::check(bytes) else {
        return Err(Fail::new("accepted"));
    };
    assert_eq!(rt; (f.number(), f.rank(), f.index, f.place), expected);
    Ok(())
}

/// The bytes are accepted with this count, and taken up with it.
pub fn expect_count<E: Entries>(rt: &impl Abort, bytes: &[u8], count: usize) -> Result<(), Fail> {
    assert_eq!(rt; Volume::<E>::take_up(bytes).count(), count);
    assert_eq!(rt; E::check(bytes), Ok(count));
    Ok(())
}

/// What the check answers: a fault's number, the rank of its layer, its index and its place, or `accepted` and the count.
fn answer_text<E: Entries>(heap: Global, bytes: &[u8]) -> Result<String, AllocError> {
    match E::check(bytes) {
        Ok(count) => format!(in heap; "accepted {count}"),
        Err(f) => format!(in heap; "{} {} {} {}", f.number(), f.rank(), f.index, f.place),
    }
}

/// A line of a table holds of the bytes: changes to them, and after a colon what the check then answers. As many rules
/// or facts are taken up as it says, and none where there is a fault.
fn expect_line<E: Entries>(
    rt: &impl Abort,
    heap: Global,
    bytes: &[u8],
    line: &str,
) -> Result<(), Fail> {
    let (changes, expected) = line.split_once(": ").ok_or("no colon")?;
    let copy = changed(heap, bytes, changes)?;
    let text = answer_text::<E>(heap, copy.as_slice())?;
    assert_eq!(rt; text.as_str(), expected, "{line}");
    let count = E::check(copy.as_slice()).unwrap_or(0);
    assert_eq!(rt;
        Volume::<E>::take_up(copy.as_slice()).count(),
        count,
        "{line}"
    );
    Ok(())
}

/// Each line of the table holds of the bytes, as `8=5: 4 2 1 7` where with the value 5 at the place 8 they have the fault
/// 4 of layer 2 with index 1 and place 7. Empty lines and those that begin with # say nothing.
pub fn expect_lines<E: Entries>(
    rt: &impl Abort,
    heap: Global,
    bytes: &[u8],
    table: &str,
) -> Result<(), Fail> {
    for line in table.lines() {
        let line = line.trim();
        if !line.is_empty() && !line.starts_with("#") {
            expect_line::<E>(rt, heap, bytes, line)?;
        }
    }
    Ok(())
}
