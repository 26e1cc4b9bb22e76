//! Each kind of line with its smallest and its largest numbers, in buffers of just enough bytes, of one less and of more.
use crate::{Line, line};
use faults::{AtomFault, EntryFault, Fault, LineFault, SourceFault, VolumeFault};
use std::alloc::Global;
use std::process::Abort;
use std::test::Fail;

/// What all bytes of a buffer are before a line is put into it; no line has such a byte.
const OLD: u8 = 7;

/// The line is printed as this text, and stands with a newline at the start of a buffer of so many bytes. Those after it
/// are as they were.
fn expect_put(
    rt: &impl Abort,
    heap: Global,
    given: &Line,
    text: &str,
    size: usize,
) -> Result<(), Fail> {
    let ended = format!(in heap; "{given}\n")?;
    assert_eq!(rt; ended.as_str().strip_suffix("\n"), Some(text));
    let mut buffer = vec![in heap; OLD; size]?;
    assert_eq!(rt;
        line(given, buffer.as_mut_slice()),
        Ok(ended.len()),
        "{text}"
    );
    let put = buffer.as_slice().get(..ended.len()).ok_or("short")?;
    assert_eq!(rt; put, ended.as_bytes(), "{text}");
    let rest = buffer.as_slice().get(ended.len()..).ok_or("short")?;
    assert!(rt; rest.iter().all(|b| *b == OLD), "{text}");
    Ok(())
}

/// A buffer of so many bytes is declined, and stays as it is.
fn expect_declined(rt: &impl Abort, heap: Global, given: &Line, size: usize) -> Result<(), Fail> {
    let mut buffer = vec![in heap; OLD; size]?;
    assert_eq!(rt;
        line(given, buffer.as_mut_slice()),
        Err(LineFault::ShortBuffer)
    );
    assert!(rt; buffer.as_slice().iter().all(|b| *b == OLD));
    Ok(())
}

/// The line is put into buffers of 40 bytes and more, and into no smaller one.
fn expect_line(rt: &impl Abort, heap: Global, given: Line, text: &str) -> Result<(), Fail> {
    for size in [40, 41, 100] {
        expect_put(rt, heap, &given, text, size)?;
    }
    for size in [0, 1, 39] {
        expect_declined(rt, heap, &given, size)?;
    }
    Ok(())
}

#[test]
fn lines_of_two_numbers(rt: HostRuntime) -> Result<(), Fail> {
    for (first, second, text) in [
        (0, 0, "0 0"),
        (2, 5, "2 5"),
        (9, 10, "9 10"),
        (99, 100, "99 100"),
        (1000, 9999, "1000 9999"),
        (10000, 65535, "10000 65535"),
        (65535, 0, "65535 0"),
    ] {
        let positive = format!(in rt.alloc(); "P {text}")?;
        expect_line(
            &rt,
            rt.alloc(),
            Line::Positive { first, second },
            positive.as_str(),
        )?;
        let restraint = format!(in rt.alloc(); "R {text}")?;
        expect_line(
            &rt,
            rt.alloc(),
            Line::Restraint { first, second },
            restraint.as_str(),
        )?;
    }
    Ok(())
}

#[test]
fn lines_of_grades(rt: HostRuntime) -> Result<(), Fail> {
    for (rule, grade, text) in [
        (0, 0, "G 0 0"),
        (7, 63, "G 7 63"),
        (65535, 255, "G 65535 255"),
        (65535, 9, "G 65535 9"),
    ] {
        expect_line(&rt, rt.alloc(), Line::Grade { rule, grade }, text)?;
    }
    expect_line(&rt, rt.alloc(), Line::NoGrades, "G -")
}

#[test]
fn lines_of_faults(rt: HostRuntime) -> Result<(), Fail> {
    let arity = VolumeFault::InEntry(EntryFault::InAtom(AtomFault::Arity { place: 29 }));
    // No volume is so long: this is the longest line that there is.
    let existentials = VolumeFault::InEntry(EntryFault::Existentials { place: usize::MAX });
    for (layer, index, place, text) in [
        (VolumeFault::Short, 0, 0, "X 1 1 0 0"),
        (VolumeFault::NotRising, 1, 7, "X 4 2 1 7"),
        (arity, 1, 29, "X 8 4 1 29"),
        (VolumeFault::Ends, 0, 131081, "X 5 1 0 131081"),
        (
            existentials,
            65535,
            usize::MAX,
            "X 10 3 65535 18446744073709551615",
        ),
    ] {
        let fault = Fault {
            layer,
            index,
            place,
        };
        expect_line(&rt, rt.alloc(), Line::Declined(fault), text)?;
    }
    Ok(())
}

/// All refusals are printed in one form, whatever their type.
#[test]
fn refusals(rt: HostRuntime) -> Result<(), Fail> {
    let text = format!(in rt.alloc(); "{}", LineFault::ShortBuffer)?;
    assert_eq!(rt; text.as_str(), "X 23 8 0 0");
    let text = format!(in rt.alloc(); "{}", SourceFault::WrongRow { row: 4095 })?;
    assert_eq!(rt; text.as_str(), "X 16 7 0 4095");
    Ok(())
}
