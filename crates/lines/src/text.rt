//! The bytes of a line, which are written from the last to the first: so each number's digits have one place to end at.
ghost use Rattle.std.specs.Prelude.{◌≡◌, ◌+◌, ◌<◌, ◌≤◌, [], ◌∷◌, ◌++◌, length, drop, codes, decimal};
ghost use Rattle.faults.specs.Faults.{fault_text};
ghost use Rattle.lines.specs.Lines.{two_numbers, ended_text};

use crate::Line;
use faults::Fault;
use itoa::write_digits;

/// No line has more bytes.
pub(crate) const MOST: usize = 40;

/// Puts the byte before `end`, and says where.
fn put_byte(text: &mut [u8], end: usize, byte: u8) -> usize
    requires { (0 < end) × (end ≤ length text.old) }
    ensures start { result + 1 ≡ end }
    ensures written { drop result text.new ≡ byte ∷ drop end text.old }
{
    text[end - 1] = byte;
    end - 1
}

/// Puts a space and the number before `end`, and says where.
fn put_number(text: &mut [u8], end: usize, number: u64) -> usize
    requires { (length (decimal number) < end) × (end ≤ length text.old) }
    ensures start { result + (1 + length (decimal number)) ≡ end }
    ensures written { drop result text.new ≡ codes " " ++ (decimal number ++ drop end text.old) }
{
    let start = write_digits(number, text, end);
    put_byte(text, start, b' ')
}

/// Puts a letter and two numbers before `end`, and says where.
#[tactic(auto, using(crate::proofs::Sizes::sizes))]
fn put_two(text: &mut [u8], end: usize, letter: u8, first: u16, second: u16) -> usize
    requires { (13 ≤ end) × (end ≤ length text.old) }
    ensures within { result ≤ end }
    ensures written { drop result text.new ≡ two_numbers (letter ∷ []) first second ++ drop end text.old }
{
    let end = put_number(text, end, u64::from(second));
    let end = put_number(text, end, u64::from(first));
    put_byte(text, end, letter)
}

/// Puts a fault before `end`, and says where.
#[tactic(auto, using(crate::proofs::Sizes::sizes))]
fn put_fault(text: &mut [u8], end: usize, fault: Fault) -> usize
    requires { (36 ≤ end) × (end ≤ length text.old) }
    ensures within { result ≤ end }
    ensures written { drop result text.new ≡ fault_text fault ++ drop end text.old }
{
    let end = put_number(text, end, fault.place as u64);
    let end = put_number(text, end, u64::from(fault.index));
    let end = put_number(text, end, u64::from(fault.rank()));
    let end = put_number(text, end, u64::from(fault.number()));
    put_byte(text, end, b'X')
}

/// Puts `G -` before `end`, and says where.
fn put_no_grades(text: &mut [u8], end: usize) -> usize
    requires { (3 ≤ end) × (end ≤ length text.old) }
    ensures within { result ≤ end }
    ensures written { drop result text.new ≡ codes "G -" ++ drop end text.old }
{
    let end = put_byte(text, end, b'-');
    let end = put_byte(text, end, b' ');
    put_byte(text, end, b'G')
}

/// Puts the line at the end of the text, and says where it begins.
#[tactic(auto, using(crate::proofs::Sizes::nothing_after))]
pub(crate) fn put_line(text: &mut [u8; MOST], line: Line) -> usize
    ensures within { result ≤ 40 }
    ensures written { drop result text.new ≡ ended_text line }
{
    let end = put_byte(text, MOST, b'\n');
    match line {
        Line::Positive { first, second } => put_two(text, end, b'P', first, second),
        Line::Restraint { first, second } => put_two(text, end, b'R', first, second),
        Line::Grade { rule, grade } => put_two(text, end, b'G', rule, u16::from(grade)),
        Line::NoGrades => put_no_grades(text, end),
        Line::Declined(fault) => put_fault(text, end, fault),
    }
}
