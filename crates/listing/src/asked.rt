//! The calls that a listing makes.
ghost use Rattle.std.specs.Prelude.{◌≡◌, ◌++◌, IfOk, OnOk, length};
ghost use Rattle.std.specs.List.{flat_map};
ghost use Rattle.volumes.specs.Volumes.{rules_of};
ghost use Rattle.listing.specs.Calls.{numbers, admitting, pair_calls, row_calls, asking};

use arrayvec::ArrayVec;
use reliances::Kind;
use shelf::Call;
use std::alloc::{AllocError, Global};
use volumes::RuleVolume;

/// The rules' numbers.
pub(crate) fn numbers_of(volume: &RuleVolume) -> ArrayVec<u16, 64>
    ensures { result.items ≡ numbers (rules_of volume.now.bytes.now) }
{
    let mut numbers = ArrayVec::new();
    for index in 0..volume.count() {
        if let Some(rule) = volume.rule(index) {
            numbers.push(rule.number);
        }
    }
    numbers
}

/// The admission of each rule, the questions about each two, and the grading.
pub(crate) fn calls_for<'a>(
    volume: &RuleVolume<'a>,
    numbers: &[u16],
    heap: Global,
) -> Result<Vec<Call<'a>>, AllocError>
    ensures { IfOk result (λ calls. calls.items ≡ admitting (Call.Admit volume.now) 0 (length numbers.now) ++ asking numbers.now) }
{
    let mut calls = Vec::new(heap);
    for index in 0..numbers.len() {
        calls.push(Call::Admit {
            volume: *volume,
            index,
        })?;
    }
    push_all(numbers, &mut calls)?;
    calls.push(Call::Grade)?;
    Ok(calls)
}

/// The questions about each first rule and each second one.
fn push_all(numbers: &[u16], calls: &mut Vec<Call<'_>>) -> Result<(), AllocError>
    ensures { OnOk result (calls.new.items ≡ calls.old.items ++ flat_map (row_calls numbers.now) numbers.now) }
{
    for first in numbers {
        push_row(*first, numbers, calls)?;
    }
    Ok(())
}

/// The questions about a first rule and each second one.
fn push_row(first: u16, numbers: &[u16], calls: &mut Vec<Call<'_>>) -> Result<(), AllocError>
    ensures { OnOk result (calls.new.items ≡ calls.old.items ++ row_calls numbers.now first) }
{
    for second in numbers {
        push_pair(first, *second, calls)?;
    }
    Ok(())
}

fn push_pair(first: u16, second: u16, calls: &mut Vec<Call<'_>>) -> Result<(), AllocError>
    ensures { OnOk result (calls.new.items ≡ calls.old.items ++ pair_calls first second) }
{
    calls.push(Call::Ask {
        kind: Kind::Positive,
        first,
        second,
    })?;
    calls.push(Call::Ask {
        kind: Kind::Restraint,
        first,
        second,
    })?;
    Ok(())
}
