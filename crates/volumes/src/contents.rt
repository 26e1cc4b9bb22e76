//! The head of a volume and its contents.
ghost use Rattle.std.specs.Prelude.{◌≡◌};
ghost use Rattle.faults.specs.Faults.{fault};
ghost use Rattle.volumes.specs.Reading.{read_count};

use crate::fields::pair_at;
use crate::kind::VolumeKind;
use faults::{Fault, VolumeFault};

/// A fault of the volume itself, which is in no entry of the contents.
pub(crate) fn volume_fault(layer: VolumeFault, place: usize) -> Fault
    ensures { result ≡ fault layer 0 place }
{
    Fault {
        layer,
        index: 0,
        place,
    }
}

/// How many rules or facts the volume has, where its contents are whole.
pub(crate) fn read_count(kind: VolumeKind, bytes: &[u8]) -> Result<usize, Fault>
    ensures { result ≡ read_count kind bytes.now }
{
    if bytes.len() < 3 {
        return Err(volume_fault(VolumeFault::Short, bytes.len()));
    }
    if bytes[0] != kind.first_byte() {
        return Err(volume_fault(VolumeFault::FirstByte, 0));
    }
    let count = pair_at(bytes, 1) as usize;
    if count > kind.most() {
        return Err(volume_fault(VolumeFault::TooMany, 1));
    }
    if bytes.len() < 3 + kind.width() * count {
        return Err(volume_fault(VolumeFault::Short, bytes.len()));
    }
    Ok(count)
}
