// One fault: made of the records that it points at, and as bytes.
ghost use Rattle.std.specs.Prelude.{◌≡◌};
ghost use Rattle.rules.specs.Faults.{fault_bytes, single, double};

use rules::limits::FAULT_LENGTH;
use rules::{Fault, Record};

// A fault at one record.
pub fn single(code: u16, primary: Record) -> Fault
    ensures { result ≡ single code primary }
{
    Fault {
        code,
        start: primary.start,
        end: primary.end,
        ..Fault::default()
    }
}

// A fault at a primary record, with a secondary one.
pub fn double(code: u16, primary: Record, secondary: Record) -> Fault
    ensures { result ≡ double code primary secondary }
{
    Fault {
        secondary: 1,
        start2: secondary.start,
        end2: secondary.end,
        ..single(code, primary)
    }
}

// The bytes of a fault. No From, as neither type is this crate's own.
pub(crate) fn bytes_of(fault: Fault) -> [u8; FAULT_LENGTH]
    ensures { result ≡ fault_bytes fault }
{
    let mut bytes = [0; FAULT_LENGTH];
    bytes[0..2].copy_from_slice(&fault.code.to_le_bytes());
    bytes[2..4].copy_from_slice(&fault.secondary.to_le_bytes());
    bytes[4..8].copy_from_slice(&fault.start.to_le_bytes());
    bytes[8..12].copy_from_slice(&fault.end.to_le_bytes());
    bytes[12..16].copy_from_slice(&fault.start2.to_le_bytes());
    bytes[16..20].copy_from_slice(&fault.end2.to_le_bytes());
    bytes
}
