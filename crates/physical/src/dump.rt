// A dump: bytes held for reading that are no memory. It can be looked at, and not written.
ghost use Rattle.std.specs.Prelude.{◌≡◌, ◌+◌, ◌-◌, ◌*◌, ◌≤◌, length, None as Nothing, Some, MatchOption};
ghost use Rattle.physical.specs.Bytes.{laid_checked};
ghost use Rattle.physical.specs.Made.{dump_values};
ghost use Rattle.physical.specs.Stores.{dword};

use crate::checks::checked_start;
use crate::{MemoryError, ReadableStore, dword_number};

#[derive(Clone, Copy)]
pub struct Dump<'a> {
    pub(crate) bytes: &'a [u8],
    // The address of the first byte, where the check passes it. Where it does not, the bytes are never touched.
    pub(crate) start: Option<u32>,
}

impl<'a> Dump<'a> {
    pub fn new(start: u32, bytes: &'a [u8]) -> Dump<'a>
        ensures { dump_values result ≡ laid_checked start bytes.now }
    {
        Dump {
            bytes,
            start: checked_start(start, bytes),
        }
    }

    // Which byte is the lowest of the double-word at the address, where the bytes have all of it.
    pub(crate) fn find(&self, address: u32) -> Option<usize>
        ensures { MatchOption result (dump_values self.now (dword address) ≡ Nothing) (λ i. (self.now.start ≡ Some (dword address * 4 - i)) × (i ≤ dword address * 4) × (i + 4 ≤ length self.now.bytes.now)) }
    {
        let lowest = dword_number(address) * 4;
        let i = lowest.checked_sub(self.start?)? as usize;
        (i + 4 <= self.bytes.len()).then_some(i)
    }
}

impl<'a> ReadableStore for Dump<'a> {
    ghost values = { dump_values };

    fn read(&self, address: u32) -> Result<u32, MemoryError> {
        let i = self.find(address).ok_or(MemoryError::Absent)?;
        Ok(u32::from_le_bytes(self.bytes[i..i + 4].try_into().unwrap()))
    }
}
