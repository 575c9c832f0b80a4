// RAM: memory over bytes that the caller lends, writable throughout.
ghost use Rattle.std.specs.Prelude.{◌≡◌, ◌+◌, ◌≤◌, length};
ghost use Rattle.std.specs.Option.{ok_or};
ghost use Rattle.std.specs.Result.{result_ok};
ghost use Rattle.physical.specs.Bytes.{laid_checked, stored};
ghost use Rattle.physical.specs.Checks.{given_start, start_checked};
ghost use Rattle.physical.specs.Loans.{loan_checked};
ghost use Rattle.physical.specs.Made.{ram_loans, ram_stored, ram_values, ram_writable};
ghost use Rattle.physical.specs.Stores.{dword, write_answer, written};

use crate::checks::checked_start;
use crate::dump::Dump;
use crate::{Memory, MemoryError, ReadableStore, WriteOutcome};

#[derive(Drop)]
pub struct Ram<'a> {
    bytes: &'a mut [u8],
    // The address of the first byte: `Ok` where the check passes it, else `Err` of what was given, and the bytes are never
    // touched.
    start: Result<u32, u32>,
}

impl<'a> Ram<'a> {
    pub fn new(start: u32, bytes: &'a mut [u8]) -> Ram<'a>
        ensures values { ram_values result ≡ laid_checked start bytes.old }
        ensures bytes { result.bytes.now ≡ bytes.old }
        ensures named { result.bytes.ghost_name ≡ bytes.entry.ghost_name }
        ensures placed { result.start ≡ ok_or (start_checked start (length bytes.old)) start }
        ensures given { given_start result.start ≡ start }
        ensures lends { ram_loans result ≡ loan_checked start bytes.entry.ghost_name bytes.old }
    {
        Ram {
            start: checked_start(start, bytes).ok_or(start),
            bytes,
        }
    }

    // The bytes, to be read.
    fn dump(&self) -> Dump<'_>
        ensures start { result.start ≡ result_ok self.now.start }
        ensures bytes { result.bytes.now ≡ self.now.bytes.now }
    {
        Dump {
            bytes: self.bytes,
            start: self.start.ok(),
        }
    }
}

impl<'a> ReadableStore for Ram<'a> {
    ghost values = { ram_values };

    fn read(&self, address: u32) -> Result<u32, MemoryError> {
        self.dump().read(address)
    }
}

impl<'a> Memory for Ram<'a> {
    ghost writable = { ram_writable };

    ghost loans = { ram_loans };

    // Besides what every memory shows, which an impl's own clauses have to say again: which bytes the caller has afterwards,
    // in the slice that it lent.
    #[tactic(auto, using(crate::proofs::Blocks::placed_stored_at))]
    fn write(&mut self, address: u32, value: u32) -> WriteOutcome
        ensures answers { result ≡ write_answer (ram_values self.old (dword address)) (ram_writable self.old (dword address)) }
        ensures leaves { ram_values self.new ≡ written (ram_values self.old) (ram_writable self.old) (dword address) value }
        ensures keeps { ram_writable self.new ≡ ram_writable self.old }
        ensures lends { ram_loans self.new ≡ ram_loans self.old }
        ensures bytes { self.new.bytes.now ≡ ram_stored self.old address value }
        ensures named { self.new.bytes.ghost_name ≡ self.old.bytes.ghost_name }
    {
        let i = self.dump().find(address).ok_or(MemoryError::Absent)?;
        store(self.bytes, i, value);
        Ok(())
    }
}

// Makes the four bytes from i on those of the value, the lowest first.
#[tactic(auto, using(crate::proofs::Blocks::put_mid_stored))]
fn store(bytes: &mut [u8], i: usize, value: u32)
    requires { i + 4 ≤ length bytes.old }
    ensures { bytes.new ≡ stored bytes.old i value }
{
    bytes[i..i + 4].copy_from_slice(&value.to_le_bytes());
}
