// A store moved up: absent below the distance, and the address 0 of the store at it.
ghost use Rattle.std.specs.Prelude.{◌≡◌, ◌-◌, ◌<◌, ◌≤◌, false, None as Nothing, MatchResult};
ghost use Rattle.physical.specs.Checks.{boundary_dword};
ghost use Rattle.physical.specs.Composed.{shifted};
ghost use Rattle.physical.specs.Stores.{dword};
ghost use Rattle.physical.specs.declared.MemoryError.TheVariants.{Absent};

use crate::checks::boundary;
use crate::{Memory, MemoryError, ReadableStore, WriteOutcome, dword_number};

#[derive(Drop)]
pub struct Shift<S> {
    inner: S,
    // By how many double-words.
    distance: u32,
}

impl<S> Shift<S> {
    pub fn new(distance: u32, inner: S) -> Shift<S>
        ensures { result ≡ record { inner = inner; distance = boundary_dword distance } }
    {
        Shift {
            inner,
            distance: boundary(distance),
        }
    }

    // The address in the inner store of the double-word at the address, which is absent below the distance.
    fn inner_address(&self, address: u32) -> Result<u32, MemoryError>
        ensures { MatchResult result (λ a. (self.now.distance ≤ dword address) × (dword a ≡ dword address - self.now.distance)) (λ e. (dword address < self.now.distance) × (e ≡ Absent)) }
    {
        let number = dword_number(address)
            .checked_sub(self.distance)
            .ok_or(MemoryError::Absent)?;
        Ok(number * 4)
    }
}

impl<S: ReadableStore> ReadableStore for Shift<S> {
    ghost values = { λ s. shifted s.distance Nothing (S.ReadableStore.values s.inner) };

    fn read(&self, address: u32) -> Result<u32, MemoryError> {
        self.inner.read(self.inner_address(address)?)
    }
}

impl<S: Memory> Memory for Shift<S> {
    ghost writable = { λ s. shifted s.distance false (S.Memory.writable s.inner) };

    ghost loans = { λ s. S.Memory.loans s.inner };

    fn write(&mut self, address: u32, value: u32) -> WriteOutcome {
        let inner = self.inner_address(address)?;
        self.inner.write(inner, value)
    }
}
