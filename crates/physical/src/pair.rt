// A pair of stores: the first below the split, the second from it on. A read and a write share that test, and no more.
ghost use Rattle.std.specs.Prelude.{◌≡◌};
ghost use Rattle.physical.specs.Checks.{boundary_dword};
ghost use Rattle.physical.specs.Composed.{paired};
ghost use Rattle.physical.specs.Loans.{both};

use crate::checks::boundary;
use crate::{Memory, MemoryError, ReadableStore, WriteOutcome, dword_number};

#[derive(Drop)]
pub struct Pair<A, B> {
    first: A,
    second: B,
    // The number of the double-word from which the second answers.
    split: u32,
}

impl<A, B> Pair<A, B> {
    pub fn new(split: u32, first: A, second: B) -> Pair<A, B>
        ensures { result ≡ record { first = first; second = second; split = boundary_dword split } }
    {
        Pair {
            first,
            second,
            split: boundary(split),
        }
    }
}

impl<A: ReadableStore, B: ReadableStore> ReadableStore for Pair<A, B> {
    ghost values = { λ p. paired p.split (A.ReadableStore.values p.first) (B.ReadableStore.values p.second) };

    fn read(&self, address: u32) -> Result<u32, MemoryError> {
        if dword_number(address) < self.split {
            self.first.read(address)
        } else {
            self.second.read(address)
        }
    }
}

impl<A: Memory, B: Memory> Memory for Pair<A, B> {
    ghost writable = { λ p. paired p.split (A.Memory.writable p.first) (B.Memory.writable p.second) };

    ghost loans = { λ p. both (A.Memory.loans p.first) (B.Memory.loans p.second) };

    fn write(&mut self, address: u32, value: u32) -> WriteOutcome {
        if dword_number(address) < self.split {
            self.first.write(address, value)
        } else {
            self.second.write(address, value)
        }
    }
}
