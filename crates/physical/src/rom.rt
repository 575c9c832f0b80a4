// ROM: bytes held for reading, as a memory that refuses every write.
ghost use Rattle.std.specs.Prelude.{◌≡◌};
ghost use Rattle.physical.specs.Bytes.{laid_checked};
ghost use Rattle.physical.specs.Made.{rom_values, rom_writable};

use crate::dump::Dump;
use crate::{Memory, MemoryError, ReadableStore, WriteOutcome};

#[derive(Clone, Copy)]
pub struct Rom<'a> {
    dump: Dump<'a>,
}

impl<'a> Rom<'a> {
    pub fn new(start: u32, bytes: &'a [u8]) -> Rom<'a>
        ensures { rom_values result ≡ laid_checked start bytes.now }
    {
        Rom {
            dump: Dump::new(start, bytes),
        }
    }
}

impl<'a> ReadableStore for Rom<'a> {
    ghost values = { rom_values };

    fn read(&self, address: u32) -> Result<u32, MemoryError> {
        self.dump.read(address)
    }
}

impl<'a> Memory for Rom<'a> {
    ghost writable = { rom_writable };

    fn write(&mut self, address: u32, _value: u32) -> WriteOutcome {
        self.read(address)?;
        Err(MemoryError::ReadOnly)
    }
}
