// A memory implemented elsewhere: the double-word at 4,096 is read-only, the one at 4,104 a register, all others absent.
// It shows what the trait asks and no more.
ghost use Rattle.physical_tests.specs.Board.{board_values, board_writable};

use physical::{Memory, MemoryError, ReadableStore, WriteOutcome, dword_number};

const IDENTIFICATION: u32 = 1024;

const REGISTER: u32 = 1026;

#[derive(Clone, Copy, PartialEq, Eq, Debug)]
pub struct Board {
    pub register: u32,
}

impl ReadableStore for Board {
    ghost values = { board_values };

    fn read(&self, address: u32) -> Result<u32, MemoryError> {
        match dword_number(address) {
            IDENTIFICATION => Ok(0x32382),
            REGISTER => Ok(self.register),
            _ => Err(MemoryError::Absent),
        }
    }
}

impl Memory for Board {
    ghost writable = { board_writable };

    fn write(&mut self, address: u32, value: u32) -> WriteOutcome {
        match dword_number(address) {
            IDENTIFICATION => Err(MemoryError::ReadOnly),
            REGISTER => {
                self.register = value;
                Ok(())
            }
            _ => Err(MemoryError::Absent),
        }
    }
}
