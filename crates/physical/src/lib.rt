// Physical memory: what can be read, what can be written, and what each call leaves.

#![tactic(auto)]

ghost use Rattle.std.specs.Prelude.{◌≡◌, Some};
ghost use Rattle.physical.specs.Loans.{Loans, none};
ghost use Rattle.physical.specs.Stores.{Values, Writable, dword, memory_error_text, read_answer, reason_number, write_answer, written};

use std::error::Error;
use std::fmt;

pub mod checks;
pub mod dump;
pub mod pair;
pub mod ram;
pub mod rom;
pub mod shift;
pub mod writes;

// Why a memory refuses a read or a write. Its text is a contract, which a derive would not state.
#[derive(Clone, Copy, PartialEq, Eq, Debug)]
pub enum MemoryError {
    // There is no double-word at the address.
    Absent,
    // There is one, and it cannot be written.
    ReadOnly,
}

impl fmt::Display for MemoryError {
    ghost output = { λ e. Some (memory_error_text e) };

    fn fmt<W: fmt::Write>(&self, f: &mut fmt::Formatter<W>) -> fmt::Result {
        f.write_str(match self {
            MemoryError::Absent => "absent",
            MemoryError::ReadOnly => "read-only",
        })
    }
}

impl Error for MemoryError {}

// The number of the reason, from 1 on. Each enum that has numbers has its own, so there is no generic conversion.
impl From<MemoryError> for u8 {
    ghost from_gives = { λ e n. n ≡ reason_number e };

    fn from(error: MemoryError) -> u8 {
        error as u8 + 1
    }
}

// What a write answers.
pub type WriteOutcome = Result<(), MemoryError>;

// A store of 2^30 double-words, each absent or a value of 32 bits. Bits 0 and 1 of an address do not count.
pub trait ReadableStore {
    ghost values: { Self → Values };

    fn read(&self, address: u32) -> Result<u32, MemoryError>
        ensures { result ≡ read_answer (values self.now (dword address)) };
}

// A readable store that can be written where it is present and writable. Presence and writability never change.
pub trait Memory: ReadableStore {
    // Apart from `values`, since values change and this does not: a state of the unit holds the values alone.
    ghost writable: { Self → Writable };

    // The slices it was lent, for memories over bytes of the caller. An implementation that has none leaves this out.
    ghost loans: { Self → Loans } = { λ _. none };

    // The address and the value are two numbers, as a processor has them. `keeps` and `lends` relate two states, which no
    // type can carry: what calls this over any memory says them again.
    fn write(&mut self, address: u32, value: u32) -> WriteOutcome
        ensures answers { result ≡ write_answer (Self.ReadableStore.values self.old (dword address)) (writable self.old (dword address)) }
        ensures leaves { Self.ReadableStore.values self.new ≡ written (Self.ReadableStore.values self.old) (writable self.old) (dword address) value }
        ensures keeps { writable self.new ≡ writable self.old }
        ensures lends { loans self.new ≡ loans self.old };
}

// The number of the double-word that an address names.
pub fn dword_number(address: u32) -> u32
    ensures { result ≡ dword address }
{
    address / 4
}
