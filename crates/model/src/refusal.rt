// Refusals of calls, and the numbers that they are told in.
ghost use Rattle.std.specs.Prelude.{◌≡◌};
ghost use Rattle.entry.specs.TableLevel.{level_number};
ghost use Rattle.model.specs.Refusals.{abort_report, number_only, report_of};

use entry::TableLevel;
use physical::MemoryError;

// An access or a validation that could not be finished. Aborts are noted in the registers. A level and an address stand
// together in two cases alone; as a struct they would be one more name in each pattern.
#[derive(Clone, Copy, PartialEq, Eq, Debug)]
pub enum Abort {
    Breakpoint,
    // The table entry of that level, at that address, is not valid.
    InvalidEntry {
        level: TableLevel,
        address: u32,
    },
    Protection,
    // The memory refused the read or the mark of the table entry of that level, at that address.
    EntryRefused {
        level: TableLevel,
        address: u32,
        reason: MemoryError,
    },
}

// Why a call did not do what it was asked. It has no text, nor has an abort, since calls tell refusals in numbers.
#[derive(Clone, Copy, PartialEq, Eq, Debug)]
pub enum Refusal {
    UnknownRegister,
    WriteOnlyRegister,
    // A mode or a kind that does not exist.
    BadAccess,
    MisalignedTransfer,
    BadMask,
    // The memory refused a bus transfer at that physical address.
    BusError { address: u32, reason: MemoryError },
    Aborted(Abort),
    // A space, a table level or a page that does not exist.
    BadEntryName,
    // The entry to be edited was not reached or not written.
    EntryNotWritten,
}

// A refusal in numbers, since calls are told numbers and tell them: zero where there is nothing to tell.
#[derive(Clone, Copy, PartialEq, Eq, Debug, Default)]
pub struct Report {
    pub number: u8,
    // The level of the table whose entry is concerned.
    pub level: u8,
    pub address: u32,
    // The memory's reason.
    pub reason: u8,
}

// An abort in numbers.
impl From<Abort> for Report {
    ghost from_gives = { λ x r. r ≡ abort_report x };

    fn from(abort: Abort) -> Report {
        match abort {
            Abort::Breakpoint => number_only(10),
            Abort::InvalidEntry { level, address } => {
                let number = match level {
                    TableLevel::First => 11,
                    TableLevel::Second => 12,
                };
                of_entry(number, level, address, 0)
            }
            Abort::Protection => number_only(13),
            Abort::EntryRefused {
                level,
                address,
                reason,
            } => { of_entry(14, level, address, u8::from(reason)) }
        }
    }
}

// A refusal in numbers.
impl From<Refusal> for Report {
    ghost from_gives = { λ x r. r ≡ report_of x };

    fn from(refusal: Refusal) -> Report {
        match refusal {
            Refusal::UnknownRegister => number_only(4),
            Refusal::WriteOnlyRegister => number_only(5),
            Refusal::BadAccess => number_only(6),
            Refusal::MisalignedTransfer => number_only(7),
            Refusal::BadMask => number_only(8),
            Refusal::BusError { address, reason } => Report {
                address,
                reason: u8::from(reason),
                ..number_only(9)
            },
            Refusal::Aborted(abort) => Report::from(abort),
            Refusal::BadEntryName => number_only(15),
            Refusal::EntryNotWritten => number_only(16),
        }
    }
}

fn number_only(number: u8) -> Report
    ensures { result ≡ number_only number }
{
    Report {
        number,
        ..Report::default()
    }
}

// A report about the table entry of that level, at that address.
fn of_entry(number: u8, level: TableLevel, address: u32, reason: u8) -> Report
    ensures { result ≡ record { number = number; level = level_number level; address = address; reason = reason } }
{
    Report {
        number,
        level: u8::from(level),
        address,
        reason,
    }
}
