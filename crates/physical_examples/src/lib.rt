// Memories in use, with what comes out proved.

#![tactic(auto)]

ghost use Rattle.std.specs.Prelude.{◌≡◌, true, false, IsFalse, length, None as Nothing, Ok, Err, ◌==◌};
ghost use Rattle.physical.specs.Bytes.{laid_checked};
ghost use Rattle.physical.specs.Checks.{range_rule};
ghost use Rattle.physical.specs.Composed.{paired, shifted};
ghost use Rattle.physical.specs.Made.{everywhere, nowhere};
ghost use Rattle.physical.specs.Stores.{dword, write_answer};
ghost use Rattle.physical.specs.Writes.{accepted_count, after_writes};
ghost use Rattle.physical_examples.specs.Machine.{exercised, machine_values, machine_writable};
ghost use Rattle.physical_examples.specs.Owner.{poked};
ghost use Rattle.physical.specs.declared.MemoryError.TheVariants.{Absent, ReadOnly};

use physical::pair::Pair;
use physical::ram::Ram;
use physical::rom::Rom;
use physical::shift::Shift;
use physical::writes::{Write, write_all};
use physical::{Memory, MemoryError, ReadableStore, WriteOutcome};

// What was seen of a composition.
#[derive(Clone, Copy, PartialEq, Eq, Debug)]
pub struct Seen {
    pub rom: Result<u32, MemoryError>,
    pub rom_write: WriteOutcome,
    pub ram_write: WriteOutcome,
    pub ram: Result<u32, MemoryError>,
    pub beyond: Result<u32, MemoryError>,
}

// Three deep: a pair of a ROM and a shifted RAM.
type Machine<'a> = Pair<Rom<'a>, Shift<Ram<'a>>>;

// The ROM's bytes from 0 on, the RAM's from 8,192 on.
fn machine<'a>(rom: &'a [u8], ram: &'a mut [u8]) -> Machine<'a>
    ensures values { machine_values result ≡ paired 2048 (laid_checked 0 rom.now) (shifted 2048 Nothing (laid_checked 0 ram.old)) }
    ensures writable { machine_writable result ≡ paired 2048 nowhere (shifted 2048 false everywhere) }
{
    Pair::new(
        0x2000,
        Rom::new(0, rom),
        Shift::new(0x2000, Ram::new(0, ram)),
    )
}

// Writes to the double-words at 0x0ffc and 0x2004, and then reads them and the one at 0x1000.
fn exercise<M: Memory>(memory: &mut M) -> Seen
    ensures { result ≡ exercised (M.ReadableStore.values memory.old) (M.Memory.writable memory.old) }
{
    let rom_write = memory.write(0x0ffc, 7);
    let ram_write = memory.write(0x2004, 0x1122_3344);
    Seen {
        rom: memory.read(0x0ffc),
        rom_write,
        ram_write,
        ram: memory.read(0x2006),
        beyond: memory.read(0x1000),
    }
}

// What is seen of the machine with a ROM frame of bytes 0x5a and a RAM frame of zeros.
pub fn rom_below_ram() -> Seen
    ensures { result ≡ record { rom = Ok 0x5a5a5a5a; rom_write = Err ReadOnly; ram_write = Ok tt; ram = Ok 0x11223344; beyond = Err Absent } }
{
    let rom = [0x5au8; 4096];
    let mut ram = [0u8; 4096];
    let mut memory = machine(&rom, &mut ram);
    exercise(&mut memory)
}

// One write through a RAM that is gone afterwards: what the owner of the bytes then has.
pub fn poke(bytes: &mut [u8], start: u32, address: u32, value: u32) -> WriteOutcome
    ensures answers { result ≡ write_answer (laid_checked start bytes.old (dword address)) true }
    ensures bytes { bytes.new ≡ poked start bytes.old address value }
{
    let mut ram = Ram::new(start, bytes);
    ram.write(address, value)
}

// A list of writes through a RAM that is gone afterwards, made by code that knows only that it is a memory: what the
// bytes then hold, and that they stay where the check refuses them.
pub fn poke_all(bytes: &mut [u8], start: u32, writes: &[Write]) -> usize
    ensures count { result ≡ accepted_count (laid_checked start bytes.old) everywhere writes.now }
    ensures values { laid_checked start bytes.new ≡ after_writes (laid_checked start bytes.old) everywhere writes.now }
    ensures left_alone { IsFalse (range_rule start (length bytes.old) == 0) → bytes.new ≡ bytes.old }
{
    let mut ram = Ram::new(start, bytes);
    write_all(&mut ram, writes)
}
