// A walk through one real task, each step printed: a machine's memory is assembled, a two-level page table and a
// page of data are written into it, a virtual address is looked up, and the double-word there is read.

#![tactic(auto)]

ghost use Rattle.std.specs.Prelude.{◌≡◌, ◌/◌, ◌++◌, true, false, IfOk, Some as Present, codes, decimal};
ghost use Rattle.entry.specs.Fields.{encoded};
ghost use Rattle.physical.specs.Stores.{memory_error_text, reason_number};

use anyhow::anyhow;
use entry::EntryFields;
use entry::geometry::{
    PAGE_SIZE, first_entry_address, first_index, offset, page_number, second_entry_address,
    second_index,
};
use entry::operations::frame;
use lookup::{Found, look_up};
use physical::checks::{AssemblyError, check_boundary, check_range};
use physical::pair::Pair;
use physical::ram::Ram;
use physical::rom::Rom;
use physical::shift::Shift;
use physical::writes::{Write, write_all};
use physical::{Memory, MemoryError, ReadableStore, WriteOutcome};
use std::fmt;

// The RAM below 32,768, nothing up to 65,536, and the ROM from there on.
type Machine<'a> = Pair<Ram<'a>, Shift<Rom<'a>>>;

const RAM_LENGTH: u32 = 0x8000;

const ROM_PLACE: u32 = 0x1_0000;

const TOO_LONG: usize = 16_781_312;

// The first table, the second table and the page of data, each in a frame of its own.
const FIRST_TABLE: u32 = 0x1000;

const SECOND_TABLE: u32 = 0x2000;

const DATA_FRAME: u32 = 0x5000;

// The virtual address that is looked up, and the low water of the first harbour in the page, in centimetres.
const VIRTUAL: u32 = 0x0040_3004;

const FIRST_LOW: u32 = 24;

fn show_check(
    rt: &HostRuntime,
    what: &str,
    checked: Result<(), AssemblyError>,
) -> anyhow::Result<()> {
    match checked {
        Ok(()) => println!(rt; "   check of {what}: passes")?,
        Err(e) => {
            let number = u8::from(e);
            println!(rt; "   check of {what}: refused with {number}")?;
        }
    }
    Ok(())
}

fn assemble<'a>(rt: &HostRuntime, ram: &'a mut [u8], rom: &'a [u8]) -> anyhow::Result<Machine<'a>> {
    println!(rt; "1. Assemble the memory of a machine.")?;
    let length = ram.len();
    println!(rt; "   a RAM of {length} bytes from 0x00000000 on, all zero")?;
    show_check(rt, "its start and length", check_range(0, length))?;
    let length = rom.len();
    println!(rt; "   a ROM of {length} bytes 0x5a, moved up by {ROM_PLACE:#010x}")?;
    show_check(rt, "its start and length", check_range(0, length))?;
    show_check(rt, "the distance", check_boundary(ROM_PLACE))?;
    println!(rt;
        "   a pair of them, split at {RAM_LENGTH:#010x}: below it the RAM answers, from it on the moved ROM"
    )?;
    show_check(rt, "the split", check_boundary(RAM_LENGTH))?;
    println!(rt; "   for comparison, a RAM of {TOO_LONG} bytes, which is too long")?;
    show_check(rt, "its start and length", check_range(0, TOO_LONG))?;
    Ok(Pair::new(
        RAM_LENGTH,
        Ram::new(0, ram),
        Shift::new(ROM_PLACE, Rom::new(0, rom)),
    ))
}

// An entry that is valid and leads to the frame at the address.
fn entry_for(address: u32, protection: u8) -> anyhow::Result<u32>
    ensures { IfOk result (λ e. encoded (record { valid = true; protection = protection; unused = 0; inhibit = false; referenced = false; modified = false; user = 0; frame = address / 4096 }) ≡ Present e) }
{
    let fields = EntryFields {
        valid: true,
        protection,
        frame: address / PAGE_SIZE,
        ..EntryFields::default()
    };
    Ok(u32::try_from(fields)?)
}

fn show_planned(rt: &HostRuntime, what: &str, write: &Write) -> anyhow::Result<()> {
    let Write { address, value } = *write;
    println!(rt; "   {what}: {value:#010x} at {address:#010x}")?;
    Ok(())
}

// The steps take what prints and what they show: two things, lent in different ways, so no struct of them.
fn fill(rt: &HostRuntime, memory: &mut Machine<'_>) -> anyhow::Result<()> {
    println!(rt; "2. Write a two-level page table and a page of data.")?;
    println!(rt;
        "   first table at {FIRST_TABLE:#010x}, second at {SECOND_TABLE:#010x}, frame of the page at {DATA_FRAME:#010x}"
    )?;
    let page = page_number(VIRTUAL);
    let first = Write {
        address: first_entry_address(FIRST_TABLE, page),
        value: entry_for(SECOND_TABLE, 3)?,
    };
    show_planned(rt, "first entry, to the second table", &first)?;
    let second = Write {
        address: second_entry_address(SECOND_TABLE / PAGE_SIZE, page),
        value: entry_for(DATA_FRAME, 2)?,
    };
    show_planned(rt, "second entry, to the frame", &second)?;
    let accepted = write_all(memory, &[first, second]);
    println!(rt; "   accepted: {accepted} of 2 writes")?;
    fill_page(memory).map_err(|_| anyhow!("the page cannot be written"))?;
    println!(rt;
        "   page of data: 1024 double-words, the low waters of as many harbours in centimetres,"
    )?;
    println!(rt; "   {FIRST_LOW} for the first and 1 more for each next one")?;
    Ok(())
}

// It answers as the memory does, and `fill` makes the error: a result that can hold an error of the tour is large, and in the
// loop it would be moved at each write.
fn fill_page(memory: &mut Machine<'_>) -> WriteOutcome {
    for i in 0..1024u32 {
        memory.write(DATA_FRAME + 4 * i, FIRST_LOW + i)?;
    }
    Ok(())
}

fn show_fields(rt: &HostRuntime, entry: u32) -> anyhow::Result<()> {
    let f = EntryFields::from(entry);
    let v = u8::from(f.valid);
    let pl = f.protection;
    let nu = f.unused;
    let ci = u8::from(f.inhibit);
    let r = u8::from(f.referenced);
    let m = u8::from(f.modified);
    let usr = f.user;
    let pfn = f.frame;
    println!(rt;
        "      valid (V) {v}, protection level (PL) {pl}, not used (NU) {nu}, cache inhibit (CI) {ci},"
    )?;
    println!(rt;
        "      referenced (R) {r}, modified (M) {m}, user bits (USR) {usr}, frame number (PFN) {pfn}"
    )?;
    Ok(())
}

fn show_found(rt: &HostRuntime, found: &Found) -> anyhow::Result<()> {
    let page = page_number(VIRTUAL);
    let first = first_index(page);
    let second = second_index(page);
    let byte = offset(VIRTUAL);
    println!(rt;
        "   page number {page:#07x}: first index {first}, second index {second}; offset {byte}"
    )?;
    let address = found.first.address;
    let entry = found.first.entry;
    println!(rt;
        "   first entry, at {FIRST_TABLE:#010x} + 4 x {first} = {address:#010x}: {entry:#010x}"
    )?;
    show_fields(rt, entry)?;
    let table = frame(entry);
    let address = found.second.address;
    let entry = found.second.entry;
    println!(rt;
        "   second entry, at {table} x 4096 + 4 x {second} = {address:#010x}: {entry:#010x}"
    )?;
    show_fields(rt, entry)?;
    let page_frame = frame(entry);
    let physical = found.physical;
    println!(rt; "   physical address: {page_frame} x 4096 + {byte} = {physical:#010x}")?;
    println!(rt;
        "   (Protection is not asked and nothing is marked here: that is the unit's work.)"
    )?;
    Ok(())
}

fn find(rt: &HostRuntime, memory: &Machine<'_>) -> anyhow::Result<u32> {
    println!(rt; "3. Look the virtual address {VIRTUAL:#010x} up, by reading both entries.")?;
    let found = look_up(memory, FIRST_TABLE, VIRTUAL)?;
    show_found(rt, &found)?;
    Ok(found.physical)
}

// A refusal of the memory, as the tour tells it.
#[derive(Clone, Copy)]
struct Refused(MemoryError);

impl fmt::Display for Refused {
    ghost output = { λ r. Present (codes "refused, reason " ++ decimal (reason_number r.0) ++ codes " (" ++ memory_error_text r.0 ++ codes ")") };

    fn fmt<W: fmt::Write>(&self, f: &mut fmt::Formatter<W>) -> fmt::Result {
        write!(f, "refused, reason {} ({})", u8::from(self.0), self.0)
    }
}

fn show_read(rt: &HostRuntime, memory: &Machine<'_>, address: u32) -> anyhow::Result<()> {
    match memory.read(address) {
        Ok(value) => println!(rt; "   read at {address:#010x}: {value:#010x}, in decimal {value}")?,
        Err(e) => println!(rt; "   read at {address:#010x}: {}", Refused(e))?,
    }
    Ok(())
}

fn show_write(rt: &HostRuntime, memory: &mut Machine<'_>, write: &Write) -> anyhow::Result<()> {
    let Write { address, value } = *write;
    match memory.write(address, value) {
        Ok(()) => println!(rt; "   write of {value:#010x} at {address:#010x}: done")?,
        Err(e) => println!(rt;
            "   write of {value:#010x} at {address:#010x}: {}",
            Refused(e)
        )?,
    }
    Ok(())
}

fn tour(rt: &HostRuntime) -> anyhow::Result<()> {
    println!(rt;
        "A tide table lies in a page of virtual memory. The tour finds the low water of one harbour in it."
    )?;
    let mut ram = [0u8; 0x8000];
    let rom = [0x5au8; 0x1000];
    let mut memory = assemble(rt, &mut ram, &rom)?;
    fill(rt, &mut memory)?;
    let physical = find(rt, &memory)?;
    println!(rt; "4. Read the double-word there: the low water of the second harbour.")?;
    show_read(rt, &memory, physical)?;
    println!(rt; "5. A refusal: between the RAM and the ROM there is nothing to read.")?;
    show_read(rt, &memory, RAM_LENGTH)?;
    println!(rt; "6. Another: the ROM cannot be written, and stays as it is.")?;
    let write = Write {
        address: ROM_PLACE,
        value: FIRST_LOW,
    };
    show_write(rt, &mut memory, &write)?;
    show_read(rt, &memory, ROM_PLACE)
}

fn main(rt: HostRuntime) -> anyhow::Result<()> {
    tour(&rt)
}
