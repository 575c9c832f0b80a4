// What a walk asks of an entry, and the two marks that it makes: one function for each operation of the layout. The level
// stands beside an entry only where the two tables differ or may come to, so the two are no struct.
ghost use Rattle.std.specs.Prelude.{◌≡◌};
ghost use Rattle.entry.specs.Bits.{Marks};
ghost use Rattle.entry.specs.NS32382.{ns32382, second_bit};
ghost use Rattle.entry.specs.declared.TableLevel.TheVariants.{Second as SecondLevel};

use crate::TableLevel;
use crate::bits::{Bit, FRAME, INHIBIT, MODIFIED, PROTECTION, REFERENCED, VALID};

pub fn valid(entry: u32) -> bool
    ensures { result ≡ ns32382.valid entry }
{
    VALID.is_set_in(entry)
}

// A number, as `permits` takes it.
pub fn protection(entry: u32) -> u8
    ensures { result ≡ ns32382.protection entry }
{
    PROTECTION.read_from(entry) as u8
}

pub fn referenced(entry: u32) -> bool
    ensures { result ≡ ns32382.referenced entry }
{
    REFERENCED.is_set_in(entry)
}

pub fn frame(entry: u32) -> u32
    ensures { result ≡ ns32382.frame entry }
{
    FRAME.read_from(entry)
}

// The first table ignores the bit.
pub fn modified(level: TableLevel, entry: u32) -> bool
    ensures { result ≡ ns32382.modified level entry }
{
    is_set_in_second(level, entry, MODIFIED)
}

// The first table ignores the bit.
pub fn inhibit(level: TableLevel, entry: u32) -> bool
    ensures { result ≡ ns32382.inhibit level entry }
{
    is_set_in_second(level, entry, INHIBIT)
}

// Whether the bit is set in an entry of the second table.
fn is_set_in_second(level: TableLevel, entry: u32, bit: Bit) -> bool
    ensures { result ≡ second_bit bit.number level entry }
{
    level == TableLevel::Second && bit.is_set_in(entry)
}

// The entry marked referenced, in a table of either level.
pub fn mark_referenced(level: TableLevel, entry: u32) -> u32
    ensures value { result ≡ ns32382.mark_referenced level entry }
    ensures marks { (t : TableLevel) → Marks 7 (ns32382.mark_referenced t) }
{
    REFERENCED.set_in(entry)
}

// The entry marked modified, which does nothing in a table of the first level.
pub fn mark_modified(level: TableLevel, entry: u32) -> u32
    ensures value { result ≡ ns32382.mark_modified level entry }
    ensures marks { Marks 8 (ns32382.mark_modified SecondLevel) }
{
    // above the arms, since both rest on its clause `marks`
    let marked = MODIFIED.set_in(entry);
    match level {
        TableLevel::First => entry,
        TableLevel::Second => marked,
    }
}
