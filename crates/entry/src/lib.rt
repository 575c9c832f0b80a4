// Page table entries of the NS32382, and the arithmetic around them. A virtual address is looked up in two tables:
// an entry of the first leads to a table of the second level, whose entry leads to the page's frame.

#![tactic(auto)]

ghost use Rattle.std.specs.Prelude.{◌≡◌, IfOk, Some as Present, codes};
ghost use Rattle.std.specs.Option.{ok_or};
ghost use Rattle.entry.specs.Fields.{RoundTrips, encoded, fields_of, too_wide};
ghost use Rattle.entry.specs.Figures.{Figures};
ghost use Rattle.entry.specs.Layout.{DistinctFrames, Lawful};
ghost use Rattle.entry.specs.NS32382.{AddressBits, ns32382};
ghost use Rattle.entry.specs.TableLevel.{level_number};

use bits::{FRAME, INHIBIT, MODIFIED, PROTECTION, REFERENCED, UNUSED, USER, VALID};
use operations::{frame, inhibit, modified, protection, referenced, valid};
use std::error::Error;
use std::fmt;

pub mod access;
mod bits;
pub mod bus;
pub mod geometry;
pub mod operations;

// Which of the two tables an entry stands in.
#[derive(Clone, Copy, PartialEq, Eq, Debug)]
pub enum TableLevel {
    First,
    Second,
}

// The level as a number, from 1 on. Each enum that has numbers has its own, so there is no generic conversion.
impl From<TableLevel> for u8 {
    ghost from_gives = { λ level n. n ≡ level_number level };

    fn from(level: TableLevel) -> u8 {
        level as u8 + 1
    }
}

// The fields of an entry, with the maker's names in the comments.
#[derive(Clone, Copy, PartialEq, Eq, Debug, Default)]
pub struct EntryFields {
    // V: the entry can be used.
    pub valid: bool,
    // PL, two bits: up to which level accesses pass. A number, since it can be too wide.
    pub protection: u8,
    // NU, three bits without a use.
    pub unused: u8,
    // CI: what lies in the page is not to be cached.
    pub inhibit: bool,
    // R: the entry has been used.
    pub referenced: bool,
    // M: the page has been written.
    pub modified: bool,
    // USR, three bits of the operating system's.
    pub user: u8,
    // PFN, 20 bits: the frame's number.
    pub frame: u32,
}

// A field that is wider than its place in an entry.
#[derive(Clone, Copy, PartialEq, Eq, Debug)]
pub struct FieldTooWide;

impl fmt::Display for FieldTooWide {
    ghost output = { λ _. Present (codes "a field is too wide") };

    fn fmt<W: fmt::Write>(&self, f: &mut fmt::Formatter<W>) -> fmt::Result {
        f.write_str("a field is too wide")
    }
}

impl Error for FieldTooWide {}

// Takes an entry apart.
impl From<u32> for EntryFields {
    ghost from_gives = { λ entry f. (f ≡ fields_of entry) × (encoded f ≡ Present entry) };

    fn from(entry: u32) -> EntryFields {
        EntryFields {
            valid: valid(entry),
            protection: protection(entry),
            unused: UNUSED.read_from(entry) as u8,
            inhibit: inhibit(TableLevel::Second, entry),
            referenced: referenced(entry),
            modified: modified(TableLevel::Second, entry),
            user: USER.read_from(entry) as u8,
            frame: frame(entry),
        }
    }
}

// Puts an entry together, or refuses where a field is too wide.
impl TryFrom<EntryFields> for u32 {
    type Error = FieldTooWide;

    ghost try_from_gives = { λ f r. (r ≡ ok_or (encoded f) too_wide) × IfOk r (λ w. fields_of w ≡ f) };

    fn try_from(fields: EntryFields) -> Result<u32, FieldTooWide> {
        put_together(fields)
    }
}

// What stands of the definitions that the contracts of this crate cite: both ways round of taking apart and putting
// together, the laws of the layout, the bits of an address, and worked figures. It is there for its contract.
pub fn layout_stands()
    ensures trips { RoundTrips }
    ensures lawful { Lawful ns32382 }
    ensures frames { DistinctFrames ns32382 }
    ensures address { AddressBits }
    ensures figures { Figures }
{}

// The sum alone: that it gives the fields back is proved in `try_from`, of the sum as one number.
fn put_together(fields: EntryFields) -> Result<u32, FieldTooWide>
    ensures { result ≡ ok_or (encoded fields) too_wide }
{
    Ok(
        VALID.place(fields.valid)
            + PROTECTION.place(u32::from(fields.protection))?
            + UNUSED.place(u32::from(fields.unused))?
            + INHIBIT.place(fields.inhibit)
            + REFERENCED.place(fields.referenced)
            + MODIFIED.place(fields.modified)
            + USER.place(u32::from(fields.user))?
            + FRAME.place(fields.frame)?,
    )
}
