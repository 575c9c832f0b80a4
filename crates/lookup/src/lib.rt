// Looks a virtual address up by reading both table entries. It asks only that they are there and valid.

#![tactic(auto)]

ghost use Rattle.std.specs.Prelude.{◌≡◌, Some};
ghost use Rattle.physical.specs.Stores.{dword};
ghost use Rattle.lookup.specs.Lookup.{looked_up, miss_text, step_of};

use entry::geometry::{
    first_entry_address, offset, page_number, physical_address, second_entry_address,
};
use entry::operations::{frame, valid};
use physical::ReadableStore;
use std::error::Error;
use std::fmt;

// An entry, and where it was read.
#[derive(Clone, Copy, PartialEq, Eq, Debug)]
pub struct Step {
    pub address: u32,
    pub entry: u32,
}

// Both entries, and the physical address that they lead to.
#[derive(Clone, Copy, PartialEq, Eq, Debug)]
pub struct Found {
    pub first: Step,
    pub second: Step,
    pub physical: u32,
}

// Why a look-up stops, with the address of the entry.
#[derive(Clone, Copy, PartialEq, Eq, Debug)]
pub enum Miss {
    Absent(u32),
    Invalid(u32),
}

impl fmt::Display for Miss {
    ghost output = { λ m. Some (miss_text m) };

    fn fmt<W: fmt::Write>(&self, f: &mut fmt::Formatter<W>) -> fmt::Result {
        f.write_str(match self {
            Miss::Absent(_) => "an entry is absent",
            Miss::Invalid(_) => "an entry is invalid",
        })
    }
}

impl Error for Miss {}

fn entry_at<S: ReadableStore>(store: &S, address: u32) -> Result<Step, Miss>
    ensures { result ≡ step_of (S.ReadableStore.values store.now (dword address)) address }
{
    let entry = store.read(address).map_err(|_| Miss::Absent(address))?;
    if valid(entry) {
        Ok(Step { address, entry })
    } else {
        Err(Miss::Invalid(address))
    }
}

pub fn look_up<S: ReadableStore>(store: &S, base: u32, address: u32) -> Result<Found, Miss>
    ensures { result ≡ looked_up (S.ReadableStore.values store.now) base address }
{
    let page = page_number(address);
    let first = entry_at(store, first_entry_address(base, page))?;
    let second = entry_at(store, second_entry_address(frame(first.entry), page))?;
    Ok(Found {
        first,
        second,
        physical: physical_address(frame(second.entry), offset(address)),
    })
}
