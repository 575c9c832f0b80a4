// The checks that whoever assembles a memory makes first. They alter nothing.
ghost use Rattle.std.specs.Prelude.{◌≡◌, Some, length};
ghost use Rattle.physical.specs.Checks.{assembly_error_text, assembly_number, boundary_dword, boundary_rule, check_number, range_rule, start_checked};

use std::error::Error;
use std::fmt;

// Lengths, starts, splits and shifts are multiples of this many bytes.
pub const GRANULE: u32 = 4;

// The longest stretch of bytes that a store covers.
pub const MAX_LENGTH: usize = 16_777_216;

const ADDRESS_SPACE: u64 = 1 << 32;

// Why a memory cannot be assembled as asked.
#[derive(Clone, Copy, PartialEq, Eq, Debug)]
pub enum AssemblyError {
    Length,
    Placement,
    Boundary,
}

impl fmt::Display for AssemblyError {
    ghost output = { λ e. Some (assembly_error_text e) };

    fn fmt<W: fmt::Write>(&self, f: &mut fmt::Formatter<W>) -> fmt::Result {
        f.write_str(match self {
            AssemblyError::Length => {
                "the length is zero, no multiple of the granule, or above the longest"
            }
            AssemblyError::Placement => {
                "the start is no multiple of the granule, or the bytes would end above 2^32"
            }
            AssemblyError::Boundary => "the split or the shift is no multiple of the granule",
        })
    }
}

impl Error for AssemblyError {}

// The number of the refusal, from 1 on. Each enum that has numbers has its own, so there is no generic conversion.
impl From<AssemblyError> for u8 {
    ghost from_gives = { λ e n. n ≡ assembly_number e };

    fn from(error: AssemblyError) -> u8 {
        error as u8 + 1
    }
}

// Whether that many bytes can be covered from the start on. It takes the length alone: whoever assembles a memory asks
// before there are bytes.
pub fn check_range(start: u32, length: usize) -> Result<(), AssemblyError>
    ensures { check_number result ≡ range_rule start length }
{
    if length == 0 || length % GRANULE as usize != 0 || length > MAX_LENGTH {
        return Err(AssemblyError::Length);
    }
    if start % GRANULE != 0 || u64::from(start) + length as u64 > ADDRESS_SPACE {
        return Err(AssemblyError::Placement);
    }
    Ok(())
}

// The start of the bytes, if they can be covered from it on.
pub(crate) fn checked_start(start: u32, bytes: &[u8]) -> Option<u32>
    ensures { result ≡ start_checked start (length bytes.now) }
{
    check_range(start, bytes.len()).is_ok().then_some(start)
}

// Whether a pair can be split, or a store shifted, at the address.
pub fn check_boundary(address: u32) -> Result<(), AssemblyError>
    ensures { check_number result ≡ boundary_rule address }
{
    if address % GRANULE != 0 {
        return Err(AssemblyError::Boundary);
    }
    Ok(())
}

// The double-word at which a split or a shift lies: the address without its bits below the granule.
pub(crate) fn boundary(address: u32) -> u32
    ensures { result ≡ boundary_dword address }
{
    (address - address % GRANULE) / 4
}
