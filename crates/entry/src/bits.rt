// Bits and fields of a double-word, and where those of a table entry lie. A bit is read and placed as a flag, a field as a
// number that can be too wide.
ghost use Rattle.std.specs.Prelude.{◌≡◌, ◌+◌, ◌*◌, ◌^◌, ◌<◌, ◌≤◌, OkIff, bit_or};
ghost use Rattle.entry.specs.Bits.{Marks, as_bit, field, flag};

use crate::FieldTooWide;

// The bit of that number; bit 0 is the lowest.
#[derive(Clone, Copy)]
pub(crate) struct Bit {
    number: u32,
    ghost below: { number < 32 },
}

// `width` bits, from bit `low` up.
#[derive(Clone, Copy)]
pub(crate) struct Field {
    low: u32,
    width: u32,
    ghost low_below: { low < 32 },
    ghost width_below: { width < 32 },
    ghost within: { width + low ≤ 32 },
}

pub(crate) const VALID: Bit = Bit { number: 0 };

pub(crate) const PROTECTION: Field = Field { low: 1, width: 2 };

pub(crate) const UNUSED: Field = Field { low: 3, width: 3 };

pub(crate) const INHIBIT: Bit = Bit { number: 6 };

pub(crate) const REFERENCED: Bit = Bit { number: 7 };

pub(crate) const MODIFIED: Bit = Bit { number: 8 };

pub(crate) const USER: Field = Field { low: 9, width: 3 };

pub(crate) const FRAME: Field = Field { low: 12, width: 20 };

impl Bit {
    pub(crate) fn is_set_in(self, word: u32) -> bool
        ensures { result ≡ flag self.number word }
    {
        word >> self.number & 1 == 1
    }

    // The double-word with the bit set.
    pub(crate) fn set_in(self, word: u32) -> u32
        ensures value { result ≡ bit_or word (2 ^ self.number) }
        ensures marks { Marks self.number (λ w. bit_or w (2 ^ self.number)) }
    {
        word | 1 << self.number
    }

    // A flag at the bit's place.
    pub(crate) fn place(self, flag: bool) -> u32
        ensures { result ≡ as_bit flag * 2 ^ self.number }
    {
        u32::from(flag) << self.number
    }
}

impl Field {
    pub(crate) fn read_from(self, word: u32) -> u32
        ensures value { result ≡ field self.low self.width word }
        ensures bound { result < 2 ^ self.width }
    {
        word >> self.low & ((1 << self.width) - 1)
    }

    // A value at the field's place, or the error where it is too wide.
    pub(crate) fn place(self, value: u32) -> Result<u32, FieldTooWide>
        ensures { OkIff result (value < 2 ^ self.width) (value * 2 ^ self.low) }
    {
        if value < 1 << self.width {
            Ok(value << self.low)
        } else {
            Err(FieldTooWide)
        }
    }
}
