// What a masked write leaves of a double-word, and whether an address meets a breakpoint.
ghost use Rattle.std.specs.Prelude.{◌≡◌, ◌↔◌, IsTrue};
ghost use Rattle.entry.specs.Bus.{Agrees, breakpoint_match, merge_answer};

// The old double-word with those bytes of the new one that the mask chooses: bit 0 the lowest byte, up to bit 3.
// A mask above 15 is refused.
pub fn merge(old: u32, new: u32, mask: u8) -> Option<u32>
    ensures { result ≡ merge_answer old new mask }
{
    if mask > 15 {
        return None;
    }
    let old = old.to_le_bytes();
    let new = new.to_le_bytes();
    // Byte i of the new double-word if the mask chooses it, else of the old one. The four are written out, since of
    // `array::from_fn` the proof did not close.
    let byte = |i: usize| if mask >> i & 1 == 1 { new[i] } else { old[i] };
    Some(u32::from_le_bytes([byte(0), byte(1), byte(2), byte(3)]))
}

// Whether two addresses are equal under the mask.
fn equal_masked(address: u32, other: u32, mask: u32) -> bool
    ensures { result ≡ breakpoint_match address other mask }
{
    address & mask == other & mask
}

// Whether the address equals the breakpoint in every bit that the mask sets.
pub fn breakpoint_matches(address: u32, breakpoint: u32, mask: u32) -> bool
    ensures value { result ≡ breakpoint_match address breakpoint mask }
    ensures bits { IsTrue result ↔ Agrees address breakpoint mask }
{
    equal_masked(address, breakpoint, mask)
}
