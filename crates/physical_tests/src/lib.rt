// Tests of the physical memories.

#![tactic(auto)]

pub mod board;

#[cfg(test)]
mod tests {
    use crate::board::Board;
    use physical::checks::{AssemblyError, check_boundary, check_range};
    use physical::dump::Dump;
    use physical::pair::Pair;
    use physical::ram::Ram;
    use physical::rom::Rom;
    use physical::shift::Shift;
    use physical::writes::{Write, write_all};
    use physical::{Memory, MemoryError, ReadableStore};
    use std::test::Fail;

    const ABSENT: MemoryError = MemoryError::Absent;

    const READ_ONLY: MemoryError = MemoryError::ReadOnly;

    #[test]
    fn lengths(rt: HostRuntime) {
        assert_eq!(rt; check_range(0, 0), Err(AssemblyError::Length));
        assert_eq!(rt; check_range(0, 4), Ok(()));
        assert_eq!(rt; check_range(0, 6), Err(AssemblyError::Length));
        assert_eq!(rt; check_range(0, 16_777_216), Ok(()));
        assert_eq!(rt; check_range(0, 16_777_220), Err(AssemblyError::Length));
        assert_eq!(rt; check_range(0, usize::MAX), Err(AssemblyError::Length));
    }

    #[test]
    fn starts(rt: HostRuntime) {
        assert_eq!(rt; check_range(0xffff_fffc, 4), Ok(()));
        assert_eq!(rt; check_range(0xffff_fffc, 8), Err(AssemblyError::Placement));
        assert_eq!(rt; check_range(0xff00_0000, 16_777_216), Ok(()));
        assert_eq!(rt;
            check_range(0xff00_0004, 16_777_216),
            Err(AssemblyError::Placement)
        );
        assert_eq!(rt; check_range(4098, 4096), Err(AssemblyError::Placement));
        assert_eq!(rt;
            check_range(4098, 4098),
            Err(AssemblyError::Length),
            "the length comes first"
        );
    }

    #[test]
    fn boundaries_and_numbers(rt: HostRuntime) {
        assert_eq!(rt; check_boundary(0), Ok(()));
        assert_eq!(rt; check_boundary(1), Err(AssemblyError::Boundary));
        assert_eq!(rt; check_boundary(2), Err(AssemblyError::Boundary));
        assert_eq!(rt; check_boundary(4), Ok(()));
        assert_eq!(rt; check_boundary(4096), Ok(()));
        assert_eq!(rt; check_boundary(0xffff_ffff), Err(AssemblyError::Boundary));
        assert_eq!(rt; u8::from(AssemblyError::Length), 1);
        assert_eq!(rt; u8::from(AssemblyError::Placement), 2);
        assert_eq!(rt; u8::from(AssemblyError::Boundary), 3);
        assert_eq!(rt; u8::from(ABSENT), 1);
        assert_eq!(rt; u8::from(READ_ONLY), 2);
    }

    #[test]
    fn errors_say_what_is_wrong(rt: HostRuntime) -> Result<(), Fail> {
        for (error, text) in [
            (
                AssemblyError::Length,
                "the length is zero, no multiple of the granule, or above the longest",
            ),
            (
                AssemblyError::Placement,
                "the start is no multiple of the granule, or the bytes would end above 2^32",
            ),
            (
                AssemblyError::Boundary,
                "the split or the shift is no multiple of the granule",
            ),
        ] {
            assert_eq!(rt; error.to_string(rt.alloc())?.as_str(), text);
        }
        for (error, text) in [(ABSENT, "absent"), (READ_ONLY, "read-only")] {
            assert_eq!(rt; error.to_string(rt.alloc())?.as_str(), text);
        }
        Ok(())
    }

    // The first and the last bytes of a RAM, what lies beside it, and the bytes that the owner has afterwards.
    #[test]
    fn ram_ends(rt: HostRuntime) {
        let mut bytes = [0x11u8; 4096];
        {
            let mut ram = Ram::new(8192, &mut bytes);
            assert_eq!(rt; ram.read(8191), Err(ABSENT));
            assert_eq!(rt; ram.read(8192), Ok(0x1111_1111));
            assert_eq!(rt; ram.write(8195, 0xaabb_ccdd), Ok(()));
            assert_eq!(rt; ram.read(8194), Ok(0xaabb_ccdd));
            assert_eq!(rt; ram.read(8196), Ok(0x1111_1111));
            assert_eq!(rt; ram.write(12284, 0x0102_0304), Ok(()));
            assert_eq!(rt; ram.read(12287), Ok(0x0102_0304));
            assert_eq!(rt; ram.write(12288, 1), Err(ABSENT));
            assert_eq!(rt; ram.write(8188, 1), Err(ABSENT));
        }
        assert_eq!(rt; bytes[0], 0xdd);
        assert_eq!(rt; bytes[3], 0xaa);
        assert_eq!(rt; bytes[4], 0x11);
        assert_eq!(rt; bytes[4091], 0x11);
        assert_eq!(rt; bytes[4092], 4);
        assert_eq!(rt; bytes[4095], 1);
    }

    // The longest RAM, at the top of the address space.
    #[test]
    fn longest_ram(rt: HostRuntime) -> Result<(), Fail> {
        let mut bytes = vec![in rt.alloc(); 0u8; 16_777_216]?;
        let mut ram = Ram::new(0xff00_0000, bytes.as_mut_slice());
        assert_eq!(rt; ram.write(0xffff_ffff, 7), Ok(()));
        assert_eq!(rt; ram.read(0xffff_fffc), Ok(7));
        assert_eq!(rt; ram.read(0xff00_0000), Ok(0));
        assert_eq!(rt; ram.read(0xfeff_fffc), Err(ABSENT));
        Ok(())
    }

    // Bytes that the check refuses: the store is absent everywhere, and the bytes stay.
    #[test]
    fn refused_bytes(rt: HostRuntime) {
        let mut bytes = [0x11u8; 6];
        {
            let mut ram = Ram::new(0, &mut bytes);
            assert_eq!(rt; ram.read(0), Err(ABSENT));
            assert_eq!(rt; ram.write(0, 0), Err(ABSENT));
        }
        {
            let mut ram = Ram::new(2, &mut bytes[0..4]);
            assert_eq!(rt; ram.read(0), Err(ABSENT));
            assert_eq!(rt; ram.read(4), Err(ABSENT));
            assert_eq!(rt; ram.write(4, 0), Err(ABSENT));
        }
        assert_eq!(rt; bytes, [0x11; 6]);
        assert_eq!(rt;
            Rom::new(0xffff_fffc, &[0; 8]).read(0xffff_fffc),
            Err(ABSENT)
        );
        assert_eq!(rt; Dump::new(0, &[]).read(0), Err(ABSENT));
    }

    #[test]
    fn rom_and_dump(rt: HostRuntime) {
        let bytes = [0x78u8, 0x56, 0x34, 0x12, 0xff, 0, 0, 0x80];
        let mut rom = Rom::new(4096, &bytes);
        assert_eq!(rt; rom.read(4096), Ok(0x1234_5678));
        assert_eq!(rt; rom.write(4100, 0), Err(READ_ONLY));
        assert_eq!(rt; rom.write(4104, 0), Err(ABSENT));
        assert_eq!(rt; rom.read(4103), Ok(0x8000_00ff));
        let dump = Dump::new(4096, &bytes);
        assert_eq!(rt; dump.read(4099), Ok(0x1234_5678));
        assert_eq!(rt; dump.read(4095), Err(ABSENT));
    }

    // A split of 0 leaves all to the second; a split clears its low bits.
    #[test]
    fn splits(rt: HostRuntime) {
        let low = [1u8; 4096];
        let high = [2u8; 4096];
        let none = Pair::new(0, Rom::new(0, &low), Rom::new(0, &high));
        assert_eq!(rt; none.read(0), Ok(0x0202_0202));
        let cleared = Pair::new(3, Rom::new(0, &low), Rom::new(0, &high));
        assert_eq!(rt; cleared.read(0), Ok(0x0202_0202));
        let half = Pair::new(2051, Rom::new(0, &low), Rom::new(0, &high));
        assert_eq!(rt; half.read(2044), Ok(0x0101_0101));
        assert_eq!(rt; half.read(2048), Ok(0x0202_0202));
        assert_eq!(rt; half.read(4096), Err(ABSENT));
        let top = Pair::new(
            0xffff_ffff,
            Dump::new(0, &low),
            Dump::new(0xffff_f000, &high),
        );
        assert_eq!(rt; top.read(0xffff_fff8), Err(ABSENT));
        assert_eq!(rt; top.read(0xffff_fffc), Ok(0x0202_0202));
    }

    // What is shifted past the top has no address; a shift by 0 is the store.
    #[test]
    fn shifts(rt: HostRuntime) {
        let mut bytes = [5u8; 8192];
        {
            let mut shifted = Shift::new(0xffff_f003, Ram::new(0, &mut bytes));
            assert_eq!(rt; shifted.read(0xffff_efff), Err(ABSENT));
            assert_eq!(rt; shifted.write(0xffff_effc, 6), Err(ABSENT));
            assert_eq!(rt; shifted.read(0xffff_f000), Ok(0x0505_0505));
            assert_eq!(rt; shifted.write(0xffff_fffc, 6), Ok(()));
            assert_eq!(rt; shifted.read(0), Err(ABSENT));
            assert_eq!(rt; shifted.write(4096, 6), Err(ABSENT));
        }
        assert_eq!(rt; bytes[4092], 6);
        assert_eq!(rt; bytes[4096], 5);
        assert_eq!(rt; Shift::new(0, Dump::new(0, &bytes)).read(4092), Ok(6));
    }

    // Five deep, with a dump in it the composition is readable only.
    #[test]
    fn nested(rt: HostRuntime) {
        let rom = [1u8; 4096];
        let mut first = [2u8; 4096];
        let mut second = [3u8; 4096];
        let banks = Pair::new(
            8192,
            Shift::new(4096, Ram::new(0, &mut first)),
            Shift::new(4096, Shift::new(4096, Ram::new(0, &mut second))),
        );
        let mut all = Pair::new(4096, Rom::new(0, &rom), banks);
        assert_eq!(rt; all.read(4092), Ok(0x0101_0101));
        assert_eq!(rt; all.read(4096), Ok(0x0202_0202));
        assert_eq!(rt; all.read(8192), Ok(0x0303_0303));
        assert_eq!(rt; all.read(12288), Err(ABSENT));
        assert_eq!(rt; all.write(0, 9), Err(READ_ONLY));
        assert_eq!(rt; all.write(8188, 9), Ok(()));
        assert_eq!(rt; all.write(8192, 8), Ok(()));
        assert_eq!(rt; all.read(8188), Ok(9));
        assert_eq!(rt; all.read(8192), Ok(8));
        let looked_at = Pair::new(4096, Dump::new(0, &rom), all);
        assert_eq!(rt; looked_at.read(8192), Ok(8));
    }

    // A memory that is implemented elsewhere under generic code, alone and in a composition.
    #[test]
    fn another_implementation(rt: HostRuntime) {
        let writes = [
            Write {
                address: 4096,
                value: 1,
            },
            Write {
                address: 4100,
                value: 2,
            },
            Write {
                address: 4104,
                value: 3,
            },
            Write {
                address: 4107,
                value: 4,
            },
            Write {
                address: 8192,
                value: 5,
            },
        ];
        let mut board = Board { register: 0 };
        assert_eq!(rt; write_all(&mut board, &writes), 2);
        assert_eq!(rt; board.read(4096), Ok(0x32382));
        assert_eq!(rt; board.read(4100), Err(ABSENT));
        assert_eq!(rt; board.read(4104), Ok(4));
        assert_eq!(rt; board.write(4096, 0), Err(READ_ONLY));
        let mut bytes = [0u8; 4096];
        let mut machine = Pair::new(8192, board, Ram::new(8192, &mut bytes));
        assert_eq!(rt; write_all(&mut machine, &writes), 3);
        assert_eq!(rt; machine.read(4104), Ok(4));
        assert_eq!(rt; machine.read(8192), Ok(5));
    }
}
