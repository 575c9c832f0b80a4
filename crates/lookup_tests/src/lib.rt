// Tests of the look-up.

#![tactic(auto)]

#[cfg(test)]
mod tests {
    use lookup::{Found, Miss, Step, look_up};
    use physical::Memory;
    use physical::ram::Ram;
    use std::test::Fail;

    // The first table lies at 0x1000, the second at 0x2000.
    #[test]
    fn looked_up(rt: HostRuntime) {
        let mut bytes = [0u8; 0x3000];
        let mut ram = Ram::new(0, &mut bytes);
        assert_eq!(rt;
            look_up(&ram, 0x1000, 0x00403004),
            Err(Miss::Invalid(0x1004))
        );
        assert_eq!(rt; ram.write(0x1004, 0x2007), Ok(()));
        assert_eq!(rt;
            look_up(&ram, 0x1000, 0x00403004),
            Err(Miss::Invalid(0x200c))
        );
        assert_eq!(rt; ram.write(0x200c, 0x5005), Ok(()));
        assert_eq!(rt;
            look_up(&ram, 0x1000, 0x00403004),
            Ok(Found {
                first: Step {
                    address: 0x1004,
                    entry: 0x2007,
                },
                second: Step {
                    address: 0x200c,
                    entry: 0x5005,
                },
                physical: 0x5004,
            })
        );
    }

    // The first table ends the RAM, or is not in it; the second is not in it.
    #[test]
    fn absent_entries(rt: HostRuntime) {
        let mut bytes = [0u8; 0x3000];
        let mut ram = Ram::new(0, &mut bytes);
        assert_eq!(rt;
            look_up(&ram, 0x3000, 0x00403004),
            Err(Miss::Absent(0x3004))
        );
        assert_eq!(rt; ram.write(0x2ffc, 0x9001), Ok(()));
        assert_eq!(rt;
            look_up(&ram, 0x2000, 0xffc03004),
            Err(Miss::Absent(0x900c))
        );
    }

    #[test]
    fn misses_say_what_is_wrong(rt: HostRuntime) -> Result<(), Fail> {
        for (miss, text) in [
            (Miss::Absent(0x1004), "an entry is absent"),
            (Miss::Invalid(0x1004), "an entry is invalid"),
        ] {
            assert_eq!(rt; miss.to_string(rt.alloc())?.as_str(), text);
        }
        Ok(())
    }
}
