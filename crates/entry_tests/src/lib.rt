// Tests of the crate `entry` on concrete values.

#![tactic(auto)]

#[cfg(test)]
mod tests {
    use entry::access::{AccessKind, Mode, access_level, effective_protection, permits};
    use entry::bus::{breakpoint_matches, merge};
    use entry::geometry::{
        first_entry_address, first_index, offset, page_number, physical_address,
        second_entry_address, second_index, table_base,
    };
    use entry::operations::{
        frame, inhibit, mark_modified, mark_referenced, modified, protection, referenced, valid,
    };
    use entry::{EntryFields, FieldTooWide, TableLevel};
    use std::test::Fail;

    // Entries, and their fields from bit 0 up.
    #[test]
    fn entries_and_their_fields(rt: HostRuntime) {
        for (entry, valid, protection, unused, inhibit, referenced, modified, user, frame) in [
            (0x00000000, false, 0, 0, false, false, false, 0, 0),
            (0x00000001, true, 0, 0, false, false, false, 0, 0),
            (0x00000002, false, 1, 0, false, false, false, 0, 0),
            (0x00000004, false, 2, 0, false, false, false, 0, 0),
            (0x00000008, false, 0, 1, false, false, false, 0, 0),
            (0x00000010, false, 0, 2, false, false, false, 0, 0),
            (0x00000020, false, 0, 4, false, false, false, 0, 0),
            (0x00000040, false, 0, 0, true, false, false, 0, 0),
            (0x00000080, false, 0, 0, false, true, false, 0, 0),
            (0x00000100, false, 0, 0, false, false, true, 0, 0),
            (0x00000200, false, 0, 0, false, false, false, 1, 0),
            (0x00000400, false, 0, 0, false, false, false, 2, 0),
            (0x00000800, false, 0, 0, false, false, false, 4, 0),
            (0x00005005, true, 2, 0, false, false, false, 0, 5),
            (0xffffffff, true, 3, 7, true, true, true, 7, 0xfffff),
        ] {
            let fields = EntryFields {
                valid,
                protection,
                unused,
                inhibit,
                referenced,
                modified,
                user,
                frame,
            };
            assert_eq!(rt; EntryFields::from(entry), fields);
            assert_eq!(rt; u32::try_from(fields), Ok(entry));
        }
    }

    #[test]
    fn single_bits_of_the_frame(rt: HostRuntime) {
        for k in 0..20u32 {
            let fields = EntryFields {
                frame: 1 << k,
                ..EntryFields::default()
            };
            assert_eq!(rt; EntryFields::from(0x1000 << k), fields);
            assert_eq!(rt; u32::try_from(fields), Ok(0x1000 << k));
        }
    }

    #[test]
    fn too_wide_fields(rt: HostRuntime) {
        for (protection, unused, user, frame) in [
            (4, 0, 0, 0),
            (255, 0, 0, 0),
            (0, 8, 0, 0),
            (0, 255, 0, 0),
            (0, 0, 8, 0),
            (0, 0, 255, 0),
            (0, 0, 0, 0x100000),
            (0, 0, 0, 0xffffffff),
        ] {
            let fields = EntryFields {
                protection,
                unused,
                user,
                frame,
                ..EntryFields::default()
            };
            assert_eq!(rt; u32::try_from(fields), Err(FieldTooWide));
        }
    }

    #[test]
    fn the_error_says_what_is_wrong(rt: HostRuntime) -> Result<(), Fail> {
        let text = FieldTooWide.to_string(rt.alloc())?;
        assert_eq!(rt; text.as_str(), "a field is too wide");
        Ok(())
    }

    #[test]
    fn table_levels(rt: HostRuntime) {
        assert_eq!(rt; u8::from(TableLevel::First), 1);
        assert_eq!(rt; u8::from(TableLevel::Second), 2);
    }

    #[test]
    fn flags(rt: HostRuntime) {
        assert_eq!(rt; valid(0x00000001), true);
        assert_eq!(rt; valid(0xfffffffe), false);
        assert_eq!(rt; referenced(0x00000080), true);
        assert_eq!(rt; referenced(0xffffff7f), false);
        assert_eq!(rt; modified(TableLevel::Second, 0x00000100), true);
        assert_eq!(rt; modified(TableLevel::Second, 0xfffffeff), false);
        assert_eq!(rt; inhibit(TableLevel::Second, 0x00000040), true);
        assert_eq!(rt; inhibit(TableLevel::Second, 0xffffffbf), false);
    }

    // The first table has neither M nor CI.
    #[test]
    fn flags_of_the_second_table_only(rt: HostRuntime) {
        assert_eq!(rt; modified(TableLevel::First, 0x00000100), false);
        assert_eq!(rt; modified(TableLevel::First, 0xffffffff), false);
        assert_eq!(rt; inhibit(TableLevel::First, 0x00000040), false);
        assert_eq!(rt; inhibit(TableLevel::First, 0xffffffff), false);
    }

    #[test]
    fn protection_and_frame(rt: HostRuntime) {
        for (entry, level, number) in [
            (0x00000000, 0, 0),
            (0x00001ffb, 1, 1),
            (0x00005005, 2, 5),
            (0x80000006, 3, 0x80000),
            (0xfffffff9, 0, 0xfffff),
            (0xffffffff, 3, 0xfffff),
        ] {
            assert_eq!(rt; protection(entry), level);
            assert_eq!(rt; frame(entry), number);
        }
    }

    // Each entry, and what it is marked referenced, and marked modified in the second table.
    #[test]
    fn marks(rt: HostRuntime) {
        for (entry, used, written) in [
            (0x00000000, 0x00000080, 0x00000100),
            (0x00005005, 0x00005085, 0x00005105),
            (0x00005085, 0x00005085, 0x00005185),
            (0x00005105, 0x00005185, 0x00005105),
            (0x00005185, 0x00005185, 0x00005185),
            (0xfffffe7f, 0xfffffeff, 0xffffff7f),
            (0xffffffff, 0xffffffff, 0xffffffff),
        ] {
            assert_eq!(rt; mark_referenced(TableLevel::First, entry), used);
            assert_eq!(rt; mark_referenced(TableLevel::Second, entry), used);
            assert_eq!(rt; mark_modified(TableLevel::First, entry), entry);
            assert_eq!(rt; mark_modified(TableLevel::Second, entry), written);
        }
    }

    #[test]
    fn access_levels(rt: HostRuntime) {
        for (mode, overridden, kind, level) in [
            (Mode::Supervisor, false, AccessKind::Read, 0),
            (Mode::Supervisor, false, AccessKind::Write, 1),
            (Mode::Supervisor, false, AccessKind::ReadModifyWrite, 1),
            (Mode::Supervisor, true, AccessKind::Read, 0),
            (Mode::Supervisor, true, AccessKind::Write, 1),
            (Mode::Supervisor, true, AccessKind::ReadModifyWrite, 1),
            (Mode::User, false, AccessKind::Read, 2),
            (Mode::User, false, AccessKind::Write, 3),
            (Mode::User, false, AccessKind::ReadModifyWrite, 3),
            (Mode::User, true, AccessKind::Read, 0),
            (Mode::User, true, AccessKind::Write, 1),
            (Mode::User, true, AccessKind::ReadModifyWrite, 1),
        ] {
            assert_eq!(rt; access_level(mode, overridden, kind), level);
        }
    }

    // For each protection level, which of the access levels 0 to 3 pass.
    #[test]
    fn passing_levels(rt: HostRuntime) {
        for (protection, passes) in [
            (0, [true, false, false, false]),
            (1, [true, true, false, false]),
            (2, [true, true, true, false]),
            (3, [true, true, true, true]),
        ] {
            for (level, pass) in (0..).zip(passes) {
                assert_eq!(rt; permits(protection, level), pass);
            }
        }
    }

    #[test]
    fn smaller_protection_counts(rt: HostRuntime) {
        for (first, second, effective) in [
            (0, 3, 0),
            (3, 0, 0),
            (3, 2, 2),
            (2, 3, 2),
            (1, 1, 1),
            (3, 3, 3),
        ] {
            assert_eq!(rt; effective_protection(first, second), effective);
        }
    }

    #[test]
    fn address_parts(rt: HostRuntime) {
        for (address, page, first, second, byte) in [
            (0x00000000, 0, 0, 0, 0),
            (0x00403004, 0x403, 1, 3, 4),
            (0xffffffff, 0xfffff, 0x3ff, 0x3ff, 0xfff),
        ] {
            assert_eq!(rt; page_number(address), page);
            assert_eq!(rt; first_index(page), first);
            assert_eq!(rt; second_index(page), second);
            assert_eq!(rt; offset(address), byte);
        }
    }

    #[test]
    fn table_bases(rt: HostRuntime) {
        assert_eq!(rt; table_base(0), 0);
        assert_eq!(rt; table_base(0x00000fff), 0);
        assert_eq!(rt; table_base(0x00403004), 0x00403000);
        assert_eq!(rt; table_base(0xffffffff), 0xfffff000);
    }

    // What a frame has above its 20 bits, and an offset above its 12, is ignored.
    #[test]
    fn formed_addresses(rt: HostRuntime) {
        assert_eq!(rt; first_entry_address(0, 0), 0);
        assert_eq!(rt; first_entry_address(0x00001fff, 0x403), 0x00001004);
        assert_eq!(rt; first_entry_address(0xfffff000, 0xfffff), 0xfffffffc);
        assert_eq!(rt; second_entry_address(0, 0), 0);
        assert_eq!(rt; second_entry_address(5, 0x403), 0x0000500c);
        assert_eq!(rt; second_entry_address(0x100005, 0x403), 0x0000500c);
        assert_eq!(rt; second_entry_address(0xfffff, 0xfffff), 0xfffffffc);
        assert_eq!(rt; physical_address(5, 4), 0x00005004);
        assert_eq!(rt; physical_address(0xfffff, 0xfff), 0xffffffff);
        assert_eq!(rt; physical_address(0x100000, 0x1000), 0);
    }

    // 0x11223344 over 0xaabbccdd, for the masks 0 to 15.
    const MERGED: [u32; 16] = [
        0xaabbccdd, 0xaabbcc44, 0xaabb33dd, 0xaabb3344, 0xaa22ccdd, 0xaa22cc44, 0xaa2233dd,
        0xaa223344, 0x11bbccdd, 0x11bbcc44, 0x11bb33dd, 0x11bb3344, 0x1122ccdd, 0x1122cc44,
        0x112233dd, 0x11223344,
    ];

    #[test]
    fn merges(rt: HostRuntime) {
        for (mask, merged) in (0..).zip(MERGED) {
            assert_eq!(rt; merge(0xaabbccdd, 0x11223344, mask), Some(merged));
        }
        assert_eq!(rt; merge(0xaabbccdd, 0x11223344, 16), None);
        assert_eq!(rt; merge(0xaabbccdd, 0x11223344, 255), None);
    }

    #[test]
    fn breakpoints(rt: HostRuntime) {
        for (address, mask, matches) in [
            (0x00403000, 0xffffffff, true),
            (0x00403004, 0xffffffff, false),
            (0x00403004, 0xfffff000, true),
            (0x00404004, 0xfffff000, false),
            (0xffbfcfff, 0x00000000, true),
            (0xffffffff, 0x00403000, true),
            (0x80403000, 0x80000000, false),
        ] {
            assert_eq!(rt; breakpoint_matches(address, 0x00403000, mask), matches);
        }
    }
}
