//! Executable files, byte by byte.

use elf_file::{ElfFault, Image, read, write};
use std::test::Fail;

/// The first 116 bytes of a file with a text of 4 bytes and globals of 8: Elf32_Ehdr and two
/// Elf32_Phdr.
static HEADERS: [u8; 116] = [
    0x7f, 0x45, 0x4c, 0x46, 1, 1, 1, 0, 0, 0, 0, 0, 0, 0, 0, 0, // e_ident
    2, 0, 0xf3, 0, 1, 0, 0, 0, // an executable for RISC-V, version 1
    0, 0, 1, 0, 52, 0, 0, 0, 0, 0, 0, 0, // the entry, the program headers, no sections
    0, 0, 0, 0, 52, 0, 32, 0, 2, 0, 0, 0, 0, 0, 0, 0, // flags, sizes and counts
    1, 0, 0, 0, 0, 0x10, 0, 0, 0, 0, 1, 0, 0, 0, 1, 0, // the text
    4, 0, 0, 0, 4, 0, 0, 0, 5, 0, 0, 0, 0, 0x10, 0, 0, //
    1, 0, 0, 0, 0, 0x20, 0, 0, 0, 0x10, 1, 0, 0, 0x10, 1, 0, // the globals and the stack
    8, 0, 0, 0, 0, 0x10, 0x80, 0, 6, 0, 0, 0, 0, 0x10, 0, 0,
];

#[test]
fn an_image_without_read_only_globals_has_two_segments(rt: HostRuntime) -> Result<(), Fail> {
    let image = Image {
        text: [0x37, 0x24, 0x01, 0x00].to_vec(rt.alloc())?,
        fixed: Vec::new(rt.alloc()),
        fixed_at: 0x11000,
        globals: [0; 8].to_vec(rt.alloc())?,
        data_at: 0x11000,
        stack_at: 0x12000,
    };
    let file = write(rt.alloc(), &image)?;
    assert_eq!(rt; file.len(), 8200);
    assert!(rt; file.starts_with(&HEADERS));
    assert_eq!(rt; file.get(4096), Some(&0x37));
    assert_eq!(rt; file.get(4100), Some(&0));
    Ok(())
}

/// Two segments: 4 bytes at 0x10000, and 8 bytes at 0x20000 of which the file has 4.
static FILE: [u8; 120] = [
    0x7f, 0x45, 0x4c, 0x46, 1, 1, 1, 0, 0, 0, 0, 0, 0, 0, 0, 0, // 0: e_ident
    2, 0, 0xf3, 0, 1, 0, 0, 0, 4, 0, 1, 0, 52, 0, 0, 0, // 16: to e_phoff
    0, 0, 0, 0, 0, 0, 0, 0, 52, 0, 32, 0, 2, 0, 0, 0, 0, 0, 0, 0, // 32: from e_shoff
    1, 0, 0, 0, 116, 0, 0, 0, 0, 0, 1, 0, 0, 0, 1, 0, // 52
    4, 0, 0, 0, 4, 0, 0, 0, 5, 0, 0, 0, 0, 0x10, 0, 0, // 68
    1, 0, 0, 0, 116, 0, 0, 0, 0, 0, 2, 0, 0, 0, 2, 0, // 84
    4, 0, 0, 0, 8, 0, 0, 0, 6, 0, 0, 0, 0, 0x10, 0, 0, // 100
    0x13, 0, 0, 0, // 116
];

/// The fault of the file with these bytes changed.
fn fault_with(changes: &[(usize, u8)]) -> Option<ElfFault> {
    let mut file = FILE;
    for (at, byte) in changes {
        if let Some(old) = file.get_mut(*at) {
            *old = *byte;
        }
    }
    read(&file).err()
}

#[test]
fn a_view_shows_the_entry_and_the_segments(rt: HostRuntime) -> Result<(), Fail> {
    let view = read(&FILE).ok().ok_or("a fault")?;
    assert_eq!(rt; view.entry(), 0x10004);
    assert_eq!(rt; view.count(), 2);
    let text = view.segment(0);
    assert_eq!(rt; (text.at, text.size, text.flags), (0x10000, 4, 5));
    let data = view.segment(1);
    assert_eq!(rt; (data.at, data.size, data.flags), (0x20000, 8, 6));
    assert_eq!(rt; data.bytes, [0x13, 0, 0, 0].as_slice());
    Ok(())
}

#[test]
fn a_file_without_its_headers_is_refused(rt: HostRuntime) {
    assert_eq!(rt; read(&[0; 51]).err(), Some(ElfFault::Short));
    assert_eq!(rt; read(&[0; 52]).err(), Some(ElfFault::NotElf));
    assert_eq!(rt; fault_with(&[(0, 0)]), Some(ElfFault::NotElf));
    for (at, byte) in [
        (4, 2),
        (5, 2),
        (6, 0),
        (16, 3),
        (18, 62),
        (20, 2),
        (42, 31),
        (44, 0),
        (44, 17),
    ] {
        assert_eq!(rt; fault_with(&[(at, byte)]), Some(ElfFault::NotProfile));
    }
    assert_eq!(rt; fault_with(&[(44, 3)]), Some(ElfFault::Short));
    assert_eq!(rt; fault_with(&[(28, 57)]), Some(ElfFault::Short));
}

#[test]
fn a_bad_segment_is_refused(rt: HostRuntime) {
    let bad = Some(ElfFault::BadSegment);
    // More in the file than in memory, and past the end of the file, also without a byte of it.
    assert_eq!(rt; fault_with(&[(68, 5)]), bad);
    assert_eq!(rt; fault_with(&[(56, 117)]), bad);
    assert_eq!(rt; fault_with(&[(56, 121), (68, 0)]), bad);
    // Past the end of the address space, on the last byte of the text, and too much memory
    // together.
    assert_eq!(rt;
        fault_with(&[(92, 0xf9), (93, 0xff), (94, 0xff), (95, 0xff)]),
        bad
    );
    assert_eq!(rt; fault_with(&[(92, 3), (94, 1)]), bad);
    assert_eq!(rt;
        fault_with(&[(104, 0xfd), (105, 0xff), (106, 0xff), (107, 0x0f)]),
        bad
    );
}

#[test]
fn a_segment_at_a_limit_is_accepted(rt: HostRuntime) {
    assert_eq!(rt; fault_with(&[]), None);
    assert_eq!(rt; fault_with(&[(56, 120), (68, 0)]), None);
    assert_eq!(rt;
        fault_with(&[(92, 0xf8), (93, 0xff), (94, 0xff), (95, 0xff)]),
        None
    );
    assert_eq!(rt; fault_with(&[(92, 4), (94, 1)]), None);
    assert_eq!(rt;
        fault_with(&[(104, 0xfc), (105, 0xff), (106, 0xff), (107, 0x0f)]),
        None
    );
    // A segment without memory within another one, and a bad segment that is not loaded.
    assert_eq!(rt; fault_with(&[(60, 1), (62, 2), (68, 0), (72, 0)]), None);
    assert_eq!(rt; fault_with(&[(52, 2), (68, 5)]), None);
}
