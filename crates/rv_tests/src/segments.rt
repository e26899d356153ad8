//! Runs of files whose segments are others than one text and its data. The words are those of GNU
//! binutils.

use cc_io::{MemSink, NoFailSource};
use elf_file::read;
use rv_machine::{Machine, Stop};
use std::alloc::{AllocError, Global};
use std::test::Fail;

/// A segment of a file: its address, its flags (4 to read, 2 to write, 1 to execute), and its words
/// and up to 3 bytes more.
#[derive(Clone, Copy)]
struct Part {
    at: u32,
    flags: u32,
    words: &'static [u32],
    rest: &'static [u8],
}

/// A text to read and execute.
const fn text(at: u32, words: &'static [u32]) -> Part {
    Part {
        at,
        flags: 5,
        words,
        rest: &[],
    }
}

/// The bytes of a segment.
fn size_of(part: &Part) -> u32 {
    let words = (part.words.len() % 1024) as u32;
    let rest = (part.rest.len() % 4) as u32;
    4 * words + rest
}

fn push_words(file: &mut Vec<u8>, words: &[u32]) -> Result<(), AllocError> {
    for word in words {
        file.extend_from_slice(&word.to_le_bytes())?;
    }
    Ok(())
}

/// An executable file with these segments: Elf32_Ehdr, an Elf32_Phdr for each, and their bytes.
fn file(alloc: Global, entry: u32, parts: &[Part]) -> Result<Vec<u8>, AllocError> {
    let count = (parts.len() % 32) as u32;
    let mut bytes = Vec::new(alloc);
    push_words(
        &mut bytes,
        &[0x464c_457f, 0x0001_0101, 0, 0, 0x00f3_0002, 1],
    )?;
    push_words(&mut bytes, &[entry, 52, 0, 0, 0x0020_0034, count, 0])?;
    let mut offset = 52 + 32 * count;
    for part in parts {
        let size = size_of(part);
        let header = [1, offset, part.at, part.at, size, size, part.flags, 4];
        push_words(&mut bytes, &header)?;
        offset = offset.wrapping_add(size);
    }
    for part in parts {
        push_words(&mut bytes, part.words)?;
        bytes.extend_from_slice(part.rest)?;
    }
    Ok(bytes)
}

/// Why a run of the file's bytes stops.
fn stop_of(alloc: Global, bytes: &[u8], steps: u64) -> Result<Stop, Fail> {
    let view = read(bytes).ok().ok_or("a fault of the file")?;
    let mut machine = Machine::load(alloc, &view)?;
    let mut input = NoFailSource::new(Vec::new(alloc));
    let mut output = MemSink::new(alloc, Vec::new(alloc));
    Ok(machine.run(steps, &mut input, &mut output))
}

/// Adds 1 to a0, writes the word at 0x1001c, which adds 16, over the one that did so, and does it
/// once more; then adds 16, and exits with the sum.
static CHANGES: [u32; 10] = [
    0x0000_0317, // auipc t1, 0
    0x01c3_2283, // lw t0, 28(t1)
    0x0015_0513, // addi a0, a0, 1
    0x0053_2423, // sw t0, 8(t1)
    0x0013_8393, // addi t2, t2, 1
    0x0023_be13, // sltiu t3, t2, 2
    0xfe0e_18e3, // bne t3, zero, -16
    0x0105_0513, // addi a0, a0, 16
    0x05d0_0893, // addi a7, zero, 93
    0x0000_0073, // ecall
];

/// To 0x20000.
static THERE: [u32; 2] = [0x0002_02b7, 0x0002_8067]; // lui t0, 0x20; jalr zero, 0(t0)

/// Back to 0x10000.
static BACK: [u32; 2] = [0x0001_02b7, 0x0002_8067]; // lui t0, 0x10; jalr zero, 0(t0)

/// Exits with 5.
static FIVE: [u32; 3] = [0x0050_0513, 0x05d0_0893, 0x0000_0073];

/// Adds 1 to the word at 0x20004, and exits with the sum of its first and its last byte.
static ACROSS: [u32; 9] = [
    0x0002_02b7, // lui t0, 0x20
    0x0042_a303, // lw t1, 4(t0)
    0x0013_0313, // addi t1, t1, 1
    0x0062_a223, // sw t1, 4(t0)
    0x0072_c503, // lbu a0, 7(t0)
    0x0042_c383, // lbu t2, 4(t0)
    0x0075_0533, // add a0, a0, t2
    0x05d0_0893, // addi a7, zero, 93
    0x0000_0073, // ecall
];

/// Exits with the sum of the words at 0x20000, 0x21000 and so on to 0x2e000.
static SUM: [u32; 10] = [
    0x0002_02b7, // lui t0, 0x20
    0x00f0_0313, // addi t1, zero, 15
    0x0000_1e37, // lui t3, 1
    0x0002_a383, // lw t2, 0(t0)
    0x0075_0533, // add a0, a0, t2
    0x01c2_82b3, // add t0, t0, t3
    0xfff3_0313, // addi t1, t1, -1
    0xfe03_18e3, // bne t1, zero, -16
    0x05d0_0893, // addi a7, zero, 93
    0x0000_0073, // ecall
];

#[test]
fn text_that_may_be_written_is_fetched_anew(rt: HostRuntime) -> Result<(), Fail> {
    let parts = [Part {
        at: 0x10000,
        flags: 7,
        words: &CHANGES,
        rest: &[],
    }];
    let bytes = file(rt.alloc(), 0x10000, &parts)?;
    assert_eq!(rt; stop_of(rt.alloc(), &bytes, 100)?, Stop::Exit(33));
    Ok(())
}

#[test]
fn text_of_two_segments_is_done(rt: HostRuntime) -> Result<(), Fail> {
    let alloc = rt.alloc();
    let there = file(
        alloc,
        0x10000,
        &[text(0x10000, &THERE), text(0x20000, &FIVE)],
    )?;
    assert_eq!(rt; stop_of(alloc, &there, 5)?, Stop::Exit(5));
    let back = file(
        alloc,
        0x20000,
        &[text(0x10000, &FIVE), text(0x20000, &BACK)],
    )?;
    assert_eq!(rt; stop_of(alloc, &back, 5)?, Stop::Exit(5));
    Ok(())
}

#[test]
fn pc_is_stuck_where_no_word_is(rt: HostRuntime) -> Result<(), Fail> {
    let alloc = rt.alloc();
    let bytes = file(alloc, 0x10000, &[text(0x10000, &[0x0010_0073])])?;
    assert_eq!(rt; stop_of(alloc, &bytes, 1)?, Stop::Stack);
    for pc in [
        0xfffc,
        0xffff,
        0x10001,
        0x10002,
        0x10003,
        0x10004,
        0x10008,
        0xffff_fffc,
    ] {
        let bytes = file(alloc, pc, &[text(0x10000, &[0x0010_0073])])?;
        assert_eq!(rt; stop_of(alloc, &bytes, 1)?, Stop::Stuck { pc, why: 1 });
    }
    Ok(())
}

#[test]
fn a_word_is_of_four_bytes_that_may_be_executed(rt: HostRuntime) -> Result<(), Fail> {
    let alloc = rt.alloc();
    let cut = |flags, bytes| [
        Part {
            at: 0x10000,
            flags: 5,
            words: &[0x05d0_0893],
            rest: &[0x73, 0, 0],
        },
        Part {
            at: 0x10007,
            flags,
            words: &[],
            rest: bytes,
        },
    ];
    let stuck = Stop::Stuck {
        pc: 0x10004,
        why: 1,
    };
    for (flags, rest, stop) in [
        (5, [0].as_slice(), Stop::Exit(0)),
        (4, [0].as_slice(), stuck),
        (5, [].as_slice(), stuck),
    ] {
        let bytes = file(alloc, 0x10000, &cut(flags, rest))?;
        assert_eq!(rt; stop_of(alloc, &bytes, 2)?, stop);
    }
    Ok(())
}

#[test]
fn text_at_no_multiple_of_four_is_done(rt: HostRuntime) -> Result<(), Fail> {
    // addi a0, zero, 9; addi a7, zero, 93; ecall, from the third byte on.
    let parts = [Part {
        at: 0x10002,
        flags: 5,
        words: &[0x0513_0000, 0x0893_0090, 0x0073_05d0],
        rest: &[0, 0],
    }];
    let bytes = file(rt.alloc(), 0x10004, &parts)?;
    assert_eq!(rt; stop_of(rt.alloc(), &bytes, 3)?, Stop::Exit(9));
    Ok(())
}

#[test]
fn an_access_spans_two_segments_that_touch(rt: HostRuntime) -> Result<(), Fail> {
    let alloc = rt.alloc();
    for (first, second, stop) in [
        (6, 6, Stop::Exit(14)),
        (
            6,
            2,
            Stop::Stuck {
                pc: 0x10004,
                why: 3,
            },
        ),
        (
            6,
            4,
            Stop::Stuck {
                pc: 0x1000c,
                why: 3,
            },
        ),
        (
            4,
            6,
            Stop::Stuck {
                pc: 0x1000c,
                why: 3,
            },
        ),
    ] {
        let parts = [
            Part {
                at: 0x20006,
                flags: second,
                words: &[],
                rest: &[7, 8],
            },
            text(0x10000, &ACROSS),
            Part {
                at: 0x20000,
                flags: first,
                words: &[0x0403_0201],
                rest: &[5, 6],
            },
        ];
        let bytes = file(alloc, 0x10000, &parts)?;
        assert_eq!(rt; stop_of(alloc, &bytes, 100)?, stop);
    }
    Ok(())
}

/// A segment of one word, to read.
const fn constant(at: u32, words: &'static [u32]) -> Part {
    Part {
        at,
        flags: 4,
        words,
        rest: &[],
    }
}

#[test]
fn sixteen_segments_are_read(rt: HostRuntime) -> Result<(), Fail> {
    let parts = [
        constant(0x20000, &[1]),
        constant(0x21000, &[2]),
        constant(0x22000, &[3]),
        constant(0x23000, &[4]),
        constant(0x24000, &[5]),
        constant(0x25000, &[6]),
        constant(0x26000, &[7]),
        text(0x10000, &SUM),
        constant(0x27000, &[8]),
        constant(0x28000, &[9]),
        constant(0x29000, &[10]),
        constant(0x2a000, &[11]),
        constant(0x2b000, &[12]),
        constant(0x2c000, &[13]),
        constant(0x2d000, &[14]),
        constant(0x2e000, &[15]),
    ];
    let bytes = file(rt.alloc(), 0x10000, &parts)?;
    assert_eq!(rt; stop_of(rt.alloc(), &bytes, 100)?, Stop::Exit(120));
    Ok(())
}

/// 2^20 words and one more, of which all but two add 1 to a0: the first that is not decoded ahead
/// is the ecall.
#[test]
fn a_text_of_more_words_than_are_decoded_is_done(rt: HostRuntime) -> Result<(), Fail> {
    let alloc = rt.alloc();
    let size = (1 << 22) + 4;
    let mut bytes = Vec::new(alloc);
    push_words(
        &mut bytes,
        &[0x464c_457f, 0x0001_0101, 0, 0, 0x00f3_0002, 1],
    )?;
    push_words(&mut bytes, &[0x10000, 52, 0, 0, 0x0020_0034, 1, 0])?;
    push_words(&mut bytes, &[1, 84, 0x10000, 0x10000, size, size, 5, 4])?;
    for _word in 1..1 << 20 {
        push_words(&mut bytes, &[0x0015_0513])?; // addi a0, a0, 1
    }
    push_words(&mut bytes, &[0x05d0_0893, 0x0000_0073])?;
    assert_eq!(rt; stop_of(alloc, &bytes, 1 << 20)?, Stop::Budget);
    assert_eq!(rt; stop_of(alloc, &bytes, (1 << 20) + 1)?, Stop::Exit(255));
    Ok(())
}
