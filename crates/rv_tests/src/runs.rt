//! Runs of small programs, whose words are those of GNU binutils.

use cc_io::{MemSink, MemSource, NoFailSource};
use elf_file::read;
use rv_machine::{Machine, Stop};
use std::alloc::{AllocError, Global};
use std::test::Fail;

/// Elf32_Ehdr and two Elf32_Phdr: the text at 0x10000, to read and execute, and 4096 bytes of zeros
/// at 0x20000, to read and write. The size of the text is left out.
const HEADERS: [u32; 29] = [
    0x464c_457f,
    0x0001_0101,
    0,
    0,
    0x00f3_0002,
    1,
    0x10000,
    52,
    0,
    0,
    0x0020_0034,
    2,
    0, // Elf32_Ehdr
    1,
    116,
    0x10000,
    0x10000,
    0,
    0,
    5,
    4, // the text
    1,
    0,
    0x20000,
    0x20000,
    0,
    0x1000,
    6,
    4, // the data
];

/// An executable file with these instructions.
fn file(alloc: Global, code: &[u32]) -> Result<Vec<u8>, AllocError> {
    let size = (code.len() % 1024) as u32 * 4;
    let mut bytes = Vec::new(alloc);
    for (k, word) in HEADERS.iter().enumerate() {
        let value = if k == 17 || k == 18 { size } else { *word };
        bytes.extend_from_slice(&value.to_le_bytes())?;
    }
    for word in code {
        bytes.extend_from_slice(&word.to_le_bytes())?;
    }
    Ok(bytes)
}

/// What this many steps of a program come to, with the input "hi": why it stopped, and what it
/// wrote.
fn run(alloc: Global, code: &[u32], steps: u64) -> Result<(Stop, Vec<u8>), Fail> {
    let bytes = file(alloc, code)?;
    let view = read(&bytes).ok().ok_or("a fault of the file")?;
    let mut machine = Machine::load(alloc, &view)?;
    let mut input = NoFailSource::new(b"hi".to_vec(alloc)?);
    let mut output = MemSink::new(alloc, Vec::new(alloc));
    let stop = machine.run(steps, &mut input, &mut output);
    Ok((stop, output.bytes().to_vec(alloc)?))
}

/// Writes each byte of the input, and exits with 7 at its end.
static ECHO: [u32; 14] = [
    0x0002_0437,
    0x03f0_0893,
    0x0000_0513,
    0x0004_0593,
    0x0010_0613,
    0x0000_0073,
    0x0005_0a63,
    0x0010_0513,
    0x0400_0893,
    0x0000_0073,
    0xfddf_f06f,
    0x0070_0513,
    0x05d0_0893,
    0x0000_0073,
];

/// Exits with 3 where division, products, loads, shifts, branches and jumps give what qemu-riscv32
/// gives.
static ARITHMETIC: [u32; 25] = [
    0x8000_02b7,
    0xfff0_0313,
    0x0262_c3b3,
    0x0262_ee33,
    0x0253_9e63,
    0x020e_1c63,
    0x0263_2eb3,
    0x026e_9863,
    0x0002_0437,
    0x0064_2223,
    0x0054_0f03,
    0x026f_1063,
    0x0064_5f83,
    0x0001_06b7,
    0xfff6_8693,
    0x00df_9863,
    0x4062_d733,
    0x0067_1463,
    0x0053_7463,
    0x0010_0073,
    0x0000_0797,
    0x0097_80e7,
    0x0030_0513,
    0x05d0_0893,
    0x0000_0073,
];

#[test]
fn programs_end_as_the_manual_says(rt: HostRuntime) -> Result<(), Fail> {
    let stuck = |pc, why| Stop::Stuck { pc, why };
    let table: [(&[u32], u64, Stop); 14] = [
        (&[0x02a0_0513, 0x05d0_0893, 0x73], 3, Stop::Exit(42)),
        (&[0x02a0_0513, 0x05d0_0893, 0x73], 2, Stop::Budget),
        (&ARITHMETIC, 100, Stop::Exit(3)),
        (&[0x0000_006f], 1000, Stop::Budget), // jal x0, 0
        (&[0x0010_0073], 1, Stop::Stack),
        (&[], 1, stuck(0x10000, 1)),
        (&[0x0000_0067], 2, stuck(0, 1)), // jalr x0, 0(x0)
        (&[0x0020_0067], 2, stuck(2, 1)), // jalr x0, 2(x0)
        (&[0], 1, stuck(0x10000, 2)),
        (&[0x0000_2083], 1, stuck(0x10000, 3)), // lw ra, 0(x0)
        (&[0x0001_0437, 0x0084_2023], 2, stuck(0x10004, 3)), // sw s0, 0(s0) at 0x10000
        (&[0x0010_2083], 1, stuck(0x10000, 4)), // lw ra, 1(x0)
        (&[0x0000_0073], 1, stuck(0x10000, 5)),
        (
            &[0x0002_1437, 0xfff4_4083, 0x0004_0083],
            3,
            stuck(0x10008, 3),
        ), // the data's last byte, and the next
    ];
    for (code, steps, stop) in table {
        assert_eq!(rt; run(rt.alloc(), code, steps)?.0, stop);
    }
    Ok(())
}

#[test]
fn the_input_is_read_and_the_output_written(rt: HostRuntime) -> Result<(), Fail> {
    let (stop, output) = run(rt.alloc(), &ECHO, 100)?;
    assert_eq!(rt; stop, Stop::Exit(7));
    assert_eq!(rt; output.as_slice(), b"hi".as_slice());
    Ok(())
}

#[test]
fn after_a_fault_the_instruction_can_be_done(rt: HostRuntime) -> Result<(), Fail> {
    let alloc = rt.alloc();
    let bytes = file(alloc, &ECHO)?;
    let view = read(&bytes).ok().ok_or("a fault of the file")?;
    let mut machine = Machine::load(alloc, &view)?;
    let mut input = MemSource::new(b"hi".to_vec(alloc)?, [1].to_vec(alloc)?);
    let mut output = MemSink::new(alloc, [0].to_vec(alloc)?);
    assert_eq!(rt; machine.run(100, &mut input, &mut output), Stop::WriteFault);
    assert_eq!(rt; machine.run(100, &mut input, &mut output), Stop::ReadFault);
    assert_eq!(rt; machine.step(&mut input, &mut output), None);
    assert_eq!(rt; machine.run(100, &mut input, &mut output), Stop::Exit(7));
    assert_eq!(rt; machine.step(&mut input, &mut output), Some(Stop::Exit(7)));
    assert_eq!(rt; machine.run(0, &mut input, &mut output), Stop::Exit(7));
    assert_eq!(rt; output.bytes(), b"hi".as_slice());
    Ok(())
}
