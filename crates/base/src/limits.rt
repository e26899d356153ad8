//! The limits of the compiler, each once.
//! They are numbers that code compares with and that definitions cite (`specs/Limits.antt`).
//! ISO/IEC 9899:2011, 5.2.4.1, lets a translator choose those of the language and of its programs.
//! Those of rules, of builds and of runs are the compiler's own choice. What a format gives
//! (RV32IM, ELF) is with that format.
//! Always: constants and definitions have the same names and values.

/// The most bytes of a source.
pub const MOST_SOURCE_BYTES: usize = 1_048_576;

/// The most tokens of a source.
pub const MOST_TOKENS: usize = 200_000;

/// The most bytes of an identifier.
pub const MOST_NAME_BYTES: usize = 63;

/// The most constructs that are open at one place of a source.
pub const MOST_NESTING: u32 = 200;

/// The most bytes of a type.
pub const MOST_TYPE_BYTES: u32 = 1_048_576;

/// The most functions of a program.
pub const MOST_FUNCTIONS: usize = 512;

/// The most parameters of a function.
pub const MOST_PARAMETERS: u32 = 8;

/// The most bytes of the memory objects of a function. Each object counts its size, rounded up to
/// a multiple of 4, and 4 more.
pub const MOST_OBJECT_BYTES: u32 = 65_536;

/// The most bytes of the globals of a program, counted as those of objects.
pub const MOST_GLOBAL_BYTES: u32 = 1_048_576;

/// The most values of a lambda that an image is made of.
pub const MOST_LAMBDA_VALUES: u32 = 24_576;

/// The most values of all lambdas that an image is made of.
pub const MOST_PROGRAM_VALUES: u32 = 4_594_304;

/// The most values of all lambdas as they are built, before a rule has changed one. It leaves each
/// of `MOST_FUNCTIONS` lambdas room to grow to `MOST_GROWN_VALUES` within `MOST_PROGRAM_VALUES`.
pub const MOST_BUILT_VALUES: u64 = 400_000;

/// The most values of a lambda that a rule has made larger. The compiler's choice.
pub const MOST_GROWN_VALUES: u128 = 8192;

/// The most values of a lambda that is inlined. The compiler's choice.
pub const MOST_CALLEE_VALUES: u64 = 400;

/// The most values of the region of a loop that is unrolled. The compiler's choice.
pub const MOST_LOOP_VALUES: u64 = 200;

/// The most sweeps of a recipe, each of one rule. The compiler's choice.
pub const MOST_SWEEPS: usize = 32;

/// The most jobs of a work. A build has one for each function, so there are `MOST_FUNCTIONS`.
pub const MOST_JOBS: usize = 512;

/// The most workers of a work, each in a thread of its own. The compiler's choice.
pub const MOST_WORKERS: u32 = 64;

/// The most functions that `gen` writes before `main`: one fewer than `MOST_FUNCTIONS`.
pub const MOST_GENERATED_FUNCTIONS: u64 = 511;

/// The most instructions that a run may be given. The compiler's choice.
pub const MOST_STEPS: u64 = 1_000_000_000_000;

/// The most bytes of an image that is run. It is the most that the reader of ELF files takes.
pub const MOST_IMAGE_BYTES: usize = 268_435_456;
