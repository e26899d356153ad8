//! What all crates share: no memory, limits, counted steps, and the bytes of names and texts.
//! Promise: a failed allocation, with or without a value that is given back, turns into it.
//! Always: constants and definitions have the same names and values. A count takes no bytes and
//! no instruction of the program.
#![tactic(auto)]

mod bytes;
mod counted;
mod limits;
mod name;
mod no_memory;

pub use bytes::Bytes;
pub use counted::Steps;
pub use limits::{
    MOST_BUILT_VALUES, MOST_CALLEE_VALUES, MOST_FUNCTIONS, MOST_GENERATED_FUNCTIONS,
    MOST_GLOBAL_BYTES, MOST_GROWN_VALUES, MOST_IMAGE_BYTES, MOST_JOBS, MOST_LAMBDA_VALUES,
    MOST_LOOP_VALUES, MOST_NAME_BYTES, MOST_NESTING, MOST_OBJECT_BYTES, MOST_PARAMETERS,
    MOST_PROGRAM_VALUES, MOST_SOURCE_BYTES, MOST_STEPS, MOST_SWEEPS, MOST_TOKENS, MOST_TYPE_BYTES,
    MOST_WORKERS,
};
pub use name::Name;
pub use no_memory::NoMemory;
