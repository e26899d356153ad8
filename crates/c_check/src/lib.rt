//! The checker: functions, declarations at file scope, `main` and the limits of programs.
//! From a syntax tree it makes the typed program, or the reason why the source is refused, with
//! its offset (ISO/IEC 9899:2011, 6.5 to 6.9). Each is that of the definition, out of memory
//! apart.
#![tactic(auto)]

mod agreement;
mod bindings;
mod checked;
mod defined;
mod definitions;
mod externals;
mod fault;
mod function_declarations;
mod functions;
mod large;
mod main_function;
mod member_list;
mod members;
mod param;
mod parameters;
mod quantities;

pub use bindings::{bind_params, name_params};
pub use checked::check;
pub use definitions::structure;
pub use fault::CheckFault;
pub use function_declarations::declare_function;
pub use param::Param;
pub use parameters::params;
