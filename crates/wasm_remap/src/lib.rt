//! The indices of a WebAssembly module, mapped: every place that refers to a function, a type, a
//! table, a memory, a global, a tag, an element segment or a data segment.
#![tactic(auto)]

mod bodies;
mod code;
mod customs;
mod imports;
mod indexed;
mod insert;
mod instructions;
mod instrument;
mod items;
mod modules;
mod places;
mod recursive;
mod remove;
mod sections;
mod shift;
mod spaces;
mod streamed;
mod types;

pub use code::{Prologue, insert_code};
pub use imports::{imported, insert_import};
pub use indexed::{Remap, RemapError};
pub use insert::{Position, insert_section};
pub use instrument::{Instrument, Visited, instrument_code};
pub use items::{remap_items, remap_section};
pub use modules::remap_module;
pub use remove::{RemoveError, remove_functions};
pub use shift::{IndexTooLarge, Shift};
pub use spaces::{IndexSpace, spaces_of};
