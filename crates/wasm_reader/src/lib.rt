//! Decodes sections, exactly: `Ok` holds the items that the bytes encode, possibly as padded
//! LEB128. Every error except [`ReadFault::Memory`] means that the bytes encode no such items.
//!
//! [`Sections`] iterates over the sections of a module, and [`Section::items`] decodes one, in the
//! standard's grammar. [`read_section`] decodes a section of a [`SectionKind`], without its id,
//! into [`Items`], and [`shorten`] writes its minimal encoding. A custom section decodes by the
//! kind that its name selects; a payload that is not of that kind is an error. One of another name
//! decodes to its name and data.
#![tactic(auto)]

mod by_opcode;
mod code_bodies;
mod convert;
mod kinds;
pub mod laws;
mod minimal;
mod modules;
mod outlines;
mod read_error;
mod section;
mod sections;
mod standing;
mod walk;
mod whole;

pub use code_bodies::{Bodies, CodeBody};
pub use convert::instruction_of;
pub use kinds::{Items, SectionKind, encode_items};
pub use minimal::{encode_items_in, shorten};
pub use modules::{Listed, list_module};
pub use outlines::{Outlined, outline};
pub use read_error::ReadError;
pub use section::read_section;
pub use sections::{Section, Sections};
pub use wasm_base::ReadFault;
pub use wasm_code::{Body, Expression};
pub use wasm_custom::{CoreFrame, DylinkItem, LinkItem, NameItem, Symbol};
pub use wasm_insn::{Arg, Plain};
pub use wasm_sections::{
    ElementItem, ElementItemMode, ElementList, GlobalItem, Segment, TableItem,
};
pub use wasm_types::TypeEntry;
pub use whole::{ModuleFault, Offsets, shorten_module};
