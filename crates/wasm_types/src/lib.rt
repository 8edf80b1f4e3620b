//! The type section of a module, by the core specification, "Binary Format", "Types" and "Type
//! Section": its builder, its reader and the walk over its types.
//!
//! The reader is exact: `Ok` holds the items that the bytes encode in its grammar. Every error
//! except `ReadFault::Memory` means that the bytes encode no such items.
#![tactic(auto)]

mod fields;
mod items;
pub mod joined;
pub mod laws;
mod shapes;
mod type_section;
mod types;
mod walk;

pub use items::{SubItem, TypeEntry};
pub use type_section::{
    CoreTypeEncoder, CoreTypeEncoderIn, TypeItems, TypeSection, TypeSectionIn, append_types,
    read_types,
};
pub use types::{
    ArrayType, CompositeInnerType, CompositeType, ContType, FieldType, FuncType, StorageType,
    StructType, SubType,
};
