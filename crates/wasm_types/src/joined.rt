//! The type section over [`Entries`]: it keeps the bytes of its entries and their number. It does not
//! keep where an entry ends, and no call returns an entry.
use crate::type_section::TypeSectionIn;
use std::alloc::Global;
use wasm_base::Entries;

/// The type section.
pub type TypeSection<A = Global> = TypeSectionIn<Entries<A>>;
