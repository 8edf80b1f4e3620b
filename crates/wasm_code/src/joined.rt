//! The code section over [`Entries`]: it keeps the bytes of its entries and their number. It does not
//! keep where an entry ends, and no call returns an entry.
use crate::code_section::CodeSectionIn;
use std::alloc::Global;
use wasm_base::Entries;

/// The code section.
pub type CodeSection<A = Global> = CodeSectionIn<Entries<A>>;
