//! The base of a WebAssembly library: numbers, names, vectors, size prefixes and types, encoded and
//! decoded, the entries of a builder, sections and modules.
//!
//! The formats are those of the WebAssembly core specification, "Binary Format".
//! `specs/Formats.antt` defines which bytes encode which values, `specs/Calls.antt` the contracts
//! of calls that append, and [`laws`] states that the formats are unambiguous.
#![tactic(auto)]

mod counted;
mod cow;
mod effect;
mod encode;
mod fault;
mod fixed;
mod frames;
mod grammar;
mod kind;
pub mod laws;
mod leb128;
mod modules;
mod names;
mod once;
mod parts;
mod pieces;
mod readable;
mod refused;
mod section_id;
mod sections;
mod shorten;
mod store;
mod tuples;
mod types;
mod vectors;
mod walk;
mod whole;

pub use counted::{Counted, add_all};
pub use cow::{CowSlice, CowStr};
pub use effect::{Discard, Effect, EncodeIn};
pub use encode::Encode;
pub use fault::{DecodeError, ReadFault};
pub use frames::{
    RawBytes, SizePrefixed, SizedBytes, begin_size_prefixed, encode_section, encode_size_prefixed,
    prefix_size_since,
};
pub use grammar::{Grammar, Padded, Standard};
pub use kind::Kind;
pub use leb128::{Groups, encoding_size, read_groups, read_index};
pub use modules::Module;
pub use once::{BytesOf, EncodeOnce, VecOf, bytes_of, vec_of};
pub use parts::{Lent, Optional, read_optional};
pub use pieces::Pieces;
pub use readable::{Layout, Readable};
pub use refused::{Refused, Result};
pub use section_id::{
    CORE_FUNCTION_EXACT_SORT, CORE_FUNCTION_SORT, CORE_GLOBAL_SORT, CORE_MEMORY_SORT,
    CORE_TABLE_SORT, CORE_TAG_SORT, SectionId,
};
pub use sections::{RawSection, Section};
pub use shorten::Shorten;
pub use store::{Entries, ItemsOf, NewStore, PaddedOf, Property, Store};
pub use types::{AbstractHeapType, HeapType, RefType, ValType, read_val_after};
pub use vectors::{append_all, encode_vec};
pub use walk::{
    Canonical, Shared, Walk, check_to_end, check_whole, minimize_many, minimize_to_end,
    minimize_whole, skip_many, skip_value, walk_in, walk_many, walk_shared, walk_to_end,
    walk_value, walk_whole,
};
pub use whole::{read_before, read_to_end, read_whole};
