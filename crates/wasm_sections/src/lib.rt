//! The core sections of a WebAssembly module except types and code, by the core specification,
//! "Binary Format", "Modules".
//!
//! Each section has a builder. The crate also decodes their items (`Readable` of `wasm_base`), walks
//! over them (`Walk`), and writes decoded ones in their minimal encoding (`Shorten`).
#![tactic(auto)]

mod counted_section;
mod data;
mod element;
mod element_items;
mod export;
mod flags;
mod function;
mod global;
mod import;
pub mod joined;
pub mod laws;
mod memory;
mod start;
mod table;
mod tag;
mod walk;

pub use counted_section::{CountedSection, ItemKind, RecordOf};
pub use data::{DataItems, DataSection, DataSegment, DataSegmentMode, Segment, read_segments};
pub use element::{ElementItems, ElementMode, ElementSection, ElementSegment, Elements};
pub use element_items::{ElementItem, ElementItemMode, ElementList};
pub use export::{Export, ExportItems, ExportKind, ExportSection};
pub use function::{FunctionItems, FunctionSection};
pub use global::{GlobalItem, GlobalItems, GlobalSection, GlobalType};
pub use import::{
    EntityType, Import, ImportCompact, ImportItems, ImportSection, Imports, append_imports,
    read_imports,
};
pub use memory::{MemoryItems, MemorySection, MemoryType};
pub use start::{DataCountSection, StartSection};
pub use table::{TableItem, TableItems, TableSection, TableType};
pub use tag::{TagItems, TagKind, TagSection, TagType};
