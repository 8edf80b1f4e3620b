//! The sections of counted items over [`Entries`]: a section keeps the bytes of its entries and
//! their number. It does not keep where an entry ends, and no call returns an entry.
use crate::counted_section::CountedSection;
use crate::data::DataItems;
use crate::element::ElementItems;
use crate::export::ExportItems;
use crate::function::FunctionItems;
use crate::global::GlobalItems;
use crate::import::ImportItems;
use crate::memory::MemoryItems;
use crate::table::TableItems;
use crate::tag::TagItems;
use std::alloc::Global;
use wasm_base::Entries;

/// The function section.
pub type FunctionSection<A = Global> = CountedSection<FunctionItems, Entries<A>>;

/// The table section.
pub type TableSection<A = Global> = CountedSection<TableItems, Entries<A>>;

/// The memory section.
pub type MemorySection<A = Global> = CountedSection<MemoryItems, Entries<A>>;

/// The tag section.
pub type TagSection<A = Global> = CountedSection<TagItems, Entries<A>>;

/// The global section.
pub type GlobalSection<A = Global> = CountedSection<GlobalItems, Entries<A>>;

/// The export section.
pub type ExportSection<A = Global> = CountedSection<ExportItems, Entries<A>>;

/// The import section.
pub type ImportSection<A = Global> = CountedSection<ImportItems, Entries<A>>;

/// The element section.
pub type ElementSection<A = Global> = CountedSection<ElementItems, Entries<A>>;

/// The data section.
pub type DataSection<A = Global> = CountedSection<DataItems, Entries<A>>;
