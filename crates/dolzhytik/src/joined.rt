//! The builders of sections, and of lists in them, over [`Entries`](crate::Entries): they keep the
//! bytes of their entries and their number. They take 8 bytes an entry less than the builders of the
//! same names in the crate, and no call returns an entry.
pub use wasm_code::joined::CodeSection;
pub use wasm_custom::joined::{
    BranchHints, CallTargets, ComdatSymbols, Comdats, CompilationOrders, CoreDumpInstancesSection,
    CoreDumpModulesSection, CoreDumpStackSection, DylinkExports, DylinkImports, DylinkNeeded,
    DylinkPath, DylinkSection, IndirectNameMap, InitFunctions, InstructionFrequencies,
    LinkingSection, NameMap, NameSection, ObjectLinking, ObjectSymbols, ProducersField,
    ProducersSection, SegmentInfos, SymbolTable, TargetFeaturesSection,
};
pub use wasm_sections::joined::{
    DataSection, ElementSection, ExportSection, FunctionSection, GlobalSection, ImportSection,
    MemorySection, TableSection, TagSection,
};
pub use wasm_types::joined::TypeSection;
