//! The custom sections of entries, and the lists in them, over [`Entries`]: each keeps the bytes of
//! its entries and their number. It does not keep where an entry ends.
use crate::call_targets::CallTarget;
use crate::code_metadata::HintsOf;
use crate::comdats::{ComdatMembers, ComdatSymbolMembers};
use crate::compilation_orders::CompilationOrder;
use crate::core_dumps::{InstanceItems, ModuleItems};
use crate::core_stack::CoreDumpStackIn;
use crate::dylink::DylinkItems;
use crate::dylink_symbols::{ExportFlagMembers, ImportFlagMembers, NeededMembers, PathMembers};
use crate::entries::CustomEntries;
use crate::hints::HintItems;
use crate::init_functions::InitMembers;
use crate::instruction_frequencies::InstructionFrequency;
use crate::linking::LinkingItems;
use crate::lists::CountedList;
use crate::names::{IndirectMembers, NameItems, NameMembers};
use crate::object_linking::ObjectLinkingItems;
use crate::object_symbols::ObjectSymbolMembers;
use crate::producers::{ProducerItems, ValueMembers};
use crate::segments::SegmentMembers;
use crate::symbols::SymbolMembers;
use crate::target_features::FeatureItems;
use std::alloc::Global;
use wasm_base::Entries;

/// Branch hints.
pub type BranchHints<A = Global> = CustomEntries<HintItems, Entries<A>>;

/// Call targets.
pub type CallTargets<A = Global> = CustomEntries<HintsOf<Vec<CallTarget, A>>, Entries<A>>;

/// The members of a COMDAT group.
pub type ComdatSymbols<A = Global> = CountedList<ComdatSymbolMembers, Entries<A>>;

/// The COMDAT groups of a module.
pub type Comdats<A = Global> = CountedList<ComdatMembers, Entries<A>>;

/// Compilation orders.
pub type CompilationOrders<A = Global> = CustomEntries<HintsOf<CompilationOrder>, Entries<A>>;

/// The instances of a core dump.
pub type CoreDumpInstancesSection<A = Global> = CustomEntries<InstanceItems, Entries<A>>;

/// The modules of a core dump.
pub type CoreDumpModulesSection<A = Global> = CustomEntries<ModuleItems, Entries<A>>;

/// Flags of exported symbols.
pub type DylinkExports<A = Global> = CountedList<ExportFlagMembers, Entries<A>>;

/// Flags of imported symbols.
pub type DylinkImports<A = Global> = CountedList<ImportFlagMembers, Entries<A>>;

/// The libraries that a dynamic library needs.
pub type DylinkNeeded<A = Global> = CountedList<NeededMembers, Entries<A>>;

/// The folders in which the loader searches for libraries.
pub type DylinkPath<A = Global> = CountedList<PathMembers, Entries<A>>;

/// The stack of a thread in a core dump.
pub type CoreDumpStackSection<A = Global> = CoreDumpStackIn<Entries<A>>;

/// The section of a dynamic library.
pub type DylinkSection<A = Global> = CustomEntries<DylinkItems, Entries<A>>;

/// An indirect name map.
pub type IndirectNameMap<A = Global> = CountedList<IndirectMembers, Entries<A>>;

/// The init functions of an object file.
pub type InitFunctions<A = Global> = CountedList<InitMembers, Entries<A>>;

/// Instruction frequencies.
pub type InstructionFrequencies<A = Global> = CustomEntries<
    HintsOf<InstructionFrequency>,
    Entries<A>,
>;

/// The linking section.
pub type LinkingSection<A = Global> = CustomEntries<LinkingItems, Entries<A>>;

/// A name map.
pub type NameMap<A = Global> = CountedList<NameMembers, Entries<A>>;

/// The name section.
pub type NameSection<A = Global> = CustomEntries<NameItems, Entries<A>>;

/// The linking section of an object file.
pub type ObjectLinking<A = Global> = CustomEntries<ObjectLinkingItems, Entries<A>>;

/// The symbol table of an object file.
pub type ObjectSymbols<A = Global> = CountedList<ObjectSymbolMembers, Entries<A>>;

/// The values of a producers field.
pub type ProducersField<A = Global> = CountedList<ValueMembers, Entries<A>>;

/// The producers section.
pub type ProducersSection<A = Global> = CustomEntries<ProducerItems, Entries<A>>;

/// The segments of an object file.
pub type SegmentInfos<A = Global> = CountedList<SegmentMembers, Entries<A>>;

/// A symbol table.
pub type SymbolTable<A = Global> = CountedList<SymbolMembers, Entries<A>>;

/// The target features section.
pub type TargetFeaturesSection<A = Global> = CustomEntries<FeatureItems, Entries<A>>;
