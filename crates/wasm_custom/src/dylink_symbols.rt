// The contents of the subsections of a dynamic library's section: their builders, their readers and
// their minimizers.
ghost use Rattle.std.specs.Prelude.{◌≡◌, ◌≤◌, ◌++◌, Some, length, ⊤};
ghost use Rattle.wasm_base.specs.Calls.{AddsTo};
ghost use Rattle.wasm_base.specs.Decoding.{Unambiguous};
ghost use Rattle.wasm_base.specs.Encodings.{longest, size_prefixed_encoding, HasEncodableSize};
ghost use Rattle.wasm_base.specs.Laws.{IsEncodableName};
ghost use Rattle.wasm_base.specs.Numbers.{unsigned_encoding};
ghost use Rattle.std.specs.Prelude.{ℕ, List};
ghost use Rattle.wasm_custom.specs.Dylink.{needs, needs_encoding, DylinkExport as ExportModel, export_flags, export_flags_encoding, IsDylinkExport, export_flags_view, DylinkImport as ImportModel, import_flags, import_flags_encoding, IsDylinkImport, import_flags_view};
ghost use Rattle.wasm_custom.specs.declared.dylink_symbols.DylinkMemory.{DylinkMemory as MemoryModel};
ghost use Rattle.wasm_base.specs.Minimal.{both_grammars};

use crate::lists::{CountedList, ListKind};
use crate::subsections::Content;
use std::alloc::{Allocator, Global};
use wasm_base::{
    DecodeError, Encode, Grammar, Layout, Pieces, Readable, Result, Shorten, Store, encoding_size,
};

/// The memory and the table that a dynamic library needs at load time.
#[derive(Clone, Copy, PartialEq, Eq, Debug)]
pub struct DylinkMemory {
    /// The size of the memory, in bytes.
    pub memory_size: u32,
    /// The exponent of the memory's alignment: 2 to this power is the alignment in bytes.
    pub memory_alignment: u32,
    /// The number of elements of the table.
    pub table_size: u32,
    /// The exponent of the table's alignment: 2 to this power is the alignment in elements.
    pub table_alignment: u32,
}

/// Encodes the sizes and the exponents of the alignments: of the memory, then of the table.
impl Encode for DylinkMemory {
    ghost encoding = { needs_encoding };

    ghost encodable = { λ _. ⊤ };

    fn encode<A: Allocator>(&self, sink: &mut Vec<u8, A>) -> Result<()> {
        let memory = (self.memory_size, self.memory_alignment);
        let table = (self.table_size, self.table_alignment);
        (memory, table).encode(sink)
    }
}

impl Content for DylinkMemory {
    #[tactic(auto, using(crate::proofs::DylinkLaws::needs_size))]
    fn size(&self) -> usize {
        encoding_size(self.memory_size)
            .saturating_add(encoding_size(self.memory_alignment))
            .saturating_add(encoding_size(self.table_size))
            .saturating_add(encoding_size(self.table_alignment))
    }
}

impl Layout for DylinkMemory {
    ghost Value = { MemoryModel };

    ghost format = { needs };

    ghost view = { λ memory. memory };

    #[tactic(auto, using(crate::proofs::DylinkLaws::needs_unambiguous))]
    fn laws() {}
}

impl<'a, A: Allocator + Copy, G: Grammar> Readable<'a, A, G> for DylinkMemory {
    ghost may_allocate = { ⊥ };

    #[tactic(auto, using(crate::proofs::DylinkLaws::needs_steps))]
    fn read(bytes: &'a [u8], alloc: A) -> Result<(DylinkMemory, &'a [u8]), DecodeError> {
        let (((memory_size, memory_alignment), (table_size, table_alignment)), rest) = <(
            (u32, u32),
            (u32, u32),
        ) as Readable<'a, A, G>>::read(bytes, alloc)?;
        let memory = DylinkMemory {
            memory_size,
            memory_alignment,
            table_size,
            table_alignment,
        };
        Ok((memory, rest))
    }
}

impl Shorten for DylinkMemory {
    ghost grammars = { both_grammars };

    #[tactic(auto, using(crate::proofs::DylinkLaws::needs_appended))]
    fn write_minimal<B: Allocator>(&self, sink: &mut Vec<u8, B>) -> Result<()> {
        self.memory_size.write_minimal(sink)?;
        self.memory_alignment.write_minimal(sink)?;
        self.table_size.write_minimal(sink)?;
        self.table_alignment.write_minimal(sink)
    }
}

/// The libraries that a dynamic library needs, in the order in which they are added. They are
/// encoded as subsection 2.
pub type DylinkNeeded<A = Global> = CountedList<NeededMembers, Pieces<A>>;

/// The kind of the members of a list of libraries: their names.
#[derive(Clone, Copy, Debug)]
pub struct NeededMembers;

impl ListKind for NeededMembers {
    ghost Member = { List ℕ };

    ghost member_encoding = { size_prefixed_encoding };

    ghost is_member = { IsEncodableName };

    ghost subsection = { Some 2 };

    fn subsection() -> Option<u8> {
        Some(2)
    }
}

impl<S: Store> CountedList<NeededMembers, S> {
    /// Adds a library.
    pub fn library(&mut self, name: &str) -> Result<()>
        ensures { AddsTo S.model (size_prefixed_encoding name.now) (HasEncodableSize name.now) self.old self.new result }
    {
        self.add_record(&name)
    }
}

/// The folders in which the loader searches for libraries, in the order in which they are added.
/// They are encoded as subsection 5.
pub type DylinkPath<A = Global> = CountedList<PathMembers, Pieces<A>>;

/// The kind of the members of a list of folders: their paths.
#[derive(Clone, Copy, Debug)]
pub struct PathMembers;

impl ListKind for PathMembers {
    ghost Member = { List ℕ };

    ghost member_encoding = { size_prefixed_encoding };

    ghost is_member = { IsEncodableName };

    ghost subsection = { Some 5 };

    fn subsection() -> Option<u8> {
        Some(5)
    }
}

impl<S: Store> CountedList<PathMembers, S> {
    /// Adds a folder.
    pub fn folder(&mut self, path: &str) -> Result<()>
        ensures { AddsTo S.model (size_prefixed_encoding path.now) (HasEncodableSize path.now) self.old self.new result }
    {
        self.add_record(&path)
    }
}

/// Flags of exported symbols, in the order in which they are added. They are encoded as subsection
/// 3.
pub type DylinkExports<A = Global> = CountedList<ExportFlagMembers, Pieces<A>>;

/// The kind of the members of a list of flags of exported symbols.
#[derive(Clone, Copy, Debug)]
pub struct ExportFlagMembers;

impl ListKind for ExportFlagMembers {
    ghost Member = { ExportModel };

    ghost member_encoding = { export_flags_encoding };

    ghost is_member = { IsDylinkExport };

    ghost subsection = { Some 3 };

    fn subsection() -> Option<u8> {
        Some(3)
    }
}

impl<S: Store> CountedList<ExportFlagMembers, S> {
    /// Adds the flags of an exported symbol. They are those of a symbol table, such as
    /// `WASM_SYM_BINDING_WEAK`.
    pub fn export(&mut self, name: &str, flags: u32) -> Result<()>
        ensures { AddsTo S.model (size_prefixed_encoding name.now ++ unsigned_encoding flags) (HasEncodableSize name.now × ⊤) self.old self.new result }
    {
        self.add_record(&(name, flags))
    }
}

/// The flags of an exported symbol.
#[derive(Clone, Copy, Debug)]
pub struct DylinkExport<'a> {
    pub name: &'a str,
    /// Flags as those of a symbol table.
    pub flags: u32,
}

impl<'a> Layout for DylinkExport<'a> {
    ghost Value = { ExportModel };

    ghost format = { export_flags };

    ghost view = { export_flags_view };

    #[tactic(auto, using(crate::proofs::DylinkLaws::export_flags_unambiguous))]
    fn laws()
        ensures { Unambiguous export_flags }
    {}
}

impl<'a, A: Allocator + Copy, G: Grammar> Readable<'a, A, G> for DylinkExport<'a> {
    ghost may_allocate = { ⊥ };

    #[tactic(auto, using(crate::proofs::DylinkLaws::export_flags_steps))]
    fn read(bytes: &'a [u8], alloc: A) -> Result<(DylinkExport<'a>, &'a [u8]), DecodeError> {
        let ((name, flags), rest) = <(&'a str, u32) as Readable<'a, A, G>>::read(bytes, alloc)?;
        Ok((DylinkExport { name, flags }, rest))
    }
}

impl<'a> Shorten for DylinkExport<'a> {
    ghost grammars = { both_grammars };

    #[tactic(auto, using(crate::proofs::DylinkLaws::export_flags_appended, crate::proofs::DylinkLaws::export_name_encoded))]
    fn write_minimal<B: Allocator>(&self, sink: &mut Vec<u8, B>) -> Result<()> {
        self.name.write_minimal(sink)?;
        self.flags.write_minimal(sink)
    }
}

/// Flags of imported symbols, in the order in which they are added. They are encoded as subsection
/// 4.
pub type DylinkImports<A = Global> = CountedList<ImportFlagMembers, Pieces<A>>;

/// The kind of the members of a list of flags of imported symbols.
#[derive(Clone, Copy, Debug)]
pub struct ImportFlagMembers;

impl ListKind for ImportFlagMembers {
    ghost Member = { ImportModel };

    ghost member_encoding = { import_flags_encoding };

    ghost is_member = { IsDylinkImport };

    ghost subsection = { Some 4 };

    fn subsection() -> Option<u8> {
        Some(4)
    }
}

impl<S: Store> CountedList<ImportFlagMembers, S> {
    /// Adds the flags of an imported symbol. They are those of a symbol table, such as
    /// `WASM_SYM_BINDING_WEAK`.
    pub fn import(&mut self, module_name: &str, name: &str, flags: u32) -> Result<()>
        ensures { AddsTo S.model (size_prefixed_encoding module_name.now ++ (size_prefixed_encoding name.now ++ unsigned_encoding flags)) (HasEncodableSize module_name.now × HasEncodableSize name.now × ⊤) self.old self.new result }
    {
        self.add_record(&(module_name, (name, flags)))
    }
}

/// The flags of an imported symbol.
#[derive(Clone, Copy, Debug)]
pub struct DylinkImport<'a> {
    /// The name of the module that the symbol is imported from.
    pub module_name: &'a str,
    pub name: &'a str,
    /// Flags as those of a symbol table.
    pub flags: u32,
}

impl<'a> Layout for DylinkImport<'a> {
    ghost Value = { ImportModel };

    ghost format = { import_flags };

    ghost view = { import_flags_view };

    #[tactic(auto, using(crate::proofs::DylinkLaws::import_flags_unambiguous))]
    fn laws()
        ensures { Unambiguous import_flags }
    {}
}

impl<'a, A: Allocator + Copy, G: Grammar> Readable<'a, A, G> for DylinkImport<'a> {
    ghost may_allocate = { ⊥ };

    #[tactic(auto, using(crate::proofs::DylinkLaws::import_flags_steps))]
    fn read(bytes: &'a [u8], alloc: A) -> Result<(DylinkImport<'a>, &'a [u8]), DecodeError> {
        let ((module_name, (name, flags)), rest) = <(&'a str, (&'a str, u32)) as Readable<
            'a,
            A,
            G,
        >>::read(bytes, alloc)?;
        let import = DylinkImport {
            module_name,
            name,
            flags,
        };
        Ok((import, rest))
    }
}

impl<'a> Shorten for DylinkImport<'a> {
    ghost grammars = { both_grammars };

    #[tactic(auto, using(crate::proofs::DylinkLaws::import_flags_appended, crate::proofs::DylinkLaws::import_module_encoded, crate::proofs::DylinkLaws::import_name_encoded))]
    fn write_minimal<B: Allocator>(&self, sink: &mut Vec<u8, B>) -> Result<()> {
        self.module_name.write_minimal(sink)?;
        self.name.write_minimal(sink)?;
        self.flags.write_minimal(sink)
    }
}
