// The symbol table of an object file, which has symbols of all kinds: its builder.
ghost use Rattle.std.specs.Prelude.{IfSome, Some, ⊤};
ghost use Rattle.wasm_base.specs.Calls.{AddsTo};
ghost use Rattle.wasm_base.specs.Encodings.{size_prefixed_encoding, HasEncodableSize, optional_encoding};
ghost use Rattle.wasm_custom.specs.Symbols.{indexed_encoding, of_data_encoding, of_section_encoding, definition_encoding, Symbol as SymbolModel, symbol_encoding, IsFullSymbol};
ghost use Rattle.wasm_custom.specs.declared.symbols.SymbolKind.TheVariants as kinds;

use crate::lists::{CountedList, ListKind};
use crate::symbols::{DataSymbolDefinition, SymbolKind, given_definition, given_name};
use std::alloc::Global;
use wasm_base::{Optional, Pieces, Result, Store};

/// The symbol table of an object file: symbols of all kinds of the tool conventions, in the order
/// in which they are added. It is encoded as subsection 8 of a linking section. `SymbolTable` names
/// the flags.
///
/// ```rust
/// let mut symbols = ObjectSymbols::new(alloc);
/// symbols.function(SymbolTable::WASM_SYM_EXPORTED, 0, Some("f"))?;
/// symbols.section(SymbolTable::WASM_SYM_BINDING_LOCAL, 8)?;
/// ```
pub type ObjectSymbols<A = Global> = CountedList<ObjectSymbolMembers, Pieces<A>>;

/// The kind of the members of an object file's symbol table.
#[derive(Clone, Copy, Debug)]
pub struct ObjectSymbolMembers;

impl ListKind for ObjectSymbolMembers {
    ghost Member = { SymbolModel };

    ghost member_encoding = { symbol_encoding };

    ghost is_member = { IsFullSymbol };

    ghost subsection = { Some 8 };

    fn subsection() -> Option<u8> {
        Some(8)
    }
}

impl<S: Store> CountedList<ObjectSymbolMembers, S> {
    /// Adds a symbol with an index.
    fn indexed(
        &mut self,
        kind: SymbolKind,
        flags: u32,
        index: u32,
        name: Option<&str>,
    ) -> Result<()>
        ensures { AddsTo S.model (indexed_encoding kind flags index (optional_encoding (λ n. size_prefixed_encoding n.now) name.entry)) (IfSome name.entry (λ n. HasEncodableSize n.now)) self.old self.new result }
    {
        given_name(name);
        self.add_record(&((kind, flags), index, Optional(name)))
    }

    /// Adds a function. A function has a name if it is defined here, or if `flags` say that its
    /// name is explicit. The call does not check that `name` agrees.
    pub fn function(&mut self, flags: u32, index: u32, name: Option<&str>) -> Result<()>
        ensures { AddsTo S.model (indexed_encoding kinds.Function flags index (optional_encoding (λ n. size_prefixed_encoding n.now) name.entry)) (IfSome name.entry (λ n. HasEncodableSize n.now)) self.old self.new result }
    {
        self.indexed(SymbolKind::Function, flags, index, name)
    }

    /// Adds a global. It has a name in the same cases as in `function`.
    pub fn global(&mut self, flags: u32, index: u32, name: Option<&str>) -> Result<()>
        ensures { AddsTo S.model (indexed_encoding kinds.Global flags index (optional_encoding (λ n. size_prefixed_encoding n.now) name.entry)) (IfSome name.entry (λ n. HasEncodableSize n.now)) self.old self.new result }
    {
        self.indexed(SymbolKind::Global, flags, index, name)
    }

    /// Adds a tag. It has a name in the same cases as in `function`.
    pub fn tag(&mut self, flags: u32, index: u32, name: Option<&str>) -> Result<()>
        ensures { AddsTo S.model (indexed_encoding kinds.Tag flags index (optional_encoding (λ n. size_prefixed_encoding n.now) name.entry)) (IfSome name.entry (λ n. HasEncodableSize n.now)) self.old self.new result }
    {
        self.indexed(SymbolKind::Tag, flags, index, name)
    }

    /// Adds a table. It has a name in the same cases as in `function`.
    pub fn table(&mut self, flags: u32, index: u32, name: Option<&str>) -> Result<()>
        ensures { AddsTo S.model (indexed_encoding kinds.Table flags index (optional_encoding (λ n. size_prefixed_encoding n.now) name.entry)) (IfSome name.entry (λ n. HasEncodableSize n.now)) self.old self.new result }
    {
        self.indexed(SymbolKind::Table, flags, index, name)
    }

    /// Adds data. Data have a definition unless `flags` say that they are undefined. The call does
    /// not check that `definition` agrees.
    pub fn data(
        &mut self,
        flags: u32,
        name: &str,
        definition: Option<DataSymbolDefinition>,
    ) -> Result<()>
        ensures { AddsTo S.model (of_data_encoding flags name.now (optional_encoding definition_encoding definition)) (HasEncodableSize name.now) self.old self.new result }
    {
        given_definition(definition);
        self.add_record(&((0x01u8, flags), name, Optional(definition)))
    }

    /// Adds the section of this index in the module.
    pub fn section(&mut self, flags: u32, section: u32) -> Result<()>
        ensures { AddsTo S.model (of_section_encoding flags section) ⊤ self.old self.new result }
    {
        self.add_record(&(0x03u8, flags, section))
    }
}
