// The symbol table of a linking section: its builder, its reader and its minimizer.
ghost use Rattle.std.specs.Prelude.{◌≡◌, ◌∷◌, [], IfSome, IsUtf8, ⊤, ◌≢◌, IfOk, IfErr, Err, OnOk, option_map, None, Some};
ghost use Rattle.wasm_base.specs.Calls.{AddsTo};
ghost use Rattle.wasm_base.specs.Formats.{name as name_format, optional, prefixed};
ghost use Rattle.wasm_base.specs.Numbers.{padded_of};
ghost use Rattle.wasm_base.specs.Decoding.{Unambiguous, Decodes, Rejects};
ghost use Rattle.wasm_base.specs.Encodings.{size_prefixed_encoding, HasEncodableSize, optional_encoding};
ghost use Rattle.wasm_custom.specs.Symbols.{kind_code, indexed_encoding, of_data_encoding, definition_encoding, Symbol as SymbolModel, symbol_encoding, IsDefinition, IsGivenSymbol, indexed, of_data, of_section, has_name as flags_name, has_definition as flags_definition, definition as definition_format, IsBuiltKind, indexed_symbol, data_symbol, section_symbol, full_symbol, symbol, symbol_view};
ghost use Rattle.wasm_custom.specs.declared.symbols.DataSymbolDefinition.{DataSymbolDefinition as DefinitionModel};
ghost use Rattle.wasm_custom.specs.declared.symbols.SymbolKind.TheVariants as kinds;
ghost use Rattle.wasm_base.specs.declared.refused.Refused.TheVariants.{TooLong};
ghost use Rattle.wasm_base.specs.Minimal.{AppendsMinimal, IsFrontOf, HasEncoding, both_grammars};
ghost use Rattle.wasm_base.specs.declared.fault.ReadFault.TheVariants.{Memory};

use crate::lists::{CountedList, ListKind};
use crate::standard::require_standard;
use std::alloc::{Allocator, Global};
use wasm_base::laws::plain_name;
use wasm_base::{
    DecodeError, Encode, Grammar, Layout, Optional, Pieces, ReadFault, Readable, Result, Shorten,
    Store, read_optional,
};

/// A symbol table: the symbols of a module, in the order in which they are added. It is encoded as
/// subsection 8 of a linking section. `ObjectSymbols` has further kinds of symbols.
///
/// ```rust
/// let mut symbols = SymbolTable::new(alloc);
/// symbols.function(SymbolTable::WASM_SYM_EXPORTED, 0, Some("f"))?;
/// ```
pub type SymbolTable<A = Global> = CountedList<SymbolMembers, Pieces<A>>;

/// The kind of a symbol table's members.
#[derive(Clone, Copy, Debug)]
pub struct SymbolMembers;

impl ListKind for SymbolMembers {
    ghost Member = { SymbolModel };

    ghost member_encoding = { symbol_encoding };

    ghost is_member = { IsGivenSymbol };

    ghost subsection = { Some 8 };

    fn subsection() -> Option<u8> {
        Some(8)
    }
}

/// The location of the bytes of a data symbol.
#[derive(Clone, Copy, Debug)]
pub struct DataSymbolDefinition {
    /// The index of the data segment.
    pub index: u32,
    /// The offset of the bytes in the segment.
    pub offset: u32,
    /// The number of bytes.
    pub size: u32,
}

/// Encodes the index, the offset and the size.
impl Encode for DataSymbolDefinition {
    ghost encoding = { definition_encoding };

    ghost encodable = { λ _. ⊤ };

    fn encode<A: Allocator>(&self, sink: &mut Vec<u8, A>) -> Result<()> {
        (self.index, self.offset, self.size).encode(sink)
    }
}

/// The kind of a symbol with an index.
#[derive(Clone, Copy, Debug)]
pub enum SymbolKind {
    Function = 0x00,
    Global = 0x02,
    Tag = 0x04,
    Table = 0x05,
}

/// Encodes the kind as one byte.
impl Encode for SymbolKind {
    ghost encoding = { λ kind. kind_code kind ∷ [] };

    ghost encodable = { λ _. ⊤ };

    fn encode<A: Allocator>(&self, sink: &mut Vec<u8, A>) -> Result<()> {
        (*self as u8).encode(sink)
    }
}

/// Proves that a name, if there is one, is UTF-8. The function does nothing.
#[inline]
pub(crate) fn given_name(name: Option<&str>)
    ensures { IfSome name.entry (λ n. IsUtf8 n.now) }
{
    if let Some(name) = name {
        plain_name(name);
    }
}

/// Proves that the numbers of a definition, if there is one, are in range. The function does
/// nothing.
#[inline]
pub(crate) fn given_definition(definition: Option<DataSymbolDefinition>)
    ensures { IfSome definition IsDefinition }
{
    if let Some(given) = definition {
        let _ = (given.index, given.offset, given.size);
    }
}

/// Flags of symbols.
impl SymbolTable {
    /// A definition elsewhere replaces this one.
    pub const WASM_SYM_BINDING_WEAK: u32 = 0x1;
    /// The symbol is visible in this module only.
    pub const WASM_SYM_BINDING_LOCAL: u32 = 0x2;
    /// The symbol is not exported from the linked module.
    pub const WASM_SYM_VISIBILITY_HIDDEN: u32 = 0x4;
    /// The symbol is not defined in this module.
    pub const WASM_SYM_UNDEFINED: u32 = 0x10;
    /// The symbol is exported from the linked module.
    pub const WASM_SYM_EXPORTED: u32 = 0x20;
    /// The symbol has an explicit name, even if it is imported.
    pub const WASM_SYM_EXPLICIT_NAME: u32 = 0x40;
    /// The symbol stays in the linked module, even if nothing uses it.
    pub const WASM_SYM_NO_STRIP: u32 = 0x80;
}

// The flags of symbols. Tool conventions, Linking, Linking Metadata Section.
const _: () = prove!(<SymbolTable>::WASM_SYM_BINDING_WEAK == 0x1);

const _: () = prove!(<SymbolTable>::WASM_SYM_BINDING_LOCAL == 0x2);

const _: () = prove!(<SymbolTable>::WASM_SYM_VISIBILITY_HIDDEN == 0x4);

const _: () = prove!(<SymbolTable>::WASM_SYM_UNDEFINED == 0x10);

const _: () = prove!(<SymbolTable>::WASM_SYM_EXPORTED == 0x20);

const _: () = prove!(<SymbolTable>::WASM_SYM_EXPLICIT_NAME == 0x40);

const _: () = prove!(<SymbolTable>::WASM_SYM_NO_STRIP == 0x80);

impl<S: Store> CountedList<SymbolMembers, S> {
    /// Adds a symbol with an index, of a kind that the builders' grammar has.
    fn indexed(
        &mut self,
        kind: SymbolKind,
        flags: u32,
        index: u32,
        name: Option<&str>,
    ) -> Result<()>
        requires { IsBuiltKind kind }
        ensures { AddsTo S.model (indexed_encoding kind flags index (optional_encoding (λ n. size_prefixed_encoding n.now) name.entry)) (IfSome name.entry (λ n. HasEncodableSize n.now)) self.old self.new result }
    {
        given_name(name);
        self.add_record(&((kind, flags), index, Optional(name)))
    }

    /// Adds a function. A function has a name if it is defined here, or if `flags` say that its
    /// name is explicit. The call does not check that `name` agrees.
    pub fn function(&mut self, flags: u32, index: u32, name: Option<&str>) -> Result<()>
        ensures { AddsTo S.model (indexed_encoding kinds.Function flags index (optional_encoding (λ n. size_prefixed_encoding n.now) name.entry)) (IfSome name.entry (λ n. HasEncodableSize n.now)) self.old self.new result }
    {
        self.indexed(SymbolKind::Function, flags, index, name)
    }

    /// Adds a global. It has a name in the same cases as in `function`.
    pub fn global(&mut self, flags: u32, index: u32, name: Option<&str>) -> Result<()>
        ensures { AddsTo S.model (indexed_encoding kinds.Global flags index (optional_encoding (λ n. size_prefixed_encoding n.now) name.entry)) (IfSome name.entry (λ n. HasEncodableSize n.now)) self.old self.new result }
    {
        self.indexed(SymbolKind::Global, flags, index, name)
    }

    /// Adds a table. It has a name in the same cases as in `function`.
    pub fn table(&mut self, flags: u32, index: u32, name: Option<&str>) -> Result<()>
        ensures { AddsTo S.model (indexed_encoding kinds.Table flags index (optional_encoding (λ n. size_prefixed_encoding n.now) name.entry)) (IfSome name.entry (λ n. HasEncodableSize n.now)) self.old self.new result }
    {
        self.indexed(SymbolKind::Table, flags, index, name)
    }

    /// Adds data. Data have a definition unless `flags` say that they are undefined. The call does
    /// not check that `definition` agrees.
    pub fn data(
        &mut self,
        flags: u32,
        name: &str,
        definition: Option<DataSymbolDefinition>,
    ) -> Result<()>
        ensures { AddsTo S.model (of_data_encoding flags name.now (optional_encoding definition_encoding definition)) (HasEncodableSize name.now) self.old self.new result }
    {
        given_definition(definition);
        self.add_record(&((0x01u8, flags), name, Optional(definition)))
    }
}

/// A decoded symbol. If its flags say that it has no explicit name, its name is that of the import.
#[derive(Clone, Copy, Debug)]
pub enum Symbol<'a> {
    Function {
        flags: u32,
        index: u32,
        name: Option<&'a str>,
    },
    Global {
        flags: u32,
        index: u32,
        name: Option<&'a str>,
    },
    Table {
        flags: u32,
        index: u32,
        name: Option<&'a str>,
    },
    DataSymbol {
        flags: u32,
        name: &'a str,
        /// `None` if the flags say that the data are not defined in this module.
        definition: Option<DataSymbolDefinition>,
    },
    /// A section, which only the standard's grammar has as a symbol.
    Section {
        flags: u32,
        /// The index of the section in the module.
        section: u32,
    },
    /// A tag, which only the standard's grammar has as a symbol.
    Tag {
        flags: u32,
        index: u32,
        name: Option<&'a str>,
    },
}

/// Returns `true` if the flags say that the encoding of a symbol with an index has a name.
fn has_name(flags: u32) -> bool
    ensures { result ≡ flags_name flags }
{
    let undefined = flags / SymbolTable::WASM_SYM_UNDEFINED % 2 == 1;
    let explicit = flags / SymbolTable::WASM_SYM_EXPLICIT_NAME % 2 == 1;
    !(undefined && !explicit)
}

/// Returns `true` if the flags say that the encoding of a data symbol has a definition.
fn has_definition(flags: u32) -> bool
    ensures { result ≡ flags_definition flags }
{
    let undefined = flags / SymbolTable::WASM_SYM_UNDEFINED % 2 == 1;
    !undefined
}

/// Decodes a symbol with an index, after the byte of its kind.
#[tactic(auto, using(crate::proofs::SymbolLaws::indexed_decodes))]
fn read_indexed<'a, A: Allocator + Copy, G: Grammar>(
    kind: SymbolKind,
    bytes: &'a [u8],
    alloc: A,
) -> Result<(Symbol<'a>, &'a [u8]), DecodeError>
    ensures found { IfOk result (λ x. Decodes (indexed_symbol kind) (padded_of G.grammar) bytes.now (symbol_view x.0) x.1.now) }
    ensures none { IfErr result (λ e. e.cause ≢ Memory → Rejects (indexed_symbol kind) (padded_of G.grammar) bytes.now) }
    ensures no_memory { IfErr result (λ e. e.cause ≢ Memory) }
{
    let (flags, rest) = <u32 as Readable<'a, A, G>>::read(bytes, alloc)?;
    let (index, rest) = <u32 as Readable<'a, A, G>>::read(rest, alloc)?;
    let (name, rest) = read_optional::<'a, &'a str, A, G>(has_name(flags), rest, alloc)?;
    let symbol = match kind {
        SymbolKind::Function => Symbol::Function { flags, index, name },
        SymbolKind::Global => Symbol::Global { flags, index, name },
        SymbolKind::Tag => Symbol::Tag { flags, index, name },
        SymbolKind::Table => Symbol::Table { flags, index, name },
    };
    Ok((symbol, rest))
}

impl Layout for DataSymbolDefinition {
    ghost Value = { DefinitionModel };

    ghost format = { definition_format };

    ghost view = { λ definition. definition };

    #[tactic(auto, using(crate::proofs::SymbolLaws::definition_unambiguous))]
    fn laws() {}
}

impl<'a, A: Allocator + Copy, G: Grammar> Readable<'a, A, G> for DataSymbolDefinition {
    ghost may_allocate = { ⊥ };

    #[tactic(auto, using(crate::proofs::SymbolLaws::definition_decodes))]
    fn read(bytes: &'a [u8], alloc: A) -> Result<(DataSymbolDefinition, &'a [u8]), DecodeError> {
        let ((index, (offset, size)), rest) = <(u32, (u32, u32)) as Readable<'a, A, G>>::read(
            bytes, alloc,
        )?;
        let definition = DataSymbolDefinition {
            index,
            offset,
            size,
        };
        Ok((definition, rest))
    }
}

/// Decodes a definition if the flag is set, and returns `None` otherwise.
#[tactic(auto, using(wasm_base::proofs::Tags::optional_steps))]
fn read_definition<'a, A: Allocator + Copy, G: Grammar>(
    given: bool,
    bytes: &'a [u8],
    alloc: A,
) -> Result<(Option<DataSymbolDefinition>, &'a [u8]), DecodeError>
    ensures found { IfOk result (λ x. Decodes (optional given definition_format) (padded_of G.grammar) bytes.now x.0 x.1.now) }
    ensures none { IfErr result (λ e. e.cause ≢ Memory → Rejects (optional given definition_format) (padded_of G.grammar) bytes.now) }
    ensures no_memory { IfErr result (λ e. e.cause ≢ Memory) }
{
    if given {
        let (definition, rest) = <DataSymbolDefinition as Readable<'a, A, G>>::read(bytes, alloc)?;
        Ok((Some(definition), rest))
    } else {
        Ok((None, bytes))
    }
}

/// Decodes a data symbol, after the byte of its kind.
#[tactic(auto, using(crate::proofs::SymbolLaws::data_steps))]
fn read_data<'a, A: Allocator + Copy, G: Grammar>(
    bytes: &'a [u8],
    alloc: A,
) -> Result<(Symbol<'a>, &'a [u8]), DecodeError>
    ensures found { IfOk result (λ x. Decodes data_symbol (padded_of G.grammar) bytes.now (symbol_view x.0) x.1.now) }
    ensures none { IfErr result (λ e. e.cause ≢ Memory → Rejects data_symbol (padded_of G.grammar) bytes.now) }
    ensures no_memory { IfErr result (λ e. e.cause ≢ Memory) }
{
    let (flags, rest) = <u32 as Readable<'a, A, G>>::read(bytes, alloc)?;
    let (name, rest) = <&'a str as Readable<'a, A, G>>::read(rest, alloc)?;
    let (definition, rest) = read_definition::<A, G>(has_definition(flags), rest, alloc)?;
    Ok((
        Symbol::DataSymbol {
            flags,
            name,
            definition,
        },
        rest,
    ))
}

/// Decodes a section symbol, after the byte of its kind.
#[tactic(auto, using(crate::proofs::SymbolLaws::section_steps))]
fn read_section<'a, A: Allocator + Copy, G: Grammar>(
    bytes: &'a [u8],
    alloc: A,
) -> Result<(Symbol<'a>, &'a [u8]), DecodeError>
    ensures found { IfOk result (λ x. Decodes section_symbol (padded_of G.grammar) bytes.now (symbol_view x.0) x.1.now) }
    ensures none { IfErr result (λ e. e.cause ≢ Memory → Rejects section_symbol (padded_of G.grammar) bytes.now) }
    ensures no_memory { IfErr result (λ e. e.cause ≢ Memory) }
{
    let (flags, rest) = <u32 as Readable<'a, A, G>>::read(bytes, alloc)?;
    let (section, rest) = <u32 as Readable<'a, A, G>>::read(rest, alloc)?;
    Ok((Symbol::Section { flags, section }, rest))
}

impl<'a> Layout for Symbol<'a> {
    ghost Value = { SymbolModel };

    ghost format = { symbol };

    ghost view = { symbol_view };

    #[tactic(auto, using(crate::proofs::SymbolLaws::symbol_unambiguous))]
    fn laws()
        ensures { Unambiguous symbol }
    {}
}

impl<'a, A: Allocator + Copy, G: Grammar> Readable<'a, A, G> for Symbol<'a> {
    ghost may_allocate = { ⊥ };

    fn read(bytes: &'a [u8], alloc: A) -> Result<(Symbol<'a>, &'a [u8]), DecodeError> {
        let (kind, rest) = <u8 as Readable<'a, A, G>>::read(bytes, alloc)?;
        match kind {
            0x00 => {
                let (symbol, rest) = read_indexed::<A, G>(SymbolKind::Function, rest, alloc)?;
                Ok((symbol, rest))
            }
            0x01 => {
                let (symbol, rest) = read_data::<A, G>(rest, alloc)?;
                Ok((symbol, rest))
            }
            0x02 => {
                let (symbol, rest) = read_indexed::<A, G>(SymbolKind::Global, rest, alloc)?;
                Ok((symbol, rest))
            }
            0x03 => {
                require_standard::<G>(rest)?;
                let (symbol, rest) = read_section::<A, G>(rest, alloc)?;
                Ok((symbol, rest))
            }
            0x04 => {
                require_standard::<G>(rest)?;
                let (symbol, rest) = read_indexed::<A, G>(SymbolKind::Tag, rest, alloc)?;
                Ok((symbol, rest))
            }
            0x05 => {
                let (symbol, rest) = read_indexed::<A, G>(SymbolKind::Table, rest, alloc)?;
                Ok((symbol, rest))
            }
            _ => Err(ReadFault::UnknownTag.just_before(rest)),
        }
    }
}

/// Appends the name if the flags say that the encoding has one.
#[tactic(auto, using(crate::proofs::SymbolLaws::name_appended, crate::proofs::SymbolLaws::no_name_appended, crate::proofs::SymbolLaws::name_encoded))]
fn append_name<B: Allocator>(flags: u32, name: Option<&str>, sink: &mut Vec<u8, B>) -> Result<()>
    ensures ok { OnOk result (AppendsMinimal both_grammars (optional (flags_name flags) name_format) (option_map (λ n. n.now) name.entry) sink.old.items sink.new.items) }
    ensures front { IsFrontOf sink.old.items sink.new.items }
    ensures too_long { HasEncoding both_grammars (optional (flags_name flags) name_format) (option_map (λ n. n.now) name.entry) → result ≢ Err TooLong }
{
    match name {
        Some(name) => name.write_minimal(sink),
        None => Ok(()),
    }
}

/// Appends a symbol with an index, whose kind is a byte.
#[tactic(auto, using(crate::proofs::SymbolLaws::indexed_appended, crate::proofs::SymbolLaws::indexed_encoded))]
fn append_indexed<B: Allocator>(
    kind: SymbolKind,
    flags: u32,
    index: u32,
    name: Option<&str>,
    sink: &mut Vec<u8, B>,
) -> Result<()>
    ensures ok { OnOk result (AppendsMinimal both_grammars (prefixed (kind_code kind ∷ []) (indexed_symbol kind)) (indexed kind flags index (option_map (λ n. n.now) name.entry)) sink.old.items sink.new.items) }
    ensures front { IsFrontOf sink.old.items sink.new.items }
    ensures too_long { HasEncoding both_grammars (prefixed (kind_code kind ∷ []) (indexed_symbol kind)) (indexed kind flags index (option_map (λ n. n.now) name.entry)) → result ≢ Err TooLong }
{
    kind.encode(sink)?;
    flags.write_minimal(sink)?;
    index.write_minimal(sink)?;
    append_name(flags, name, sink)
}

/// Appends the definition if the flags say that the encoding has one.
#[tactic(auto, using(crate::proofs::SymbolLaws::definition_appended, crate::proofs::SymbolLaws::no_definition_appended))]
fn append_definition<B: Allocator>(
    flags: u32,
    definition: Option<DataSymbolDefinition>,
    sink: &mut Vec<u8, B>,
) -> Result<()>
    ensures ok { OnOk result (AppendsMinimal both_grammars (optional (flags_definition flags) definition_format) definition sink.old.items sink.new.items) }
    ensures front { IsFrontOf sink.old.items sink.new.items }
    ensures too_long { HasEncoding both_grammars (optional (flags_definition flags) definition_format) definition → result ≢ Err TooLong }
{
    match definition {
        Some(definition) => definition.encode(sink),
        None => Ok(()),
    }
}

/// Appends a data symbol, whose kind is 01.
#[tactic(auto, using(crate::proofs::SymbolLaws::data_appended, crate::proofs::SymbolLaws::data_name_encoded, crate::proofs::SymbolLaws::data_definition_encoded))]
fn append_data<B: Allocator>(
    flags: u32,
    name: &str,
    definition: Option<DataSymbolDefinition>,
    sink: &mut Vec<u8, B>,
) -> Result<()>
    ensures ok { OnOk result (AppendsMinimal both_grammars (prefixed (0x01 ∷ []) data_symbol) (of_data flags name.now definition) sink.old.items sink.new.items) }
    ensures front { IsFrontOf sink.old.items sink.new.items }
    ensures too_long { HasEncoding both_grammars (prefixed (0x01 ∷ []) data_symbol) (of_data flags name.now definition) → result ≢ Err TooLong }
{
    0x01u8.encode(sink)?;
    flags.write_minimal(sink)?;
    name.write_minimal(sink)?;
    append_definition(flags, definition, sink)
}

/// Appends a section symbol, whose kind is 03.
#[tactic(auto, using(crate::proofs::SymbolLaws::section_appended))]
fn append_section<B: Allocator>(flags: u32, section: u32, sink: &mut Vec<u8, B>) -> Result<()>
    ensures ok { OnOk result (AppendsMinimal both_grammars (prefixed (0x03 ∷ []) section_symbol) (of_section flags section) sink.old.items sink.new.items) }
    ensures front { IsFrontOf sink.old.items sink.new.items }
    ensures too_long { result ≢ Err TooLong }
{
    0x03u8.encode(sink)?;
    flags.write_minimal(sink)?;
    section.write_minimal(sink)
}

impl<'a> Shorten for Symbol<'a> {
    ghost grammars = { both_grammars };

    #[tactic(auto, using(crate::proofs::SymbolLaws::short_steps))]
    fn write_minimal<B: Allocator>(&self, sink: &mut Vec<u8, B>) -> Result<()> {
        match *self {
            Symbol::Function { flags, index, name } => {
                append_indexed(SymbolKind::Function, flags, index, name, sink)
            }
            Symbol::Global { flags, index, name } => {
                append_indexed(SymbolKind::Global, flags, index, name, sink)
            }
            Symbol::Table { flags, index, name } => {
                append_indexed(SymbolKind::Table, flags, index, name, sink)
            }
            Symbol::DataSymbol {
                flags,
                name,
                definition,
            } => append_data(flags, name, definition, sink),
            Symbol::Section { flags, section } => append_section(flags, section, sink),
            Symbol::Tag { flags, index, name } => {
                append_indexed(SymbolKind::Tag, flags, index, name, sink)
            }
        }
    }
}
