// The builder of the element section.
ghost use Rattle.std.specs.Prelude.{◌≡◌, ◌≢◌, ◌≤◌, IfOk, ⊤};
ghost use Rattle.wasm_base.specs.Calls.{AddsTo};
ghost use Rattle.wasm_base.specs.declared.refused.Refused.TheVariants.{TooLong};
ghost use Rattle.wasm_code.specs.Expressions.{expression_encoding};
ghost use Rattle.wasm_immediates.specs.Immediates.{where_set};
ghost use Rattle.wasm_sections.specs.Elements.{element_items, is_funcref, needs_table, settled_table, are_expressions, elements_encoding, AreEncodableElements};

use crate::counted_section::{CountedSection, ItemKind};
use crate::flags::where_set;
use std::alloc::{Allocator, Global};
use wasm_base::{
    AbstractHeapType, CowSlice, Encode, HeapType, Kind, Lent, Pieces, RefType, Result, SectionId,
    Store,
};
use wasm_code::ConstExpr;

/// The element section: segments of references that a module copies to tables.
///
/// ```rust
/// let mut elements = ElementSection::new(alloc);
/// let offset = ConstExpr::i32_const(alloc, 0)?;
/// elements.active(None, &offset, Elements::Functions(CowSlice::Borrowed(&[0, 1])))?;
/// module.section(&elements)?;
/// ```
pub type ElementSection<A = Global> = CountedSection<ElementItems, Pieces<A>>;

/// The kind of an element section's items: segments of references.
#[derive(Clone, Copy, Debug)]
pub struct ElementItems;

/// The references of a segment.
#[derive(Drop, Debug)]
pub enum Elements<'a, A: Allocator = Global> {
    /// References to the functions of these indices.
    Functions(CowSlice<'a, u32, A>),
    /// References of this type, each computed by an expression.
    Expressions(RefType, CowSlice<'a, ConstExpr<A>, A>),
}

/// The mode of an element segment: when its references are copied to a table.
#[derive(Drop, Debug)]
pub enum ElementMode<'a, A: Allocator = Global> {
    /// The references are copied by an instruction `TableInit`.
    Passive,
    /// The references are never copied: the segment declares that code may refer to these
    /// functions.
    Declared,
    /// The references are copied when the module is instantiated.
    Active {
        /// `None` is table 0. It is encoded in a form without a table if there is one: for
        /// functions, and for expressions of the type [`RefType::FUNCREF`].
        table: Option<u32>,
        /// Computes the offset of the first reference in the table.
        offset: &'a ConstExpr<A>,
    },
}

/// An element segment: its mode and its references.
#[derive(Drop, Debug)]
pub struct ElementSegment<'a, A: Allocator = Global> {
    pub mode: ElementMode<'a, A>,
    pub elements: Elements<'a, A>,
}

/// Returns the same expressions, each in memory of its own.
fn clone_each<A: Allocator + Copy>(
    alloc: A,
    expressions: &[ConstExpr<A>],
) -> Result<Vec<ConstExpr<A>, A>>
    ensures same { IfOk result (λ v. v.items ≡ expressions.now) }
    ensures memory { result ≢ Err TooLong }
{
    let mut cloned = Vec::with_capacity(alloc, expressions.len())?;
    for expression in expressions {
        let copy = expression.clone()?;
        cloned.push(copy)?;
    }
    Ok(cloned)
}

impl<'a, A: Allocator + Copy> Elements<'a, A> {
    ghost use Rattle.wasm_sections.specs.GivenElements.{list_in};

    /// Returns the same references. Owned ones are copied into memory of their own.
    pub fn clone(&self) -> Result<Self>
        ensures same { IfOk result (λ elements. list_in elements ≡ list_in self.now) }
        ensures memory { result ≢ Err TooLong }
    {
        match self {
            Elements::Functions(functions) => Ok(Elements::Functions(functions.clone()?)),
            Elements::Expressions(ty, CowSlice::Borrowed(expressions)) => Ok(Elements::Expressions(
                *ty,
                CowSlice::Borrowed(expressions),
            )),
            Elements::Expressions(ty, CowSlice::Owned(expressions)) => {
                let cloned = clone_each(*expressions.allocator(), expressions.as_slice())?;
                Ok(Elements::Expressions(*ty, CowSlice::Owned(cloned)))
            }
        }
    }
}

impl<'a, A: Allocator> ElementMode<'a, A> {
    /// Returns the same mode.
    pub fn clone(&self) -> Result<Self>
        ensures same { IfOk result (λ mode. mode ≡ self.now) }
        ensures memory { result ≢ Err TooLong }
    {
        Ok(match self {
            ElementMode::Passive => ElementMode::Passive,
            ElementMode::Declared => ElementMode::Declared,
            ElementMode::Active { table, offset } => ElementMode::Active {
                table: *table,
                offset,
            },
        })
    }
}

impl<'a, A: Allocator + Copy> ElementSegment<'a, A> {
    ghost use Rattle.wasm_sections.specs.GivenElements.{segment_in};

    /// Returns the same segment. Owned references are copied into memory of their own.
    pub fn clone(&self) -> Result<Self>
        ensures same { IfOk result (λ segment. segment_in segment ≡ segment_in self.now) }
        ensures memory { result ≢ Err TooLong }
    {
        Ok(ElementSegment {
            mode: self.mode.clone()?,
            elements: self.elements.clone()?,
        })
    }
}

/// Returns `true` for [`RefType::FUNCREF`], the type that encodings without a type imply.
fn has_short_form(ty: RefType) -> bool
    ensures { result ≡ is_funcref ty }
{
    match ty.heap_type {
        HeapType::Abstract {
            shared: false,
            ty: AbstractHeapType::Func,
        } => ty.nullable,
        _ => false,
    }
}

/// Returns the explicit table: table 0 if one is needed and `table` is `None`.
fn named_table(table: Option<u32>, needed: bool) -> Option<u32>
    ensures { result ≡ settled_table needed table }
{
    match table {
        Some(table) => Some(table),
        None if needed => Some(0),
        None => None,
    }
}

impl<A: Allocator> Elements<'_, A> {
    ghost use Rattle.wasm_sections.specs.GivenElements.{list_in};

    /// Returns `true` if an active segment of these references needs an explicit table.
    fn needs_table(&self) -> bool
        ensures { result ≡ needs_table (list_in self.now) }
    {
        match self {
            Elements::Functions(_) => false,
            Elements::Expressions(ty, _) => !has_short_form(*ty),
        }
    }

    /// Returns the bit of the flag that marks expressions.
    fn flag(&self) -> u8
        ensures is { result ≡ where_set (are_expressions (list_in self.now)) 4 }
        ensures small { result ≤ 4 }
    {
        match self {
            Elements::Functions(_) => 0,
            Elements::Expressions(_, _) => EXPRESSIONS,
        }
    }
}

// The bits of a segment's flag. `DECLARED` has two of them.
const PASSIVE: u8 = 0x01;

const WITH_TABLE: u8 = 0x02;

const DECLARED: u8 = 0x03;

const EXPRESSIONS: u8 = 0x04;

/// The kind byte of function indices, encoded where expressions would have their type.
const FUNCTIONS: u8 = 0x00;

/// References, and whether their type is explicit in the encoding.
#[derive(Drop)]
struct TypedElements<'a, 'b, A: Allocator> {
    explicit: bool,
    elements: &'b Elements<'a, A>,
}

/// Encodes the type if it is explicit, and the references.
impl<A: Allocator> Encode for TypedElements<'_, '_, A> {
    ghost use Rattle.wasm_sections.specs.GivenElements.{list_in};

    ghost encoding = { λ t. elements_encoding expression_encoding t.explicit (list_in t.elements.now) };

    ghost encodable = { λ t. AreEncodableElements (list_in t.elements.now) };

    fn encode<B: Allocator>(&self, sink: &mut Vec<u8, B>) -> Result<()> {
        match (self.elements, self.explicit) {
            (Elements::Functions(functions), true) => {
                (FUNCTIONS, functions.as_slice()).encode(sink)
            }
            (Elements::Functions(functions), false) => functions.as_slice().encode(sink),
            (Elements::Expressions(ty, expressions), true) => {
                (*ty, expressions.as_slice()).encode(sink)
            }
            (Elements::Expressions(_, expressions), false) => expressions.as_slice().encode(sink),
        }
    }
}

/// Encodes a flag, the table and the offset if they are explicit, and the references.
impl<A: Allocator> Encode for ElementSegment<'_, A> {
    ghost use Rattle.wasm_sections.specs.GivenElements.{given_encoding, list_in};

    ghost encoding = { given_encoding };

    ghost encodable = { λ s. AreEncodableElements (list_in s.elements) };

    fn encode<B: Allocator>(&self, sink: &mut Vec<u8, B>) -> Result<()> {
        let flag = self.elements.flag();
        let typed = TypedElements {
            explicit: true,
            elements: &self.elements,
        };
        match &self.mode {
            ElementMode::Passive => (flag + PASSIVE, typed).encode(sink),
            ElementMode::Declared => (flag + DECLARED, typed).encode(sink),
            ElementMode::Active { table, offset } => {
                match named_table(*table, self.elements.needs_table()) {
                    Some(table) => (flag + WITH_TABLE, (table, Lent(*offset)), typed).encode(sink),
                    None => {
                        let untyped = TypedElements {
                            explicit: false,
                            elements: &self.elements,
                        };
                        (flag, Lent(*offset), untyped).encode(sink)
                    }
                }
            }
        }
    }
}

impl Kind for ElementItems {
    ghost use Rattle.std.specs.Prelude.{List};
    ghost use Rattle.wasm_insn.specs.Plain.{Plain};
    ghost use Rattle.wasm_sections.specs.Constants.{Stored};
    ghost use Rattle.wasm_sections.specs.Elements.{ElementItem};

    ghost Record = { ElementItem Stored };

    ghost Item = { ElementItem (List Plain) };

    ghost kind = { element_items };

    #[tactic(auto, using(crate::proofs::ElementLaws::element_laws))]
    fn laws() {}
}

impl ItemKind for ElementItems {
    ghost use Rattle.wasm_base.specs.SectionId.{number_of};
    ghost use Rattle.wasm_base.specs.declared.section_id.SectionId.TheVariants as ids;

    ghost section_id = { number_of ids.Element };

    fn id() -> u8 {
        SectionId::Element.into()
    }
}

/// Adding calls. Core specification, Binary Format, Modules, Element Section.
impl<S: Store> CountedSection<ElementItems, S> {
    ghost use Rattle.wasm_sections.specs.declared.element.ElementMode.TheVariants as modes;
    ghost use Rattle.wasm_sections.specs.GivenElements.{given_encoding, list_in};

    /// Adds a segment.
    pub fn segment<B: Allocator>(&mut self, segment: ElementSegment<'_, B>) -> Result<()>
        ensures { AddsTo S.model (given_encoding segment.entry) (AreEncodableElements (list_in segment.entry.elements)) self.old self.new result }
    {
        self.add_record(&segment)
    }

    /// Adds a segment whose references are copied to this table when the module is instantiated.
    pub fn active<'a, B: Allocator>(
        &mut self,
        table: Option<u32>,
        offset: &'a ConstExpr<B>,
        elements: Elements<'a, B>,
    ) -> Result<()>
        ensures { AddsTo S.model (given_encoding (record { mode = modes.Active table offset.entry; elements = elements.entry })) (AreEncodableElements (list_in elements.entry)) self.old self.new result }
    {
        self.segment(ElementSegment {
            mode: ElementMode::Active { table, offset },
            elements,
        })
    }

    /// Adds a segment whose references are copied to a table by an instruction.
    pub fn passive<B: Allocator>(&mut self, elements: Elements<'_, B>) -> Result<()>
        ensures { AddsTo S.model (given_encoding (record { mode = modes.Passive; elements = elements.entry })) (AreEncodableElements (list_in elements.entry)) self.old self.new result }
    {
        self.segment(ElementSegment {
            mode: ElementMode::Passive,
            elements,
        })
    }

    /// Adds a segment that declares that code may refer to its functions.
    pub fn declared<B: Allocator>(&mut self, elements: Elements<'_, B>) -> Result<()>
        ensures { AddsTo S.model (given_encoding (record { mode = modes.Declared; elements = elements.entry })) (AreEncodableElements (list_in elements.entry)) self.old self.new result }
    {
        self.segment(ElementSegment {
            mode: ElementMode::Declared,
            elements,
        })
    }

    /// Adds a segment that is already encoded. The call does not check that it is one.
    pub fn raw(&mut self, segment: &[u8]) -> Result<()>
        ensures { AddsTo S.model segment.now ⊤ self.old self.new result }
    {
        self.add_piece(segment)
    }
}
