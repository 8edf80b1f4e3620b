// The reader of the element section.
ghost use Rattle.std.specs.Prelude.{◌≡◌, true, false, ◌≢◌, List, IfOk, IfErr, Err, OnOk, map};
ghost use Rattle.wasm_base.specs.Formats.{is_given, numbered};
ghost use Rattle.wasm_base.specs.Numbers.{padded_of};
ghost use Rattle.wasm_base.specs.Decoding.{Decodes, Rejects};
ghost use Rattle.wasm_insn.specs.Plain.{Plain};
ghost use Rattle.wasm_base.specs.declared.refused.Refused.TheVariants.{TooLong};
ghost use Rattle.wasm_base.specs.Minimal.{AppendsMinimal, IsFrontOf, HasEncoding, builders_alone};
ghost use Rattle.wasm_base.specs.declared.fault.ReadFault.TheVariants.{Memory};
ghost use Rattle.wasm_sections.specs.Constants.{instructions_view};
ghost use Rattle.wasm_sections.specs.Elements.{ElementItem, ElementFlag as FlagModel, flag_code, flag_of, active, functions, expressions, are_expressions, has_kind, segment_mode, elements_as, element, element_flag_view, segment_mode_view, list_view, element_view, SegmentMode, ElementList as ListModel};

use std::alloc::{Allocator, Global};
use wasm_base::{
    DecodeError, Encode, Grammar, Layout, ReadFault, Readable, RefType, Result, Shorten,
};
use wasm_code::Expression;

/// The flag of an element segment, as its bits.
#[derive(Clone, Copy, Debug)]
pub(crate) struct ElementFlag {
    pub(crate) not_active: bool,
    pub(crate) second: bool,
    pub(crate) expressions: bool,
}

impl ElementFlag {
    /// Returns the number that encodes the flag.
    pub(crate) fn code(self) -> u32
        ensures { result ≡ flag_code (element_flag_view self) }
    {
        let not_active = if self.not_active { 1 } else { 0 };
        let second = if self.second { 2 } else { 0 };
        let expressions = if self.expressions { 4 } else { 0 };
        not_active + second + expressions
    }

    /// Returns `true` if the kind of the elements is explicit in the encoding.
    pub(crate) fn has_kind(self) -> bool
        ensures { result ≡ has_kind (element_flag_view self) }
    {
        self.not_active || self.second
    }
}

impl Layout for ElementFlag {
    ghost Value = { FlagModel };

    ghost format = { numbered flag_code };

    ghost view = { element_flag_view };

    #[tactic(auto, using(crate::proofs::ElementLaws::element_flag_unambiguous))]
    fn laws() {}
}

impl<'a, A: Allocator + Copy, G: Grammar> Readable<'a, A, G> for ElementFlag {
    ghost may_allocate = { ⊥ };

    #[tactic(auto, using(crate::proofs::ElementLaws::element_flag_steps))]
    fn read(bytes: &'a [u8], alloc: A) -> Result<(ElementFlag, &'a [u8]), DecodeError> {
        let (number, rest) = <u32 as Readable<'a, A, G>>::read(bytes, alloc)?;
        if number >= 8 {
            return Err(ReadFault::UnknownTag.just_before(rest));
        }
        let flag = ElementFlag {
            not_active: number % 2 == 1,
            second: number / 2 % 2 == 1,
            expressions: number / 4 % 2 == 1,
        };
        Ok((flag, rest))
    }
}

/// The mode of a decoded element segment: when its elements are copied to a table.
#[derive(Debug, Drop)]
pub enum ElementItemMode<A: Allocator = Global> {
    /// The elements are copied by an instruction.
    Passive,
    /// The elements are never copied: the segment declares that code may refer to these functions.
    Declared,
    /// The elements are copied when the module is instantiated.
    Active {
        /// `None` if the table is not explicit, which means table 0.
        table: Option<u32>,
        /// Computes the offset of the first element in the table.
        offset: Expression<A>,
    },
}

/// The elements of a decoded segment.
#[derive(Debug, Drop)]
pub enum ElementList<A: Allocator = Global> {
    /// References to the functions of these indices.
    Functions(Vec<u32, A>),
    /// References of this type, each computed by an expression.
    Expressions(RefType, Vec<Expression<A>, A>),
}

/// A decoded element segment.
#[derive(Debug, Drop)]
pub struct ElementItem<A: Allocator = Global> {
    pub mode: ElementItemMode<A>,
    pub elements: ElementList<A>,
}

/// Decodes the mode that the flag selects.
#[tactic(auto, using(crate::proofs::ElementLaws::segment_mode_steps))]
fn read_mode<'a, A: Allocator + Copy, G: Grammar>(
    flag: ElementFlag,
    bytes: &'a [u8],
    alloc: A,
) -> Result<(ElementItemMode<A>, &'a [u8]), DecodeError>
    ensures found { IfOk result (λ x. Decodes (segment_mode (element_flag_view flag)) (padded_of G.grammar) bytes.now (segment_mode_view x.0) x.1.now) }
    ensures none { IfErr result (λ e. e.cause ≢ Memory → Rejects (segment_mode (element_flag_view flag)) (padded_of G.grammar) bytes.now) }
{
    match (flag.not_active, flag.second) {
        (true, true) => Ok((ElementItemMode::Declared, bytes)),
        (true, false) => Ok((ElementItemMode::Passive, bytes)),
        (false, true) => {
            let ((table, offset), rest) = <(u32, Expression<A>) as Readable<'a, A, G>>::read(
                bytes, alloc,
            )?;
            let table = Some(table);
            Ok((ElementItemMode::Active { table, offset }, rest))
        }
        (false, false) => {
            let (offset, rest) = <Expression<A> as Readable<'a, A, G>>::read(bytes, alloc)?;
            let table = None;
            Ok((ElementItemMode::Active { table, offset }, rest))
        }
    }
}

/// Decodes the indices of functions, after the byte of their kind if that is explicit.
#[tactic(auto, using(crate::proofs::ElementLaws::function_steps))]
fn read_functions<'a, A: Allocator + Copy, G: Grammar>(
    explicit: bool,
    bytes: &'a [u8],
    alloc: A,
) -> Result<(ElementList<A>, &'a [u8]), DecodeError>
    ensures found { IfOk result (λ x. Decodes (elements_as explicit false) (padded_of G.grammar) bytes.now (list_view x.0) x.1.now) }
    ensures none { IfErr result (λ e. e.cause ≢ Memory → Rejects (elements_as explicit false) (padded_of G.grammar) bytes.now) }
{
    if explicit {
        let (kind, rest) = <u8 as Readable<'a, A, G>>::read(bytes, alloc)?;
        if kind != 0x00 {
            return Err(ReadFault::UnknownTag.just_before(rest));
        }
        let (functions, rest) = <Vec<u32, A> as Readable<'a, A, G>>::read(rest, alloc)?;
        return Ok((ElementList::Functions(functions), rest));
    }
    let (functions, rest) = <Vec<u32, A> as Readable<'a, A, G>>::read(bytes, alloc)?;
    Ok((ElementList::Functions(functions), rest))
}

/// Decodes expressions, after their type if that is explicit.
#[tactic(auto, using(crate::proofs::ElementLaws::expression_steps))]
fn read_expressions<'a, A: Allocator + Copy, G: Grammar>(
    explicit: bool,
    bytes: &'a [u8],
    alloc: A,
) -> Result<(ElementList<A>, &'a [u8]), DecodeError>
    ensures found { IfOk result (λ x. Decodes (elements_as explicit true) (padded_of G.grammar) bytes.now (list_view x.0) x.1.now) }
    ensures none { IfErr result (λ e. e.cause ≢ Memory → Rejects (elements_as explicit true) (padded_of G.grammar) bytes.now) }
{
    if explicit {
        let ((ty, expressions), rest) = <(RefType, Vec<Expression<A>, A>) as Readable<
            'a,
            A,
            G,
        >>::read(bytes, alloc)?;
        return Ok((ElementList::Expressions(ty, expressions), rest));
    }
    let (expressions, rest) = <Vec<Expression<A>, A> as Readable<'a, A, G>>::read(bytes, alloc)?;
    Ok((
        ElementList::Expressions(RefType::FUNCREF, expressions),
        rest,
    ))
}

/// Decodes the elements of the kind that the flag selects.
fn read_elements<'a, A: Allocator + Copy, G: Grammar>(
    explicit: bool,
    of_expressions: bool,
    bytes: &'a [u8],
    alloc: A,
) -> Result<(ElementList<A>, &'a [u8]), DecodeError>
    ensures found { IfOk result (λ x. Decodes (elements_as explicit of_expressions) (padded_of G.grammar) bytes.now (list_view x.0) x.1.now) }
    ensures none { IfErr result (λ e. e.cause ≢ Memory → Rejects (elements_as explicit of_expressions) (padded_of G.grammar) bytes.now) }
{
    if of_expressions {
        read_expressions::<A, G>(explicit, bytes, alloc)
    } else {
        read_functions::<A, G>(explicit, bytes, alloc)
    }
}

impl<A: Allocator> Layout for ElementItem<A> {
    ghost Value = { ElementItem (List Plain) };

    ghost format = { element };

    ghost view = { element_view };

    #[tactic(auto, using(crate::proofs::ElementLaws::element_unambiguous))]
    fn laws() {}
}

impl<'a, A: Allocator + Copy, G: Grammar> Readable<'a, A, G> for ElementItem<A> {
    #[tactic(auto, using(crate::proofs::ElementLaws::element_steps))]
    fn read(bytes: &'a [u8], alloc: A) -> Result<(ElementItem<A>, &'a [u8]), DecodeError> {
        let (flag, rest) = <ElementFlag as Readable<'a, A, G>>::read(bytes, alloc)?;
        let (mode, rest) = read_mode::<A, G>(flag, rest, alloc)?;
        let (elements, rest) = read_elements::<A, G>(
            flag.has_kind(),
            flag.expressions,
            rest,
            alloc,
        )?;
        Ok((ElementItem { mode, elements }, rest))
    }
}

/// Appends the indices of functions, after the byte of their kind if that is explicit.
#[tactic(auto, using(crate::proofs::ElementLaws::functions_encoded))]
fn append_functions<A: Allocator, B: Allocator>(
    explicit: bool,
    indices: &Vec<u32, A>,
    sink: &mut Vec<u8, B>,
) -> Result<()>
    ensures ok { OnOk result (AppendsMinimal builders_alone (elements_as explicit false) (functions indices.now.items) sink.old.items sink.new.items) }
    ensures front { IsFrontOf sink.old.items sink.new.items }
    ensures too_long { HasEncoding builders_alone (elements_as explicit false) (functions indices.now.items) → result ≢ Err TooLong }
{
    if explicit {
        0x00u8.encode(sink)?;
        return indices.write_minimal(sink);
    }
    indices.write_minimal(sink)
}

/// Appends expressions, after their type if that is explicit.
#[tactic(auto, using(crate::proofs::ElementLaws::expressions_encoded))]
fn append_expressions<A: Allocator, B: Allocator>(
    explicit: bool,
    ty: RefType,
    elements: &Vec<Expression<A>, A>,
    sink: &mut Vec<u8, B>,
) -> Result<()>
    ensures ok { OnOk result (AppendsMinimal builders_alone (elements_as explicit true) (expressions ty (map instructions_view elements.now.items)) sink.old.items sink.new.items) }
    ensures front { IsFrontOf sink.old.items sink.new.items }
    ensures too_long { HasEncoding builders_alone (elements_as explicit true) (expressions ty (map instructions_view elements.now.items)) → result ≢ Err TooLong }
{
    if explicit {
        ty.encode(sink)?;
        return elements.write_minimal(sink);
    }
    elements.write_minimal(sink)
}

/// Appends the table if it is explicit, and the offset of the first element.
#[tactic(auto, using(crate::proofs::ElementLaws::in_table_appended, crate::proofs::ElementLaws::no_table_appended, crate::proofs::ElementLaws::offset_encoded))]
fn append_active<A: Allocator, B: Allocator>(
    table: Option<u32>,
    offset: &Expression<A>,
    sink: &mut Vec<u8, B>,
) -> Result<()>
    ensures ok { OnOk result (AppendsMinimal builders_alone (segment_mode (record { not_active = false; second = is_given table; expressions = false })) (active table (instructions_view offset.now)) sink.old.items sink.new.items) }
    ensures front { IsFrontOf sink.old.items sink.new.items }
    ensures too_long { HasEncoding builders_alone (segment_mode (record { not_active = false; second = is_given table; expressions = false })) (active table (instructions_view offset.now)) → result ≢ Err TooLong }
{
    match table {
        Some(table) => {
            table.encode(sink)?;
            offset.write_minimal(sink)
        }
        None => offset.write_minimal(sink),
    }
}

impl<A: Allocator> ElementItem<A> {
    /// Returns the flag of the segment.
    fn flag(&self) -> ElementFlag
        ensures { element_flag_view result ≡ flag_of (element_view self.now) }
    {
        let not_active = !matches!(self.mode, ElementItemMode::Active { .. });
        let second = match &self.mode {
            ElementItemMode::Passive => false,
            ElementItemMode::Declared => true,
            ElementItemMode::Active { table, .. } => table.is_some(),
        };
        let expressions = matches!(self.elements, ElementList::Expressions(..));
        ElementFlag {
            not_active,
            second,
            expressions,
        }
    }

    /// Appends the table and the offset, as the mode needs them.
    #[tactic(auto, using(crate::proofs::ElementLaws::passive_appended, crate::proofs::ElementLaws::declared_appended))]
    fn append_segment_mode<B: Allocator>(&self, sink: &mut Vec<u8, B>) -> Result<()>
        ensures ok { OnOk result (AppendsMinimal builders_alone (segment_mode (flag_of (element_view self.now))) (segment_mode_view self.now.mode) sink.old.items sink.new.items) }
        ensures front { IsFrontOf sink.old.items sink.new.items }
        ensures too_long { HasEncoding builders_alone (segment_mode (flag_of (element_view self.now))) (segment_mode_view self.now.mode) → result ≢ Err TooLong }
    {
        match &self.mode {
            ElementItemMode::Passive => Ok(()),
            ElementItemMode::Declared => Ok(()),
            ElementItemMode::Active { table, offset } => append_active(*table, offset, sink),
        }
    }
}

/// Appends the elements, after their kind if that is explicit.
fn append_elements<A: Allocator, B: Allocator>(
    explicit: bool,
    elements: &ElementList<A>,
    sink: &mut Vec<u8, B>,
) -> Result<()>
    ensures ok { OnOk result (AppendsMinimal builders_alone (elements_as explicit (are_expressions (list_view elements.now))) (list_view elements.now) sink.old.items sink.new.items) }
    ensures front { IsFrontOf sink.old.items sink.new.items }
    ensures too_long { HasEncoding builders_alone (elements_as explicit (are_expressions (list_view elements.now))) (list_view elements.now) → result ≢ Err TooLong }
{
    match elements {
        ElementList::Functions(indices) => append_functions(explicit, indices, sink),
        ElementList::Expressions(ty, elements) => append_expressions(explicit, *ty, elements, sink),
    }
}

impl<A: Allocator> Shorten for ElementItem<A> {
    ghost grammars = { builders_alone };

    #[tactic(auto, using(crate::proofs::ElementLaws::segment_mode_encoded, crate::proofs::ElementLaws::elements_encoded))]
    fn write_minimal<B: Allocator>(&self, sink: &mut Vec<u8, B>) -> Result<()> {
        let flag = self.flag();
        flag.code().encode(sink)?;
        self.append_segment_mode(sink)?;
        append_elements(flag.has_kind(), &self.elements, sink)
    }
}
