// Walks over the items of sections.
ghost use Rattle.std.specs.Prelude.{◌≡◌, ◌≢◌, ◌++◌, true, false, IfOk, IfErr, OnOk, OnErr};
ghost use Rattle.wasm_base.specs.Numbers.{padded_of};
ghost use Rattle.wasm_base.specs.Formats.{byte, pair, vec};
ghost use Rattle.wasm_base.specs.Decoding.{Rejects};
ghost use Rattle.wasm_base.specs.Minimal.{EncodesMinimally};
ghost use Rattle.wasm_base.specs.Walks.{Keeps, TakesBytes, Walks};
ghost use Rattle.wasm_base.specs.declared.fault.ReadFault.TheVariants.{Memory};
ghost use Rattle.wasm_code.specs.Expressions.{expression};
ghost use Rattle.wasm_sections.specs.DataSegments.{active_front, data_item};
ghost use Rattle.wasm_sections.specs.Elements.{segment_mode, elements_as, element_flag_view};
ghost use Rattle.wasm_sections.specs.Exports.{export, export_encoding, item_of};
ghost use Rattle.wasm_sections.specs.Globals.{global_encoding_in};
ghost use Rattle.wasm_sections.specs.Imports.{entity_encoding_in, import_format};
ghost use Rattle.wasm_sections.specs.Tables.{table_encoding_in};

use crate::data::{Segment, has_index};
use crate::element_items::{ElementFlag, ElementItem};
use crate::export::Export;
use crate::global::{GlobalItem, GlobalType};
use crate::import::{EntityType, Imports, group_kind};
use crate::memory::MemoryType;
use crate::table::{BEFORE_INIT, TableItem, TableType};
use crate::tag::TagType;
use std::alloc::Allocator;
use wasm_base::{
    CORE_FUNCTION_EXACT_SORT, CORE_FUNCTION_SORT, CORE_GLOBAL_SORT, CORE_MEMORY_SORT,
    CORE_TABLE_SORT, CORE_TAG_SORT, Canonical, DecodeError, Effect, Encode, EncodeIn, Grammar,
    Optional, ReadFault, Readable, RefType, Result, SizedBytes, ValType, Walk, walk_in, walk_value,
};
use wasm_code::Expression;

impl Canonical for MemoryType {
    #[tactic(auto, using(crate::proofs::WalkItems::memory_canonical))]
    fn canonical() {}
}

impl<G: Grammar> Walk<G> for MemoryType {
    fn walk<'a, A: Allocator + Copy, E: Effect>(
        bytes: &'a [u8],
        alloc: A,
        effect: &mut E,
    ) -> Result<&'a [u8], DecodeError> {
        walk_value::<MemoryType, A, G, _>(bytes, alloc, effect)
    }
}

impl Canonical for TagType {
    #[tactic(auto, using(crate::proofs::WalkItems::tag_canonical))]
    fn canonical() {}
}

impl<G: Grammar> Walk<G> for TagType {
    fn walk<'a, A: Allocator + Copy, E: Effect>(
        bytes: &'a [u8],
        alloc: A,
        effect: &mut E,
    ) -> Result<&'a [u8], DecodeError> {
        walk_value::<TagType, A, G, _>(bytes, alloc, effect)
    }
}

impl Canonical for Export<'_> {
    #[tactic(auto, using(crate::proofs::WalkItems::export_canonical))]
    fn canonical()
        ensures { EncodesMinimally export item_of export_encoding }
    {}
}

impl<'s, G: Grammar> Walk<G> for Export<'s> {
    fn walk<'a, A: Allocator + Copy, E: Effect>(
        bytes: &'a [u8],
        alloc: A,
        effect: &mut E,
    ) -> Result<&'a [u8], DecodeError>
        ensures found { IfOk result (λ rest. Walks E.seen G.grammar export bytes.now rest.now effect.old effect.new) }
        ensures none { IfErr result (λ e. e.cause ≢ Memory → Rejects export (padded_of G.grammar) bytes.now) }
        ensures no_memory { IfErr result (λ e. e.cause ≡ Memory → E.may_fail) }
        ensures front { Keeps E.seen effect.old effect.new }
    {
        walk_value::<Export<'a>, A, G, _>(bytes, alloc, effect)
    }
}

impl<G: Grammar> EncodeIn<G> for GlobalType {
    ghost encoding_in = { global_encoding_in G.grammar };

    #[tactic(auto, using(wasm_base::proofs::MinimalEncodings::front_steps))]
    fn encode_in<A: Allocator>(&self, sink: &mut Vec<u8, A>) -> Result<()> {
        <ValType as EncodeIn<G>>::encode_in(&self.val_type, sink)?;
        self.flags().encode(sink)
    }

    #[tactic(auto, using(crate::proofs::WalkItems::global_type_in))]
    fn minimal_in() {}
}

impl<G: Grammar> Walk<G> for GlobalType {
    fn walk<'a, A: Allocator + Copy, E: Effect>(
        bytes: &'a [u8],
        alloc: A,
        effect: &mut E,
    ) -> Result<&'a [u8], DecodeError> {
        walk_in::<GlobalType, A, G, _>(bytes, alloc, effect)
    }
}

impl<G: Grammar, C: Allocator> Walk<G> for GlobalItem<C> {
    #[tactic(auto, using(crate::proofs::WalkItems::global_walks))]
    fn walk<'a, A: Allocator + Copy, E: Effect>(
        bytes: &'a [u8],
        alloc: A,
        effect: &mut E,
    ) -> Result<&'a [u8], DecodeError> {
        let rest = <(GlobalType, Expression<C>) as Walk<G>>::walk(bytes, alloc, effect)?;
        Ok(rest)
    }
}

impl<G: Grammar> EncodeIn<G> for TableType {
    ghost encoding_in = { table_encoding_in G.grammar };

    #[tactic(auto, using(wasm_base::proofs::MinimalEncodings::front_steps))]
    fn encode_in<A: Allocator>(&self, sink: &mut Vec<u8, A>) -> Result<()> {
        <RefType as EncodeIn<G>>::encode_in(&self.element_type, sink)?;
        (self.flags(), self.minimum, Optional(self.maximum)).encode(sink)
    }

    #[tactic(auto, using(crate::proofs::WalkItems::table_type_in))]
    fn minimal_in() {}
}

impl<G: Grammar> Walk<G> for TableType {
    fn walk<'a, A: Allocator + Copy, E: Effect>(
        bytes: &'a [u8],
        alloc: A,
        effect: &mut E,
    ) -> Result<&'a [u8], DecodeError> {
        walk_in::<TableType, A, G, _>(bytes, alloc, effect)
    }
}

impl<G: Grammar, C: Allocator> Walk<G> for TableItem<C> {
    #[tactic(auto, using(crate::proofs::TableLaws::table_steps, wasm_base::proofs::WalkLaws::keep_steps))]
    fn walk<'a, A: Allocator + Copy, E: Effect>(
        bytes: &'a [u8],
        alloc: A,
        effect: &mut E,
    ) -> Result<&'a [u8], DecodeError> {
        let (first, rest) = <u8 as Readable<'a, A, G>>::read(bytes, alloc)?;
        if first != 0x40 {
            let rest = <TableType as Walk<G>>::walk(bytes, alloc, effect)?;
            return Ok(rest);
        }
        let (second, rest) = <u8 as Readable<'a, A, G>>::read(rest, alloc)?;
        if second != 0x00 {
            return Err(ReadFault::UnknownTag.just_before(rest));
        }
        effect.put(&BEFORE_INIT)?;
        let rest = <(TableType, Expression<C>) as Walk<G>>::walk(rest, alloc, effect)?;
        Ok(rest)
    }
}

/// Walks over the bytes of a data segment, with their size prefix.
#[tactic(auto, using(crate::proofs::WalkItems::segment_bytes_walk, crate::proofs::DataLaws::bytes_none, wasm_base::proofs::WalkLaws::keep_steps))]
fn walk_bytes<'a, A: Allocator + Copy, G: Grammar, E: Effect>(
    bytes: &'a [u8],
    alloc: A,
    effect: &mut E,
) -> Result<&'a [u8], DecodeError>
    ensures found { IfOk result (λ rest. Walks E.seen G.grammar (vec byte) bytes.now rest.now effect.old effect.new) }
    ensures none { IfErr result (λ e. e.cause ≢ Memory → Rejects (vec byte) (padded_of G.grammar) bytes.now) }
    ensures no_memory { IfErr result (λ e. e.cause ≡ Memory → E.may_fail) }
    ensures front { Keeps E.seen effect.old effect.new }
{
    let (content, rest) = <&'a [u8] as Readable<'a, A, G>>::read(bytes, alloc)?;
    effect.put(&SizedBytes(content))?;
    Ok(rest)
}

/// Walks over the offset of a data segment, and then its bytes.
#[tactic(auto, using(wasm_base::proofs::WalkLaws::keep_steps))]
fn walk_placed<'a, A: Allocator + Copy, G: Grammar, E: Effect>(
    bytes: &'a [u8],
    alloc: A,
    effect: &mut E,
) -> Result<&'a [u8], DecodeError>
    ensures found { IfOk result (λ rest. Walks E.seen G.grammar (pair expression (vec byte)) bytes.now rest.now effect.old effect.new) }
    ensures none { IfErr result (λ e. e.cause ≢ Memory → Rejects (pair expression (vec byte)) (padded_of G.grammar) bytes.now) }
    ensures no_memory { IfErr result (λ e. e.cause ≡ Memory → E.may_fail) }
    ensures front { Keeps E.seen effect.old effect.new }
{
    let after = <Expression<A> as Walk<G>>::walk(bytes, alloc, effect)?;
    let rest = walk_bytes::<A, G, _>(after, alloc, effect)?;
    Ok(rest)
}

/// The effect takes flag 0 for an active segment of memory 0, whatever flag it was decoded from.
impl<'s, G: Grammar, C: Allocator> Walk<G> for Segment<'s, C> {
    #[tactic(auto, using(crate::proofs::DataLaws::segment_unknown, wasm_base::proofs::WalkLaws::keep_steps))]
    fn walk<'a, A: Allocator + Copy, E: Effect>(
        bytes: &'a [u8],
        alloc: A,
        effect: &mut E,
    ) -> Result<&'a [u8], DecodeError>
        ensures found { IfOk result (λ rest. Walks E.seen G.grammar data_item bytes.now rest.now effect.old effect.new) }
        ensures none { IfErr result (λ e. e.cause ≢ Memory → Rejects data_item (padded_of G.grammar) bytes.now) }
        ensures no_memory { IfErr result (λ e. e.cause ≡ Memory → E.may_fail) }
        ensures front { Keeps E.seen effect.old effect.new }
    {
        let (flag, rest) = <u32 as Readable<'a, A, G>>::read(bytes, alloc)?;
        match flag {
            0 => {
                effect.put(&0u32)?;
                let rest = walk_placed::<A, G, _>(rest, alloc, effect)?;
                Ok(rest)
            }
            1 => {
                effect.put(&1u32)?;
                let rest = walk_bytes::<A, G, _>(rest, alloc, effect)?;
                Ok(rest)
            }
            2 => {
                let (memory, rest) = <u32 as Readable<'a, A, G>>::read(rest, alloc)?;
                if !has_index::<G>(memory) {
                    return Err(ReadFault::UnknownTag.just_before(rest));
                }
                put_memory(memory, effect)?;
                let rest = walk_placed::<A, G, _>(rest, alloc, effect)?;
                Ok(rest)
            }
            _ => Err(ReadFault::UnknownTag.just_before(rest)),
        }
    }
}

/// Gives the effect the flag of an active segment, and the memory's index unless it is 0.
#[tactic(auto, using(crate::proofs::WalkItems::front_of_zero, crate::proofs::WalkItems::front_of_other))]
fn put_memory<E: Effect>(memory: u32, effect: &mut E) -> Result<()>
    ensures ok { OnOk result (TakesBytes E.seen (active_front memory) effect.old effect.new) }
    ensures err { OnErr result E.may_fail }
    ensures front { Keeps E.seen effect.old effect.new }
{
    if memory == 0 {
        effect.put(&0u32)
    } else {
        effect.put(&(2u32, memory))
    }
}

/// Walks over the mode of an element segment.
#[tactic(auto, using(wasm_base::proofs::WalkLaws::keep_steps))]
fn walk_segment_mode<'a, A: Allocator + Copy, G: Grammar, E: Effect>(
    flag: ElementFlag,
    bytes: &'a [u8],
    alloc: A,
    effect: &mut E,
) -> Result<&'a [u8], DecodeError>
    ensures found { IfOk result (λ rest. Walks E.seen G.grammar (segment_mode (element_flag_view flag)) bytes.now rest.now effect.old effect.new) }
    ensures none { IfErr result (λ e. e.cause ≢ Memory → Rejects (segment_mode (element_flag_view flag)) (padded_of G.grammar) bytes.now) }
    ensures no_memory { IfErr result (λ e. e.cause ≡ Memory → E.may_fail) }
    ensures front { Keeps E.seen effect.old effect.new }
{
    match (flag.not_active, flag.second) {
        (true, true) => Ok(bytes),
        (true, false) => Ok(bytes),
        (false, true) => {
            let rest = <(u32, Expression<A>) as Walk<G>>::walk(bytes, alloc, effect)?;
            Ok(rest)
        }
        (false, false) => {
            let rest = <Expression<A> as Walk<G>>::walk(bytes, alloc, effect)?;
            Ok(rest)
        }
    }
}

/// Walks over elements that are functions.
#[tactic(auto, using(wasm_base::proofs::WalkLaws::keep_steps))]
fn walk_functions<'a, A: Allocator + Copy, G: Grammar, E: Effect>(
    explicit: bool,
    bytes: &'a [u8],
    alloc: A,
    effect: &mut E,
) -> Result<&'a [u8], DecodeError>
    ensures found { IfOk result (λ rest. Walks E.seen G.grammar (elements_as explicit false) bytes.now rest.now effect.old effect.new) }
    ensures none { IfErr result (λ e. e.cause ≢ Memory → Rejects (elements_as explicit false) (padded_of G.grammar) bytes.now) }
    ensures no_memory { IfErr result (λ e. e.cause ≡ Memory → E.may_fail) }
    ensures front { Keeps E.seen effect.old effect.new }
{
    if explicit {
        let (kind, rest) = <u8 as Readable<'a, A, G>>::read(bytes, alloc)?;
        if kind != 0x00 {
            return Err(ReadFault::UnknownTag.just_before(rest));
        }
        effect.put(&0x00u8)?;
        let rest = <Vec<u32, A> as Walk<G>>::walk(rest, alloc, effect)?;
        return Ok(rest);
    }
    let rest = <Vec<u32, A> as Walk<G>>::walk(bytes, alloc, effect)?;
    Ok(rest)
}

/// Walks over elements that are expressions.
#[tactic(auto, using(wasm_base::proofs::WalkLaws::keep_steps))]
fn walk_expressions<'a, A: Allocator + Copy, G: Grammar, E: Effect>(
    explicit: bool,
    bytes: &'a [u8],
    alloc: A,
    effect: &mut E,
) -> Result<&'a [u8], DecodeError>
    ensures found { IfOk result (λ rest. Walks E.seen G.grammar (elements_as explicit true) bytes.now rest.now effect.old effect.new) }
    ensures none { IfErr result (λ e. e.cause ≢ Memory → Rejects (elements_as explicit true) (padded_of G.grammar) bytes.now) }
    ensures no_memory { IfErr result (λ e. e.cause ≡ Memory → E.may_fail) }
    ensures front { Keeps E.seen effect.old effect.new }
{
    if explicit {
        let after = <RefType as Walk<G>>::walk(bytes, alloc, effect)?;
        let rest = <Vec<Expression<A>, A> as Walk<G>>::walk(after, alloc, effect)?;
        return Ok(rest);
    }
    let rest = <Vec<Expression<A>, A> as Walk<G>>::walk(bytes, alloc, effect)?;
    Ok(rest)
}

/// Walks over the elements of a segment.
fn walk_elements<'a, A: Allocator + Copy, G: Grammar, E: Effect>(
    explicit: bool,
    of_expressions: bool,
    bytes: &'a [u8],
    alloc: A,
    effect: &mut E,
) -> Result<&'a [u8], DecodeError>
    ensures found { IfOk result (λ rest. Walks E.seen G.grammar (elements_as explicit of_expressions) bytes.now rest.now effect.old effect.new) }
    ensures none { IfErr result (λ e. e.cause ≢ Memory → Rejects (elements_as explicit of_expressions) (padded_of G.grammar) bytes.now) }
    ensures no_memory { IfErr result (λ e. e.cause ≡ Memory → E.may_fail) }
    ensures front { Keeps E.seen effect.old effect.new }
{
    if of_expressions {
        walk_expressions::<A, G, _>(explicit, bytes, alloc, effect)
    } else {
        walk_functions::<A, G, _>(explicit, bytes, alloc, effect)
    }
}

impl<G: Grammar, C: Allocator> Walk<G> for ElementItem<C> {
    #[tactic(auto, using(wasm_base::proofs::WalkLaws::keep_steps))]
    fn walk<'a, A: Allocator + Copy, E: Effect>(
        bytes: &'a [u8],
        alloc: A,
        effect: &mut E,
    ) -> Result<&'a [u8], DecodeError> {
        let (flag, rest) = <ElementFlag as Readable<'a, A, G>>::read(bytes, alloc)?;
        effect.put(&flag.code())?;
        let rest = walk_segment_mode::<A, G, _>(flag, rest, alloc, effect)?;
        let rest = walk_elements::<A, G, _>(
            flag.has_kind(),
            flag.expressions,
            rest,
            alloc,
            effect,
        )?;
        Ok(rest)
    }
}

impl<G: Grammar> EncodeIn<G> for EntityType {
    ghost encoding_in = { entity_encoding_in G.grammar };

    #[tactic(auto, using(wasm_base::proofs::MinimalEncodings::front_steps))]
    fn encode_in<A: Allocator>(&self, sink: &mut Vec<u8, A>) -> Result<()> {
        match *self {
            EntityType::Function(index) => (CORE_FUNCTION_SORT, index).encode(sink),
            EntityType::Table(ty) => {
                CORE_TABLE_SORT.encode(sink)?;
                <TableType as EncodeIn<G>>::encode_in(&ty, sink)
            }
            EntityType::Memory(ty) => (CORE_MEMORY_SORT, ty).encode(sink),
            EntityType::Global(ty) => {
                CORE_GLOBAL_SORT.encode(sink)?;
                <GlobalType as EncodeIn<G>>::encode_in(&ty, sink)
            }
            EntityType::Tag(ty) => (CORE_TAG_SORT, ty).encode(sink),
            EntityType::FunctionExact(index) => (CORE_FUNCTION_EXACT_SORT, index).encode(sink),
        }
    }

    #[tactic(auto, using(crate::proofs::WalkItems::entity_in))]
    fn minimal_in() {}
}

impl<G: Grammar> Walk<G> for EntityType {
    fn walk<'a, A: Allocator + Copy, E: Effect>(
        bytes: &'a [u8],
        alloc: A,
        effect: &mut E,
    ) -> Result<&'a [u8], DecodeError> {
        walk_in::<EntityType, A, G, _>(bytes, alloc, effect)
    }
}

impl<'s, G: Grammar, C: Allocator> Walk<G> for Imports<'s, C> {
    #[tactic(auto, using(wasm_base::proofs::WalkLaws::keep_steps))]
    fn walk<'a, A: Allocator + Copy, E: Effect>(
        bytes: &'a [u8],
        alloc: A,
        effect: &mut E,
    ) -> Result<&'a [u8], DecodeError>
        ensures found { IfOk result (λ rest. Walks E.seen G.grammar import_format bytes.now rest.now effect.old effect.new) }
        ensures none { IfErr result (λ e. e.cause ≢ Memory → Rejects import_format (padded_of G.grammar) bytes.now) }
        ensures no_memory { IfErr result (λ e. e.cause ≡ Memory → E.may_fail) }
        ensures front { Keeps E.seen effect.old effect.new }
    {
        let rest = <&'a str as Walk<G>>::walk(bytes, alloc, effect)?;
        let Some((kind, group)) = group_kind::<G>(rest) else {
            let after = <&'a str as Walk<G>>::walk(rest, alloc, effect)?;
            let rest = <EntityType as Walk<G>>::walk(after, alloc, effect)?;
            return Ok(rest);
        };
        effect.put(&[0x00u8, kind])?;
        match kind {
            0x7F => {
                let rest = <Vec<(&'a str, EntityType), A> as Walk<G>>::walk(group, alloc, effect)?;
                Ok(rest)
            }
            0x7E => {
                let after = <EntityType as Walk<G>>::walk(group, alloc, effect)?;
                let rest = <Vec<&'a str, A> as Walk<G>>::walk(after, alloc, effect)?;
                Ok(rest)
            }
            _ => Err(ReadFault::UnknownTag.just_before(group)),
        }
    }
}
