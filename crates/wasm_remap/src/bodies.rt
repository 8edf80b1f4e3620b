// Bodies that are mapped instruction by instruction. No list of a body is kept.
ghost use Rattle.std.specs.Prelude.{◌≡◌, ℕ, ◌∷◌, [], true, IfOk, OnOk, OnErr, map, List};
ghost use Rattle.wasm_base.specs.Formats.{members, pair, size_prefixed, u32, vec};
ghost use Rattle.wasm_base.specs.Minimal.{IsFrontOf};
ghost use Rattle.wasm_base.specs.Numbers.{standard};
ghost use Rattle.wasm_base.specs.Types.{val_type};
ghost use Rattle.wasm_base.specs.declared.types.ValType.{ValType};
ghost use Rattle.wasm_code.specs.Words.{body, Body as BodyModel};
ghost use Rattle.wasm_immediates.specs.declared.block_type.BlockType.{BlockType};
ghost use Rattle.wasm_insn.specs.Arguments.{Argument, block, memory, unsigned};
ghost use Rattle.wasm_insn.specs.Operands.{AreOperands};
ghost use Rattle.wasm_insn.specs.Parts.{parts_of};
ghost use Rattle.wasm_insn.specs.Plain.{arguments, instruction};
ghost use Rattle.wasm_insn.specs.Table.{table};
ghost use Rattle.wasm_insn.specs.declared.op.Shape.TheVariants as shapes;
ghost use Rattle.wasm_reader.specs.Words.{section_kind_of};
ghost use Rattle.wasm_reader.specs.declared.kinds.SectionKind.TheVariants as kinds;
ghost use Rattle.wasm_remap.specs.Instructions.{remapped_argument, remapped_body, remapped_instruction, remapped_val};
ghost use Rattle.wasm_remap.specs.Mapping.{Follows, Mapping};
ghost use Rattle.wasm_remap.specs.Sections.{RemapsSection};
ghost use Rattle.wasm_remap.specs.Spaces.{spaces_of as spaces_of_op};
ghost use Rattle.wasm_remap.specs.Streamed.{AppendsForm, HaveNoIndex, Remaps, RemapsWhole, bytes_without_index, is_within};

use crate::indexed::{Indexed, Remap, mapped_number};
use crate::spaces::spaces_of;
use crate::streamed::{Stopped, Streamed, append_many};
use std::alloc::Allocator;
use wasm_base::{Encode, EncodeIn, Readable, Shorten, Standard, ValType, Walk, prefix_size_since};
use wasm_code::Body;
use wasm_immediates::{BlockType, MemArg};
use wasm_insn::{Op, Operands, Plain, Shape, read_instruction};
use wasm_reader::Section;

/// Returns `true` if the byte is a one-byte opcode whose immediates have no index. A test by ranges,
/// since most instructions are such.
#[inline(always)]
fn begins_without_index(byte: u8) -> bool
    ensures { result ≡ is_within bytes_without_index byte }
{
    matches!(
        byte,
        0x00..=0x01 | 0x05 | 0x0B..=0x0F | 0x1A..=0x1B | 0x20..=0x22 | 0x41..=0xC4
    )
}

/// Returns `true` only if the operands have no index, whatever opcode they follow.
#[inline(always)]
fn have_no_index(operands: Operands<'_>) -> bool
    ensures { result ≡ true → HaveNoIndex operands.entry }
{
    match operands {
        Operands::Nothing | Operands::S32(_) | Operands::S64(_) => true,
        Operands::Encoded(shape, _) => matches!(
            shape,
            Shape::L | Shape::F32 | Shape::F64 | Shape::V | Shape::Ls
        ),
        Operands::U32(_) | Operands::Mem(_) | Operands::Block(_) => false,
    }
}

/// Appends an opcode and a number, which is mapped if it is an index.
#[inline(always)]
fn append_number<M: Remap, B: Allocator>(
    op: Op,
    number: u32,
    indices: &M,
    sink: &mut Vec<u8, B>,
) -> Result<(), Stopped>
    ensures ok { OnOk result ((m : Mapping) → Follows (M.mapped indices.now) (M.rejects indices.now) m → AppendsForm (instruction table) (record { op = op; arguments = remapped_argument m (spaces_of_op op) (unsigned number) ∷ [] }) sink.old.items sink.new.items) }
    ensures front { IsFrontOf sink.old.items sink.new.items }
{
    let number = mapped_number(indices, spaces_of(op).0, number)?;
    op.encode(sink)?;
    number.encode(sink)?;
    Ok(())
}

/// Appends an opcode and the two numbers of these bytes, each of which is mapped if it is an index.
fn append_numbers<A: Allocator + Copy, M: Remap, B: Allocator>(
    op: Op,
    bytes: &[u8],
    alloc: A,
    indices: &M,
    sink: &mut Vec<u8, B>,
) -> Result<(), Stopped>
    ensures ok { OnOk result ((m : Mapping) → Follows (M.mapped indices.now) (M.rejects indices.now) m → (xs : List Argument) → arguments (parts_of shapes.Uu) standard bytes.now xs → AppendsForm (instruction table) (remapped_instruction m (record { op = op; arguments = xs })) sink.old.items sink.new.items) }
    ensures front { IsFrontOf sink.old.items sink.new.items }
{
    let (numbers, _rest) = <(u32, u32) as Readable<'_, A, Standard>>::read(bytes, alloc)?;
    let spaces = spaces_of(op);
    let first = mapped_number(indices, spaces.0, numbers.0)?;
    let second = mapped_number(indices, spaces.1, numbers.1)?;
    op.encode(sink)?;
    first.encode(sink)?;
    second.encode(sink)?;
    Ok(())
}

/// Appends an opcode and a memory argument whose index is mapped.
#[inline(always)]
fn append_memory<A: Allocator + Copy, M: Remap, B: Allocator>(
    op: Op,
    argument: MemArg,
    alloc: A,
    indices: &M,
    sink: &mut Vec<u8, B>,
) -> Result<(), Stopped>
    ensures ok { OnOk result ((m : Mapping) → Follows (M.mapped indices.now) (M.rejects indices.now) m → AppendsForm (instruction table) (record { op = op; arguments = remapped_argument m (spaces_of_op op) (memory argument) ∷ [] }) sink.old.items sink.new.items) }
    ensures front { IsFrontOf sink.old.items sink.new.items }
{
    let mut argument = argument;
    argument.remap(alloc, indices)?;
    op.encode(sink)?;
    argument.encode(sink)?;
    Ok(())
}

/// Appends an opcode and a block type whose indices are mapped.
#[inline(always)]
fn append_block<A: Allocator + Copy, M: Remap, B: Allocator>(
    op: Op,
    ty: BlockType,
    alloc: A,
    indices: &M,
    sink: &mut Vec<u8, B>,
) -> Result<(), Stopped>
    ensures ok { OnOk result ((m : Mapping) → Follows (M.mapped indices.now) (M.rejects indices.now) m → AppendsForm (instruction table) (record { op = op; arguments = remapped_argument m (spaces_of_op op) (block ty) ∷ [] }) sink.old.items sink.new.items) }
    ensures front { IsFrontOf sink.old.items sink.new.items }
{
    let mut ty = ty;
    ty.remap(alloc, indices)?;
    op.encode(sink)?;
    <BlockType as EncodeIn<Standard>>::encode_in(&ty, sink)?;
    Ok(())
}

/// Appends any instruction with each index mapped. Its immediates are decoded into a list. They are
/// encoded as builders do, and a walk makes that minimal. Out of line, for rare instructions.
#[inline(never)]
#[tactic(auto, using(wasm_base::proofs::EffectLaws::appending))]
fn append_rare<A: Allocator + Copy, M: Remap, B: Allocator>(
    op: Op,
    operands: Operands<'_>,
    alloc: A,
    indices: &M,
    sink: &mut Vec<u8, B>,
) -> Result<(), Stopped>
    ensures ok { OnOk result ((m : Mapping) → Follows (M.mapped indices.now) (M.rejects indices.now) m → (xs : List Argument) → AreOperands operands.entry xs → AppendsForm (instruction table) (remapped_instruction m (record { op = op; arguments = xs })) sink.old.items sink.new.items) }
    ensures front { IsFrontOf sink.old.items sink.new.items }
{
    let args = operands.to_args(alloc)?;
    let mut plain = Plain { op, args };
    plain.remap(alloc, indices)?;
    let mut encoding = Vec::new(alloc);
    plain.write_minimal(&mut encoding)?;
    <Plain<A> as Walk<Standard>>::walk(&encoding, alloc, sink)?;
    Ok(())
}

/// Appends the instruction of this opcode and these operands with each index mapped.
#[inline(always)]
fn append_operation<A: Allocator + Copy, M: Remap, B: Allocator>(
    op: Op,
    operands: Operands<'_>,
    alloc: A,
    indices: &M,
    sink: &mut Vec<u8, B>,
) -> Result<(), Stopped>
    ensures ok { OnOk result ((m : Mapping) → Follows (M.mapped indices.now) (M.rejects indices.now) m → (xs : List Argument) → AreOperands operands.entry xs → AppendsForm (instruction table) (remapped_instruction m (record { op = op; arguments = xs })) sink.old.items sink.new.items) }
    ensures front { IsFrontOf sink.old.items sink.new.items }
{
    match operands {
        Operands::U32(number) => append_number(op, number, indices, sink),
        Operands::Mem(argument) => append_memory(op, argument, alloc, indices, sink),
        Operands::Block(ty) => append_block(op, ty, alloc, indices, sink),
        Operands::Encoded(Shape::Uu, bytes) => append_numbers(op, bytes, alloc, indices, sink),
        _ => append_rare(op, operands, alloc, indices, sink),
    }
}

/// Appends the instruction at the front with each index mapped, and returns the remaining bytes. One
/// without an index is walked over, as the minimizer does.
#[inline(always)]
#[tactic(auto, using(wasm_base::proofs::EffectLaws::appending))]
fn append_instruction<'a, A: Allocator + Copy, M: Remap, B: Allocator>(
    bytes: &'a [u8],
    alloc: A,
    indices: &M,
    sink: &mut Vec<u8, B>,
) -> Result<&'a [u8], Stopped>
    ensures found { IfOk result (λ rest. (m : Mapping) → Follows (M.mapped indices.now) (M.rejects indices.now) m → Remaps (remapped_instruction m) (instruction table) bytes.now rest.now sink.old.items sink.new.items) }
    ensures front { IsFrontOf sink.old.items sink.new.items }
{
    if let [byte, ..] = bytes {
        if begins_without_index(*byte) {
            return Ok(<Plain<A> as Walk<Standard>>::walk(bytes, alloc, sink)?);
        }
    }
    let (op, operands, rest) = read_instruction::<A, Standard>(bytes, alloc)?;
    if have_no_index(operands) {
        return Ok(<Plain<A> as Walk<Standard>>::walk(bytes, alloc, sink)?);
    }
    append_operation(op, operands, alloc, indices, sink)?;
    Ok(rest)
}

/// Appends the instructions that occupy all of the bytes, with each index mapped.
fn append_code<A: Allocator + Copy, M: Remap, B: Allocator>(
    bytes: &[u8],
    alloc: A,
    indices: &M,
    sink: &mut Vec<u8, B>,
) -> Result<(), Stopped>
    ensures found { OnOk result ((m : Mapping) → Follows (M.mapped indices.now) (M.rejects indices.now) m → RemapsWhole (map (remapped_instruction m)) (members (instruction table)) bytes.now sink.old.items sink.new.items) }
    ensures front { IsFrontOf sink.old.items sink.new.items }
{
    let mut rest = bytes;
    loop {
        if rest.is_empty() {
            return Ok(());
        }
        rest = append_instruction(rest, alloc, indices, sink)?;
    }
}

/// A run of locals: their number, and their type.
impl<A: Allocator + Copy> Streamed<A> for (u32, ValType) {
    ghost Value = { ℕ × ValType };

    ghost format = { pair u32 val_type };

    ghost image = { λ m run. (run.0, remapped_val m run.1) };

    fn append_remapped<'a, M: Remap, B: Allocator>(
        bytes: &'a [u8],
        alloc: A,
        indices: &M,
        sink: &mut Vec<u8, B>,
    ) -> Result<&'a [u8], Stopped> {
        let (count, rest) = <u32 as Readable<'a, A, Standard>>::read(bytes, alloc)?;
        let (mut ty, rest) = <ValType as Readable<'a, A, Standard>>::read(rest, alloc)?;
        ty.remap(alloc, indices)?;
        count.encode(sink)?;
        <ValType as EncodeIn<Standard>>::encode_in(&ty, sink)?;
        Ok(rest)
    }
}

/// Appends the content of a body with each index mapped, without a size prefix.
fn append_content<A: Allocator + Copy, M: Remap, B: Allocator>(
    bytes: &[u8],
    alloc: A,
    indices: &M,
    sink: &mut Vec<u8, B>,
) -> Result<(), Stopped>
    ensures found { OnOk result ((m : Mapping) → Follows (M.mapped indices.now) (M.rejects indices.now) m → RemapsWhole (remapped_body m) body bytes.now sink.old.items sink.new.items) }
    ensures front { IsFrontOf sink.old.items sink.new.items }
{
    let code = append_many::<(u32, ValType), _, _, _>(bytes, alloc, indices, sink)?;
    append_code(code, alloc, indices, sink)?;
    Ok(())
}

/// A body with its size prefix, as in a code section.
impl<A: Allocator + Copy> Streamed<A> for Body<A> {
    ghost Value = { BodyModel };

    ghost format = { size_prefixed body };

    ghost image = { remapped_body };

    fn append_remapped<'a, M: Remap, B: Allocator>(
        bytes: &'a [u8],
        alloc: A,
        indices: &M,
        sink: &mut Vec<u8, B>,
    ) -> Result<&'a [u8], Stopped> {
        let (content, rest) = <&'a [u8] as Readable<'a, A, Standard>>::read(bytes, alloc)?;
        let start = sink.len();
        append_content(content, alloc, indices, sink)?;
        prefix_size_since(sink, start)?;
        Ok(rest)
    }
}

/// Appends the bodies that occupy all of the bytes, after their number, with each index mapped.
fn append_bodies<A: Allocator + Copy, M: Remap, B: Allocator>(
    bytes: &[u8],
    alloc: A,
    indices: &M,
    sink: &mut Vec<u8, B>,
) -> Result<(), Stopped>
    ensures found { OnOk result ((m : Mapping) → Follows (M.mapped indices.now) (M.rejects indices.now) m → RemapsWhole (map (remapped_body m)) (vec (size_prefixed body)) bytes.now sink.old.items sink.new.items) }
    ensures front { IsFrontOf sink.old.items sink.new.items }
{
    let rest = append_many::<Body<A>, _, _, _>(bytes, alloc, indices, sink)?;
    if rest.is_empty() {
        Ok(())
    } else {
        Err(Stopped::Other)
    }
}

/// Appends the minimal encoding of the bodies of a code section with each index mapped. They are
/// decoded instruction by instruction. On an error, the sink is unchanged.
pub(crate) fn remap_bodies<A: Allocator + Copy, M: Remap, B: Allocator>(
    section: &Section<'_, A>,
    alloc: A,
    indices: &M,
    sink: &mut Vec<u8, B>,
) -> Result<(), Stopped>
    requires { section_kind_of section.now.section ≡ kinds.Bodies }
    ensures ok { OnOk result ((m : Mapping) → Follows (M.mapped indices.now) (M.rejects indices.now) m → RemapsSection m section.now.section sink.old.items sink.new.items) }
    ensures err { OnErr result (sink.new.items ≡ sink.old.items) }
{
    let start = sink.len();
    let appended = append_bodies(section.payload(), alloc, indices, sink);
    if appended.is_err() {
        sink.truncate(start);
    }
    appended
}
