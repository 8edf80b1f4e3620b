// Walks over instructions and their arguments.
ghost use Rattle.std.specs.Prelude.{◌≡◌, ◌≢◌, IfOk, IfErr};
ghost use Rattle.wasm_base.specs.Numbers.{padded_of};
ghost use Rattle.wasm_base.specs.Decoding.{Rejects};
ghost use Rattle.wasm_base.specs.Walks.{Keeps, Walks};
ghost use Rattle.wasm_insn.specs.Parts.{IsList, parts_of};
ghost use Rattle.wasm_insn.specs.declared.part.Part.TheVariants as parts;
ghost use Rattle.wasm_insn.specs.Plain.{part, arguments, instruction};
ghost use Rattle.wasm_insn.specs.Table.{table};
ghost use Rattle.wasm_base.specs.declared.fault.ReadFault.TheVariants.{Memory};

use crate::arguments::read_part;
use crate::op::{Shape, read_op};
use crate::operands::read_instruction;
use crate::part::Part;
use crate::plain::Plain;
use std::alloc::Allocator;
use wasm_base::{DecodeError, Effect, Grammar, Layout, ReadFault, ValType, Walk};
use wasm_immediates::{BlockType, Catch, Handle, MemArg};

/// Walks over an argument that has the same encodings in both grammars: it is decoded, and encoded
/// again. Out of line, for rare arguments.
#[inline(never)]
#[tactic(auto, using(wasm_base::proofs::WalkLaws::keep_steps))]
fn walk_rare<'a, A: Allocator + Copy, G: Grammar, E: Effect>(
    wanted: Part,
    bytes: &'a [u8],
    alloc: A,
    effect: &mut E,
) -> Result<&'a [u8], DecodeError>
    requires no_block { wanted ≢ parts.Block }
    requires no_list { IsList wanted → ⊥ }
    ensures found { IfOk result (λ rest. Walks E.seen G.grammar (part wanted) bytes.now rest.now effect.old effect.new) }
    ensures none { IfErr result (λ e. e.cause ≢ Memory → Rejects (part wanted) (padded_of G.grammar) bytes.now) }
    ensures no_memory { IfErr result (λ e. e.cause ≡ Memory → E.may_fail) }
    ensures front { Keeps E.seen effect.old effect.new }
{
    let (arg, rest) = read_part::<A, G>(wanted, bytes, alloc)?;
    effect.put(&arg)?;
    Ok(rest)
}

/// Walks over one argument. Lists are walked over member by member.
#[tactic(auto, using(wasm_base::proofs::WalkLaws::keep_steps))]
fn walk_part<'a, A: Allocator + Copy, G: Grammar, E: Effect>(
    wanted: Part,
    bytes: &'a [u8],
    alloc: A,
    effect: &mut E,
) -> Result<&'a [u8], DecodeError>
    ensures found { IfOk result (λ rest. Walks E.seen G.grammar (part wanted) bytes.now rest.now effect.old effect.new) }
    ensures none { IfErr result (λ e. e.cause ≢ Memory → Rejects (part wanted) (padded_of G.grammar) bytes.now) }
    ensures no_memory { IfErr result (λ e. e.cause ≡ Memory → E.may_fail) }
    ensures front { Keeps E.seen effect.old effect.new }
{
    match wanted {
        Part::Unsigned => <u32 as Walk<G>>::walk(bytes, alloc, effect),
        Part::Block => <BlockType as Walk<G>>::walk(bytes, alloc, effect),
        Part::Labels => <Vec<u32, A> as Walk<G>>::walk(bytes, alloc, effect),
        Part::Catches => <Vec<Catch, A> as Walk<G>>::walk(bytes, alloc, effect),
        Part::Types => <Vec<ValType, A> as Walk<G>>::walk(bytes, alloc, effect),
        Part::Handles => <Vec<Handle, A> as Walk<G>>::walk(bytes, alloc, effect),
        _ => walk_rare::<A, G, _>(wanted, bytes, alloc, effect),
    }
}

/// Walks over one argument for each of `wanted`.
#[tactic(auto, using(wasm_base::proofs::WalkLaws::keep_steps))]
fn walk_parts<'a, A: Allocator + Copy, G: Grammar, E: Effect>(
    wanted: &[Part],
    bytes: &'a [u8],
    alloc: A,
    effect: &mut E,
) -> Result<&'a [u8], DecodeError>
    ensures found { IfOk result (λ rest. Walks E.seen G.grammar (arguments wanted.now) bytes.now rest.now effect.old effect.new) }
    ensures none { IfErr result (λ e. e.cause ≢ Memory → Rejects (arguments wanted.now) (padded_of G.grammar) bytes.now) }
    ensures no_memory { IfErr result (λ e. e.cause ≡ Memory → E.may_fail) }
    ensures front { Keeps E.seen effect.old effect.new }
{
    let mut rest = bytes;
    for part in wanted {
        rest = walk_part::<A, G, _>(*part, rest, alloc, effect)?;
    }
    Ok(rest)
}

/// Walks over the arguments of any shape. Out of line, for rare shapes.
#[inline(never)]
#[tactic(auto, using(crate::proofs::DecodeArguments::shape_steps, crate::proofs::WalkInstructions::shape_walks))]
pub(crate) fn walk_any<'a, A: Allocator + Copy, G: Grammar, E: Effect>(
    shape: Shape,
    bytes: &'a [u8],
    alloc: A,
    effect: &mut E,
) -> Result<&'a [u8], DecodeError>
    ensures found { IfOk result (λ rest. Walks E.seen G.grammar (arguments (parts_of shape)) bytes.now rest.now effect.old effect.new) }
    ensures none { IfErr result (λ e. e.cause ≢ Memory → Rejects (arguments (parts_of shape)) (padded_of G.grammar) bytes.now) }
    ensures no_memory { IfErr result (λ e. e.cause ≡ Memory → E.may_fail) }
    ensures front { Keeps E.seen effect.old effect.new }
{
    walk_parts::<A, G, _>(shape.parts(), bytes, alloc, effect)
}

/// Walks over the arguments of an opcode of this shape. Common shapes have a case of their own.
#[inline(always)]
#[tactic(auto, using(wasm_base::proofs::WalkLaws::keep_steps))]
fn walk_arguments<'a, A: Allocator + Copy, G: Grammar, E: Effect>(
    shape: Shape,
    bytes: &'a [u8],
    alloc: A,
    effect: &mut E,
) -> Result<&'a [u8], DecodeError>
    ensures found { IfOk result (λ rest. Walks E.seen G.grammar (arguments (parts_of shape)) bytes.now rest.now effect.old effect.new) }
    ensures none { IfErr result (λ e. e.cause ≢ Memory → Rejects (arguments (parts_of shape)) (padded_of G.grammar) bytes.now) }
    ensures no_memory { IfErr result (λ e. e.cause ≡ Memory → E.may_fail) }
    ensures front { Keeps E.seen effect.old effect.new }
{
    match shape {
        Shape::Nothing => Ok(bytes),
        Shape::U => <u32 as Walk<G>>::walk(bytes, alloc, effect),
        Shape::M => <MemArg as Walk<G>>::walk(bytes, alloc, effect),
        Shape::C32 => <i32 as Walk<G>>::walk(bytes, alloc, effect),
        Shape::C64 => <i64 as Walk<G>>::walk(bytes, alloc, effect),
        Shape::B => <BlockType as Walk<G>>::walk(bytes, alloc, effect),
        _ => walk_any::<A, G, _>(shape, bytes, alloc, effect),
    }
}

/// Walks over an instruction whose encoding the effect takes.
#[tactic(auto, using(wasm_base::proofs::WalkLaws::keep_steps, crate::proofs::DecodeInstructions::instruction_steps))]
#[inline(always)]
fn walk_written<'a, A: Allocator + Copy, G: Grammar, E: Effect>(
    bytes: &'a [u8],
    alloc: A,
    effect: &mut E,
) -> Result<&'a [u8], DecodeError>
    ensures found { IfOk result (λ rest. Walks E.seen G.grammar (instruction table) bytes.now rest.now effect.old effect.new) }
    ensures none { IfErr result (λ e. e.cause ≢ Memory → Rejects (instruction table) (padded_of G.grammar) bytes.now) }
    ensures no_memory { IfErr result (λ e. e.cause ≡ Memory → E.may_fail) }
    ensures front { Keeps E.seen effect.old effect.new }
{
    let (op, rest) = read_op::<A, G>(bytes, alloc)?;
    let Some(shape) = op.shape() else {
        return Err(ReadFault::UnknownOpcode.at(bytes));
    };
    effect.put(&op)?;
    walk_arguments::<A, G, _>(shape, rest, alloc, effect)
}

/// An idle effect takes the way of the visitor, which is faster.
impl<G: Grammar, C: Allocator> Walk<G> for Plain<C> {
    #[tactic(auto, using(wasm_base::proofs::WalkLaws::keep_steps, wasm_base::proofs::WalkLaws::idle_walks))]
    #[inline(always)]
    fn walk<'a, A: Allocator + Copy, E: Effect>(
        bytes: &'a [u8],
        alloc: A,
        effect: &mut E,
    ) -> Result<&'a [u8], DecodeError> {
        if E::is_idle() {
            <Plain<C> as Layout>::laws();
            let (_op, _operands, rest) = read_instruction::<A, G>(bytes, alloc)?;
            return Ok(rest);
        }
        walk_written::<A, G, _>(bytes, alloc, effect)
    }
}
