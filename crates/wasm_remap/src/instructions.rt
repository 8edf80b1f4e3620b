// Instructions and bodies whose indices are mapped.
ghost use Rattle.std.specs.Prelude.{◌≡◌, IfOk, IfErr, OnOk, List, map};
ghost use Rattle.wasm_code.specs.Words.{Body as BodyModel, body_view};
ghost use Rattle.wasm_immediates.specs.declared.block_type.BlockType.{BlockType};
ghost use Rattle.wasm_immediates.specs.declared.control.Catch.{Catch};
ghost use Rattle.wasm_immediates.specs.declared.control.Handle.{Handle};
ghost use Rattle.wasm_immediates.specs.declared.memory.MemArg.{MemArg};
ghost use Rattle.wasm_insn.specs.Views.{argument_view};
ghost use Rattle.wasm_insn.specs.Words.{Plain as PlainModel, plain_view};
ghost use Rattle.wasm_remap.specs.Instructions.{remapped_argument, remapped_arguments, remapped_block, remapped_body, remapped_catch, remapped_handle, remapped_instruction, remapped_memory, spaces_after};
ghost use Rattle.wasm_remap.specs.Mapping.{ComesFrom, Follows, Mapping};

use crate::indexed::{Indexed, Remap, RemapError, mapped, mapped_number, remap_each};
use crate::spaces::{IndexSpace, spaces_of};
use std::alloc::Allocator;
use wasm_code::{Body, Expression};
use wasm_immediates::{BlockType, Catch, Handle, MemArg, MemArgTarget};
use wasm_insn::{Arg, Plain};

impl<A: Allocator + Copy> Indexed<A> for BlockType {
    ghost Value = { BlockType };

    ghost view = { λ ty. ty };

    ghost remapped = { remapped_block };

    fn remap<M: Remap>(&mut self, alloc: A, indices: &M) -> Result<(), RemapError<M::Error>> {
        match self {
            BlockType::Empty => Ok(()),
            BlockType::Result(ty) => ty.remap(alloc, indices),
            BlockType::FunctionType(index) => {
                *index = mapped(indices, IndexSpace::Types, *index)?;
                Ok(())
            }
        }
    }
}

impl<A: Allocator + Copy> Indexed<A> for MemArg {
    ghost Value = { MemArg };

    ghost view = { λ argument. argument };

    ghost remapped = { remapped_memory };

    fn remap<M: Remap>(&mut self, _alloc: A, indices: &M) -> Result<(), RemapError<M::Error>> {
        match self.target {
            MemArgTarget::Memory(index) => {
                let index = mapped(indices, IndexSpace::Memories, index)?;
                self.target = MemArgTarget::Memory(index);
            }
            MemArgTarget::Array(index) => {
                let index = mapped(indices, IndexSpace::Types, index)?;
                self.target = MemArgTarget::Array(index);
            }
        }
        Ok(())
    }
}

impl<A: Allocator + Copy> Indexed<A> for Catch {
    ghost Value = { Catch };

    ghost view = { λ clause. clause };

    ghost remapped = { remapped_catch };

    fn remap<M: Remap>(&mut self, _alloc: A, indices: &M) -> Result<(), RemapError<M::Error>> {
        match self {
            Catch::One { tag, .. } => *tag = mapped(indices, IndexSpace::Tags, *tag)?,
            Catch::OneRef { tag, .. } => *tag = mapped(indices, IndexSpace::Tags, *tag)?,
            Catch::All { .. } | Catch::AllRef { .. } => {}
        }
        Ok(())
    }
}

impl<A: Allocator + Copy> Indexed<A> for Handle {
    ghost Value = { Handle };

    ghost view = { λ clause. clause };

    ghost remapped = { remapped_handle };

    fn remap<M: Remap>(&mut self, _alloc: A, indices: &M) -> Result<(), RemapError<M::Error>> {
        match self {
            Handle::OnLabel { tag, .. } => *tag = mapped(indices, IndexSpace::Tags, *tag)?,
            Handle::OnSwitch { tag } => *tag = mapped(indices, IndexSpace::Tags, *tag)?,
        }
        Ok(())
    }
}

/// Maps the indices of an immediate. `spaces` are those of the next two numbers; those of the
/// numbers after the immediate are returned.
fn remap_argument<A: Allocator + Copy, M: Remap>(
    argument: &mut Arg<A>,
    spaces: (Option<IndexSpace>, Option<IndexSpace>),
    alloc: A,
    indices: &M,
) -> Result<(Option<IndexSpace>, Option<IndexSpace>), RemapError<M::Error>>
    ensures ok { IfOk result (λ _. (m : Mapping) → Follows (M.mapped indices.now) (M.rejects indices.now) m → argument_view argument.new ≡ remapped_argument m spaces (argument_view argument.old)) }
    ensures after { IfOk result (λ after. after ≡ spaces_after (argument_view argument.old) spaces) }
    ensures err { IfErr result (λ e. ComesFrom (M.rejects indices.now) e) }
{
    match argument {
        Arg::U32(number) => {
            *number = mapped_number(indices, spaces.0, *number)?;
            return Ok((spaces.1, None));
        }
        Arg::Mem(memory) => memory.remap(alloc, indices)?,
        Arg::Block(ty) => ty.remap(alloc, indices)?,
        Arg::Heap(ty) => ty.remap(alloc, indices)?,
        Arg::Catches(clauses) => remap_each(clauses, alloc, indices)?,
        Arg::Types(types) => remap_each(types, alloc, indices)?,
        Arg::Handles(clauses) => remap_each(clauses, alloc, indices)?,
        Arg::S32(_)
        | Arg::S64(_)
        | Arg::F32(_)
        | Arg::F64(_)
        | Arg::V128(_)
        | Arg::Lane(_)
        | Arg::Lanes(_)
        | Arg::Order(_)
        | Arg::Labels(_)
        | Arg::Flag(_) => {}
    }
    Ok(spaces)
}

/// Maps the indices of the immediates of an opcode whose numbers are in these index spaces.
fn remap_arguments<A: Allocator + Copy, M: Remap>(
    arguments: &mut [Arg<A>],
    spaces: (Option<IndexSpace>, Option<IndexSpace>),
    alloc: A,
    indices: &M,
) -> Result<(), RemapError<M::Error>>
    ensures ok { OnOk result ((m : Mapping) → Follows (M.mapped indices.now) (M.rejects indices.now) m → map argument_view arguments.new ≡ remapped_arguments m spaces (map argument_view arguments.old)) }
    ensures err { IfErr result (λ e. ComesFrom (M.rejects indices.now) e) }
{
    let mut spaces = spaces;
    for argument in arguments.iter_mut() {
        spaces = remap_argument(argument, spaces, alloc, indices)?;
    }
    Ok(())
}

impl<A: Allocator + Copy> Indexed<A> for Plain<A> {
    ghost Value = { PlainModel };

    ghost view = { plain_view };

    ghost remapped = { remapped_instruction };

    fn remap<M: Remap>(&mut self, alloc: A, indices: &M) -> Result<(), RemapError<M::Error>> {
        remap_arguments(&mut self.args, spaces_of(self.op), alloc, indices)
    }
}

impl<A: Allocator + Copy> Indexed<A> for Expression<A> {
    ghost Value = { List PlainModel };

    ghost view = { λ e. map plain_view e.0.items };

    ghost remapped = { λ m is. map (remapped_instruction m) is };

    fn remap<M: Remap>(&mut self, alloc: A, indices: &M) -> Result<(), RemapError<M::Error>> {
        remap_each(&mut self.0, alloc, indices)
    }
}

impl<A: Allocator + Copy> Indexed<A> for Body<A> {
    ghost Value = { BodyModel };

    ghost view = { body_view };

    ghost remapped = { remapped_body };

    fn remap<M: Remap>(&mut self, alloc: A, indices: &M) -> Result<(), RemapError<M::Error>> {
        remap_each(&mut self.runs, alloc, indices)?;
        remap_each(&mut self.code, alloc, indices)
    }
}
