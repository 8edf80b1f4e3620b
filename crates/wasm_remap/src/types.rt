// Types whose indices are mapped.
ghost use Rattle.std.specs.Prelude.{ℕ};
ghost use Rattle.wasm_base.specs.declared.types.HeapType.{HeapType};
ghost use Rattle.wasm_base.specs.declared.types.RefType.{RefType};
ghost use Rattle.wasm_base.specs.declared.types.ValType.{ValType};
ghost use Rattle.wasm_remap.specs.Instructions.{remapped_heap, remapped_ref, remapped_val};

use crate::indexed::{Indexed, Remap, RemapError, mapped};
use crate::spaces::IndexSpace;
use std::alloc::Allocator;
use wasm_base::{HeapType, RefType, ValType};

impl<A: Allocator + Copy> Indexed<A> for HeapType {
    ghost Value = { HeapType };

    ghost view = { λ ty. ty };

    ghost remapped = { remapped_heap };

    fn remap<M: Remap>(&mut self, _alloc: A, indices: &M) -> Result<(), RemapError<M::Error>> {
        match self {
            HeapType::Abstract { .. } => {}
            HeapType::Concrete(index) => *index = mapped(indices, IndexSpace::Types, *index)?,
            HeapType::Exact(index) => *index = mapped(indices, IndexSpace::Types, *index)?,
        }
        Ok(())
    }
}

impl<A: Allocator + Copy> Indexed<A> for RefType {
    ghost Value = { RefType };

    ghost view = { λ ty. ty };

    ghost remapped = { remapped_ref };

    fn remap<M: Remap>(&mut self, alloc: A, indices: &M) -> Result<(), RemapError<M::Error>> {
        self.heap_type.remap(alloc, indices)
    }
}

impl<A: Allocator + Copy> Indexed<A> for ValType {
    ghost Value = { ValType };

    ghost view = { λ ty. ty };

    ghost remapped = { remapped_val };

    fn remap<M: Remap>(&mut self, alloc: A, indices: &M) -> Result<(), RemapError<M::Error>> {
        match self {
            ValType::Ref(ty) => ty.remap(alloc, indices),
            ValType::I32 | ValType::I64 | ValType::F32 | ValType::F64 | ValType::V128 => Ok(()),
        }
    }
}

/// A run of locals: their number, and their type.
impl<A: Allocator + Copy> Indexed<A> for (u32, ValType) {
    ghost Value = { ℕ × ValType };

    ghost view = { λ run. run };

    ghost remapped = { λ m run. (run.0, remapped_val m run.1) };

    fn remap<M: Remap>(&mut self, alloc: A, indices: &M) -> Result<(), RemapError<M::Error>> {
        self.1.remap(alloc, indices)
    }
}
