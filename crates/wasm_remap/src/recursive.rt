// Entries of a type section whose indices are mapped.
ghost use Rattle.std.specs.Prelude.{◌≡◌, IfOk, IfErr, Option};
ghost use Rattle.std.specs.Option.{option_map};
ghost use Rattle.wasm_types.specs.Given.{composite_in, func_in, shape_in};
ghost use Rattle.wasm_types.specs.Items.{entry_view, sub_view};
ghost use Rattle.wasm_types.specs.RecTypes.{Composite, Shape, Sub, TypeItem};
ghost use Rattle.wasm_types.specs.declared.types.FieldType.{FieldType};
ghost use Rattle.wasm_types.specs.declared.types.StorageType.{StorageType};
ghost use Rattle.wasm_remap.specs.Mapping.{ComesFrom, Follows, Mapping};
ghost use Rattle.wasm_remap.specs.Types.{remapped_composite, remapped_field, remapped_shape, remapped_storage, remapped_sub, remapped_type};
ghost use Rattle.wasm_remap.specs.declared.spaces.IndexSpace.TheVariants as spaces;

use crate::indexed::{Indexed, Remap, RemapError, mapped, remap_each, remap_numbers};
use crate::spaces::IndexSpace;
use std::alloc::Allocator;
use wasm_types::{
    CompositeInnerType, CompositeType, FieldType, FuncType, StorageType, SubItem, TypeEntry,
};

impl<A: Allocator + Copy> Indexed<A> for StorageType {
    ghost Value = { StorageType };

    ghost view = { λ ty. ty };

    ghost remapped = { remapped_storage };

    fn remap<M: Remap>(&mut self, alloc: A, indices: &M) -> Result<(), RemapError<M::Error>> {
        match self {
            StorageType::I8 | StorageType::I16 => Ok(()),
            StorageType::Val(ty) => ty.remap(alloc, indices),
        }
    }
}

impl<A: Allocator + Copy> Indexed<A> for FieldType {
    ghost Value = { FieldType };

    ghost view = { λ ty. ty };

    ghost remapped = { remapped_field };

    fn remap<M: Remap>(&mut self, alloc: A, indices: &M) -> Result<(), RemapError<M::Error>> {
        self.element_type.remap(alloc, indices)
    }
}

/// The types are copied, since those of a function type are not changed in place.
impl<A: Allocator + Copy> Indexed<A> for FuncType<A> {
    ghost Value = { Shape };

    ghost view = { func_in };

    ghost remapped = { remapped_shape };

    fn remap<M: Remap>(&mut self, alloc: A, indices: &M) -> Result<(), RemapError<M::Error>> {
        let mut params = Vec::from_slice(alloc, self.params())?;
        let mut results = Vec::from_slice(alloc, self.results())?;
        remap_each(&mut params, alloc, indices)?;
        remap_each(&mut results, alloc, indices)?;
        *self = FuncType::of(params, results);
        Ok(())
    }
}

impl<A: Allocator + Copy> Indexed<A> for CompositeInnerType<A> {
    ghost Value = { Shape };

    ghost view = { shape_in };

    ghost remapped = { remapped_shape };

    fn remap<M: Remap>(&mut self, alloc: A, indices: &M) -> Result<(), RemapError<M::Error>> {
        match self {
            CompositeInnerType::Func(ty) => ty.remap(alloc, indices),
            CompositeInnerType::Array(ty) => ty.0.remap(alloc, indices),
            CompositeInnerType::Struct(ty) => remap_each(&mut ty.fields, alloc, indices),
            CompositeInnerType::Cont(ty) => {
                ty.0 = mapped(indices, IndexSpace::Types, ty.0)?;
                Ok(())
            }
        }
    }
}

/// Returns the new index of the type that a type describes, or that describes it.
fn mapped_type<M: Remap>(
    indices: &M,
    index: Option<u32>,
) -> Result<Option<u32>, RemapError<M::Error>>
    ensures ok { IfOk result (λ n. (m : Mapping) → Follows (M.mapped indices.now) (M.rejects indices.now) m → n ≡ option_map (m spaces.Types) index) }
    ensures err { IfErr result (λ e. ComesFrom (M.rejects indices.now) e) }
{
    match index {
        Some(index) => Ok(Some(mapped(indices, IndexSpace::Types, index)?)),
        None => Ok(None),
    }
}

impl<A: Allocator + Copy> Indexed<A> for CompositeType<A> {
    ghost Value = { Composite };

    ghost view = { composite_in };

    ghost remapped = { remapped_composite };

    fn remap<M: Remap>(&mut self, alloc: A, indices: &M) -> Result<(), RemapError<M::Error>> {
        self.describes = mapped_type(indices, self.describes)?;
        self.descriptor = mapped_type(indices, self.descriptor)?;
        self.inner.remap(alloc, indices)
    }
}

impl<A: Allocator + Copy> Indexed<A> for SubItem<A> {
    ghost Value = { Sub };

    ghost view = { sub_view };

    ghost remapped = { remapped_sub };

    fn remap<M: Remap>(&mut self, alloc: A, indices: &M) -> Result<(), RemapError<M::Error>> {
        remap_numbers(&mut self.supertypes, IndexSpace::Types, indices)?;
        self.composite_type.remap(alloc, indices)
    }
}

impl<A: Allocator + Copy> Indexed<A> for TypeEntry<A> {
    ghost Value = { TypeItem };

    ghost view = { entry_view };

    ghost remapped = { remapped_type };

    fn remap<M: Remap>(&mut self, alloc: A, indices: &M) -> Result<(), RemapError<M::Error>> {
        match self {
            TypeEntry::Single(ty) => ty.remap(alloc, indices),
            TypeEntry::Group(types) => remap_each(types, alloc, indices),
        }
    }
}
