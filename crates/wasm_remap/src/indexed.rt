// Maps of indices, and items whose indices are mapped in place.
ghost use Rattle.std.specs.Prelude.{◌≡◌, ℕ, List, IfOk, IfErr, OnOk, OnErr, Option, map};
ghost use Rattle.wasm_base.specs.declared.refused.Refused.TheVariants.{Memory, TooLong};
ghost use Rattle.wasm_remap.specs.Errors.{error_of};
ghost use Rattle.wasm_remap.specs.Mapping.{ComesFrom, Follows, Mapping, mapped_first, mapped_in};
ghost use Rattle.wasm_remap.specs.declared.indexed.RemapError.TheVariants as errors;
ghost use Rattle.wasm_remap.specs.declared.spaces.IndexSpace.{IndexSpace};

use crate::spaces::IndexSpace;
use std::alloc::{AllocError, Allocator};
use wasm_base::{ReadFault, Refused};
use wasm_reader::ReadError;

/// A map of the indices of a module: for each index space, the new index of each old one.
pub trait Remap {
    /// The reason for which the map rejects an index.
    type Error: Drop;

    // The new index of each old one.
    ghost mapped: { Self → IndexSpace → ℕ → ℕ };

    // The map rejects this index of this space, with this error.
    ghost rejects: { Self → IndexSpace → ℕ → Self.Error → Type 0 };

    /// Returns the new index of an old one.
    ///
    /// # Errors
    ///
    /// Returns an error if the map rejects the index: an entity that was removed, say.
    fn index(&self, space: IndexSpace, index: u32) -> Result<u32, Self::Error>
        ensures ok { IfOk result (λ n. n ≡ mapped self.now space index) }
        ensures accepted { IfOk result (λ _. (e : Self.Error) → rejects self.now space index e → ⊥) }
        ensures err { IfErr result (λ e. rejects self.now space index e) };
}

/// Why a module is not edited.
#[derive(Clone, Copy, PartialEq, Eq, Debug)]
pub enum RemapError<E> {
    /// The section does not decode.
    Read(ReadError),
    /// An encoding is too long, or there is no memory.
    Refused(Refused),
    /// The map rejects an index.
    Index(E),
    /// The section at this offset holds offsets, which would become wrong.
    Offsets(usize),
}

impl<E> From<AllocError> for RemapError<E> {
    ghost from_gives = { λ _ error. error ≡ errors.Refused Memory };

    fn from(_: AllocError) -> RemapError<E> {
        RemapError::Refused(Refused::Memory)
    }
}

impl<E> From<Refused> for RemapError<E> {
    ghost from_gives = { λ refused error. error ≡ errors.Refused refused };

    fn from(refused: Refused) -> RemapError<E> {
        RemapError::Refused(refused)
    }
}

impl<E> From<ReadError> for RemapError<E> {
    ghost from_gives = { λ fault error. error ≡ error_of fault };

    fn from(fault: ReadError) -> RemapError<E> {
        if fault.cause == ReadFault::Memory {
            RemapError::Refused(Refused::Memory)
        } else {
            RemapError::Read(fault)
        }
    }
}

/// Returns the new index of an old one.
pub(crate) fn mapped<M: Remap>(
    indices: &M,
    space: IndexSpace,
    index: u32,
) -> Result<u32, RemapError<M::Error>>
    ensures ok { IfOk result (λ n. (m : Mapping) → Follows (M.mapped indices.now) (M.rejects indices.now) m → n ≡ m space index) }
    ensures err { IfErr result (λ e. ComesFrom (M.rejects indices.now) e) }
{
    match indices.index(space, index) {
        Ok(index) => Ok(index),
        Err(error) => Err(RemapError::Index(error)),
    }
}

/// Returns the new number of an old one, which is an index if it has an index space.
pub(crate) fn mapped_number<M: Remap>(
    indices: &M,
    space: Option<IndexSpace>,
    number: u32,
) -> Result<u32, RemapError<M::Error>>
    ensures ok { IfOk result (λ n. (m : Mapping) → Follows (M.mapped indices.now) (M.rejects indices.now) m → n ≡ mapped_in m space number) }
    ensures err { IfErr result (λ e. ComesFrom (M.rejects indices.now) e) }
{
    match space {
        Some(space) => mapped(indices, space, number),
        None => Ok(number),
    }
}

/// A decoded value whose indices are mapped in place. Lists that it needs are in memory of the
/// allocator.
pub(crate) trait Indexed<A: Allocator + Copy> {
    // The values without locations in memory.
    ghost Value: { Type 0 };

    // The value of an item.
    ghost view: { Self → Value };

    // The value with each index mapped.
    ghost remapped: { Mapping → Value → Value };

    /// Maps each index. After an error, some of them are mapped.
    fn remap<M: Remap>(&mut self, alloc: A, indices: &M) -> Result<(), RemapError<M::Error>>
        ensures ok { OnOk result ((m : Mapping) → Follows (M.mapped indices.now) (M.rejects indices.now) m → view self.new ≡ remapped m (view self.old)) }
        ensures err { IfErr result (λ e. ComesFrom (M.rejects indices.now) e) };
}

/// Maps the indices of each item.
pub(crate) fn remap_each<T: Indexed<A>, A: Allocator + Copy, M: Remap>(
    items: &mut [T],
    alloc: A,
    indices: &M,
) -> Result<(), RemapError<M::Error>>
    ensures ok { OnOk result ((m : Mapping) → Follows (M.mapped indices.now) (M.rejects indices.now) m → map T.view items.new ≡ map (T.remapped m) (map T.view items.old)) }
    ensures err { IfErr result (λ e. ComesFrom (M.rejects indices.now) e) }
{
    for item in items.iter_mut() {
        item.remap(alloc, indices)?;
    }
    Ok(())
}

/// Maps indices of one space.
pub(crate) fn remap_numbers<M: Remap>(
    items: &mut [u32],
    space: IndexSpace,
    indices: &M,
) -> Result<(), RemapError<M::Error>>
    ensures ok { OnOk result ((m : Mapping) → Follows (M.mapped indices.now) (M.rejects indices.now) m → items.new ≡ map (m space) items.old) }
    ensures err { IfErr result (λ e. ComesFrom (M.rejects indices.now) e) }
{
    for item in items.iter_mut() {
        *item = mapped(indices, space, *item)?;
    }
    Ok(())
}

/// Maps the number of each pair, which is an index if it has an index space.
pub(crate) fn remap_firsts<T, M: Remap>(
    items: &mut [(u32, T)],
    space: Option<IndexSpace>,
    indices: &M,
) -> Result<(), RemapError<M::Error>>
    ensures ok { OnOk result ((m : Mapping) → Follows (M.mapped indices.now) (M.rejects indices.now) m → items.new ≡ map (mapped_first m space) items.old) }
    ensures err { IfErr result (λ e. ComesFrom (M.rejects indices.now) e) }
{
    for item in items.iter_mut() {
        item.0 = mapped_number(indices, space, item.0)?;
    }
    Ok(())
}
