// Modules whose indices are mapped, for C.
ghost use Rattle.std.specs.Prelude.{◌≡◌};
ghost use Rattle.wasm_c.specs.Indices.{cause_number, listed, place_number, space_numbered, Inserted, IsRejected, Remapped};

use crate::NO_ANSWER;
use crate::listing::number_of;
use crate::recipes::copied;
use crate::whole::{OFFSETS, offsets_of};
use std::alloc::Global;
use wasm_base::{ReadFault, Refused};
use wasm_reader::ReadError;
use wasm_remap::{IndexSpace, Remap, RemapError, insert_import, remap_module};
use wasm_sections::{EntityType, Import};

/// The number of the cause of an index that has no new one.
const NO_INDEX: u32 = 11;

/// The number of the cause of a section that would be too long.
const OVERLONG: u32 = 12;

/// The number of the cause of a name that is not UTF-8.
const NOT_UTF8: u32 = 6;

/// The number of the cause of an index space that does not exist.
const NO_KIND: u32 = 9;

/// The new index in a list of an old index that has none.
const NONE: u32 = 4294967295;

/// The indices of one space, and the new index of each. Those of other spaces stay.
#[derive(Clone, Copy)]
struct Listed<'a> {
    space: IndexSpace,
    indices: &'a [u32],
}

/// The list has no new index.
#[derive(Clone, Copy)]
struct NoIndex;

impl Remap for Listed<'_> {
    type Error = NoIndex;

    ghost mapped = { λ m space n. listed m.space m.indices.now space n };

    ghost rejects = { λ m space n _. IsRejected m.space m.indices.now space n };

    fn index(&self, space: IndexSpace, index: u32) -> Result<u32, NoIndex> {
        if space != self.space {
            return Ok(index);
        }
        match self.indices.get(index as usize) {
            Some(&new) if new != NONE => Ok(new),
            _ => Err(NoIndex),
        }
    }
}

/// Returns the index space of this number.
fn space_numbered(space: u32) -> Option<IndexSpace>
    ensures { result ≡ space_numbered space }
{
    match space {
        0 => Some(IndexSpace::Functions),
        1 => Some(IndexSpace::Types),
        2 => Some(IndexSpace::Tables),
        3 => Some(IndexSpace::Memories),
        4 => Some(IndexSpace::Globals),
        5 => Some(IndexSpace::Tags),
        6 => Some(IndexSpace::Elements),
        7 => Some(IndexSpace::Data),
        _ => None,
    }
}

/// Returns the offset of an error, or 0, and the number of its cause.
fn cause_of<E: Copy>(error: RemapError<E>) -> (u64, u32)
    ensures offset { result.0 ≡ place_number error }
    ensures cause { result.1 ≡ cause_number error }
{
    match error {
        RemapError::Read(ReadError { cause, offset }) => (offset as u64, number_of(cause)),
        RemapError::Refused(Refused::Memory) => (0, number_of(ReadFault::Memory)),
        RemapError::Index(_) => (0, NO_INDEX),
        RemapError::Offsets(offset) => (offset as u64, OFFSETS),
        _ => (0, OVERLONG),
    }
}

/// Writes a module in which each index of one space is replaced by that in a list. Returns its
/// length in bytes.
///
/// An index that is not in the list, or whose new index there is 4294967295, is an error. On an
/// error, `offset` is its offset in the module, or 0, and `cause` is its number. On success both are
/// 0.
#[unsafe(no_mangle)]
pub extern "C" fn dz_remap_module(
    alloc: Global,
    bytes: &[u8],
    space: u32,
    indices: &[u32],
    drop_offsets: u32,
    out: &mut [u8],
    offset: &mut u64,
    cause: &mut u32,
) -> u64
    ensures { Remapped bytes.now space indices.now drop_offsets out.old out.new offset.new cause.new result }
{
    let Some(space) = space_numbered(space) else {
        (*offset, *cause) = (0, NO_KIND);
        return NO_ANSWER;
    };
    let map = Listed { space, indices };
    match remap_module(bytes, alloc, &map, offsets_of(drop_offsets)) {
        Ok(module) => {
            (*offset, *cause) = (0, 0);
            copied(&module, out)
        }
        Err(error) => {
            (*offset, *cause) = cause_of(error);
            NO_ANSWER
        }
    }
}

/// Writes a module with an imported function of the type of this index before all others, whose
/// indices are one higher. Returns its length in bytes.
///
/// Errors are as for [`dz_remap_module`].
#[unsafe(no_mangle)]
pub extern "C" fn dz_insert_import(
    alloc: Global,
    bytes: &[u8],
    module_name: &[u8],
    name: &[u8],
    type_index: u32,
    drop_offsets: u32,
    out: &mut [u8],
    offset: &mut u64,
    cause: &mut u32,
) -> u64
    ensures { Inserted bytes.now module_name.now name.now type_index drop_offsets out.old out.new offset.new cause.new result }
{
    let (Ok(module_name), Ok(name)) = (str::from_utf8(module_name), str::from_utf8(name)) else {
        (*offset, *cause) = (0, NOT_UTF8);
        return NO_ANSWER;
    };
    let import = Import {
        module: module_name,
        name,
        ty: EntityType::Function(type_index),
    };
    match insert_import(bytes, alloc, &import, offsets_of(drop_offsets)) {
        Ok(module) => {
            (*offset, *cause) = (0, 0);
            copied(&module, out)
        }
        Err(error) => {
            (*offset, *cause) = cause_of(error);
            NO_ANSWER
        }
    }
}
