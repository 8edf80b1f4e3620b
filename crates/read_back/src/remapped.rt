// Modules in which each function has the next index, as for an imported function before all others.
ghost use Rattle.std.specs.Prelude.{◌≡◌, ◌<◌, ℕ, IfOk, IfErr, Some, None};
ghost use Rattle.wasm_reader.specs.Kinds.{Start, contents_of};
ghost use Rattle.wasm_reader.specs.Shortening.{contains_offsets};
ghost use Rattle.wasm_reader.specs.declared.whole.Offsets.TheVariants.{LeaveOut};
ghost use Rattle.wasm_base.specs.declared.refused.Refused.TheVariants.{Memory};
ghost use Rattle.wasm_remap.specs.Errors.{IsMappable};
ghost use Rattle.wasm_remap.specs.Sections.{RemapsModule};
ghost use Rattle.wasm_remap.specs.declared.indexed.RemapError.TheVariants.{Refused};
ghost use Rattle.wasm_remap.specs.declared.spaces.IndexSpace.TheVariants as spaces;
ghost use Rattle.read_back.specs.Remapped.{exchanged, IsLast, IsRemapped, next, next_function};

use std::alloc::Allocator;
use std::convert::Infallible;
use wasm_insn::Op;
use wasm_reader::{Items, Offsets, Section};
use wasm_remap::{
    IndexSpace, Remap, RemapError, remap_items, remap_module, remap_section, spaces_of,
};

/// Gives each function the next index.
#[derive(Clone, Copy, Debug)]
pub struct NextFunction;

/// There is no next index.
#[derive(Clone, Copy, PartialEq, Eq, Debug)]
pub struct Last;

impl Remap for NextFunction {
    type Error = Last;

    ghost mapped = { λ _ space n. next_function space n };

    ghost rejects = { λ _ space n _. IsLast space n };

    fn index(&self, space: IndexSpace, index: u32) -> Result<u32, Last> {
        match space {
            IndexSpace::Functions => {
                if index == u32::MAX {
                    Err(Last)
                } else {
                    Ok(index + 1)
                }
            }
            _ => Ok(index),
        }
    }
}

/// Returns a module in which each function has the next index, without the custom sections that
/// hold offsets.
pub fn with_room<A: Allocator + Copy>(
    module: &[u8],
    alloc: A,
) -> Result<Vec<u8, A>, RemapError<Last>>
    ensures { IfOk result (λ new. RemapsModule next_function LeaveOut module.now new.items) }
{
    remap_module(module, alloc, &NextFunction, Offsets::LeaveOut)
}

/// Exchanges two functions.
#[derive(Clone, Copy, Debug)]
struct Exchange(u32, u32);

impl Remap for Exchange {
    type Error = Infallible;

    ghost mapped = { λ x space n. exchanged x.0 x.1 space n };

    ghost rejects = { λ _ _ _ _. ⊥ };

    fn index(&self, space: IndexSpace, index: u32) -> Result<u32, Infallible> {
        if space != IndexSpace::Functions {
            Ok(index)
        } else if index == self.0 {
            Ok(self.1)
        } else if index == self.1 {
            Ok(self.0)
        } else {
            Ok(index)
        }
    }
}

/// Returns a module in which each use of one function is one of another, and the reverse, without
/// the custom sections that hold offsets. If its sections decode, there is no error but `Memory`.
pub fn with_exchanged<A: Allocator + Copy>(
    module: &[u8],
    first: u32,
    second: u32,
    alloc: A,
) -> Result<Vec<u8, A>, RemapError<Infallible>>
    requires { IsMappable LeaveOut module.now }
    ensures ok { IfOk result (λ new. RemapsModule (exchanged first second) LeaveOut module.now new.items) }
    ensures memory { IfErr result (λ e. e ≡ Refused Memory) }
{
    remap_module(module, alloc, &Exchange(first, second), Offsets::LeaveOut)
}

/// Returns the payload of a section in which each function has the next index.
pub fn payload_with_room<A: Allocator + Copy>(
    section: &Section<'_, A>,
    alloc: A,
) -> Result<Vec<u8, A>, RemapError<Last>>
    ensures { IfOk result (λ payload. IsRemapped section.now.section payload.items) }
{
    let mut payload = Vec::new(alloc);
    remap_section(section, alloc, &NextFunction, &mut payload)?;
    Ok(payload)
}

/// Returns the items of a start section of the next function.
pub fn next_start<'a, A: Allocator + Copy>(
    index: u32,
    alloc: A,
) -> Result<Items<'a, A>, RemapError<Last>>
    ensures { IfOk result (λ items. contents_of items ≡ Start (next index)) }
{
    let mut items = Items::Start(index);
    remap_items(&mut items, alloc, &NextFunction)?;
    Ok(items)
}

/// Returns the index spaces of `table.copy`: those of both of its tables.
pub fn spaces_of_table_copy() -> (Option<IndexSpace>, Option<IndexSpace>)
    ensures { result ≡ (Some spaces.Tables, Some spaces.Tables) }
{
    spaces_of(Op::Prefixed(0xFC, 14))
}

/// Returns `true` if offsets of the section would become wrong.
pub fn loses_offsets<A: Allocator + Copy>(section: &Section<'_, A>) -> bool
    ensures { result ≡ contains_offsets section.now.section.name }
{
    section.has_offsets()
}
