//! Queries of builders: counts and entries.
ghost use Rattle.std.specs.Option.{option_copied};
ghost use Rattle.std.specs.Prelude.{◌≡◌, ◌↔◌, IsTrue, length, slice_get};
ghost use Rattle.wasm_base.specs.Pieces.{joined};

use std::alloc::Allocator;
use wasm_base::Pieces;
use wasm_code::CodeSection;
use wasm_custom::{NameMap, NameSection};
use wasm_types::TypeSection;

/// Returns the number of bodies.
pub fn count_of_bodies<A: Allocator>(code: &CodeSection<A>) -> u32
    ensures { result ≡ length code.now }
{
    code.len()
}

/// Returns the first body, with its size prefix.
pub fn first_body<A: Allocator>(code: &CodeSection<A>) -> Option<&[u8]>
    ensures { option_copied result ≡ slice_get code.now 0 }
{
    code.piece(0)
}

/// Returns `true` if no type is defined.
pub fn has_no_types<A: Allocator>(types: &TypeSection<A>) -> bool
    ensures { IsTrue result ↔ (length types.now ≡ 0) }
{
    types.is_empty()
}

/// Returns `true` if there are no subsections.
pub fn has_no_names<A: Allocator>(names: &NameSection<A>) -> bool
    ensures { IsTrue result ↔ (length names.now ≡ 0) }
{
    names.is_empty()
}

/// Returns the number of names in a map.
pub fn count_of_names<A: Allocator>(map: &NameMap<A>) -> u32
    ensures { result ≡ length map.now }
{
    map.len()
}

/// Returns `true` if a map has no names.
pub fn is_without_names<A: Allocator>(map: &NameMap<A>) -> bool
    ensures { IsTrue result ↔ (length map.now ≡ 0) }
{
    map.is_empty()
}

/// Returns the number of bytes of all entries.
pub fn length_of_pieces<A: Allocator>(pieces: &Pieces<A>) -> usize
    ensures { result ≡ length (joined pieces.now) }
{
    pieces.raw_len()
}
