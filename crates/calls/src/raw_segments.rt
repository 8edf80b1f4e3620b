//! Entries that are already encoded: a segment, and a type.
ghost use Rattle.std.specs.Prelude.{◌≡◌, [], ◌∷◌, ◌++◌, OnOk};

use std::alloc::Allocator;
use wasm_base::Result;
use wasm_sections::ElementSection;
use wasm_types::TypeSection;

/// Adds an element segment of these bytes.
pub fn add_raw_elements<A: Allocator>(section: &mut ElementSection<A>, segment: &[u8]) -> Result<()>
    ensures { OnOk result (section.new ≡ section.old ++ segment.now ∷ []) }
{
    section.raw(segment)
}

/// Adds a type of these bytes.
pub fn add_raw_type<A: Allocator>(section: &mut TypeSection<A>, entry: &[u8]) -> Result<()>
    ensures { OnOk result (section.new ≡ section.old ++ entry.now ∷ []) }
{
    section.raw(entry)
}
