//! Copies of entries of core sections.
ghost use Rattle.std.specs.Prelude.{◌≡◌, IfOk};
ghost use Rattle.wasm_sections.specs.GivenElements.{list_in, segment_in};
ghost use Rattle.wasm_sections.specs.Imports.{imports_item};

use std::alloc::Allocator;
use wasm_base::Result;
use wasm_sections::{
    DataSegmentMode, ElementMode, ElementSegment, Elements, FunctionSection, Imports,
};

/// Returns a function section of the same entries.
pub fn copied_functions<A: Allocator + Copy>(
    functions: &FunctionSection<A>,
) -> Result<FunctionSection<A>>
    ensures { IfOk result (λ copy. copy ≡ functions.now) }
{
    functions.clone()
}

/// Returns the same import or group of imports.
pub fn copied_imports<'a, A: Allocator + Copy>(imports: &Imports<'a, A>) -> Result<Imports<'a, A>>
    ensures { IfOk result (λ copy. imports_item copy ≡ imports_item imports.now) }
{
    imports.clone()
}

/// Returns the same mode of a data segment.
pub fn copied_data_mode<'a, A: Allocator>(
    mode: &DataSegmentMode<'a, A>,
) -> Result<DataSegmentMode<'a, A>>
    ensures { IfOk result (λ copy. copy ≡ mode.now) }
{
    mode.clone()
}

/// Returns the same mode of an element segment.
pub fn copied_element_mode<'a, A: Allocator>(
    offset: &ElementMode<'a, A>,
) -> Result<ElementMode<'a, A>>
    ensures { IfOk result (λ copy. copy ≡ offset.now) }
{
    offset.clone()
}

/// Returns references to the same functions, or by the same expressions.
pub fn copied_elements<'a, A: Allocator + Copy>(
    elements: &Elements<'a, A>,
) -> Result<Elements<'a, A>>
    ensures { IfOk result (λ copy. list_in copy ≡ list_in elements.now) }
{
    elements.clone()
}

/// Returns a segment of the same mode and references.
pub fn copied_element_segment<'a, A: Allocator + Copy>(
    segment: &ElementSegment<'a, A>,
) -> Result<ElementSegment<'a, A>>
    ensures { IfOk result (λ copy. segment_in copy ≡ segment_in segment.now) }
{
    segment.clone()
}
