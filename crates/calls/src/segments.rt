//! Copies of data segments, with the bytes of the original.
ghost use Rattle.std.specs.Prelude.{◌≡◌, IfOk};

use wasm_base::Result;
use wasm_sections::DataSegment;

/// Returns a copy of a segment whose bytes are an array.
pub fn copy_of_array<'a>(segment: &DataSegment<'a, [u8; 3]>) -> Result<DataSegment<'a, [u8; 3]>>
    ensures { IfOk result (λ copy. copy ≡ segment.now) }
{
    segment.clone()
}

/// Returns a copy of a segment whose bytes are a slice.
pub fn copy_of_slice<'a, 'b>(
    segment: &DataSegment<'a, &'b [u8]>,
) -> Result<DataSegment<'a, &'b [u8]>>
    ensures { IfOk result (λ copy. copy ≡ segment.now) }
{
    segment.clone()
}

/// Returns a copy of a segment whose bytes are a vector. The copy has memory of its own.
pub fn copy_of_vector<'a>(segment: &DataSegment<'a, Vec<u8>>) -> Result<DataSegment<'a, Vec<u8>>>
    ensures mode { IfOk result (λ copy. copy.mode ≡ segment.now.mode) }
    ensures bytes { IfOk result (λ copy. copy.bytes.items ≡ segment.now.bytes.items) }
{
    segment.clone()
}
