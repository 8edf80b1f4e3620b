//! Readers of instructions: where a visitor begins, the bytes before it, and a body as a whole.
ghost use Rattle.std.specs.Prelude.{◌≡◌, ◌≢◌, IfOk, IfErr};
ghost use Rattle.wasm_base.specs.Continuing.{RejectsWhole};
ghost use Rattle.wasm_base.specs.Numbers.{padded_of};
ghost use Rattle.wasm_code.specs.Bodies.{body};
ghost use Rattle.wasm_base.specs.declared.fault.ReadFault.TheVariants.{Memory};
ghost use Rattle.wasm_code.specs.BodyViews.{body_view};
ghost use Rattle.wasm_code.specs.Walks.{ahead};

use std::alloc::Allocator;
use wasm_base::{DecodeError, Grammar, Standard};
use wasm_code::{Body, Instructions, read_body};

/// Returns a visitor that begins at the first byte.
pub fn walk_over<'a, A: Allocator + Copy>(bytes: &'a [u8], alloc: A) -> Instructions<'a, A>
    ensures { result ≡ record { bytes = bytes.now; offset = 0 } }
{
    Instructions::new(bytes, alloc)
}

/// Returns a visitor in the standard's grammar that begins at the first byte.
pub fn standard_walk_over<'a, A: Allocator + Copy>(
    bytes: &'a [u8],
    alloc: A,
) -> Instructions<'a, A, Standard>
    ensures { result ≡ record { bytes = bytes.now; offset = 0 } }
{
    Instructions::<A, Standard>::standard(bytes, alloc)
}

/// Returns the bytes that a visitor has not visited.
pub fn bytes_ahead<'a, A: Allocator + Copy>(walk: &Instructions<'a, A>) -> &'a [u8]
    ensures { result.now ≡ ahead walk.now }
{
    walk.rest()
}

/// Decodes a body from these bytes, which are without its size prefix, in the grammar `G`.
pub fn body_of<A: Allocator + Copy, G: Grammar>(
    bytes: &[u8],
    alloc: A,
) -> Result<Body<A>, DecodeError>
    ensures found { IfOk result (λ x. body (padded_of G.grammar) bytes.now (body_view x)) }
    ensures none { IfErr result (λ e. e.cause ≢ Memory → RejectsWhole body (padded_of G.grammar) bytes.now) }
{
    read_body::<A, G>(bytes, alloc)
}
