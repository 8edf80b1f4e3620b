//! Callers of the instruction visitor, which prove their results.
ghost use Rattle.std.specs.Prelude.{◌≡◌, ◌≢◌, ◌++◌, ℕ, List, IfOk, IfErr, length};
ghost use Rattle.wasm_base.specs.Continuing.{RejectsWhole};
ghost use Rattle.wasm_base.specs.Numbers.{padded};
ghost use Rattle.wasm_code.specs.Bodies.{Body, body};
ghost use Rattle.wasm_base.specs.declared.fault.ReadFault.TheVariants.{Memory};

use std::alloc::Allocator;
use wasm_base::{DecodeError, ReadFault};
use wasm_code::{Instructions, laws};

/// Returns the number of instructions in a body. The bytes are those of the body without its size
/// prefix.
pub fn count_instructions<A: Allocator + Copy>(bytes: &[u8], alloc: A) -> Result<usize, DecodeError>
    ensures found { IfOk result (λ n. (x : Body) × body padded bytes.now x × (length x.code ≡ n)) }
    ensures none { IfErr result (λ e. e.cause ≢ Memory → RejectsWhole body padded bytes.now) }
{
    let (_runs, mut instructions) = Instructions::of_body(bytes, alloc)?;
    let mut count = 0;
    while let Some(_step) = instructions.next()? {
        count += 1;
    }
    Ok(count)
}

/// Returns the offset after the first `count` instructions of a body. `Function::byte_len` returns
/// the same after these are added. The bytes are those of the body without its size prefix.
pub fn offset_after<A: Allocator + Copy>(
    bytes: &[u8],
    count: usize,
    alloc: A,
) -> Result<usize, DecodeError>
    ensures { IfOk result (λ offset. (front more : List ℕ) (x : Body) → body padded front x → length x.code ≡ count → bytes.now ≡ front ++ more → offset ≡ length front) }
{
    let (_runs, mut instructions) = Instructions::of_body(bytes, alloc)?;
    laws::offsets();
    for _taken in 0..count {
        let Some(_step) = instructions.next()? else {
            return Err(ReadFault::Ended.at(instructions.rest()));
        };
    }
    Ok(instructions.offset())
}
