// The traits of decoding: the format of a value, and its decoder.
ghost use Rattle.std.specs.Prelude.{◌≡◌, ◌≢◌, ⊤, ℕ, List, IfOk, IfErr};
ghost use Rattle.wasm_base.specs.Numbers.{Mode, padded_of};
ghost use Rattle.wasm_base.specs.Decoding.{Unambiguous, Decodes, Rejects};
ghost use Rattle.wasm_base.specs.declared.fault.ReadFault.TheVariants.{Memory};

use crate::fault::DecodeError;
use crate::grammar::Grammar;
use std::alloc::Allocator;

/// A value with a format, which defines the bytes that encode it.
pub trait Layout {
    // The value, without its location in memory.
    ghost Value: { Type 0 };

    // The format: which bytes encode which value.
    ghost format: { Mode → List ℕ → Value → Type 0 };

    ghost view: { Self → Value };

    /// Proves that the format is unambiguous: one value decodes from the front, whatever follows.
    /// The function does nothing.
    fn laws()
        ensures { Unambiguous format };
}

/// A value that can be decoded from the front of bytes. Lists are allocated in `A`; names and bytes
/// are slices of the input.
pub trait Readable<'a, A: Allocator + Copy, G: Grammar>: Layout + Drop {
    // Whether decoding may request memory. Without it, no error is `Memory`.
    ghost may_allocate: { Type 0 } = { ⊤ };

    /// Decodes the value at the front, in the grammar `G`, and returns it with the remaining bytes.
    ///
    /// # Errors
    ///
    /// Every error except `Memory` means that no such value is at the front.
    fn read(bytes: &'a [u8], alloc: A) -> Result<(Self, &'a [u8]), DecodeError>
        ensures found { IfOk result (λ x. Decodes Self.format (padded_of G.grammar) bytes.now (Self.view x.0) x.1.now) }
        ensures none { IfErr result (λ e. e.cause ≢ Memory → Rejects Self.format (padded_of G.grammar) bytes.now) }
        ensures no_memory { IfErr result (λ e. e.cause ≡ Memory → Self.may_allocate) };
}
