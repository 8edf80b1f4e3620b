// The trait `Encode`: values with an encoding in the binary format.
ghost use Rattle.std.specs.Prelude.{◌≡◌, ℕ, List, Err, OnOk, ⊤};
ghost use Rattle.wasm_base.specs.Calls.{Appends};
ghost use Rattle.wasm_base.specs.declared.refused.Refused.TheVariants.{TooLong};

use crate::refused::Result;
use std::alloc::Allocator;

/// A value that has an encoding in the WebAssembly binary format.
///
/// # Errors
///
/// `encode` returns [`Refused`](crate::refused::Refused), and leaves the sink unchanged, if the
/// value does not fit or an allocation fails.
pub trait Encode {
    /// `encoding`: the encoding of the value.
    ghost encoding: { Self → List ℕ };

    /// `encodable`: every count and length in that encoding is representable.
    ghost encodable: { Self → Type 0 };

    /// `decoding`: the promise about decoding the encoding. A section must promise its headline
    /// here.
    ghost decoding: { Self → Type 0 } = { λ _. ⊤ };

    /// `overlong`: `encode` returns `TooLong` for such a value, however much memory there is.
    ghost overlong: { Self → Type 0 } = { λ _. ⊥ };

    /// Appends the encoding of the value. On an error, the bytes of the sink are unchanged.
    fn encode<A: Allocator>(&self, sink: &mut Vec<u8, A>) -> Result<()>
        ensures appends { Appends (encoding self.now) (encodable self.now) sink.old sink.new result }
        ensures read { OnOk result (decoding self.now) }
        ensures too_many { overlong self.now → result ≡ Err TooLong };
}
