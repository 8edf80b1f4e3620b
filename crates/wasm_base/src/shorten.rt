// The trait `Shorten`: values that can be written in their minimal encoding.
ghost use Rattle.std.specs.Prelude.{◌≡◌, ◌≢◌, Err, OnOk, OnErr};
ghost use Rattle.wasm_base.specs.declared.refused.Refused.TheVariants.{TooLong};
ghost use Rattle.wasm_base.specs.Minimal.{Grammars, AppendsMinimal, IsFrontOf, HasEncoding};

use crate::readable::Layout;
use crate::refused::Result;
use std::alloc::Allocator;

/// A decoded value, or a component of one, that can be written in its minimal encoding.
pub trait Shorten: Layout {
    // The grammars whose minimal encoding of the value is written.
    ghost grammars: { Grammars };

    /// Writes the minimal encoding of the value after the old bytes. An impl defines it, and
    /// callers use [`append_minimal`](Shorten::append_minimal): after an error of this method,
    /// part of the encoding may be in the sink.
    fn write_minimal<B: Allocator>(&self, sink: &mut Vec<u8, B>) -> Result<()>
        ensures ok { OnOk result (AppendsMinimal Self.grammars Self.format (Self.view self.now) sink.old.items sink.new.items) }
        ensures front { IsFrontOf sink.old.items sink.new.items }
        ensures too_long { HasEncoding Self.grammars Self.format (Self.view self.now) → result ≢ Err TooLong };

    /// Appends the minimal encoding of the value.
    ///
    /// # Errors
    ///
    /// Returns [`Refused`](crate::Refused), and leaves the bytes of the sink unchanged, if an
    /// allocation fails. A value that was decoded in one of the `grammars` never causes `TooLong`.
    fn append_minimal<B: Allocator>(&self, sink: &mut Vec<u8, B>) -> Result<()>
        ensures ok { OnOk result (AppendsMinimal Self.grammars Self.format (Self.view self.now) sink.old.items sink.new.items) }
        ensures err { OnErr result (sink.new.items ≡ sink.old.items) }
        ensures too_long { HasEncoding Self.grammars Self.format (Self.view self.now) → result ≢ Err TooLong }
    {
        let start = sink.len();
        let written = self.write_minimal(sink);
        if written.is_err() {
            sink.truncate(start);
        }
        written
    }
}
