// Grammars: which encodings of a value a decoder accepts.
ghost use Rattle.std.specs.Prelude.{◌≡◌};
ghost use Rattle.wasm_base.specs.Numbers.{Grammar as GrammarOf, builders, admitted, is_admitted};

/// The encodings that a decoder accepts. In each grammar a value has exactly one minimal encoding,
/// and its numbers may be padded.
pub trait Grammar {
    // The grammar, from which `minimal_of` and `padded_of` select the mode of a format.
    ghost grammar: { GrammarOf };

    /// Returns `true` if all encodings that the standard admits are accepted.
    fn is_standard() -> bool
        ensures { result ≡ is_admitted grammar };
}

/// The encodings that builders write, with padded numbers too.
#[derive(Clone, Copy, PartialEq, Eq, Debug)]
pub struct Padded;

impl Grammar for Padded {
    ghost grammar = { builders };

    #[inline]
    fn is_standard() -> bool {
        false
    }
}

/// All encodings that the standard admits. A nullable reference to an abstract type may have one
/// byte, for example.
#[derive(Clone, Copy, PartialEq, Eq, Debug)]
pub struct Standard;

impl Grammar for Standard {
    ghost grammar = { admitted };

    #[inline]
    fn is_standard() -> bool {
        true
    }
}
