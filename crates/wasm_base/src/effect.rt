// The trait `Effect`: what a walk over a value does with the minimal encoding.
ghost use Rattle.std.specs.Prelude.{◌≡◌, ◌++◌, ℕ, List, length, OnOk, OnErr, refl, [], true, ⊤};
ghost use Rattle.wasm_base.specs.Encodings.{size_prefixed_encoding};
ghost use Rattle.wasm_base.specs.Minimal.{IsFrontOf};
ghost use Rattle.wasm_base.specs.Walks.{EncodesIn, IsIdle, IsMarked, Keeps, KeepsMarked, Marks, Replaces, TakesBytes, TakesMinimal};

use crate::encode::Encode;
use crate::frames::prefix_size_since;
use crate::grammar::Grammar;
use crate::readable::Layout;
use crate::refused::Result;
use crate::shorten::Shorten;
use std::alloc::Allocator;

/// A value whose minimal encoding depends on the grammar.
pub trait EncodeIn<G: Grammar>: Layout {
    // The minimal encoding in the grammar `G`.
    ghost encoding_in: { Self → List ℕ };

    /// Writes the minimal encoding in the grammar `G`. After an error, part of it may follow the
    /// old bytes of the sink.
    fn encode_in<A: Allocator>(&self, sink: &mut Vec<u8, A>) -> Result<()>
        ensures ok { OnOk result (sink.new.items ≡ sink.old.items ++ encoding_in self.now) }
        ensures front { IsFrontOf sink.old.items sink.new.items };

    /// Proves that the encoding is minimal. The function does nothing.
    fn minimal_in()
        ensures { EncodesIn G.grammar Self.format Self.view encoding_in };
}

/// What a walk does with the minimal encoding of the value: [`Discard`] drops it, and a vector
/// appends it.
pub trait Effect {
    // `seen e l`: `l` may be all the bytes that the effect has taken.
    ghost seen: { Self → List ℕ → Type 0 };

    // `mark n l`: the number `n` marks the end of the bytes `l`.
    ghost mark: { ℕ → List ℕ → Type 0 };

    // Whether a call may return an error.
    ghost may_fail: { Type 0 };

    // The effect has taken some bytes.
    ghost some: { (e : Self) → (l : List ℕ) × seen e l };

    /// TakesBytes the encoding of the value.
    fn put<T: Encode>(&mut self, value: &T) -> Result<()>
        ensures ok { OnOk result (TakesBytes seen (T.encoding value.now) self.old self.new) }
        ensures err { OnErr result may_fail }
        ensures front { Keeps seen self.old self.new };

    /// TakesBytes the minimal encoding of the value in the grammar `G`.
    fn put_in<G: Grammar, T: EncodeIn<G>>(&mut self, value: &T) -> Result<()>
        ensures ok { OnOk result (TakesBytes seen (T.encoding_in value.now) self.old self.new) }
        ensures err { OnErr result may_fail }
        ensures front { Keeps seen self.old self.new };

    /// TakesBytes the minimal encoding of the decoded value.
    fn put_minimal<T: Shorten>(&mut self, value: &T) -> Result<()>
        ensures ok { OnOk result (TakesMinimal seen T.grammars T.format (T.view value.now) self.old self.new) }
        ensures err { OnErr result may_fail }
        ensures front { Keeps seen self.old self.new };

    /// Returns a mark for [`prefix_size`](Effect::prefix_size).
    fn position(&self) -> usize
        ensures { Marks seen mark self.now result };

    /// Makes the bytes after the mark a payload with its size prefix.
    fn prefix_size(&mut self, start: usize) -> Result<()>
        requires { IsMarked seen mark self.old start }
        ensures ok { OnOk result (Replaces seen mark size_prefixed_encoding start self.old self.new) }
        ensures err { OnErr result may_fail }
        ensures front { KeepsMarked seen mark start self.old self.new };

    /// Returns `true` only if all calls do nothing, so that a value may be skipped in any way.
    fn is_idle() -> bool
        ensures { result ≡ true → IsIdle seen };
}

/// An effect that drops what it takes.
#[derive(Clone, Copy, Debug)]
pub struct Discard;

impl Effect for Discard {
    ghost seen = { λ e l. Unit {0} };

    ghost mark = { λ n l. Unit {0} };

    ghost may_fail = { ⊥ };

    ghost some = { λ e. ([], tt) };

    #[inline(always)]
    fn put<T: Encode>(&mut self, _value: &T) -> Result<()> {
        Ok(())
    }

    #[inline(always)]
    fn put_in<G: Grammar, T: EncodeIn<G>>(&mut self, _value: &T) -> Result<()> {
        Ok(())
    }

    #[tactic(auto, using(crate::proofs::EffectLaws::nothing_takes))]
    #[inline(always)]
    fn put_minimal<T: Shorten>(&mut self, _value: &T) -> Result<()> {
        T::laws();
        Ok(())
    }

    #[inline(always)]
    fn position(&self) -> usize {
        0
    }

    #[inline(always)]
    fn prefix_size(&mut self, _start: usize) -> Result<()> {
        Ok(())
    }

    #[inline(always)]
    fn is_idle() -> bool {
        true
    }
}

/// Appends what it takes.
impl<A: Allocator> Effect for Vec<u8, A> {
    ghost seen = { λ e l. e.items ≡ l };

    ghost mark = { λ n l. n ≡ length l };

    ghost may_fail = { ⊤ };

    ghost some = { λ e. (e.items, refl) };

    #[inline(always)]
    fn put<T: Encode>(&mut self, value: &T) -> Result<()> {
        value.encode(self)
    }

    #[inline(always)]
    fn put_in<G: Grammar, T: EncodeIn<G>>(&mut self, value: &T) -> Result<()> {
        value.encode_in(self)
    }

    #[inline(always)]
    fn put_minimal<T: Shorten>(&mut self, value: &T) -> Result<()> {
        value.write_minimal(self)
    }

    #[inline(always)]
    fn position(&self) -> usize {
        self.len()
    }

    #[inline(always)]
    fn prefix_size(&mut self, start: usize) -> Result<()> {
        prefix_size_since(self, start)
    }

    #[inline(always)]
    fn is_idle() -> bool {
        false
    }
}
