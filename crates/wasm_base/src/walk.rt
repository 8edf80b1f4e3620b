// The trait `Walk`: one traversal of a format, whatever is done with its minimal encoding.
ghost use Rattle.std.specs.Prelude.{◌≡◌, ◌≢◌, List, length, IfOk, IfErr, OnOk};
ghost use Rattle.wasm_base.specs.Continuing.{RejectsWhole};
ghost use Rattle.wasm_base.specs.Decoding.{BeginsWith, Decodes, Rejects};
ghost use Rattle.wasm_base.specs.Formats.{members, vec};
ghost use Rattle.wasm_base.specs.Minimal.{both_grammars, EncodesMinimally, IsFrontOf, Minimizes, MinimizesWhole};
ghost use Rattle.wasm_base.specs.Numbers.{padded_of};
ghost use Rattle.wasm_base.specs.Walks.{Keeps, Walks, WalksMany, WalksWhole};
ghost use Rattle.wasm_base.specs.declared.fault.ReadFault.TheVariants.{Memory};

use crate::effect::{Discard, Effect, EncodeIn};
use crate::encode::Encode;
use crate::fault::{DecodeError, ReadFault};
use crate::grammar::Grammar;
use crate::readable::{Layout, Readable};
use crate::shorten::Shorten;
use std::alloc::Allocator;

/// A value at the front of bytes, as for [`Readable`], that is decoded and not kept. An effect
/// takes its minimal encoding: a vector appends it, and [`Discard`] drops it, so that the value is
/// skipped. [`Shorten`] writes a value that was decoded before.
pub trait Walk<G: Grammar>: Layout {
    /// Walks over the value at the front, in the grammar `G`, and returns the remaining bytes. After
    /// an error, the effect may have taken part of the encoding.
    ///
    /// # Errors
    ///
    /// Every error except `Memory` means that no such value is at the front.
    fn walk<'a, A: Allocator + Copy, E: Effect>(
        bytes: &'a [u8],
        alloc: A,
        effect: &mut E,
    ) -> Result<&'a [u8], DecodeError>
        ensures found { IfOk result (λ rest. Walks E.seen G.grammar Self.format bytes.now rest.now effect.old effect.new) }
        ensures none { IfErr result (λ e. e.cause ≢ Memory → Rejects Self.format (padded_of G.grammar) bytes.now) }
        ensures no_memory { IfErr result (λ e. e.cause ≡ Memory → E.may_fail) }
        ensures front { Keeps E.seen effect.old effect.new };
}

/// A value whose encoding is the minimal one in each grammar.
pub trait Canonical: Layout + Encode {
    /// Proves that the encoding is minimal. The function does nothing.
    fn canonical()
        ensures { EncodesMinimally Self.format Self.view Self.encoding };
}

/// A value whose written encoding is minimal in both grammars.
pub trait Shared: Shorten {
    /// Proves that it is minimal in both. The function does nothing.
    fn shared()
        ensures { Self.grammars ≡ both_grammars };
}

/// Decodes the value at the front, gives its encoding to the effect, and drops it.
///
/// # Errors
///
/// Every error except `Memory` means that no such value is at the front.
#[tactic(auto, using(crate::proofs::WalkLaws::keep_steps, crate::proofs::WalkLaws::value_walks))]
#[inline]
pub fn walk_value<
    'a,
    T: Readable<'a, A, G> + Canonical,
    A: Allocator + Copy,
    G: Grammar,
    E: Effect,
>(bytes: &'a [u8], alloc: A, effect: &mut E) -> Result<&'a [u8], DecodeError>
    requires no_request { T.may_allocate → ⊥ }
    ensures found { IfOk result (λ rest. Walks E.seen G.grammar T.format bytes.now rest.now effect.old effect.new) }
    ensures none { IfErr result (λ e. e.cause ≢ Memory → Rejects T.format (padded_of G.grammar) bytes.now) }
    ensures no_memory { IfErr result (λ e. e.cause ≡ Memory → E.may_fail) }
    ensures front { Keeps E.seen effect.old effect.new }
{
    T::canonical();
    let (value, rest) = T::read(bytes, alloc)?;
    effect.put(&value)?;
    Ok(rest)
}

/// Decodes the value at the front, gives its minimal encoding in the grammar `G` to the effect, and
/// drops it.
///
/// # Errors
///
/// Every error except `Memory` means that no such value is at the front.
#[tactic(auto, using(crate::proofs::WalkLaws::keep_steps, crate::proofs::WalkLaws::value_walks_in))]
#[inline]
pub fn walk_in<'a, T: Readable<'a, A, G> + EncodeIn<G>, A: Allocator + Copy, G: Grammar, E: Effect>(
    bytes: &'a [u8],
    alloc: A,
    effect: &mut E,
) -> Result<&'a [u8], DecodeError>
    requires no_request { T.may_allocate → ⊥ }
    ensures found { IfOk result (λ rest. Walks E.seen G.grammar T.format bytes.now rest.now effect.old effect.new) }
    ensures none { IfErr result (λ e. e.cause ≢ Memory → Rejects T.format (padded_of G.grammar) bytes.now) }
    ensures no_memory { IfErr result (λ e. e.cause ≡ Memory → E.may_fail) }
    ensures front { Keeps E.seen effect.old effect.new }
{
    <T as EncodeIn<G>>::minimal_in();
    let (value, rest) = T::read(bytes, alloc)?;
    effect.put_in::<G, T>(&value)?;
    Ok(rest)
}

/// Decodes the value at the front, gives its minimal encoding, which is the same in both grammars, to
/// the effect, and drops it.
///
/// # Errors
///
/// Every error except `Memory` means that no such value is at the front.
#[tactic(auto, using(crate::proofs::WalkLaws::keep_steps, crate::proofs::WalkLaws::shared_walks))]
pub fn walk_shared<'a, T: Readable<'a, A, G> + Shared, A: Allocator + Copy, G: Grammar, E: Effect>(
    bytes: &'a [u8],
    alloc: A,
    effect: &mut E,
) -> Result<&'a [u8], DecodeError>
    requires no_request { T.may_allocate → ⊥ }
    ensures found { IfOk result (λ rest. Walks E.seen G.grammar T.format bytes.now rest.now effect.old effect.new) }
    ensures none { IfErr result (λ e. e.cause ≢ Memory → Rejects T.format (padded_of G.grammar) bytes.now) }
    ensures no_memory { IfErr result (λ e. e.cause ≡ Memory → E.may_fail) }
    ensures front { Keeps E.seen effect.old effect.new }
{
    T::shared();
    let (value, rest) = T::read(bytes, alloc)?;
    effect.put_minimal(&value)?;
    Ok(rest)
}

/// Walks over the vector at the front, and returns its number of members and the remaining bytes.
///
/// # Errors
///
/// Every error except `Memory` means that no such vector is at the front.
#[tactic(auto, using(crate::proofs::WalkLaws::keep_steps))]
pub fn walk_many<'a, T: Walk<G>, A: Allocator + Copy, G: Grammar, E: Effect>(
    bytes: &'a [u8],
    alloc: A,
    effect: &mut E,
) -> Result<(u32, &'a [u8]), DecodeError>
    ensures found { IfOk result (λ x. WalksMany E.seen G.grammar T.format bytes.now x.0 x.1.now effect.old effect.new) }
    ensures none { IfErr result (λ e. e.cause ≢ Memory → Rejects (vec T.format) (padded_of G.grammar) bytes.now) }
    ensures no_memory { IfErr result (λ e. e.cause ≡ Memory → E.may_fail) }
    ensures front { Keeps E.seen effect.old effect.new }
{
    let (count, mut rest) = <u32 as Readable<'a, A, G>>::read(bytes, alloc)?;
    effect.put(&count)?;
    T::laws();
    for _taken in 0..count {
        rest = T::walk(rest, alloc, effect)?;
    }
    Ok((count, rest))
}

/// Walks over a value that occupies all of the bytes.
///
/// # Errors
///
/// Every error except `Memory` means that the bytes as a whole encode no such value.
#[tactic(auto, using(crate::proofs::WalkLaws::keep_steps, crate::proofs::WalkLaws::whole_walks, crate::proofs::DecodeWhole::whole_steps))]
pub fn walk_whole<'a, T: Walk<G>, A: Allocator + Copy, G: Grammar, E: Effect>(
    bytes: &'a [u8],
    alloc: A,
    effect: &mut E,
) -> Result<(), DecodeError>
    ensures found { OnOk result (WalksWhole E.seen G.grammar T.format bytes.now effect.old effect.new) }
    ensures none { IfErr result (λ e. e.cause ≢ Memory → RejectsWhole T.format (padded_of G.grammar) bytes.now) }
    ensures no_memory { IfErr result (λ e. e.cause ≡ Memory → E.may_fail) }
    ensures front { Keeps E.seen effect.old effect.new }
{
    T::laws();
    let rest = T::walk(bytes, alloc, effect)?;
    if rest.is_empty() {
        Ok(())
    } else {
        Err(ReadFault::SizeMismatch.at(rest))
    }
}

/// Walks over values one after another, up to the last byte of the input; no encoding of one is
/// empty.
///
/// # Errors
///
/// Every error except `Memory` means that the bytes as a whole encode no such values.
#[tactic(auto, using(crate::proofs::WalkLaws::keep_steps))]
pub fn walk_to_end<'a, T: Walk<G>, A: Allocator + Copy, G: Grammar, E: Effect>(
    bytes: &'a [u8],
    alloc: A,
    effect: &mut E,
) -> Result<(), DecodeError>
    requires begun { BeginsWith (λ b. Unit {0}) T.format }
    ensures found { OnOk result (WalksWhole E.seen G.grammar (members T.format) bytes.now effect.old effect.new) }
    ensures none { IfErr result (λ e. e.cause ≢ Memory → RejectsWhole (members T.format) (padded_of G.grammar) bytes.now) }
    ensures no_memory { IfErr result (λ e. e.cause ≡ Memory → E.may_fail) }
    ensures front { Keeps E.seen effect.old effect.new }
{
    let mut rest = bytes;
    T::laws();
    loop {
        if rest.is_empty() {
            return Ok(());
        }
        rest = T::walk(rest, alloc, effect)?;
    }
}

/// Skips the value at the front, and returns the remaining bytes.
///
/// # Errors
///
/// Any error means that no such value is at the front.
pub fn skip_value<'a, T: Walk<G>, A: Allocator + Copy, G: Grammar>(
    bytes: &'a [u8],
    alloc: A,
) -> Result<&'a [u8], DecodeError>
    ensures found { IfOk result (λ rest. (x : T.Value) × Decodes T.format (padded_of G.grammar) bytes.now x rest.now) }
    ensures none { IfErr result (λ e. e.cause ≢ Memory → Rejects T.format (padded_of G.grammar) bytes.now) }
    ensures no_memory { IfErr result (λ e. e.cause ≢ Memory) }
{
    T::walk(bytes, alloc, &mut Discard)
}

/// Skips the vector at the front, and returns its number of members and the remaining bytes.
///
/// # Errors
///
/// Any error means that no such vector is at the front.
pub fn skip_many<'a, T: Walk<G>, A: Allocator + Copy, G: Grammar>(
    bytes: &'a [u8],
    alloc: A,
) -> Result<(u32, &'a [u8]), DecodeError>
    ensures found { IfOk result (λ x. (xs : List T.Value) × Decodes (vec T.format) (padded_of G.grammar) bytes.now xs x.1.now × (x.0 ≡ length xs)) }
    ensures none { IfErr result (λ e. e.cause ≢ Memory → Rejects (vec T.format) (padded_of G.grammar) bytes.now) }
    ensures no_memory { IfErr result (λ e. e.cause ≢ Memory) }
{
    walk_many::<T, A, G, _>(bytes, alloc, &mut Discard)
}

/// Checks that a value occupies all of the bytes. The value is not kept.
///
/// # Errors
///
/// Any error means that the bytes as a whole encode no such value.
#[tactic(auto, using(crate::proofs::EffectLaws::checked_whole))]
pub fn check_whole<'a, T: Walk<G>, A: Allocator + Copy, G: Grammar>(
    bytes: &'a [u8],
    alloc: A,
) -> Result<(), DecodeError>
    ensures found { OnOk result ((x : T.Value) × T.format (padded_of G.grammar) bytes.now x) }
    ensures none { IfErr result (λ e. e.cause ≢ Memory → RejectsWhole T.format (padded_of G.grammar) bytes.now) }
    ensures no_memory { IfErr result (λ e. e.cause ≢ Memory) }
{
    walk_whole::<T, A, G, _>(bytes, alloc, &mut Discard)
}

/// Checks that values occupy all of the bytes, one after another; no encoding of one is empty. The
/// values are not kept.
///
/// # Errors
///
/// Any error means that the bytes as a whole encode no such values.
#[tactic(auto, using(crate::proofs::EffectLaws::checked_whole))]
pub fn check_to_end<'a, T: Walk<G>, A: Allocator + Copy, G: Grammar>(
    bytes: &'a [u8],
    alloc: A,
) -> Result<(), DecodeError>
    requires begun { BeginsWith (λ b. Unit {0}) T.format }
    ensures found { OnOk result ((xs : List T.Value) × members T.format (padded_of G.grammar) bytes.now xs) }
    ensures none { IfErr result (λ e. e.cause ≢ Memory → RejectsWhole (members T.format) (padded_of G.grammar) bytes.now) }
    ensures no_memory { IfErr result (λ e. e.cause ≢ Memory) }
{
    walk_to_end::<T, A, G, _>(bytes, alloc, &mut Discard)
}

/// Appends the minimal encoding of the vector at the front, and keeps no member.
///
/// # Errors
///
/// Every error except `Memory` means that no such vector is at the front. After an error, part of
/// the encoding may follow the old bytes of the sink.
#[tactic(auto, using(crate::proofs::EffectLaws::appending))]
pub fn minimize_many<'a, T: Walk<G>, A: Allocator + Copy, G: Grammar, B: Allocator>(
    bytes: &'a [u8],
    alloc: A,
    sink: &mut Vec<u8, B>,
) -> Result<&'a [u8], DecodeError>
    ensures found { IfOk result (λ rest. Minimizes G.grammar (vec T.format) bytes.now rest.now sink.old.items sink.new.items) }
    ensures none { IfErr result (λ e. e.cause ≢ Memory → Rejects (vec T.format) (padded_of G.grammar) bytes.now) }
    ensures front { IsFrontOf sink.old.items sink.new.items }
{
    let (_count, rest) = walk_many::<T, A, G, _>(bytes, alloc, sink)?;
    Ok(rest)
}

/// Appends the minimal encoding of a value that occupies all of the bytes.
///
/// # Errors
///
/// Every error except `Memory` means that the bytes as a whole encode no such value. After an
/// error, part of the encoding may follow the old bytes of the sink.
#[tactic(auto, using(crate::proofs::EffectLaws::appending))]
pub fn minimize_whole<'a, T: Walk<G>, A: Allocator + Copy, G: Grammar, B: Allocator>(
    bytes: &'a [u8],
    alloc: A,
    sink: &mut Vec<u8, B>,
) -> Result<(), DecodeError>
    ensures found { OnOk result (MinimizesWhole G.grammar T.format bytes.now sink.old.items sink.new.items) }
    ensures none { IfErr result (λ e. e.cause ≢ Memory → RejectsWhole T.format (padded_of G.grammar) bytes.now) }
    ensures front { IsFrontOf sink.old.items sink.new.items }
{
    walk_whole::<T, A, G, _>(bytes, alloc, sink)
}

/// Appends the minimal encodings of values one after another, up to the last byte of the input; no
/// encoding of one is empty.
///
/// # Errors
///
/// Every error except `Memory` means that the bytes as a whole encode no such values. After an
/// error, part of the encoding may follow the old bytes of the sink.
#[tactic(auto, using(crate::proofs::EffectLaws::appending))]
pub fn minimize_to_end<'a, T: Walk<G>, A: Allocator + Copy, G: Grammar, B: Allocator>(
    bytes: &'a [u8],
    alloc: A,
    sink: &mut Vec<u8, B>,
) -> Result<(), DecodeError>
    requires begun { BeginsWith (λ b. Unit {0}) T.format }
    ensures found { OnOk result (MinimizesWhole G.grammar (members T.format) bytes.now sink.old.items sink.new.items) }
    ensures none { IfErr result (λ e. e.cause ≢ Memory → RejectsWhole (members T.format) (padded_of G.grammar) bytes.now) }
    ensures front { IsFrontOf sink.old.items sink.new.items }
{
    walk_to_end::<T, A, G, _>(bytes, alloc, sink)
}
