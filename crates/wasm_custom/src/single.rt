// Custom sections of one value: their encoding, their reader and their walk.
ghost use Rattle.std.specs.Prelude.{◌≡◌, ◌≢◌, IfOk, IfErr, Err, OnOk, OnErr};
ghost use Rattle.wasm_base.specs.Calls.{Appends};
ghost use Rattle.wasm_base.specs.Continuing.{RejectsWhole};
ghost use Rattle.wasm_base.specs.Encodings.{size_prefixed_encoding};
ghost use Rattle.wasm_base.specs.Minimal.{AppendsMinimal, IsFrontOf, HasEncoding};
ghost use Rattle.wasm_base.specs.Numbers.{padded_of};
ghost use Rattle.wasm_base.specs.Walks.{Keeps, WalksWhole};
ghost use Rattle.wasm_base.specs.declared.fault.ReadFault.TheVariants.{Memory};
ghost use Rattle.wasm_base.specs.declared.refused.Refused.TheVariants.{TooLong};
ghost use Rattle.wasm_custom.specs.Customs.{named_encoding, named_payload, IsEncodableNamed};

use crate::custom_section::begin_custom;
use crate::named::after_name;
use std::alloc::Allocator;
use wasm_base::{
    DecodeError, Effect, Encode, Grammar, Readable, Refused, Result, Shorten, Walk,
    encode_size_prefixed, encoding_size, read_whole, walk_whole,
};

/// Appends a custom section of this name without its id, whose data are these bytes with their size
/// prefix.
#[tactic(auto, unfolding(crate::specs::Customs::named_encoding))]
pub(crate) fn encode_single<A: Allocator>(
    sink: &mut Vec<u8, A>,
    name: &str,
    bytes: &[u8],
) -> Result<()>
    ensures { Appends (named_encoding name.now (size_prefixed_encoding bytes.now)) (IsEncodableNamed name.now (size_prefixed_encoding bytes.now)) sink.old sink.new result }
{
    let Ok(short) = u32::try_from(bytes.len()) else {
        return Err(Refused::TooLong);
    };
    let size = bytes.len().saturating_add(encoding_size(short));
    begin_custom(sink, name, size)?;
    encode_size_prefixed(sink, bytes).unwrap();
    Ok(())
}

/// Decodes the payload of a custom section of this name, whose data are one value.
#[tactic(auto, using(crate::proofs::SingleLaws::single_steps))]
pub(crate) fn read_single<'a, T: Readable<'a, A, G>, A: Allocator + Copy, G: Grammar>(
    name: &str,
    bytes: &'a [u8],
    alloc: A,
) -> Result<T, DecodeError>
    ensures found { IfOk result (λ x. named_payload name.now T.format (padded_of G.grammar) bytes.now (T.view x)) }
    ensures none { IfErr result (λ e. e.cause ≢ Memory → RejectsWhole (named_payload name.now T.format) (padded_of G.grammar) bytes.now) }
    ensures no_memory { IfErr result (λ e. e.cause ≡ Memory → T.may_allocate) }
{
    let rest = after_name::<A, G>(name, bytes, alloc)?;
    let value = read_whole::<'a, T, A, G>(rest, alloc)?;
    Ok(value)
}

/// Walks over the payload of a custom section of this name, whose data are one value.
#[tactic(auto, using(wasm_base::proofs::WalkLaws::keep_steps))]
pub(crate) fn walk_single<'a, T: Walk<G>, A: Allocator + Copy, G: Grammar, E: Effect>(
    name: &str,
    bytes: &'a [u8],
    alloc: A,
    effect: &mut E,
) -> Result<(), DecodeError>
    ensures found { OnOk result (WalksWhole E.seen G.grammar (named_payload name.now T.format) bytes.now effect.old effect.new) }
    ensures none { IfErr result (λ e. e.cause ≢ Memory → RejectsWhole (named_payload name.now T.format) (padded_of G.grammar) bytes.now) }
    ensures no_memory { IfErr result (λ e. e.cause ≡ Memory → E.may_fail) }
    ensures front { Keeps E.seen effect.old effect.new }
{
    let rest = after_name::<A, G>(name, bytes, alloc)?;
    effect.put(&name)?;
    walk_whole::<T, A, G, _>(rest, alloc, effect)?;
    Ok(())
}

/// Writes the bytes that [`append_single`] appends. After an error, part of them may follow the old
/// bytes.
#[tactic(auto, using(crate::proofs::SingleLaws::single_appended, crate::proofs::SingleLaws::single_encoded, crate::proofs::SingleLaws::single_name_encodable))]
fn write_single<T: Shorten, B: Allocator>(
    name: &str,
    value: &T,
    sink: &mut Vec<u8, B>,
) -> Result<()>
    ensures ok { OnOk result (AppendsMinimal T.grammars (named_payload name.now T.format) (T.view value.now) sink.old.items sink.new.items) }
    ensures front { IsFrontOf sink.old.items sink.new.items }
    ensures too_long { HasEncoding T.grammars (named_payload name.now T.format) (T.view value.now) → result ≢ Err TooLong }
{
    name.encode(sink)?;
    value.write_minimal(sink)
}

/// Appends the minimal encoding of the payload of a custom section of this name, whose data are
/// this value. On an error, the sink is unchanged.
pub(crate) fn append_single<T: Shorten, B: Allocator>(
    name: &str,
    value: &T,
    sink: &mut Vec<u8, B>,
) -> Result<()>
    ensures ok { OnOk result (AppendsMinimal T.grammars (named_payload name.now T.format) (T.view value.now) sink.old.items sink.new.items) }
    ensures err { OnErr result (sink.new.items ≡ sink.old.items) }
    ensures too_long { HasEncoding T.grammars (named_payload name.now T.format) (T.view value.now) → result ≢ Err TooLong }
{
    let start = sink.len();
    let written = write_single(name, value, sink);
    if written.is_err() {
        sink.truncate(start);
    }
    written
}
