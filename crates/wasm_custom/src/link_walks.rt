// Linking sections that are walked over: an effect takes their minimal encoding.
ghost use Rattle.std.specs.Prelude.{◌≡◌, ◌≢◌, IfOk, IfErr, OnOk};
ghost use Rattle.wasm_base.specs.Minimal.{both_grammars};
ghost use Rattle.wasm_base.specs.Numbers.{padded_of};
ghost use Rattle.wasm_base.specs.Continuing.{RejectsWhole};
ghost use Rattle.wasm_base.specs.Decoding.{Rejects};
ghost use Rattle.wasm_base.specs.Walks.{Keeps, Walks, WalksWhole};
ghost use Rattle.wasm_base.specs.declared.fault.ReadFault.TheVariants.{Memory};
ghost use Rattle.wasm_custom.specs.Comdats.{comdat};
ghost use Rattle.wasm_custom.specs.Linking.{link, linking_payload};
ghost use Rattle.wasm_custom.specs.Segments.{segment};
ghost use Rattle.wasm_custom.specs.Symbols.{symbol};

use crate::comdats::{Comdat, ComdatSymbol};
use crate::init_functions::InitFunction;
use crate::linking::{LinkItem, VERSION, after_version};
use crate::named::after_name;
use crate::segments::SegmentInfo;
use crate::standard::require_standard;
use crate::symbols::Symbol;
use std::alloc::Allocator;
use wasm_base::{
    DecodeError, Effect, Grammar, Readable, Shared, SizePrefixed, Walk, walk_shared, walk_to_end,
};

impl<'s, G: Grammar> Walk<G> for SegmentInfo<'s> {
    fn walk<'a, A: Allocator + Copy, E: Effect>(
        bytes: &'a [u8],
        alloc: A,
        effect: &mut E,
    ) -> Result<&'a [u8], DecodeError>
        ensures found { IfOk result (λ rest. Walks E.seen G.grammar segment bytes.now rest.now effect.old effect.new) }
        ensures none { IfErr result (λ e. e.cause ≢ Memory → Rejects segment (padded_of G.grammar) bytes.now) }
        ensures no_memory { IfErr result (λ e. e.cause ≡ Memory → E.may_fail) }
        ensures front { Keeps E.seen effect.old effect.new }
    {
        <(&'a str, (u32, u32)) as Walk<G>>::walk(bytes, alloc, effect)
    }
}

impl<G: Grammar> Walk<G> for InitFunction {
    fn walk<'a, A: Allocator + Copy, E: Effect>(
        bytes: &'a [u8],
        alloc: A,
        effect: &mut E,
    ) -> Result<&'a [u8], DecodeError> {
        <(u32, u32) as Walk<G>>::walk(bytes, alloc, effect)
    }
}

impl Shared for ComdatSymbol {
    fn shared() {}
}

impl<G: Grammar> Walk<G> for ComdatSymbol {
    fn walk<'a, A: Allocator + Copy, E: Effect>(
        bytes: &'a [u8],
        alloc: A,
        effect: &mut E,
    ) -> Result<&'a [u8], DecodeError> {
        walk_shared::<ComdatSymbol, A, G, _>(bytes, alloc, effect)
    }
}

impl<'s, G: Grammar, C: Allocator> Walk<G> for Comdat<'s, C> {
    fn walk<'a, A: Allocator + Copy, E: Effect>(
        bytes: &'a [u8],
        alloc: A,
        effect: &mut E,
    ) -> Result<&'a [u8], DecodeError>
        ensures found { IfOk result (λ rest. Walks E.seen G.grammar comdat bytes.now rest.now effect.old effect.new) }
        ensures none { IfErr result (λ e. e.cause ≢ Memory → Rejects comdat (padded_of G.grammar) bytes.now) }
        ensures no_memory { IfErr result (λ e. e.cause ≡ Memory → E.may_fail) }
        ensures front { Keeps E.seen effect.old effect.new }
    {
        <(&'a str, (u32, Vec<ComdatSymbol, C>)) as Walk<G>>::walk(bytes, alloc, effect)
    }
}

impl<'s> Shared for Symbol<'s> {
    fn shared()
        ensures { both_grammars ≡ both_grammars }
    {}
}

impl<'s, G: Grammar> Walk<G> for Symbol<'s> {
    fn walk<'a, A: Allocator + Copy, E: Effect>(
        bytes: &'a [u8],
        alloc: A,
        effect: &mut E,
    ) -> Result<&'a [u8], DecodeError>
        ensures found { IfOk result (λ rest. Walks E.seen G.grammar symbol bytes.now rest.now effect.old effect.new) }
        ensures none { IfErr result (λ e. e.cause ≢ Memory → Rejects symbol (padded_of G.grammar) bytes.now) }
        ensures no_memory { IfErr result (λ e. e.cause ≡ Memory → E.may_fail) }
        ensures front { Keeps E.seen effect.old effect.new }
    {
        walk_shared::<Symbol<'a>, A, G, _>(bytes, alloc, effect)
    }
}

impl<'s, G: Grammar, C: Allocator> Walk<G> for LinkItem<'s, C> {
    #[tactic(auto, using(crate::proofs::LinkLaws::link_steps, wasm_base::proofs::WalkLaws::keep_steps))]
    fn walk<'a, A: Allocator + Copy, E: Effect>(
        bytes: &'a [u8],
        alloc: A,
        effect: &mut E,
    ) -> Result<&'a [u8], DecodeError>
        ensures found { IfOk result (λ rest. Walks E.seen G.grammar link bytes.now rest.now effect.old effect.new) }
        ensures none { IfErr result (λ e. e.cause ≢ Memory → Rejects link (padded_of G.grammar) bytes.now) }
        ensures no_memory { IfErr result (λ e. e.cause ≡ Memory → E.may_fail) }
        ensures front { Keeps E.seen effect.old effect.new }
    {
        let (id, rest) = <u8 as Readable<'a, A, G>>::read(bytes, alloc)?;
        effect.put(&id)?;
        match id {
            5 => {
                require_standard::<G>(rest)?;
                <SizePrefixed<Vec<SegmentInfo<'a>, C>> as Walk<G>>::walk(rest, alloc, effect)
            }
            6 => {
                require_standard::<G>(rest)?;
                <SizePrefixed<Vec<InitFunction, C>> as Walk<G>>::walk(rest, alloc, effect)
            }
            7 => {
                require_standard::<G>(rest)?;
                <SizePrefixed<Vec<Comdat<'a, C>, C>> as Walk<G>>::walk(rest, alloc, effect)
            }
            8 => <SizePrefixed<Vec<Symbol<'a>, C>> as Walk<G>>::walk(rest, alloc, effect),
            9 => <SizePrefixed<&'a str> as Walk<G>>::walk(rest, alloc, effect),
            _ => {
                require_standard::<G>(rest)?;
                <&'a [u8] as Walk<G>>::walk(rest, alloc, effect)
            }
        }
    }
}

/// Walks over the payload of a linking section, in the grammar `G`.
///
/// # Errors
///
/// Every error except `Memory` means that the bytes are not such a payload.
#[tactic(auto, using(crate::proofs::LinkLaws::section_steps, wasm_base::proofs::WalkLaws::keep_steps))]
pub fn walk_links<'a, A: Allocator + Copy, G: Grammar, E: Effect>(
    bytes: &'a [u8],
    alloc: A,
    effect: &mut E,
) -> Result<(), DecodeError>
    ensures found { OnOk result (WalksWhole E.seen G.grammar linking_payload bytes.now effect.old effect.new) }
    ensures none { IfErr result (λ e. e.cause ≢ Memory → RejectsWhole linking_payload (padded_of G.grammar) bytes.now) }
    ensures no_memory { IfErr result (λ e. e.cause ≡ Memory → E.may_fail) }
    ensures front { Keeps E.seen effect.old effect.new }
{
    let rest = after_name::<A, G>("linking", bytes, alloc)?;
    let rest = after_version::<A, G>(rest, alloc)?;
    effect.put(&"linking")?;
    effect.put(&VERSION)?;
    walk_to_end::<LinkItem<'a, A>, A, G, _>(rest, alloc, effect)
}
