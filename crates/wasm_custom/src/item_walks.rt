// Custom sections of counted items that are walked over: an effect takes their minimal encoding.
ghost use Rattle.std.specs.Prelude.{◌≡◌, ◌≢◌, IfErr, OnOk};
ghost use Rattle.wasm_base.specs.Continuing.{RejectsWhole};
ghost use Rattle.wasm_base.specs.Numbers.{padded_of};
ghost use Rattle.wasm_base.specs.Walks.{Keeps, WalksWhole};
ghost use Rattle.wasm_base.specs.declared.fault.ReadFault.TheVariants.{Memory};
ghost use Rattle.wasm_custom.specs.Entries.{counted_payload};
ghost use Rattle.wasm_custom.specs.TargetFeatures.{features_payload};
ghost use Rattle.wasm_custom.specs.Hints.{hints_payload};
ghost use Rattle.wasm_custom.specs.Producers.{producers_payload};
ghost use Rattle.wasm_custom.specs.Relocations.{relocations_payload};

use crate::hints::{BranchHint, HintValue};
use crate::marked::walk_marked;
use crate::named::after_name;
use crate::relocations::Relocation;
use crate::target_features::FeaturePrefix;
use std::alloc::Allocator;
use wasm_base::{
    DecodeError, Effect, Grammar, ReadFault, Readable, Shared, Walk, walk_shared, walk_whole,
};

/// Walks over the payload of a section of this name with a vector of items. No item is kept.
#[tactic(auto, using(wasm_base::proofs::WalkLaws::keep_steps))]
pub(crate) fn walk_counted<'a, T: Walk<G>, A: Allocator + Copy, G: Grammar, E: Effect>(
    name: &str,
    bytes: &'a [u8],
    alloc: A,
    effect: &mut E,
) -> Result<(), DecodeError>
    ensures found { OnOk result (WalksWhole E.seen G.grammar (counted_payload name.now T.format) bytes.now effect.old effect.new) }
    ensures none { IfErr result (λ e. e.cause ≢ Memory → RejectsWhole (counted_payload name.now T.format) (padded_of G.grammar) bytes.now) }
    ensures no_memory { IfErr result (λ e. e.cause ≡ Memory → E.may_fail) }
    ensures front { Keeps E.seen effect.old effect.new }
{
    let rest = after_name::<A, G>(name, bytes, alloc)?;
    effect.put(&name)?;
    walk_whole::<Vec<T, A>, A, G, _>(rest, alloc, effect)
}

/// Walks over the payload of a producers section, in the grammar `G`.
///
/// # Errors
///
/// Every error except `Memory` means that the bytes are not such a payload.
pub fn walk_producers<'a, A: Allocator + Copy, G: Grammar, E: Effect>(
    bytes: &'a [u8],
    alloc: A,
    effect: &mut E,
) -> Result<(), DecodeError>
    ensures found { OnOk result (WalksWhole E.seen G.grammar producers_payload bytes.now effect.old effect.new) }
    ensures none { IfErr result (λ e. e.cause ≢ Memory → RejectsWhole producers_payload (padded_of G.grammar) bytes.now) }
    ensures no_memory { IfErr result (λ e. e.cause ≡ Memory → E.may_fail) }
    ensures front { Keeps E.seen effect.old effect.new }
{
    walk_counted::<(&'a str, Vec<(&'a str, &'a str), A>), A, G, _>(
        "producers",
        bytes,
        alloc,
        effect,
    )
}

impl Shared for FeaturePrefix {
    fn shared() {}
}

impl<G: Grammar> Walk<G> for FeaturePrefix {
    fn walk<'a, A: Allocator + Copy, E: Effect>(
        bytes: &'a [u8],
        alloc: A,
        effect: &mut E,
    ) -> Result<&'a [u8], DecodeError> {
        walk_shared::<FeaturePrefix, A, G, _>(bytes, alloc, effect)
    }
}

/// Walks over the payload of a target features section, in the grammar `G`.
///
/// # Errors
///
/// Every error except `Memory` means that the bytes are not such a payload.
pub fn walk_features<'a, A: Allocator + Copy, G: Grammar, E: Effect>(
    bytes: &'a [u8],
    alloc: A,
    effect: &mut E,
) -> Result<(), DecodeError>
    ensures found { OnOk result (WalksWhole E.seen G.grammar features_payload bytes.now effect.old effect.new) }
    ensures none { IfErr result (λ e. e.cause ≢ Memory → RejectsWhole features_payload (padded_of G.grammar) bytes.now) }
    ensures no_memory { IfErr result (λ e. e.cause ≡ Memory → E.may_fail) }
    ensures front { Keeps E.seen effect.old effect.new }
{
    walk_counted::<(FeaturePrefix, &'a str), A, G, _>("target_features", bytes, alloc, effect)
}

impl<G: Grammar> Walk<G> for HintValue {
    #[tactic(auto, using(crate::proofs::WalkCustoms::hint_value_walks, wasm_base::proofs::WalkLaws::keep_steps))]
    fn walk<'a, A: Allocator + Copy, E: Effect>(
        bytes: &'a [u8],
        alloc: A,
        effect: &mut E,
    ) -> Result<&'a [u8], DecodeError> {
        let (HintValue(value), rest) = <HintValue as Readable<'a, A, G>>::read(bytes, alloc)?;
        effect.put(&value)?;
        Ok(rest)
    }
}

impl<G: Grammar> Walk<G> for BranchHint {
    #[tactic(auto, using(wasm_base::proofs::WalkLaws::keep_steps))]
    fn walk<'a, A: Allocator + Copy, E: Effect>(
        bytes: &'a [u8],
        alloc: A,
        effect: &mut E,
    ) -> Result<&'a [u8], DecodeError> {
        let after = <u32 as Walk<G>>::walk(bytes, alloc, effect)?;
        walk_marked::<HintValue, A, G, _>(0x01, after, alloc, effect)
    }
}

/// Walks over the payload of a branch hint section, in the grammar `G`.
///
/// # Errors
///
/// Every error except `Memory` means that the bytes are not such a payload.
pub fn walk_hints<'a, A: Allocator + Copy, G: Grammar, E: Effect>(
    bytes: &'a [u8],
    alloc: A,
    effect: &mut E,
) -> Result<(), DecodeError>
    ensures found { OnOk result (WalksWhole E.seen G.grammar hints_payload bytes.now effect.old effect.new) }
    ensures none { IfErr result (λ e. e.cause ≢ Memory → RejectsWhole hints_payload (padded_of G.grammar) bytes.now) }
    ensures no_memory { IfErr result (λ e. e.cause ≡ Memory → E.may_fail) }
    ensures front { Keeps E.seen effect.old effect.new }
{
    walk_counted::<(u32, Vec<BranchHint, A>), A, G, _>(
        "metadata.code.branch_hint",
        bytes,
        alloc,
        effect,
    )
}

impl Shared for Relocation {
    fn shared() {}
}

impl<G: Grammar> Walk<G> for Relocation {
    fn walk<'a, A: Allocator + Copy, E: Effect>(
        bytes: &'a [u8],
        alloc: A,
        effect: &mut E,
    ) -> Result<&'a [u8], DecodeError> {
        walk_shared::<Relocation, A, G, _>(bytes, alloc, effect)
    }
}

/// Walks over the payload of a relocation section, in the grammar `G`. The offsets of the
/// relocations stay as they are, even if the section that they refer to is minimized too.
///
/// # Errors
///
/// Every error except `Memory` means that the bytes are not such a payload.
#[tactic(auto, using(crate::proofs::RelocationLaws::section_steps, wasm_base::proofs::WalkLaws::keep_steps))]
pub fn walk_relocations<'a, A: Allocator + Copy, G: Grammar, E: Effect>(
    bytes: &'a [u8],
    alloc: A,
    effect: &mut E,
) -> Result<(), DecodeError>
    ensures found { OnOk result (WalksWhole E.seen G.grammar relocations_payload bytes.now effect.old effect.new) }
    ensures none { IfErr result (λ e. e.cause ≢ Memory → RejectsWhole relocations_payload (padded_of G.grammar) bytes.now) }
    ensures no_memory { IfErr result (λ e. e.cause ≡ Memory → E.may_fail) }
    ensures front { Keeps E.seen effect.old effect.new }
{
    let (name, rest) = <&'a str as Readable<'a, A, G>>::read(bytes, alloc)?;
    if !name.as_bytes().starts_with(b"reloc.") {
        return Err(ReadFault::UnknownTag.at(name.as_bytes()).before(rest));
    }
    effect.put(&name)?;
    walk_whole::<(u32, Vec<Relocation, A>), A, G, _>(rest, alloc, effect)
}
