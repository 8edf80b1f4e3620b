// Checks that payloads of custom sections decode. No item is kept.
ghost use Rattle.std.specs.Prelude.{◌≢◌, List, ℕ, IfErr, OnOk};
ghost use Rattle.wasm_base.specs.Continuing.{RejectsWhole};
ghost use Rattle.wasm_base.specs.Numbers.{padded_of};
ghost use Rattle.wasm_base.specs.declared.fault.ReadFault.TheVariants.{Memory};
ghost use Rattle.wasm_custom.specs.CodeMetadata.{Frequencies, HintedTargets, Orders, call_targets_payload, frequencies_payload, orders_payload};
ghost use Rattle.wasm_custom.specs.CoreDumps.{Instance, modules_payload, instances_payload};
ghost use Rattle.wasm_custom.specs.CoreStacks.{StackFrame, stack_payload};
ghost use Rattle.wasm_custom.specs.Dylink.{DylinkItem as DylinkModel, dylink_payload};
ghost use Rattle.wasm_custom.specs.Hints.{Hints, hints_payload};
ghost use Rattle.wasm_custom.specs.Linking.{LinkItem as LinkModel, linking_payload};
ghost use Rattle.wasm_custom.specs.Names.{NameItem as NameModel, name_payload};
ghost use Rattle.wasm_custom.specs.Producers.{Field, producers_payload};
ghost use Rattle.wasm_custom.specs.Relocations.{Relocations, relocations_payload};
ghost use Rattle.wasm_custom.specs.TargetFeatures.{Feature, features_payload};

use crate::call_targets::walk_call_targets;
use crate::compilation_orders::walk_orders;
use crate::core_walks::{walk_instances, walk_modules, walk_stack};
use crate::dylink_walks::walk_dylink;
use crate::instruction_frequencies::walk_frequencies;
use crate::item_walks::{walk_features, walk_hints, walk_producers, walk_relocations};
use crate::link_walks::walk_links;
use crate::name_walks::walk_names;
use std::alloc::Allocator;
use wasm_base::{DecodeError, Discard, Grammar};

/// Checks that the bytes are the payload of a name section, in the grammar `G`. No item is kept.
///
/// ```text
/// check_names::<_, Standard>(&payload, alloc)?;
/// ```
///
/// # Errors
///
/// An error means that the bytes are not such a payload.
#[tactic(auto, using(wasm_base::proofs::EffectLaws::checked_whole))]
pub fn check_names<'a, A: Allocator + Copy, G: Grammar>(
    bytes: &'a [u8],
    alloc: A,
) -> Result<(), DecodeError>
    ensures found { OnOk result ((x : List NameModel) × name_payload (padded_of G.grammar) bytes.now x) }
    ensures none { IfErr result (λ e. e.cause ≢ Memory → RejectsWhole name_payload (padded_of G.grammar) bytes.now) }
    ensures no_memory { IfErr result (λ e. e.cause ≢ Memory) }
{
    walk_names::<A, G, _>(bytes, alloc, &mut Discard)
}

/// Checks that the bytes are the payload of a linking section, in the grammar `G`. No item is kept.
///
/// ```text
/// check_links::<_, Standard>(&payload, alloc)?;
/// ```
///
/// # Errors
///
/// An error means that the bytes are not such a payload.
#[tactic(auto, using(wasm_base::proofs::EffectLaws::checked_whole))]
pub fn check_links<'a, A: Allocator + Copy, G: Grammar>(
    bytes: &'a [u8],
    alloc: A,
) -> Result<(), DecodeError>
    ensures found { OnOk result ((x : List LinkModel) × linking_payload (padded_of G.grammar) bytes.now x) }
    ensures none { IfErr result (λ e. e.cause ≢ Memory → RejectsWhole linking_payload (padded_of G.grammar) bytes.now) }
    ensures no_memory { IfErr result (λ e. e.cause ≢ Memory) }
{
    walk_links::<A, G, _>(bytes, alloc, &mut Discard)
}

/// Checks that the bytes are the payload of a dynamic library's section, in the grammar `G`. No
/// item is kept.
///
/// ```text
/// check_dylink::<_, Standard>(&payload, alloc)?;
/// ```
///
/// # Errors
///
/// An error means that the bytes are not such a payload.
#[tactic(auto, using(wasm_base::proofs::EffectLaws::checked_whole))]
pub fn check_dylink<'a, A: Allocator + Copy, G: Grammar>(
    bytes: &'a [u8],
    alloc: A,
) -> Result<(), DecodeError>
    ensures found { OnOk result ((x : List DylinkModel) × dylink_payload (padded_of G.grammar) bytes.now x) }
    ensures none { IfErr result (λ e. e.cause ≢ Memory → RejectsWhole dylink_payload (padded_of G.grammar) bytes.now) }
    ensures no_memory { IfErr result (λ e. e.cause ≢ Memory) }
{
    walk_dylink::<A, G, _>(bytes, alloc, &mut Discard)
}

/// Checks that the bytes are the payload of a producers section, in the grammar `G`. No item is
/// kept.
///
/// ```text
/// check_producers::<_, Standard>(&payload, alloc)?;
/// ```
///
/// # Errors
///
/// An error means that the bytes are not such a payload.
#[tactic(auto, using(wasm_base::proofs::EffectLaws::checked_whole))]
pub fn check_producers<'a, A: Allocator + Copy, G: Grammar>(
    bytes: &'a [u8],
    alloc: A,
) -> Result<(), DecodeError>
    ensures found { OnOk result ((x : List Field) × producers_payload (padded_of G.grammar) bytes.now x) }
    ensures none { IfErr result (λ e. e.cause ≢ Memory → RejectsWhole producers_payload (padded_of G.grammar) bytes.now) }
    ensures no_memory { IfErr result (λ e. e.cause ≢ Memory) }
{
    walk_producers::<A, G, _>(bytes, alloc, &mut Discard)
}

/// Checks that the bytes are the payload of a target features section, in the grammar `G`. No item
/// is kept.
///
/// ```text
/// check_features::<_, Standard>(&payload, alloc)?;
/// ```
///
/// # Errors
///
/// An error means that the bytes are not such a payload.
#[tactic(auto, using(wasm_base::proofs::EffectLaws::checked_whole))]
pub fn check_features<'a, A: Allocator + Copy, G: Grammar>(
    bytes: &'a [u8],
    alloc: A,
) -> Result<(), DecodeError>
    ensures found { OnOk result ((x : List Feature) × features_payload (padded_of G.grammar) bytes.now x) }
    ensures none { IfErr result (λ e. e.cause ≢ Memory → RejectsWhole features_payload (padded_of G.grammar) bytes.now) }
    ensures no_memory { IfErr result (λ e. e.cause ≢ Memory) }
{
    walk_features::<A, G, _>(bytes, alloc, &mut Discard)
}

/// Checks that the bytes are the payload of a branch hint section, in the grammar `G`. No item is
/// kept.
///
/// ```text
/// check_hints::<_, Standard>(&payload, alloc)?;
/// ```
///
/// # Errors
///
/// An error means that the bytes are not such a payload.
#[tactic(auto, using(wasm_base::proofs::EffectLaws::checked_whole))]
pub fn check_hints<'a, A: Allocator + Copy, G: Grammar>(
    bytes: &'a [u8],
    alloc: A,
) -> Result<(), DecodeError>
    ensures found { OnOk result ((x : List Hints) × hints_payload (padded_of G.grammar) bytes.now x) }
    ensures none { IfErr result (λ e. e.cause ≢ Memory → RejectsWhole hints_payload (padded_of G.grammar) bytes.now) }
    ensures no_memory { IfErr result (λ e. e.cause ≢ Memory) }
{
    walk_hints::<A, G, _>(bytes, alloc, &mut Discard)
}

/// Checks that the bytes are the payload of an instruction frequency section, in the grammar `G`.
/// No item is kept.
///
/// ```text
/// check_frequencies::<_, Standard>(&payload, alloc)?;
/// ```
///
/// # Errors
///
/// An error means that the bytes are not such a payload.
#[tactic(auto, using(wasm_base::proofs::EffectLaws::checked_whole))]
pub fn check_frequencies<'a, A: Allocator + Copy, G: Grammar>(
    bytes: &'a [u8],
    alloc: A,
) -> Result<(), DecodeError>
    ensures found { OnOk result ((x : List Frequencies) × frequencies_payload (padded_of G.grammar) bytes.now x) }
    ensures none { IfErr result (λ e. e.cause ≢ Memory → RejectsWhole frequencies_payload (padded_of G.grammar) bytes.now) }
    ensures no_memory { IfErr result (λ e. e.cause ≢ Memory) }
{
    walk_frequencies::<A, G, _>(bytes, alloc, &mut Discard)
}

/// Checks that the bytes are the payload of a compilation order section, in the grammar `G`. No
/// item is kept.
///
/// ```text
/// check_orders::<_, Standard>(&payload, alloc)?;
/// ```
///
/// # Errors
///
/// An error means that the bytes are not such a payload.
#[tactic(auto, using(wasm_base::proofs::EffectLaws::checked_whole))]
pub fn check_orders<'a, A: Allocator + Copy, G: Grammar>(
    bytes: &'a [u8],
    alloc: A,
) -> Result<(), DecodeError>
    ensures found { OnOk result ((x : List Orders) × orders_payload (padded_of G.grammar) bytes.now x) }
    ensures none { IfErr result (λ e. e.cause ≢ Memory → RejectsWhole orders_payload (padded_of G.grammar) bytes.now) }
    ensures no_memory { IfErr result (λ e. e.cause ≢ Memory) }
{
    walk_orders::<A, G, _>(bytes, alloc, &mut Discard)
}

/// Checks that the bytes are the payload of a call target section, in the grammar `G`. No item is
/// kept.
///
/// ```text
/// check_call_targets::<_, Standard>(&payload, alloc)?;
/// ```
///
/// # Errors
///
/// An error means that the bytes are not such a payload.
#[tactic(auto, using(wasm_base::proofs::EffectLaws::checked_whole))]
pub fn check_call_targets<'a, A: Allocator + Copy, G: Grammar>(
    bytes: &'a [u8],
    alloc: A,
) -> Result<(), DecodeError>
    ensures found { OnOk result ((x : List HintedTargets) × call_targets_payload (padded_of G.grammar) bytes.now x) }
    ensures none { IfErr result (λ e. e.cause ≢ Memory → RejectsWhole call_targets_payload (padded_of G.grammar) bytes.now) }
    ensures no_memory { IfErr result (λ e. e.cause ≢ Memory) }
{
    walk_call_targets::<A, G, _>(bytes, alloc, &mut Discard)
}

/// Checks that the bytes are the payload of a relocation section, in the grammar `G`. No item is
/// kept.
///
/// ```text
/// check_relocations::<_, Standard>(&payload, alloc)?;
/// ```
///
/// # Errors
///
/// An error means that the bytes are not such a payload.
#[tactic(auto, using(wasm_base::proofs::EffectLaws::checked_whole))]
pub fn check_relocations<'a, A: Allocator + Copy, G: Grammar>(
    bytes: &'a [u8],
    alloc: A,
) -> Result<(), DecodeError>
    ensures found { OnOk result ((x : Relocations) × relocations_payload (padded_of G.grammar) bytes.now x) }
    ensures none { IfErr result (λ e. e.cause ≢ Memory → RejectsWhole relocations_payload (padded_of G.grammar) bytes.now) }
    ensures no_memory { IfErr result (λ e. e.cause ≢ Memory) }
{
    walk_relocations::<A, G, _>(bytes, alloc, &mut Discard)
}

/// Checks that the bytes are the payload of a core dump's modules section, in the grammar `G`. No
/// item is kept.
///
/// ```text
/// check_modules::<_, Standard>(&payload, alloc)?;
/// ```
///
/// # Errors
///
/// An error means that the bytes are not such a payload.
#[tactic(auto, using(wasm_base::proofs::EffectLaws::checked_whole))]
pub fn check_modules<'a, A: Allocator + Copy, G: Grammar>(
    bytes: &'a [u8],
    alloc: A,
) -> Result<(), DecodeError>
    ensures found { OnOk result ((x : List (List ℕ)) × modules_payload (padded_of G.grammar) bytes.now x) }
    ensures none { IfErr result (λ e. e.cause ≢ Memory → RejectsWhole modules_payload (padded_of G.grammar) bytes.now) }
    ensures no_memory { IfErr result (λ e. e.cause ≢ Memory) }
{
    walk_modules::<A, G, _>(bytes, alloc, &mut Discard)
}

/// Checks that the bytes are the payload of a core dump's instances section, in the grammar `G`. No
/// item is kept.
///
/// ```text
/// check_instances::<_, Standard>(&payload, alloc)?;
/// ```
///
/// # Errors
///
/// An error means that the bytes are not such a payload.
#[tactic(auto, using(wasm_base::proofs::EffectLaws::checked_whole))]
pub fn check_instances<'a, A: Allocator + Copy, G: Grammar>(
    bytes: &'a [u8],
    alloc: A,
) -> Result<(), DecodeError>
    ensures found { OnOk result ((x : List Instance) × instances_payload (padded_of G.grammar) bytes.now x) }
    ensures none { IfErr result (λ e. e.cause ≢ Memory → RejectsWhole instances_payload (padded_of G.grammar) bytes.now) }
    ensures no_memory { IfErr result (λ e. e.cause ≢ Memory) }
{
    walk_instances::<A, G, _>(bytes, alloc, &mut Discard)
}

/// Checks that the bytes are the payload of a core dump's stack section, in the grammar `G`. No
/// item is kept.
///
/// ```text
/// check_stack::<_, Standard>(&payload, alloc)?;
/// ```
///
/// # Errors
///
/// An error means that the bytes are not such a payload.
#[tactic(auto, using(wasm_base::proofs::EffectLaws::checked_whole))]
pub fn check_stack<'a, A: Allocator + Copy, G: Grammar>(
    bytes: &'a [u8],
    alloc: A,
) -> Result<(), DecodeError>
    ensures found { OnOk result ((x : List ℕ × List StackFrame) × stack_payload (padded_of G.grammar) bytes.now x) }
    ensures none { IfErr result (λ e. e.cause ≢ Memory → RejectsWhole stack_payload (padded_of G.grammar) bytes.now) }
    ensures no_memory { IfErr result (λ e. e.cause ≢ Memory) }
{
    walk_stack::<A, G, _>(bytes, alloc, &mut Discard)
}
