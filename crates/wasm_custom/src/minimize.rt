// Minimizes payloads of custom sections. No item is kept.
ghost use Rattle.std.specs.Prelude.{◌≢◌, IfErr, OnOk};
ghost use Rattle.wasm_base.specs.Continuing.{RejectsWhole};
ghost use Rattle.wasm_base.specs.Minimal.{MinimizesWhole, IsFrontOf};
ghost use Rattle.wasm_base.specs.Numbers.{padded_of};
ghost use Rattle.wasm_base.specs.declared.fault.ReadFault.TheVariants.{Memory};
ghost use Rattle.wasm_custom.specs.CodeMetadata.{call_targets_payload, frequencies_payload, orders_payload};
ghost use Rattle.wasm_custom.specs.CoreDumps.{modules_payload, instances_payload};
ghost use Rattle.wasm_custom.specs.CoreStacks.{stack_payload};
ghost use Rattle.wasm_custom.specs.Dylink.{dylink_payload};
ghost use Rattle.wasm_custom.specs.Hints.{hints_payload};
ghost use Rattle.wasm_custom.specs.Linking.{linking_payload};
ghost use Rattle.wasm_custom.specs.Names.{name_payload};
ghost use Rattle.wasm_custom.specs.Producers.{producers_payload};
ghost use Rattle.wasm_custom.specs.Relocations.{relocations_payload};
ghost use Rattle.wasm_custom.specs.TargetFeatures.{features_payload};

use crate::call_targets::walk_call_targets;
use crate::compilation_orders::walk_orders;
use crate::core_walks::{walk_instances, walk_modules, walk_stack};
use crate::dylink_walks::walk_dylink;
use crate::instruction_frequencies::walk_frequencies;
use crate::item_walks::{walk_features, walk_hints, walk_producers, walk_relocations};
use crate::link_walks::walk_links;
use crate::name_walks::walk_names;
use std::alloc::Allocator;
use wasm_base::{DecodeError, Grammar};

/// Appends the minimal encoding, in the grammar `G`, of the payload of a name section. After an
/// error, part of it may follow the old bytes of the sink.
///
/// ```text
/// minimize_names::<_, Standard, _>(&payload, alloc, &mut out)?;
/// ```
///
/// # Errors
///
/// Every error except `Memory` means that the bytes are not such a payload.
#[tactic(auto, using(wasm_base::proofs::EffectLaws::minimized_whole, wasm_base::proofs::EffectLaws::front_kept))]
pub fn minimize_names<'a, A: Allocator + Copy, G: Grammar, B: Allocator>(
    bytes: &'a [u8],
    alloc: A,
    sink: &mut Vec<u8, B>,
) -> Result<(), DecodeError>
    ensures found { OnOk result (MinimizesWhole G.grammar name_payload bytes.now sink.old.items sink.new.items) }
    ensures none { IfErr result (λ e. e.cause ≢ Memory → RejectsWhole name_payload (padded_of G.grammar) bytes.now) }
    ensures front { IsFrontOf sink.old.items sink.new.items }
{
    walk_names::<A, G, _>(bytes, alloc, sink)
}

/// Appends the minimal encoding, in the grammar `G`, of the payload of a linking section. After an
/// error, part of it may follow the old bytes of the sink.
///
/// ```text
/// minimize_links::<_, Standard, _>(&payload, alloc, &mut out)?;
/// ```
///
/// # Errors
///
/// Every error except `Memory` means that the bytes are not such a payload.
#[tactic(auto, using(wasm_base::proofs::EffectLaws::minimized_whole, wasm_base::proofs::EffectLaws::front_kept))]
pub fn minimize_links<'a, A: Allocator + Copy, G: Grammar, B: Allocator>(
    bytes: &'a [u8],
    alloc: A,
    sink: &mut Vec<u8, B>,
) -> Result<(), DecodeError>
    ensures found { OnOk result (MinimizesWhole G.grammar linking_payload bytes.now sink.old.items sink.new.items) }
    ensures none { IfErr result (λ e. e.cause ≢ Memory → RejectsWhole linking_payload (padded_of G.grammar) bytes.now) }
    ensures front { IsFrontOf sink.old.items sink.new.items }
{
    walk_links::<A, G, _>(bytes, alloc, sink)
}

/// Appends the minimal encoding, in the grammar `G`, of the payload of a dynamic library's section.
/// After an error, part of it may follow the old bytes of the sink.
///
/// ```text
/// minimize_dylink::<_, Standard, _>(&payload, alloc, &mut out)?;
/// ```
///
/// # Errors
///
/// Every error except `Memory` means that the bytes are not such a payload.
#[tactic(auto, using(wasm_base::proofs::EffectLaws::minimized_whole, wasm_base::proofs::EffectLaws::front_kept))]
pub fn minimize_dylink<'a, A: Allocator + Copy, G: Grammar, B: Allocator>(
    bytes: &'a [u8],
    alloc: A,
    sink: &mut Vec<u8, B>,
) -> Result<(), DecodeError>
    ensures found { OnOk result (MinimizesWhole G.grammar dylink_payload bytes.now sink.old.items sink.new.items) }
    ensures none { IfErr result (λ e. e.cause ≢ Memory → RejectsWhole dylink_payload (padded_of G.grammar) bytes.now) }
    ensures front { IsFrontOf sink.old.items sink.new.items }
{
    walk_dylink::<A, G, _>(bytes, alloc, sink)
}

/// Appends the minimal encoding, in the grammar `G`, of the payload of a producers section. After
/// an error, part of it may follow the old bytes of the sink.
///
/// ```text
/// minimize_producers::<_, Standard, _>(&payload, alloc, &mut out)?;
/// ```
///
/// # Errors
///
/// Every error except `Memory` means that the bytes are not such a payload.
#[tactic(auto, using(wasm_base::proofs::EffectLaws::minimized_whole, wasm_base::proofs::EffectLaws::front_kept))]
pub fn minimize_producers<'a, A: Allocator + Copy, G: Grammar, B: Allocator>(
    bytes: &'a [u8],
    alloc: A,
    sink: &mut Vec<u8, B>,
) -> Result<(), DecodeError>
    ensures found { OnOk result (MinimizesWhole G.grammar producers_payload bytes.now sink.old.items sink.new.items) }
    ensures none { IfErr result (λ e. e.cause ≢ Memory → RejectsWhole producers_payload (padded_of G.grammar) bytes.now) }
    ensures front { IsFrontOf sink.old.items sink.new.items }
{
    walk_producers::<A, G, _>(bytes, alloc, sink)
}

/// Appends the minimal encoding, in the grammar `G`, of the payload of a target features section.
/// After an error, part of it may follow the old bytes of the sink.
///
/// ```text
/// minimize_features::<_, Standard, _>(&payload, alloc, &mut out)?;
/// ```
///
/// # Errors
///
/// Every error except `Memory` means that the bytes are not such a payload.
#[tactic(auto, using(wasm_base::proofs::EffectLaws::minimized_whole, wasm_base::proofs::EffectLaws::front_kept))]
pub fn minimize_features<'a, A: Allocator + Copy, G: Grammar, B: Allocator>(
    bytes: &'a [u8],
    alloc: A,
    sink: &mut Vec<u8, B>,
) -> Result<(), DecodeError>
    ensures found { OnOk result (MinimizesWhole G.grammar features_payload bytes.now sink.old.items sink.new.items) }
    ensures none { IfErr result (λ e. e.cause ≢ Memory → RejectsWhole features_payload (padded_of G.grammar) bytes.now) }
    ensures front { IsFrontOf sink.old.items sink.new.items }
{
    walk_features::<A, G, _>(bytes, alloc, sink)
}

/// Appends the minimal encoding, in the grammar `G`, of the payload of a branch hint section. After
/// an error, part of it may follow the old bytes of the sink.
///
/// ```text
/// minimize_hints::<_, Standard, _>(&payload, alloc, &mut out)?;
/// ```
///
/// # Errors
///
/// Every error except `Memory` means that the bytes are not such a payload.
#[tactic(auto, using(wasm_base::proofs::EffectLaws::minimized_whole, wasm_base::proofs::EffectLaws::front_kept))]
pub fn minimize_hints<'a, A: Allocator + Copy, G: Grammar, B: Allocator>(
    bytes: &'a [u8],
    alloc: A,
    sink: &mut Vec<u8, B>,
) -> Result<(), DecodeError>
    ensures found { OnOk result (MinimizesWhole G.grammar hints_payload bytes.now sink.old.items sink.new.items) }
    ensures none { IfErr result (λ e. e.cause ≢ Memory → RejectsWhole hints_payload (padded_of G.grammar) bytes.now) }
    ensures front { IsFrontOf sink.old.items sink.new.items }
{
    walk_hints::<A, G, _>(bytes, alloc, sink)
}

/// Appends the minimal encoding, in the grammar `G`, of the payload of an instruction frequency
/// section. After an error, part of it may follow the old bytes of the sink.
///
/// ```text
/// minimize_frequencies::<_, Standard, _>(&payload, alloc, &mut out)?;
/// ```
///
/// # Errors
///
/// Every error except `Memory` means that the bytes are not such a payload.
#[tactic(auto, using(wasm_base::proofs::EffectLaws::minimized_whole, wasm_base::proofs::EffectLaws::front_kept))]
pub fn minimize_frequencies<'a, A: Allocator + Copy, G: Grammar, B: Allocator>(
    bytes: &'a [u8],
    alloc: A,
    sink: &mut Vec<u8, B>,
) -> Result<(), DecodeError>
    ensures found { OnOk result (MinimizesWhole G.grammar frequencies_payload bytes.now sink.old.items sink.new.items) }
    ensures none { IfErr result (λ e. e.cause ≢ Memory → RejectsWhole frequencies_payload (padded_of G.grammar) bytes.now) }
    ensures front { IsFrontOf sink.old.items sink.new.items }
{
    walk_frequencies::<A, G, _>(bytes, alloc, sink)
}

/// Appends the minimal encoding, in the grammar `G`, of the payload of a compilation order section.
/// After an error, part of it may follow the old bytes of the sink.
///
/// ```text
/// minimize_orders::<_, Standard, _>(&payload, alloc, &mut out)?;
/// ```
///
/// # Errors
///
/// Every error except `Memory` means that the bytes are not such a payload.
#[tactic(auto, using(wasm_base::proofs::EffectLaws::minimized_whole, wasm_base::proofs::EffectLaws::front_kept))]
pub fn minimize_orders<'a, A: Allocator + Copy, G: Grammar, B: Allocator>(
    bytes: &'a [u8],
    alloc: A,
    sink: &mut Vec<u8, B>,
) -> Result<(), DecodeError>
    ensures found { OnOk result (MinimizesWhole G.grammar orders_payload bytes.now sink.old.items sink.new.items) }
    ensures none { IfErr result (λ e. e.cause ≢ Memory → RejectsWhole orders_payload (padded_of G.grammar) bytes.now) }
    ensures front { IsFrontOf sink.old.items sink.new.items }
{
    walk_orders::<A, G, _>(bytes, alloc, sink)
}

/// Appends the minimal encoding, in the grammar `G`, of the payload of a call target section. After
/// an error, part of it may follow the old bytes of the sink.
///
/// ```text
/// minimize_call_targets::<_, Standard, _>(&payload, alloc, &mut out)?;
/// ```
///
/// # Errors
///
/// Every error except `Memory` means that the bytes are not such a payload.
#[tactic(auto, using(wasm_base::proofs::EffectLaws::minimized_whole, wasm_base::proofs::EffectLaws::front_kept))]
pub fn minimize_call_targets<'a, A: Allocator + Copy, G: Grammar, B: Allocator>(
    bytes: &'a [u8],
    alloc: A,
    sink: &mut Vec<u8, B>,
) -> Result<(), DecodeError>
    ensures found { OnOk result (MinimizesWhole G.grammar call_targets_payload bytes.now sink.old.items sink.new.items) }
    ensures none { IfErr result (λ e. e.cause ≢ Memory → RejectsWhole call_targets_payload (padded_of G.grammar) bytes.now) }
    ensures front { IsFrontOf sink.old.items sink.new.items }
{
    walk_call_targets::<A, G, _>(bytes, alloc, sink)
}

/// Appends the minimal encoding, in the grammar `G`, of the payload of a relocation section. After
/// an error, part of it may follow the old bytes of the sink. The offsets of the relocations stay
/// as they are, even if the section that they refer to is minimized too.
///
/// ```text
/// minimize_relocations::<_, Standard, _>(&payload, alloc, &mut out)?;
/// ```
///
/// # Errors
///
/// Every error except `Memory` means that the bytes are not such a payload.
#[tactic(auto, using(wasm_base::proofs::EffectLaws::minimized_whole, wasm_base::proofs::EffectLaws::front_kept))]
pub fn minimize_relocations<'a, A: Allocator + Copy, G: Grammar, B: Allocator>(
    bytes: &'a [u8],
    alloc: A,
    sink: &mut Vec<u8, B>,
) -> Result<(), DecodeError>
    ensures found { OnOk result (MinimizesWhole G.grammar relocations_payload bytes.now sink.old.items sink.new.items) }
    ensures none { IfErr result (λ e. e.cause ≢ Memory → RejectsWhole relocations_payload (padded_of G.grammar) bytes.now) }
    ensures front { IsFrontOf sink.old.items sink.new.items }
{
    walk_relocations::<A, G, _>(bytes, alloc, sink)
}

/// Appends the minimal encoding, in the grammar `G`, of the payload of a core dump's modules
/// section. After an error, part of it may follow the old bytes of the sink.
///
/// ```text
/// minimize_modules::<_, Standard, _>(&payload, alloc, &mut out)?;
/// ```
///
/// # Errors
///
/// Every error except `Memory` means that the bytes are not such a payload.
#[tactic(auto, using(wasm_base::proofs::EffectLaws::minimized_whole, wasm_base::proofs::EffectLaws::front_kept))]
pub fn minimize_modules<'a, A: Allocator + Copy, G: Grammar, B: Allocator>(
    bytes: &'a [u8],
    alloc: A,
    sink: &mut Vec<u8, B>,
) -> Result<(), DecodeError>
    ensures found { OnOk result (MinimizesWhole G.grammar modules_payload bytes.now sink.old.items sink.new.items) }
    ensures none { IfErr result (λ e. e.cause ≢ Memory → RejectsWhole modules_payload (padded_of G.grammar) bytes.now) }
    ensures front { IsFrontOf sink.old.items sink.new.items }
{
    walk_modules::<A, G, _>(bytes, alloc, sink)
}

/// Appends the minimal encoding, in the grammar `G`, of the payload of a core dump's instances
/// section. After an error, part of it may follow the old bytes of the sink.
///
/// ```text
/// minimize_instances::<_, Standard, _>(&payload, alloc, &mut out)?;
/// ```
///
/// # Errors
///
/// Every error except `Memory` means that the bytes are not such a payload.
#[tactic(auto, using(wasm_base::proofs::EffectLaws::minimized_whole, wasm_base::proofs::EffectLaws::front_kept))]
pub fn minimize_instances<'a, A: Allocator + Copy, G: Grammar, B: Allocator>(
    bytes: &'a [u8],
    alloc: A,
    sink: &mut Vec<u8, B>,
) -> Result<(), DecodeError>
    ensures found { OnOk result (MinimizesWhole G.grammar instances_payload bytes.now sink.old.items sink.new.items) }
    ensures none { IfErr result (λ e. e.cause ≢ Memory → RejectsWhole instances_payload (padded_of G.grammar) bytes.now) }
    ensures front { IsFrontOf sink.old.items sink.new.items }
{
    walk_instances::<A, G, _>(bytes, alloc, sink)
}

/// Appends the minimal encoding, in the grammar `G`, of the payload of a core dump's stack section.
/// After an error, part of it may follow the old bytes of the sink.
///
/// ```text
/// minimize_stack::<_, Standard, _>(&payload, alloc, &mut out)?;
/// ```
///
/// # Errors
///
/// Every error except `Memory` means that the bytes are not such a payload.
#[tactic(auto, using(wasm_base::proofs::EffectLaws::minimized_whole, wasm_base::proofs::EffectLaws::front_kept))]
pub fn minimize_stack<'a, A: Allocator + Copy, G: Grammar, B: Allocator>(
    bytes: &'a [u8],
    alloc: A,
    sink: &mut Vec<u8, B>,
) -> Result<(), DecodeError>
    ensures found { OnOk result (MinimizesWhole G.grammar stack_payload bytes.now sink.old.items sink.new.items) }
    ensures none { IfErr result (λ e. e.cause ≢ Memory → RejectsWhole stack_payload (padded_of G.grammar) bytes.now) }
    ensures front { IsFrontOf sink.old.items sink.new.items }
{
    walk_stack::<A, G, _>(bytes, alloc, sink)
}
