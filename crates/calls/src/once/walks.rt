//! Walks over values and payloads, with both effects.
use std::alloc::Allocator;
use wasm_base::{
    DecodeError, Discard, Padded, Standard, check_to_end, minimize_many, minimize_to_end,
    minimize_whole, skip_value, walk_many,
};
use wasm_custom::{
    check_call_targets, check_dylink, check_features, check_frequencies, check_hints,
    check_instances, check_links, check_modules, check_names, check_orders, check_producers,
    check_relocations, check_stack, minimize_call_targets, minimize_dylink, minimize_features,
    minimize_frequencies, minimize_hints, minimize_instances, minimize_links, minimize_modules,
    minimize_names, minimize_orders, minimize_producers, minimize_relocations, minimize_stack,
};
use wasm_insn::Plain;

#[tactic(auto, using(wasm_insn::proofs::InstructionLaws::any_begins))]
pub fn skipped<A: Allocator + Copy>(bytes: &[u8], alloc: A) -> Result<(), DecodeError> {
    let _rest = skip_value::<u32, A, Padded>(bytes, alloc)?;
    let (_count, _rest) = walk_many::<u32, A, Padded, _>(bytes, alloc, &mut Discard)?;
    check_to_end::<Plain<A>, A, Padded>(bytes, alloc)
}

#[tactic(auto, using(wasm_insn::proofs::InstructionLaws::any_begins))]
pub fn minimized<A: Allocator + Copy>(
    bytes: &[u8],
    alloc: A,
    sink: &mut Vec<u8, A>,
) -> Result<(), DecodeError> {
    let _rest = minimize_many::<u32, A, Padded, _>(bytes, alloc, sink)?;
    minimize_whole::<u32, A, Padded, _>(bytes, alloc, sink)?;
    minimize_to_end::<Plain<A>, A, Padded, _>(bytes, alloc, sink)
}

pub fn checked_payloads<A: Allocator + Copy>(bytes: &[u8], alloc: A) -> Result<(), DecodeError> {
    check_names::<A, Standard>(bytes, alloc)?;
    check_links::<A, Standard>(bytes, alloc)?;
    check_dylink::<A, Standard>(bytes, alloc)?;
    check_producers::<A, Standard>(bytes, alloc)?;
    check_features::<A, Standard>(bytes, alloc)?;
    check_hints::<A, Standard>(bytes, alloc)?;
    check_frequencies::<A, Standard>(bytes, alloc)?;
    check_orders::<A, Standard>(bytes, alloc)?;
    check_call_targets::<A, Standard>(bytes, alloc)?;
    check_relocations::<A, Standard>(bytes, alloc)?;
    check_modules::<A, Standard>(bytes, alloc)?;
    check_instances::<A, Standard>(bytes, alloc)?;
    check_stack::<A, Standard>(bytes, alloc)
}

pub fn minimized_payloads<A: Allocator + Copy>(
    bytes: &[u8],
    alloc: A,
    sink: &mut Vec<u8, A>,
) -> Result<(), DecodeError> {
    minimize_names::<A, Standard, _>(bytes, alloc, sink)?;
    minimize_links::<A, Standard, _>(bytes, alloc, sink)?;
    minimize_dylink::<A, Standard, _>(bytes, alloc, sink)?;
    minimize_producers::<A, Standard, _>(bytes, alloc, sink)?;
    minimize_features::<A, Standard, _>(bytes, alloc, sink)?;
    minimize_hints::<A, Standard, _>(bytes, alloc, sink)?;
    minimize_frequencies::<A, Standard, _>(bytes, alloc, sink)?;
    minimize_orders::<A, Standard, _>(bytes, alloc, sink)?;
    minimize_call_targets::<A, Standard, _>(bytes, alloc, sink)?;
    minimize_relocations::<A, Standard, _>(bytes, alloc, sink)?;
    minimize_modules::<A, Standard, _>(bytes, alloc, sink)?;
    minimize_instances::<A, Standard, _>(bytes, alloc, sink)?;
    minimize_stack::<A, Standard, _>(bytes, alloc, sink)
}
