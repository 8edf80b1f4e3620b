// Sections of core dumps that are walked over: an effect takes their minimal encoding.
ghost use Rattle.std.specs.Prelude.{◌≡◌, ◌≢◌, IfOk, IfErr, OnOk};
ghost use Rattle.wasm_base.specs.Continuing.{RejectsWhole};
ghost use Rattle.wasm_base.specs.Decoding.{Rejects};
ghost use Rattle.wasm_base.specs.Numbers.{padded_of};
ghost use Rattle.wasm_base.specs.Walks.{Keeps, Walks, WalksWhole};
ghost use Rattle.wasm_base.specs.declared.fault.ReadFault.TheVariants.{Memory};
ghost use Rattle.wasm_custom.specs.CoreDumps.{marked_name, core_payload, modules_payload, instances_payload};
ghost use Rattle.wasm_custom.specs.CoreStacks.{stack_payload};

use crate::core_dumps::CoreInstance;
use crate::core_stack::CoreFrame;
use crate::core_values::CoreDumpValue;
use crate::item_walks::walk_counted;
use crate::marked::{MarkedName, walk_marked};
use crate::single::walk_single;
use std::alloc::Allocator;
use wasm_base::{Canonical, DecodeError, Effect, Grammar, Walk, walk_value};

impl<'s, G: Grammar> Walk<G> for MarkedName<'s> {
    fn walk<'a, A: Allocator + Copy, E: Effect>(
        bytes: &'a [u8],
        alloc: A,
        effect: &mut E,
    ) -> Result<&'a [u8], DecodeError>
        ensures found { IfOk result (λ rest. Walks E.seen G.grammar marked_name bytes.now rest.now effect.old effect.new) }
        ensures none { IfErr result (λ e. e.cause ≢ Memory → Rejects marked_name (padded_of G.grammar) bytes.now) }
        ensures no_memory { IfErr result (λ e. e.cause ≡ Memory → E.may_fail) }
        ensures front { Keeps E.seen effect.old effect.new }
    {
        walk_marked::<&'a str, A, G, _>(0x00, bytes, alloc, effect)
    }
}

/// Walks over the payload of a core dump's process section, in the grammar `G`.
///
/// # Errors
///
/// Every error except `Memory` means that the bytes are not such a payload.
pub fn walk_process<'a, A: Allocator + Copy, G: Grammar, E: Effect>(
    bytes: &'a [u8],
    alloc: A,
    effect: &mut E,
) -> Result<(), DecodeError>
    ensures found { OnOk result (WalksWhole E.seen G.grammar core_payload bytes.now effect.old effect.new) }
    ensures none { IfErr result (λ e. e.cause ≢ Memory → RejectsWhole core_payload (padded_of G.grammar) bytes.now) }
    ensures no_memory { IfErr result (λ e. e.cause ≡ Memory → E.may_fail) }
    ensures front { Keeps E.seen effect.old effect.new }
{
    walk_single::<MarkedName<'a>, A, G, _>("core", bytes, alloc, effect)
}

/// Walks over the payload of a core dump's modules section, in the grammar `G`.
///
/// # Errors
///
/// Every error except `Memory` means that the bytes are not such a payload.
pub fn walk_modules<'a, A: Allocator + Copy, G: Grammar, E: Effect>(
    bytes: &'a [u8],
    alloc: A,
    effect: &mut E,
) -> Result<(), DecodeError>
    ensures found { OnOk result (WalksWhole E.seen G.grammar modules_payload bytes.now effect.old effect.new) }
    ensures none { IfErr result (λ e. e.cause ≢ Memory → RejectsWhole modules_payload (padded_of G.grammar) bytes.now) }
    ensures no_memory { IfErr result (λ e. e.cause ≡ Memory → E.may_fail) }
    ensures front { Keeps E.seen effect.old effect.new }
{
    walk_counted::<MarkedName<'a>, A, G, _>("coremodules", bytes, alloc, effect)
}

impl<G: Grammar, C: Allocator> Walk<G> for CoreInstance<C> {
    fn walk<'a, A: Allocator + Copy, E: Effect>(
        bytes: &'a [u8],
        alloc: A,
        effect: &mut E,
    ) -> Result<&'a [u8], DecodeError> {
        walk_marked::<(u32, (Vec<u32, C>, Vec<u32, C>)), A, G, _>(0x00, bytes, alloc, effect)
    }
}

/// Walks over the payload of a core dump's instances section, in the grammar `G`.
///
/// # Errors
///
/// Every error except `Memory` means that the bytes are not such a payload.
pub fn walk_instances<'a, A: Allocator + Copy, G: Grammar, E: Effect>(
    bytes: &'a [u8],
    alloc: A,
    effect: &mut E,
) -> Result<(), DecodeError>
    ensures found { OnOk result (WalksWhole E.seen G.grammar instances_payload bytes.now effect.old effect.new) }
    ensures none { IfErr result (λ e. e.cause ≢ Memory → RejectsWhole instances_payload (padded_of G.grammar) bytes.now) }
    ensures no_memory { IfErr result (λ e. e.cause ≡ Memory → E.may_fail) }
    ensures front { Keeps E.seen effect.old effect.new }
{
    walk_counted::<CoreInstance<A>, A, G, _>("coreinstances", bytes, alloc, effect)
}

impl Canonical for CoreDumpValue {
    #[tactic(auto, using(crate::proofs::CoreStackLaws::value_canonical))]
    fn canonical() {}
}

impl<G: Grammar> Walk<G> for CoreDumpValue {
    fn walk<'a, A: Allocator + Copy, E: Effect>(
        bytes: &'a [u8],
        alloc: A,
        effect: &mut E,
    ) -> Result<&'a [u8], DecodeError> {
        walk_value::<CoreDumpValue, A, G, _>(bytes, alloc, effect)
    }
}

impl<G: Grammar, C: Allocator> Walk<G> for CoreFrame<C> {
    #[tactic(auto, using(wasm_base::proofs::WalkLaws::keep_steps))]
    fn walk<'a, A: Allocator + Copy, E: Effect>(
        bytes: &'a [u8],
        alloc: A,
        effect: &mut E,
    ) -> Result<&'a [u8], DecodeError> {
        let after = walk_marked::<(u32, (u32, u32)), A, G, _>(0x00, bytes, alloc, effect)?;
        <(Vec<CoreDumpValue, C>, Vec<CoreDumpValue, C>) as Walk<G>>::walk(after, alloc, effect)
    }
}

/// Walks over the payload of a core dump's stack section, in the grammar `G`.
///
/// # Errors
///
/// Every error except `Memory` means that the bytes are not such a payload.
pub fn walk_stack<'a, A: Allocator + Copy, G: Grammar, E: Effect>(
    bytes: &'a [u8],
    alloc: A,
    effect: &mut E,
) -> Result<(), DecodeError>
    ensures found { OnOk result (WalksWhole E.seen G.grammar stack_payload bytes.now effect.old effect.new) }
    ensures none { IfErr result (λ e. e.cause ≢ Memory → RejectsWhole stack_payload (padded_of G.grammar) bytes.now) }
    ensures no_memory { IfErr result (λ e. e.cause ≡ Memory → E.may_fail) }
    ensures front { Keeps E.seen effect.old effect.new }
{
    walk_single::<(MarkedName<'a>, Vec<CoreFrame<A>, A>), A, G, _>(
        "corestack",
        bytes,
        alloc,
        effect,
    )
}
