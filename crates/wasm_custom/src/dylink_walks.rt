// Sections of dynamic libraries that are walked over: an effect takes their minimal encoding.
ghost use Rattle.std.specs.Prelude.{◌≡◌, ◌≢◌, IfOk, IfErr, OnOk};
ghost use Rattle.wasm_base.specs.Continuing.{RejectsWhole};
ghost use Rattle.wasm_base.specs.Decoding.{Rejects};
ghost use Rattle.wasm_base.specs.Numbers.{padded_of};
ghost use Rattle.wasm_base.specs.Walks.{Keeps, Walks, WalksWhole};
ghost use Rattle.wasm_base.specs.declared.fault.ReadFault.TheVariants.{Memory};
ghost use Rattle.wasm_custom.specs.Dylink.{export_flags, import_flags, dylink_item, dylink_payload};

use crate::dylink::DylinkItem;
use crate::dylink_symbols::{DylinkExport, DylinkImport, DylinkMemory};
use crate::named::after_name;
use crate::standard::require_standard;
use std::alloc::Allocator;
use wasm_base::{DecodeError, Effect, Grammar, Readable, SizePrefixed, Walk, walk_to_end};

impl<G: Grammar> Walk<G> for DylinkMemory {
    fn walk<'a, A: Allocator + Copy, E: Effect>(
        bytes: &'a [u8],
        alloc: A,
        effect: &mut E,
    ) -> Result<&'a [u8], DecodeError> {
        <((u32, u32), (u32, u32)) as Walk<G>>::walk(bytes, alloc, effect)
    }
}

impl<'s, G: Grammar> Walk<G> for DylinkExport<'s> {
    fn walk<'a, A: Allocator + Copy, E: Effect>(
        bytes: &'a [u8],
        alloc: A,
        effect: &mut E,
    ) -> Result<&'a [u8], DecodeError>
        ensures found { IfOk result (λ rest. Walks E.seen G.grammar export_flags bytes.now rest.now effect.old effect.new) }
        ensures none { IfErr result (λ e. e.cause ≢ Memory → Rejects export_flags (padded_of G.grammar) bytes.now) }
        ensures no_memory { IfErr result (λ e. e.cause ≡ Memory → E.may_fail) }
        ensures front { Keeps E.seen effect.old effect.new }
    {
        <(&'a str, u32) as Walk<G>>::walk(bytes, alloc, effect)
    }
}

impl<'s, G: Grammar> Walk<G> for DylinkImport<'s> {
    fn walk<'a, A: Allocator + Copy, E: Effect>(
        bytes: &'a [u8],
        alloc: A,
        effect: &mut E,
    ) -> Result<&'a [u8], DecodeError>
        ensures found { IfOk result (λ rest. Walks E.seen G.grammar import_flags bytes.now rest.now effect.old effect.new) }
        ensures none { IfErr result (λ e. e.cause ≢ Memory → Rejects import_flags (padded_of G.grammar) bytes.now) }
        ensures no_memory { IfErr result (λ e. e.cause ≡ Memory → E.may_fail) }
        ensures front { Keeps E.seen effect.old effect.new }
    {
        <(&'a str, (&'a str, u32)) as Walk<G>>::walk(bytes, alloc, effect)
    }
}

impl<'s, G: Grammar, C: Allocator> Walk<G> for DylinkItem<'s, C> {
    #[tactic(auto, using(crate::proofs::DylinkLaws::dylink_steps, wasm_base::proofs::WalkLaws::keep_steps))]
    fn walk<'a, A: Allocator + Copy, E: Effect>(
        bytes: &'a [u8],
        alloc: A,
        effect: &mut E,
    ) -> Result<&'a [u8], DecodeError>
        ensures found { IfOk result (λ rest. Walks E.seen G.grammar dylink_item bytes.now rest.now effect.old effect.new) }
        ensures none { IfErr result (λ e. e.cause ≢ Memory → Rejects dylink_item (padded_of G.grammar) bytes.now) }
        ensures no_memory { IfErr result (λ e. e.cause ≡ Memory → E.may_fail) }
        ensures front { Keeps E.seen effect.old effect.new }
    {
        let (id, rest) = <u8 as Readable<'a, A, G>>::read(bytes, alloc)?;
        effect.put(&id)?;
        match id {
            1 => <SizePrefixed<DylinkMemory> as Walk<G>>::walk(rest, alloc, effect),
            2 => <SizePrefixed<Vec<&'a str, C>> as Walk<G>>::walk(rest, alloc, effect),
            3 => <SizePrefixed<Vec<DylinkExport<'a>, C>> as Walk<G>>::walk(rest, alloc, effect),
            4 => <SizePrefixed<Vec<DylinkImport<'a>, C>> as Walk<G>>::walk(rest, alloc, effect),
            5 => <SizePrefixed<Vec<&'a str, C>> as Walk<G>>::walk(rest, alloc, effect),
            _ => {
                require_standard::<G>(rest)?;
                <&'a [u8] as Walk<G>>::walk(rest, alloc, effect)
            }
        }
    }
}

/// Walks over the payload of a dynamic library's section, in the grammar `G`.
///
/// # Errors
///
/// Every error except `Memory` means that the bytes are not such a payload.
#[tactic(auto, using(wasm_base::proofs::WalkLaws::keep_steps))]
pub fn walk_dylink<'a, A: Allocator + Copy, G: Grammar, E: Effect>(
    bytes: &'a [u8],
    alloc: A,
    effect: &mut E,
) -> Result<(), DecodeError>
    ensures found { OnOk result (WalksWhole E.seen G.grammar dylink_payload bytes.now effect.old effect.new) }
    ensures none { IfErr result (λ e. e.cause ≢ Memory → RejectsWhole dylink_payload (padded_of G.grammar) bytes.now) }
    ensures no_memory { IfErr result (λ e. e.cause ≡ Memory → E.may_fail) }
    ensures front { Keeps E.seen effect.old effect.new }
{
    let rest = after_name::<A, G>("dylink.0", bytes, alloc)?;
    effect.put(&"dylink.0")?;
    walk_to_end::<DylinkItem<'a, A>, A, G, _>(rest, alloc, effect)
}
