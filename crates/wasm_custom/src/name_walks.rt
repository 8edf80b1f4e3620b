// Name sections that are walked over: an effect takes their minimal encoding.
ghost use Rattle.std.specs.Prelude.{◌≡◌, ◌≢◌, IfOk, IfErr, OnOk};
ghost use Rattle.wasm_base.specs.Continuing.{RejectsWhole};
ghost use Rattle.wasm_base.specs.Decoding.{Rejects};
ghost use Rattle.wasm_base.specs.Numbers.{padded_of};
ghost use Rattle.wasm_base.specs.Walks.{Keeps, Walks, WalksWhole};
ghost use Rattle.wasm_base.specs.declared.fault.ReadFault.TheVariants.{Memory};
ghost use Rattle.wasm_custom.specs.Names.{kind_as, after_id, subsection, name_payload};

use crate::named::after_name;
use crate::names::{NameItem, NameKind, name_kind_of};
use std::alloc::Allocator;
use wasm_base::{DecodeError, Effect, Grammar, Readable, SizePrefixed, Walk, walk_to_end};

/// Walks over the size-prefixed content of a subsection of this kind.
fn walk_after_id<'a, A: Allocator + Copy, G: Grammar, E: Effect>(
    kind: NameKind,
    id: u8,
    bytes: &'a [u8],
    alloc: A,
    effect: &mut E,
) -> Result<&'a [u8], DecodeError>
    ensures found { IfOk result (λ rest. Walks E.seen G.grammar (after_id (kind_as kind) id) bytes.now rest.now effect.old effect.new) }
    ensures none { IfErr result (λ e. e.cause ≢ Memory → Rejects (after_id (kind_as kind) id) (padded_of G.grammar) bytes.now) }
    ensures no_memory { IfErr result (λ e. e.cause ≡ Memory → E.may_fail) }
    ensures front { Keeps E.seen effect.old effect.new }
{
    match kind {
        NameKind::Module => <SizePrefixed<&'a str> as Walk<G>>::walk(bytes, alloc, effect),
        NameKind::Map => <SizePrefixed<Vec<(u32, &'a str), A>> as Walk<G>>::walk(
            bytes, alloc, effect,
        ),
        NameKind::Indirect => <SizePrefixed<Vec<(u32, Vec<(u32, &'a str), A>), A>> as Walk<
            G,
        >>::walk(bytes, alloc, effect),
        NameKind::Other => <&'a [u8] as Walk<G>>::walk(bytes, alloc, effect),
    }
}

impl<'s, G: Grammar, C: Allocator> Walk<G> for NameItem<'s, C> {
    #[tactic(auto, using(wasm_base::proofs::WalkLaws::keep_steps))]
    fn walk<'a, A: Allocator + Copy, E: Effect>(
        bytes: &'a [u8],
        alloc: A,
        effect: &mut E,
    ) -> Result<&'a [u8], DecodeError>
        ensures found { IfOk result (λ rest. Walks E.seen G.grammar subsection bytes.now rest.now effect.old effect.new) }
        ensures none { IfErr result (λ e. e.cause ≢ Memory → Rejects subsection (padded_of G.grammar) bytes.now) }
        ensures no_memory { IfErr result (λ e. e.cause ≡ Memory → E.may_fail) }
        ensures front { Keeps E.seen effect.old effect.new }
    {
        let (id, after) = <u8 as Readable<'a, A, G>>::read(bytes, alloc)?;
        effect.put(&id)?;
        walk_after_id::<A, G, _>(name_kind_of(id), id, after, alloc, effect)
    }
}

/// Walks over the payload of a name section, in the grammar `G`.
///
/// # Errors
///
/// Every error except `Memory` means that the bytes are not such a payload.
#[tactic(auto, using(wasm_base::proofs::WalkLaws::keep_steps))]
pub fn walk_names<'a, A: Allocator + Copy, G: Grammar, E: Effect>(
    bytes: &'a [u8],
    alloc: A,
    effect: &mut E,
) -> Result<(), DecodeError>
    ensures found { OnOk result (WalksWhole E.seen G.grammar name_payload bytes.now effect.old effect.new) }
    ensures none { IfErr result (λ e. e.cause ≢ Memory → RejectsWhole name_payload (padded_of G.grammar) bytes.now) }
    ensures no_memory { IfErr result (λ e. e.cause ≡ Memory → E.may_fail) }
    ensures front { Keeps E.seen effect.old effect.new }
{
    let rest = after_name::<A, G>("name", bytes, alloc)?;
    effect.put(&"name")?;
    walk_to_end::<NameItem<'a, A>, A, G, _>(rest, alloc, effect)
}
