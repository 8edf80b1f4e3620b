// The call target section: its builder, its reader and its walk.
ghost use Rattle.std.specs.Prelude.{◌≡◌, ◌≢◌, ⊤, All, List, IfOk, IfErr, Err, OnOk, OnErr, map};
ghost use Rattle.std.specs.List.{flat_map};
ghost use Rattle.wasm_base.specs.Calls.{Appends};
ghost use Rattle.wasm_base.specs.Continuing.{RejectsWhole};
ghost use Rattle.wasm_base.specs.Formats.{pair, u32};
ghost use Rattle.wasm_base.specs.Minimal.{AppendsMinimal, HasEncoding, both_grammars};
ghost use Rattle.wasm_base.specs.Numbers.{padded_of};
ghost use Rattle.wasm_base.specs.Walks.{Keeps, WalksWhole};
ghost use Rattle.wasm_base.specs.declared.fault.ReadFault.TheVariants.{Memory};
ghost use Rattle.wasm_base.specs.declared.refused.Refused.TheVariants.{TooLong};
ghost use Rattle.wasm_custom.specs.CodeMetadata.{IsTarget, TargetItem, call_targets_name, call_targets_payload, call_targets_view, target_encoding, target_view, targets, targets_encoding, targets_view};

use crate::code_metadata::{CodeHint, HintPayload, HintsOf, ReadPayload, WalkPayload};
use crate::counted::{append_counted, read_counted};
use crate::entries::CustomEntries;
use crate::item_walks::walk_counted;
use std::alloc::{Allocator, Global};
use wasm_base::{
    DecodeError, Effect, Encode, Grammar, Layout, Pieces, Readable, Result, Walk, read_to_end,
    walk_to_end,
};

/// The call target section: which functions indirect calls are likely to call, as a list of hints
/// for each function. It belongs before the code section.
///
/// ```rust
/// let value = Vec::from_slice(alloc, &[CallTarget { function_index: 7, percent: 90 }])?;
/// let mut targets = CallTargets::new(alloc);
/// targets.function_hints(0, [CodeHint { offset: 5, value }])?;
/// ```
pub type CallTargets<A = Global> = CustomEntries<HintsOf<Vec<CallTarget, A>>, Pieces<A>>;

/// A function that a call is likely to call.
#[derive(Clone, Copy, Debug)]
pub struct CallTarget {
    /// The index of the called function.
    pub function_index: u32,
    /// How many of all calls at the offset are calls of this function, in percent.
    pub percent: u32,
}

/// Encodes the function index, and the share in percent.
impl Encode for CallTarget {
    ghost encoding = { λ t. target_encoding (target_view t) };

    ghost encodable = { λ _. ⊤ };

    fn encode<A: Allocator>(&self, sink: &mut Vec<u8, A>) -> Result<()> {
        (self.function_index, self.percent).encode(sink)
    }
}

impl Layout for CallTarget {
    ghost Value = { TargetItem };

    ghost format = { pair u32 u32 };

    ghost view = { target_view };

    #[tactic(auto, using(crate::proofs::MetadataLaws::target_unambiguous))]
    fn laws() {}
}

impl<'a, A: Allocator + Copy, G: Grammar> Readable<'a, A, G> for CallTarget {
    fn read(bytes: &'a [u8], alloc: A) -> Result<(CallTarget, &'a [u8]), DecodeError> {
        let ((function_index, percent), rest) = <(u32, u32) as Readable<'a, A, G>>::read(
            bytes, alloc,
        )?;
        let target = CallTarget {
            function_index,
            percent,
        };
        Ok((target, rest))
    }
}

impl<G: Grammar> Walk<G> for CallTarget {
    fn walk<'a, A: Allocator + Copy, E: Effect>(
        bytes: &'a [u8],
        alloc: A,
        effect: &mut E,
    ) -> Result<&'a [u8], DecodeError> {
        <(u32, u32) as Walk<G>>::walk(bytes, alloc, effect)
    }
}

/// Appends call targets, one after another.
fn append_targets<B: Allocator>(targets: &[CallTarget], sink: &mut Vec<u8, B>) -> Result<()>
    ensures { Appends (flat_map (λ t. target_encoding (target_view t)) targets.now) ⊤ sink.old sink.new result }
{
    let start = sink.len();
    for target in targets {
        if let Err(refused) = target.encode(sink) {
            sink.truncate(start);
            return Err(refused);
        }
    }
    Ok(())
}

impl<C: Allocator> HintPayload for Vec<CallTarget, C> {
    ghost Value = { List TargetItem };

    ghost name = { call_targets_name };

    ghost format = { targets };

    ghost is_value = { All IsTarget };

    ghost encoding = { targets_encoding };

    ghost view = { targets_view };

    fn section_name() -> &'static str {
        "metadata.code.call_targets"
    }

    #[tactic(auto, using(crate::proofs::MetadataLaws::targets_laws))]
    fn payload_laws() {}

    fn append_payload<B: Allocator>(&self, sink: &mut Vec<u8, B>) -> Result<()> {
        append_targets(self.as_slice(), sink)
    }
}

impl<'a, A: Allocator + Copy, G: Grammar> ReadPayload<'a, A, G> for Vec<CallTarget, A> {
    fn read_payload(bytes: &'a [u8], alloc: A) -> Result<Vec<CallTarget, A>, DecodeError> {
        read_to_end::<'a, CallTarget, A, G>(bytes, alloc)
    }
}

impl<G: Grammar, C: Allocator> WalkPayload<G> for Vec<CallTarget, C> {
    fn walk_payload<'a, A: Allocator + Copy, E: Effect>(
        bytes: &'a [u8],
        alloc: A,
        effect: &mut E,
    ) -> Result<(), DecodeError> {
        walk_to_end::<CallTarget, A, G, _>(bytes, alloc, effect)
    }
}

/// Decodes the payload of a call target section, in the grammar `G`: for each function
/// its index, and the targets of its calls.
///
/// # Errors
///
/// Every error except `Memory` means that the bytes are not such a payload.
pub fn read_call_targets<'a, A: Allocator + Copy, G: Grammar>(
    bytes: &'a [u8],
    alloc: A,
) -> Result<Vec<(u32, Vec<CodeHint<Vec<CallTarget, A>>, A>), A>, DecodeError>
    ensures found { IfOk result (λ x. call_targets_payload (padded_of G.grammar) bytes.now (map call_targets_view x.items)) }
    ensures none { IfErr result (λ e. e.cause ≢ Memory → RejectsWhole call_targets_payload (padded_of G.grammar) bytes.now) }
{
    read_counted::<
        'a,
        HintsOf<Vec<CallTarget, A>>,
        (u32, Vec<CodeHint<Vec<CallTarget, A>>, A>),
        A,
        G,
    >(bytes, alloc)
}

/// Walks over the payload of a call target section, in the grammar `G`.
///
/// # Errors
///
/// Every error except `Memory` means that the bytes are not such a payload.
pub fn walk_call_targets<'a, A: Allocator + Copy, G: Grammar, E: Effect>(
    bytes: &'a [u8],
    alloc: A,
    effect: &mut E,
) -> Result<(), DecodeError>
    ensures found { OnOk result (WalksWhole E.seen G.grammar call_targets_payload bytes.now effect.old effect.new) }
    ensures none { IfErr result (λ e. e.cause ≢ Memory → RejectsWhole call_targets_payload (padded_of G.grammar) bytes.now) }
    ensures no_memory { IfErr result (λ e. e.cause ≡ Memory → E.may_fail) }
    ensures front { Keeps E.seen effect.old effect.new }
{
    walk_counted::<(u32, Vec<CodeHint<Vec<CallTarget, A>>, A>), A, G, _>(
        "metadata.code.call_targets",
        bytes,
        alloc,
        effect,
    )
}

/// Appends the minimal encoding of the payload of a section of these call targets. On an error, the
/// sink is unchanged.
pub fn append_call_targets<A: Allocator, B: Allocator>(
    functions: &[(u32, Vec<CodeHint<Vec<CallTarget, A>>, A>)],
    sink: &mut Vec<u8, B>,
) -> Result<()>
    ensures ok { OnOk result (AppendsMinimal both_grammars call_targets_payload (map call_targets_view functions.now) sink.old.items sink.new.items) }
    ensures err { OnErr result (sink.new.items ≡ sink.old.items) }
    ensures too_long { HasEncoding both_grammars call_targets_payload (map call_targets_view functions.now) → result ≢ Err TooLong }
{
    append_counted::<HintsOf<Vec<CallTarget, A>>, (u32, Vec<CodeHint<Vec<CallTarget, A>>, A>), _>(
        functions, sink,
    )
}
