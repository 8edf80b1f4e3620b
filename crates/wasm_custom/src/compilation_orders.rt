// The compilation order section: its builder, its reader and its walk.
ghost use Rattle.std.specs.Prelude.{◌≡◌, ◌≢◌, IfOk, IfErr, Err, OnOk, OnErr, map};
ghost use Rattle.wasm_base.specs.Continuing.{RejectsWhole};
ghost use Rattle.wasm_base.specs.Minimal.{AppendsMinimal, HasEncoding, both_grammars};
ghost use Rattle.wasm_base.specs.Numbers.{padded_of};
ghost use Rattle.wasm_base.specs.Walks.{Keeps, WalksWhole};
ghost use Rattle.wasm_base.specs.declared.fault.ReadFault.TheVariants.{Memory};
ghost use Rattle.wasm_base.specs.declared.refused.Refused.TheVariants.{TooLong};
ghost use Rattle.wasm_custom.specs.CodeMetadata.{IsOrder, order, order_encoding, orders_name, orders_payload, orders_view};
ghost use Rattle.wasm_custom.specs.declared.compilation_orders.CompilationOrder.{CompilationOrder as OrderModel};

use crate::code_metadata::{CodeHint, HintPayload, HintsOf, ReadPayload, WalkPayload};
use crate::counted::{append_counted, read_counted};
use crate::entries::CustomEntries;
use crate::item_walks::walk_counted;
use std::alloc::{Allocator, Global};
use wasm_base::{
    DecodeError, Effect, Encode, Grammar, Optional, Pieces, Readable, Result, Walk, read_whole,
    walk_whole,
};

/// The compilation order section: which functions are worth compiling first, as a list of hints for
/// each function. It belongs before the code section.
///
/// ```rust
/// let mut orders = CompilationOrders::new(alloc);
/// let value = CompilationOrder { order: 1, hotness: Some(100) };
/// orders.function_hints(0, [CodeHint { offset: 0, value }])?;
/// ```
pub type CompilationOrders<A = Global> = CustomEntries<HintsOf<CompilationOrder>, Pieces<A>>;

/// When a function is to be compiled. The compilation hints proposal has such hints at offset 0, for
/// the whole function.
#[derive(Clone, Copy, Debug)]
pub struct CompilationOrder {
    /// The position of the function in the order.
    pub order: u32,
    /// How hot the function is, if that is known.
    pub hotness: Option<u32>,
}

impl HintPayload for CompilationOrder {
    ghost Value = { OrderModel };

    ghost name = { orders_name };

    ghost format = { order };

    ghost is_value = { IsOrder };

    ghost encoding = { order_encoding };

    ghost view = { λ o. o };

    fn section_name() -> &'static str {
        "metadata.code.compilation_order"
    }

    #[tactic(auto, using(crate::proofs::MetadataLaws::order_laws))]
    fn payload_laws() {}

    fn append_payload<B: Allocator>(&self, sink: &mut Vec<u8, B>) -> Result<()> {
        (self.order, Optional(self.hotness)).encode(sink)
    }
}

impl<'a, A: Allocator + Copy, G: Grammar> ReadPayload<'a, A, G> for CompilationOrder {
    #[tactic(auto, using(crate::proofs::MetadataLaws::order_steps))]
    fn read_payload(bytes: &'a [u8], alloc: A) -> Result<CompilationOrder, DecodeError> {
        let (order, rest) = <u32 as Readable<'a, A, G>>::read(bytes, alloc)?;
        if rest.is_empty() {
            return Ok(CompilationOrder {
                order,
                hotness: None,
            });
        }
        let hotness = Some(read_whole::<'a, u32, A, G>(rest, alloc)?);
        Ok(CompilationOrder { order, hotness })
    }
}

impl<G: Grammar> WalkPayload<G> for CompilationOrder {
    #[tactic(auto, using(wasm_base::proofs::WalkLaws::keep_steps))]
    fn walk_payload<'a, A: Allocator + Copy, E: Effect>(
        bytes: &'a [u8],
        alloc: A,
        effect: &mut E,
    ) -> Result<(), DecodeError> {
        let rest = <u32 as Walk<G>>::walk(bytes, alloc, effect)?;
        if rest.is_empty() {
            return Ok(());
        }
        walk_whole::<u32, A, G, _>(rest, alloc, effect)
    }
}

/// Decodes the payload of a compilation order section, in the grammar `G`: for each function
/// its index, and its compilation orders.
///
/// # Errors
///
/// Every error except `Memory` means that the bytes are not such a payload.
pub fn read_orders<'a, A: Allocator + Copy, G: Grammar>(
    bytes: &'a [u8],
    alloc: A,
) -> Result<Vec<(u32, Vec<CodeHint<CompilationOrder>, A>), A>, DecodeError>
    ensures found { IfOk result (λ x. orders_payload (padded_of G.grammar) bytes.now (map orders_view x.items)) }
    ensures none { IfErr result (λ e. e.cause ≢ Memory → RejectsWhole orders_payload (padded_of G.grammar) bytes.now) }
{
    read_counted::<'a, HintsOf<CompilationOrder>, (u32, Vec<CodeHint<CompilationOrder>, A>), A, G>(
        bytes, alloc,
    )
}

/// Walks over the payload of a compilation order section, in the grammar `G`.
///
/// # Errors
///
/// Every error except `Memory` means that the bytes are not such a payload.
pub fn walk_orders<'a, A: Allocator + Copy, G: Grammar, E: Effect>(
    bytes: &'a [u8],
    alloc: A,
    effect: &mut E,
) -> Result<(), DecodeError>
    ensures found { OnOk result (WalksWhole E.seen G.grammar orders_payload bytes.now effect.old effect.new) }
    ensures none { IfErr result (λ e. e.cause ≢ Memory → RejectsWhole orders_payload (padded_of G.grammar) bytes.now) }
    ensures no_memory { IfErr result (λ e. e.cause ≡ Memory → E.may_fail) }
    ensures front { Keeps E.seen effect.old effect.new }
{
    walk_counted::<(u32, Vec<CodeHint<CompilationOrder>, A>), A, G, _>(
        "metadata.code.compilation_order",
        bytes,
        alloc,
        effect,
    )
}

/// Appends the minimal encoding of the payload of a section of these orders. On an error, the
/// sink is unchanged.
pub fn append_orders<A: Allocator, B: Allocator>(
    functions: &[(u32, Vec<CodeHint<CompilationOrder>, A>)],
    sink: &mut Vec<u8, B>,
) -> Result<()>
    ensures ok { OnOk result (AppendsMinimal both_grammars orders_payload (map orders_view functions.now) sink.old.items sink.new.items) }
    ensures err { OnErr result (sink.new.items ≡ sink.old.items) }
    ensures too_long { HasEncoding both_grammars orders_payload (map orders_view functions.now) → result ≢ Err TooLong }
{
    append_counted::<HintsOf<CompilationOrder>, (u32, Vec<CodeHint<CompilationOrder>, A>), _>(
        functions, sink,
    )
}
