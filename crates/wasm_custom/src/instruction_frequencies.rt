// The instruction frequency section: its builder, its reader and its walk.
ghost use Rattle.std.specs.Prelude.{◌≡◌, ◌≢◌, ℕ, IfOk, IfErr, Err, OnOk, OnErr, map};
ghost use Rattle.wasm_base.specs.Continuing.{RejectsWhole};
ghost use Rattle.wasm_base.specs.Formats.{byte};
ghost use Rattle.wasm_base.specs.Minimal.{AppendsMinimal, HasEncoding, both_grammars};
ghost use Rattle.wasm_base.specs.Numbers.{padded_of};
ghost use Rattle.wasm_base.specs.Walks.{Keeps, WalksWhole};
ghost use Rattle.wasm_base.specs.declared.fault.ReadFault.TheVariants.{Memory};
ghost use Rattle.wasm_base.specs.declared.refused.Refused.TheVariants.{TooLong};
ghost use Rattle.wasm_custom.specs.CodeMetadata.{IsFrequency, frequencies_name, frequencies_payload, frequencies_view, frequency_encoding, frequency_view};

use crate::code_metadata::{CodeHint, HintPayload, HintsOf, ReadPayload, WalkPayload};
use crate::counted::{append_counted, read_counted};
use crate::entries::CustomEntries;
use crate::item_walks::walk_counted;
use std::alloc::{Allocator, Global};
use wasm_base::{DecodeError, Effect, Encode, Grammar, Pieces, Result, read_whole, walk_whole};

/// The instruction frequency section: how often instructions are executed, as a list of hints for
/// each function. It belongs before the code section.
///
/// ```rust
/// let mut frequencies = InstructionFrequencies::new(alloc);
/// frequencies.function_hints(0, [CodeHint { offset: 3, value: InstructionFrequency(32) }])?;
/// ```
pub type InstructionFrequencies<A = Global> = CustomEntries<
    HintsOf<InstructionFrequency>,
    Pieces<A>,
>;

/// An estimate of how often an instruction is executed, on a scale of binary logarithms that the
/// compilation hints proposal defines.
#[derive(Clone, Copy, Debug)]
pub struct InstructionFrequency(pub u8);

impl HintPayload for InstructionFrequency {
    ghost Value = { ℕ };

    ghost name = { frequencies_name };

    ghost format = { byte };

    ghost is_value = { IsFrequency };

    ghost encoding = { frequency_encoding };

    ghost view = { frequency_view };

    fn section_name() -> &'static str {
        "metadata.code.instr_freq"
    }

    #[tactic(auto, using(crate::proofs::MetadataLaws::frequency_laws))]
    fn payload_laws() {}

    fn append_payload<B: Allocator>(&self, sink: &mut Vec<u8, B>) -> Result<()> {
        self.0.encode(sink)
    }
}

impl<'a, A: Allocator + Copy, G: Grammar> ReadPayload<'a, A, G> for InstructionFrequency {
    fn read_payload(bytes: &'a [u8], alloc: A) -> Result<InstructionFrequency, DecodeError> {
        let frequency = read_whole::<'a, u8, A, G>(bytes, alloc)?;
        Ok(InstructionFrequency(frequency))
    }
}

impl<G: Grammar> WalkPayload<G> for InstructionFrequency {
    fn walk_payload<'a, A: Allocator + Copy, E: Effect>(
        bytes: &'a [u8],
        alloc: A,
        effect: &mut E,
    ) -> Result<(), DecodeError> {
        walk_whole::<u8, A, G, _>(bytes, alloc, effect)
    }
}

/// Decodes the payload of an instruction frequency section, in the grammar `G`: for each function
/// its index, and the frequencies of instructions.
///
/// # Errors
///
/// Every error except `Memory` means that the bytes are not such a payload.
pub fn read_frequencies<'a, A: Allocator + Copy, G: Grammar>(
    bytes: &'a [u8],
    alloc: A,
) -> Result<Vec<(u32, Vec<CodeHint<InstructionFrequency>, A>), A>, DecodeError>
    ensures found { IfOk result (λ x. frequencies_payload (padded_of G.grammar) bytes.now (map frequencies_view x.items)) }
    ensures none { IfErr result (λ e. e.cause ≢ Memory → RejectsWhole frequencies_payload (padded_of G.grammar) bytes.now) }
{
    read_counted::<
        'a,
        HintsOf<InstructionFrequency>,
        (u32, Vec<CodeHint<InstructionFrequency>, A>),
        A,
        G,
    >(bytes, alloc)
}

/// Walks over the payload of an instruction frequency section, in the grammar `G`.
///
/// # Errors
///
/// Every error except `Memory` means that the bytes are not such a payload.
pub fn walk_frequencies<'a, A: Allocator + Copy, G: Grammar, E: Effect>(
    bytes: &'a [u8],
    alloc: A,
    effect: &mut E,
) -> Result<(), DecodeError>
    ensures found { OnOk result (WalksWhole E.seen G.grammar frequencies_payload bytes.now effect.old effect.new) }
    ensures none { IfErr result (λ e. e.cause ≢ Memory → RejectsWhole frequencies_payload (padded_of G.grammar) bytes.now) }
    ensures no_memory { IfErr result (λ e. e.cause ≡ Memory → E.may_fail) }
    ensures front { Keeps E.seen effect.old effect.new }
{
    walk_counted::<(u32, Vec<CodeHint<InstructionFrequency>, A>), A, G, _>(
        "metadata.code.instr_freq",
        bytes,
        alloc,
        effect,
    )
}

/// Appends the minimal encoding of the payload of a section of these frequencies. On an error, the
/// sink is unchanged.
pub fn append_frequencies<A: Allocator, B: Allocator>(
    functions: &[(u32, Vec<CodeHint<InstructionFrequency>, A>)],
    sink: &mut Vec<u8, B>,
) -> Result<()>
    ensures ok { OnOk result (AppendsMinimal both_grammars frequencies_payload (map frequencies_view functions.now) sink.old.items sink.new.items) }
    ensures err { OnErr result (sink.new.items ≡ sink.old.items) }
    ensures too_long { HasEncoding both_grammars frequencies_payload (map frequencies_view functions.now) → result ≢ Err TooLong }
{
    append_counted::<
        HintsOf<InstructionFrequency>,
        (u32, Vec<CodeHint<InstructionFrequency>, A>),
        _,
    >(functions, sink)
}
