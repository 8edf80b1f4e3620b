// The branch hint section: its builder, its reader and its minimizer.
ghost use Rattle.std.specs.Prelude.{◌≡◌, [], ◌++◌, true, ⊤, ◌≢◌, ◌<◌, ℕ, IfOk, IfErr, Err, OnOk, OnErr, map};
ghost use Rattle.wasm_base.specs.Formats.{fixed, byte, such};
ghost use Rattle.wasm_base.specs.Continuing.{RejectsWhole};
ghost use Rattle.wasm_base.specs.Iterators.{HasKnownLength};
ghost use Rattle.wasm_base.specs.Numbers.{unsigned_encoding, padded_of};
ghost use Rattle.wasm_base.specs.Encodings.{vec_encoding};
ghost use Rattle.wasm_custom.specs.Adding.{AddsList};
ghost use Rattle.wasm_custom.specs.Hints.{hint_items, hint_encoding, Hints, hints, hints_name, hint, hints_view, hints_payload};
ghost use Rattle.wasm_custom.specs.declared.hints.BranchHint.{BranchHint as HintModel};
ghost use Rattle.wasm_base.specs.declared.refused.Refused.TheVariants.{TooLong};
ghost use Rattle.wasm_base.specs.Minimal.{AppendsMinimal, HasEncoding, both_grammars};
ghost use Rattle.wasm_base.specs.declared.fault.ReadFault.TheVariants.{Memory};

use crate::counted::{DecodesItems, ItemsAs, append_counted, read_counted};
use crate::entries::{CustomEntries, CustomKind};
use crate::marked::read_marked;
use std::alloc::{Allocator, Global};
use wasm_base::{
    DecodeError, Encode, Grammar, Kind, Layout, Pieces, ReadFault, Readable, Result, Shorten,
    Store, vec_of,
};

/// The branch hint section: which branches are likely to be taken, as a list of hints for each
/// function. It belongs before the code section.
///
/// ```rust
/// let mut function = Function::new(alloc, [])?;
/// function.instruction(&Instruction::I32Const(1))?;
/// let offset = function.byte_len() as u32;
/// function.instruction(&Instruction::If(BlockType::Empty))?;
/// let mut hints = BranchHints::new(alloc);
/// hints.function_hints(0, [BranchHint { branch_func_offset: offset, branch_hint_value: 1 }])?;
/// ```
pub type BranchHints<A = Global> = CustomEntries<HintItems, Pieces<A>>;

/// The kind of a branch hint section's items: the hints of one function each.
#[derive(Clone, Copy, Debug)]
pub struct HintItems;

/// A branch hint: the likely direction of a branch.
#[derive(Clone, Copy, Debug)]
pub struct BranchHint {
    /// The offset of the branch instruction in the raw body of its function, in bytes.
    pub branch_func_offset: u32,
    /// 1 if the branch is likely to be taken, and 0 if it is not. Any value below 128 decodes.
    pub branch_hint_value: u32,
}

/// Encodes the offset, the size 01 of the value, and the value.
impl Encode for BranchHint {
    ghost encoding = { hint_encoding };

    ghost encodable = { λ _. ⊤ };

    fn encode<A: Allocator>(&self, sink: &mut Vec<u8, A>) -> Result<()> {
        (self.branch_func_offset, 0x01u8, self.branch_hint_value).encode(sink)
    }
}

impl Kind for HintItems {
    ghost Record = { Hints };

    ghost Item = { Hints };

    ghost kind = { hint_items };

    #[tactic(auto, using(crate::proofs::HintLaws::hint_laws))]
    fn laws() {}
}

impl CustomKind for HintItems {
    ghost name = { hints_name };

    ghost front = { [] };

    ghost front_format = { fixed [] (tt {0}) };

    ghost counted = { true };

    fn name() -> &'static str {
        "metadata.code.branch_hint"
    }

    fn front() -> &'static [u8] {
        &[]
    }

    fn counted() -> bool {
        true
    }

    #[tactic(auto, using(crate::proofs::HintLaws::hint_layout))]
    fn layout_laws() {}
}

impl<S: Store> CustomEntries<HintItems, S> {
    /// Adds the hints of a function.
    ///
    /// If there are more than 4294967295 hints, the call returns `TooLong` and requests none of
    /// them, as tests show.
    pub fn function_hints<H: IntoIterator<Item = BranchHint>>(
        &mut self,
        func: u32,
        hints: H,
    ) -> Result<()>
    where
        H::IntoIter: ExactSizeIterator + Drop,
        requires { HasKnownLength H.into_iter_gives H.IntoIter.can_next H.IntoIter.next_gives H.IntoIter.remaining hints }
        ensures { AddsList S.model H.into_iter_gives H.IntoIter.next_gives H.IntoIter.remaining hints (λ _. ⊤) (λ items. unsigned_encoding func ++ vec_encoding hint_encoding items) self.old self.new result }
    {
        let hints = vec_of(hints)?;
        self.add_once((func, hints))
    }
}

/// The value of a hint, in one byte.
#[derive(Clone, Copy, Debug)]
pub(crate) struct HintValue(pub u8);

impl Layout for HintValue {
    ghost Value = { ℕ };

    ghost format = { such (λ b. b < 128) byte };

    ghost view = { λ value. value.0 };

    fn laws() {}
}

impl<'a, A: Allocator + Copy, G: Grammar> Readable<'a, A, G> for HintValue {
    ghost may_allocate = { ⊥ };

    #[tactic(auto, using(crate::proofs::HintLaws::hint_value_steps))]
    fn read(bytes: &'a [u8], alloc: A) -> Result<(HintValue, &'a [u8]), DecodeError> {
        let (value, rest) = <u8 as Readable<'a, A, G>>::read(bytes, alloc)?;
        if value >= 128 {
            return Err(ReadFault::TooLarge.just_before(rest));
        }
        Ok((HintValue(value), rest))
    }
}

impl Layout for BranchHint {
    ghost Value = { HintModel };

    ghost format = { hint };

    ghost view = { λ hint. hint };

    #[tactic(auto, using(crate::proofs::HintLaws::hint_unambiguous))]
    fn laws() {}
}

impl<'a, A: Allocator + Copy, G: Grammar> Readable<'a, A, G> for BranchHint {
    ghost may_allocate = { ⊥ };

    #[tactic(auto, using(crate::proofs::HintLaws::hint_steps))]
    fn read(bytes: &'a [u8], alloc: A) -> Result<(BranchHint, &'a [u8]), DecodeError> {
        let (branch_func_offset, rest) = <u32 as Readable<'a, A, G>>::read(bytes, alloc)?;
        let (HintValue(value), rest) = read_marked::<'a, HintValue, A, G>(0x01, rest, alloc)?;
        let hint = BranchHint {
            branch_func_offset,
            branch_hint_value: u32::from(value),
        };
        Ok((hint, rest))
    }
}

impl<A: Allocator> ItemsAs<(u32, Vec<BranchHint, A>)> for HintItems {
    ghost Said = { Hints };

    ghost format = { hints };

    ghost view = { hints_view };

    #[tactic(auto, using(crate::proofs::HintLaws::hints_unambiguous))]
    fn unique() {}

    #[tactic(auto, using(crate::proofs::HintLaws::function_appended, crate::proofs::HintLaws::of_branches_encodable))]
    fn append_item<B: Allocator>(
        item: &(u32, Vec<BranchHint, A>),
        sink: &mut Vec<u8, B>,
    ) -> Result<()> {
        let (func, of_branches) = item;
        func.write_minimal(sink)?;
        of_branches.as_slice().encode(sink)
    }
}

impl<'a, A: Allocator + Copy, G: Grammar> DecodesItems<'a, (u32, Vec<BranchHint, A>), A, G>
    for HintItems {
    fn read_item(
        bytes: &'a [u8],
        alloc: A,
    ) -> Result<((u32, Vec<BranchHint, A>), &'a [u8]), DecodeError> {
        <(u32, Vec<BranchHint, A>) as Readable<'a, A, G>>::read(bytes, alloc)
    }
}

/// Decodes the payload of a branch hint section, in the grammar `G`: for each function its index,
/// and the hints of its branches.
///
/// # Errors
///
/// Every error except `Memory` means that the bytes are not such a payload.
pub fn read_hints<'a, A: Allocator + Copy, G: Grammar>(
    bytes: &'a [u8],
    alloc: A,
) -> Result<Vec<(u32, Vec<BranchHint, A>), A>, DecodeError>
    ensures found { IfOk result (λ x. hints_payload (padded_of G.grammar) bytes.now (map hints_view x.items)) }
    ensures none { IfErr result (λ e. e.cause ≢ Memory → RejectsWhole hints_payload (padded_of G.grammar) bytes.now) }
{
    read_counted::<'a, HintItems, (u32, Vec<BranchHint, A>), A, G>(bytes, alloc)
}

/// Appends the minimal encoding of the payload of a section of these hints. On an error, the sink
/// is unchanged.
pub fn append_hints<A: Allocator, B: Allocator>(
    functions: &[(u32, Vec<BranchHint, A>)],
    sink: &mut Vec<u8, B>,
) -> Result<()>
    ensures ok { OnOk result (AppendsMinimal both_grammars hints_payload (map hints_view functions.now) sink.old.items sink.new.items) }
    ensures err { OnErr result (sink.new.items ≡ sink.old.items) }
    ensures too_long { HasEncoding both_grammars hints_payload (map hints_view functions.now) → result ≢ Err TooLong }
{
    append_counted::<HintItems, (u32, Vec<BranchHint, A>), _>(functions, sink)
}
