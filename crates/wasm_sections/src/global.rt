// The global section: its builder and its reader.
ghost use Rattle.std.specs.Prelude.{◌≡◌, ◌++◌, ⊤};
ghost use Rattle.wasm_base.specs.Calls.{AddsTo};
ghost use Rattle.wasm_base.specs.Formats.{coded};
ghost use Rattle.wasm_code.specs.Expressions.{expression_encoding};
ghost use Rattle.wasm_sections.specs.Globals.{global_items, global_flags, global_code, global_encoding, GivenGlobal, GlobalItem as GlobalModel, global_item, GlobalFlags as GlobalBits, global_type, global_flags_view, global_view};
ghost use Rattle.wasm_sections.specs.declared.global.GlobalType.{GlobalType as TypeModel};
ghost use Rattle.wasm_base.specs.Minimal.{builders_alone};

use crate::counted_section::{CountedSection, ItemKind};
use crate::flags::where_set;
use std::alloc::{Allocator, Global};
use wasm_base::{
    DecodeError, Encode, Grammar, Kind, Layout, Lent, Pieces, ReadFault, Readable, Result,
    SectionId, Shorten, Store, ValType,
};
use wasm_code::{ConstExpr, Expression};

/// The global section: the globals that a module defines.
///
/// ```rust
/// let mut globals = GlobalSection::new(alloc);
/// let global_type = GlobalType { val_type: ValType::I32, mutable: false, shared: false };
/// globals.global(global_type, &ConstExpr::i32_const(alloc, 42)?)?;
/// module.section(&globals)?;
/// ```
pub type GlobalSection<A = Global> = CountedSection<GlobalItems, Pieces<A>>;

/// The kind of a global section's items: types of globals, each with an initializer expression.
#[derive(Clone, Copy, Debug)]
pub struct GlobalItems;

/// The type of a global.
#[derive(Clone, Copy, PartialEq, Eq, Hash, Debug)]
pub struct GlobalType {
    pub val_type: ValType,
    /// Whether it can be set.
    pub mutable: bool,
    /// Whether threads share it.
    pub shared: bool,
}

impl GlobalType {
    /// Returns the flags: a bit for each attribute that is set.
    #[inline]
    pub(crate) fn flags(&self) -> u8
        ensures { result ≡ global_code (global_flags self.now) }
    {
        where_set(self.mutable, 0x01) + where_set(self.shared, 0x02)
    }
}

/// Encodes the type of the value, and the flags.
impl Encode for GlobalType {
    ghost encoding = { global_encoding };

    ghost encodable = { λ _. ⊤ };

    #[inline]
    fn encode<A: Allocator>(&self, sink: &mut Vec<u8, A>) -> Result<()> {
        (self.val_type, self.flags()).encode(sink)
    }
}

impl Kind for GlobalItems {
    ghost Record = { GivenGlobal };

    ghost Item = { GlobalModel };

    ghost kind = { global_items };

    #[tactic(auto, using(crate::proofs::GlobalLaws::global_laws))]
    fn laws() {}
}

impl ItemKind for GlobalItems {
    ghost use Rattle.wasm_base.specs.SectionId.{number_of};
    ghost use Rattle.wasm_base.specs.declared.section_id.SectionId.TheVariants as ids;

    ghost section_id = { number_of ids.Global };

    fn id() -> u8 {
        SectionId::Global.into()
    }
}

impl<S: Store> CountedSection<GlobalItems, S> {
    /// Adds a global of this type, initialized by the expression.
    pub fn global<B: Allocator>(
        &mut self,
        global_type: GlobalType,
        init: &ConstExpr<B>,
    ) -> Result<()>
        ensures { AddsTo S.model (global_encoding global_type ++ expression_encoding init.now) ⊤ self.old self.new result }
    {
        self.add_record(&(global_type, Lent(init)))
    }

    /// Adds a global that is already encoded. The call does not check that it is one.
    pub fn raw(&mut self, global: &[u8]) -> Result<()>
        ensures { AddsTo S.model global.now ⊤ self.old self.new result }
    {
        self.add_piece(global)
    }
}

/// The flags of a global.
#[derive(Clone, Copy, Debug)]
struct GlobalFlags {
    mutable: bool,
    shared: bool,
}

impl Layout for GlobalFlags {
    ghost Value = { GlobalBits };

    ghost format = { coded global_code };

    ghost view = { global_flags_view };

    #[tactic(auto, using(crate::proofs::GlobalLaws::global_flags_unambiguous))]
    fn laws() {}
}

impl<'a, A: Allocator + Copy, G: Grammar> Readable<'a, A, G> for GlobalFlags {
    ghost may_allocate = { ⊥ };

    #[tactic(auto, using(crate::proofs::GlobalLaws::flag_steps))]
    fn read(bytes: &'a [u8], alloc: A) -> Result<(GlobalFlags, &'a [u8]), DecodeError> {
        let (byte, rest) = <u8 as Readable<'a, A, G>>::read(bytes, alloc)?;
        if byte >= 0x04 {
            return Err(ReadFault::UnknownTag.just_before(rest));
        }
        let flags = GlobalFlags {
            mutable: byte % 2 == 1,
            shared: byte / 2 % 2 == 1,
        };
        Ok((flags, rest))
    }
}

impl Layout for GlobalType {
    ghost Value = { TypeModel };

    ghost format = { global_type };

    ghost view = { λ global. global };

    #[tactic(auto, using(crate::proofs::GlobalLaws::global_unambiguous))]
    fn laws() {}
}

impl<'a, A: Allocator + Copy, G: Grammar> Readable<'a, A, G> for GlobalType {
    ghost may_allocate = { ⊥ };

    #[tactic(auto, using(crate::proofs::GlobalLaws::type_steps))]
    fn read(bytes: &'a [u8], alloc: A) -> Result<(GlobalType, &'a [u8]), DecodeError> {
        let ((val_type, flags), rest) = <(ValType, GlobalFlags) as Readable<'a, A, G>>::read(
            bytes, alloc,
        )?;
        let global_type = GlobalType {
            val_type,
            mutable: flags.mutable,
            shared: flags.shared,
        };
        Ok((global_type, rest))
    }
}

/// A decoded global: its type, and its initializer expression.
#[derive(Debug, Drop)]
pub struct GlobalItem<A: Allocator = Global> {
    pub global_type: GlobalType,
    pub init: Expression<A>,
}

impl<A: Allocator> Layout for GlobalItem<A> {
    ghost Value = { GlobalModel };

    ghost format = { global_item };

    ghost view = { global_view };

    #[tactic(auto, using(crate::proofs::GlobalLaws::global_item_unambiguous))]
    fn laws() {}
}

impl<'a, A: Allocator + Copy, G: Grammar> Readable<'a, A, G> for GlobalItem<A> {
    #[tactic(auto, using(crate::proofs::GlobalLaws::item_steps))]
    fn read(bytes: &'a [u8], alloc: A) -> Result<(GlobalItem<A>, &'a [u8]), DecodeError> {
        let ((global_type, init), rest) = <(GlobalType, Expression<A>) as Readable<'a, A, G>>::read(
            bytes, alloc,
        )?;
        Ok((GlobalItem { global_type, init }, rest))
    }
}

impl<A: Allocator> Shorten for GlobalItem<A> {
    ghost grammars = { builders_alone };

    #[tactic(auto, using(crate::proofs::GlobalLaws::global_appended, crate::proofs::GlobalLaws::init_encoded))]
    fn write_minimal<B: Allocator>(&self, sink: &mut Vec<u8, B>) -> Result<()> {
        self.global_type.encode(sink)?;
        self.init.write_minimal(sink)
    }
}
