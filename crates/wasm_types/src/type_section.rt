// The type section: its builder, its reader and its minimizer.
ghost use Rattle.std.specs.Prelude.{◌≡◌, ◌≢◌, ℕ, List, [], ◌∷◌, length, map, IfErr, IfOk, IsTrue, Err, OnOk, OnErr, ◌↔◌, slice_get, ⊤};
ghost use Rattle.std.proofs.Common.{refl};
ghost use Rattle.std.specs.Option.{option_copied};
ghost use Rattle.wasm_base.specs.Calls.{AddsTo, DecodesBackBoth};
ghost use Rattle.wasm_base.specs.Entries.{ContainsPadded, counted_format};
ghost use Rattle.wasm_base.specs.Formats.{vec};
ghost use Rattle.wasm_base.specs.Continuing.{RejectsWhole};
ghost use Rattle.wasm_base.specs.Iterators.{HasKnownLength};
ghost use Rattle.wasm_base.specs.Numbers.{padded_of};
ghost use Rattle.wasm_base.specs.Encodings.{IsEncodableVec};
ghost use Rattle.wasm_base.specs.declared.refused.Refused.TheVariants.{TooLong};
ghost use Rattle.wasm_base.specs.Minimal.{AppendsMinimal, HasEncoding, builders_alone};
ghost use Rattle.wasm_base.specs.declared.fault.ReadFault.TheVariants.{Memory};
ghost use Rattle.wasm_types.specs.Calls.{AddsListed, AddsTwoListed};
ghost use Rattle.wasm_types.specs.Items.{entry_view};
ghost use Rattle.wasm_types.specs.RecTypes.{type_items, TypeItem as Item, type_item, field_encoding, func_encoding, struct_encoding, cont_encoding, sub_encoding, ContainsTypes};

use crate::items::TypeEntry;
use crate::types::{ARRAY, ContType, FUNC, FieldType, FuncType, STRUCT, StorageType, SubType};
use std::alloc::{Allocator, Global};
use std::marker::Model;
use wasm_base::{
    Counted, DecodeError, Encode, Grammar, ItemsOf, Kind, NewStore, PaddedOf, Pieces, Result,
    Section, SectionId, Store, ValType, read_whole, vec_of,
};

/// The type section: the types that a module defines, modelled as the bytes of each entry.
///
/// ```rust
/// let mut types = TypeSection::new(alloc);
/// types.ty().function([ValType::I32, ValType::I32], [ValType::I32])?;
/// module.section(&types)?;
/// ```
pub type TypeSection<A = Global> = TypeSectionIn<Pieces<A>>;

/// A type section, whose entries a store of the type `S` keeps.
///
/// # Errors
///
/// An adding call that returns an error leaves the section unchanged. The error is `TooLong` only
/// if the section is full or a list is too long, and `Memory` only if an allocation fails.
#[derive(Drop, Debug)]
pub struct TypeSectionIn<S: Store = Pieces> {
    entries: S,
}

impl<S: Store> Model for TypeSectionIn<S> {
    ghost Value = { S };

    ghost view = { λ s. s.entries };
}

/// The kind of a type section's items: subtypes and recursion groups.
#[derive(Clone, Copy, Debug)]
pub struct TypeItems;

impl Kind for TypeItems {
    ghost Record = { Item };

    ghost Item = { Item };

    ghost kind = { type_items };

    #[tactic(auto, using(crate::proofs::TypeLaws::type_laws))]
    fn laws() {}
}

impl<S: Store> TypeSectionIn<S> {
    /// Returns the number of entries.
    pub fn len(&self) -> u32
        ensures { result ≡ (S.model.joins self.now).number }
    {
        self.entries.count()
    }

    /// Returns `true` if there are no entries.
    pub fn is_empty(&self) -> bool
        ensures { IsTrue result ↔ ((S.model.joins self.now).number ≡ 0) }
    {
        self.entries.count() == 0
    }

    /// Adds an entry that is already encoded. The call does not check that it is a type or a
    /// recursion group.
    pub fn raw(&mut self, entry: &[u8]) -> Result<()>
        ensures { AddsTo S.model entry.now ⊤ self.old self.new result }
    {
        self.entries.add_bytes(entry)
    }

    /// Returns an encoder that adds one type. If none of its methods is called, nothing is added.
    pub fn ty(&mut self) -> CoreTypeEncoderIn<'_, S>
        ensures same_reference { result.section.ghost_name ≡ self.entry.ghost_name }
        ensures same { result.section.now ≡ self.old }
    {
        CoreTypeEncoderIn { section: self }
    }
}

impl<A: Allocator> TypeSection<A> {
    /// Returns the bytes of the entry at `index`, or `None` if there is no such entry.
    pub fn piece(&self, index: u32) -> Option<&[u8]>
        ensures { option_copied result ≡ slice_get self.now index }
    {
        self.entries.get(index)
    }
}

impl<S: NewStore> TypeSectionIn<S> {
    /// Returns a section without entries, and allocates nothing.
    pub fn new(alloc: S::Alloc) -> Self
        ensures { result ≡ S.none }
    {
        TypeSectionIn {
            entries: S::new_in(alloc),
        }
    }

    /// Returns a copy of the section in newly allocated memory.
    pub fn clone(&self) -> Result<Self>
        ensures same { IfOk result (λ section. section ≡ self.now) }
        ensures memory { result ≢ Err TooLong }
    {
        Ok(TypeSectionIn {
            entries: self.entries.copy()?,
        })
    }
}

/// Encodes the size prefix, the number of entries, and the entries.
impl<S: Store> Encode for TypeSectionIn<S> {
    ghost encoding = { S.encoding };

    ghost encodable = { S.encodable };

    ghost overlong = { S.overlong };

    ghost decoding = { λ section. DecodesBackBoth (counted_format type_item) (λ items. S.model.holds (λ pieces. ContainsTypes pieces items) section) (λ items. S.model.holds (λ pieces. ContainsPadded type_item pieces items) section) (S.encoding section) };

    fn encode<B: Allocator>(&self, sink: &mut Vec<u8, B>) -> Result<()> {
        TypeItems::laws();
        self.entries.cut::<ItemsOf<TypeItems>>();
        self.entries.cut::<PaddedOf<TypeItems>>();
        self.entries.encode(sink)
    }
}

impl<S: Store> Section for TypeSectionIn<S> {
    ghost use Rattle.wasm_base.specs.Stores.{joined_payload, joined_sized};
    ghost use Rattle.wasm_base.specs.SectionId.{number_of};
    ghost use Rattle.wasm_base.specs.declared.section_id.SectionId.TheVariants as ids;

    ghost id_of = { λ _. number_of ids.Types };

    ghost Items = { List Item };

    ghost format = { counted_format type_item };

    ghost says = { λ section items. S.model.holds (λ pieces. ContainsTypes pieces items) section };

    ghost payload = { λ section bytes. bytes ≡ joined_payload (S.model.joins section) };

    fn id(&self) -> u8 {
        SectionId::Types.into()
    }

    ghost sized = { λ section bytes encodable e. joined_sized (S.model.joins section) (S.encoding section) bytes (S.encodes section) (S.fits section encodable) e };

    ghost decodes_back = { λ section promised. promised.plain };
}

/// Adds decoded entries, each as it was: a type, or a recursion group.
impl<A: Allocator, B: Allocator> Counted<TypeEntry<B>> for TypeSection<A> {
    ghost use Rattle.wasm_types.specs.Items.{entry_encoding, IsEncodableEntry};

    ghost pieces = { λ section. section };

    ghost item_encoding = { entry_encoding };

    ghost item_encodable = { IsEncodableEntry };

    fn add(&mut self, item: &TypeEntry<B>) -> Result<()> {
        self.entries.add_encoded(item)
    }

    ghost counted = { λ section. refl };
}

/// Adds one type to a section that it borrows. A call that returns an error leaves the section
/// unchanged.
#[derive(Drop, Debug)]
pub struct CoreTypeEncoderIn<'a, S: Store = Pieces> {
    section: &'a mut TypeSectionIn<S>,
}

/// Adds one type to a [`TypeSection`] that it borrows.
pub type CoreTypeEncoder<'a, A = Global> = CoreTypeEncoderIn<'a, Pieces<A>>;

impl<'a, S: Store> CoreTypeEncoderIn<'a, S> {
    ghost use Rattle.wasm_types.specs.Given.{sub_in, shape_in, IsEncodableShape, group_encoding};

    /// Adds a function type.
    pub fn func_type<B: Allocator>(self, ty: &FuncType<B>) -> Result<()>
        ensures { AddsTo S.model (func_encoding ty.now.params.items ty.now.results.items) (IsEncodableVec (λ _. ⊤) ty.now.params.items × IsEncodableVec (λ _. ⊤) ty.now.results.items) self.entry.section.now self.exit.0.now result }
    {
        let section = self.section;
        section.entries.add_item(ty)
    }

    /// Adds an array type.
    pub fn array(self, ty: &StorageType, mutable: bool) -> Result<()>
        ensures { AddsTo S.model (0x5E ∷ field_encoding (record { element_type = ty.now; mutable = mutable })) ⊤ self.entry.section.now self.exit.0.now result }
    {
        let element = FieldType {
            element_type: *ty,
            mutable,
        };
        let section = self.section;
        section.entries.add_item(&(ARRAY, element))
    }

    /// Adds a continuation type.
    pub fn cont(self, ty: &ContType) -> Result<()>
        ensures { AddsTo S.model (cont_encoding ty.now.0) ⊤ self.entry.section.now self.exit.0.now result }
    {
        let section = self.section;
        section.entries.add_item(ty)
    }

    /// Adds a subtype.
    pub fn subtype<B: Allocator>(self, ty: &SubType<B>) -> Result<()>
        ensures { AddsTo S.model (sub_encoding (sub_in ty.now)) (IsEncodableShape (shape_in ty.now.composite_type.inner)) self.entry.section.now self.exit.0.now result }
    {
        let section = self.section;
        section.entries.add_item(ty)
    }

    /// Adds a function type of these parameters and results. If an iterator reports more than
    /// 4294967295 items, the call returns `TooLong` and requests none, as tests show.
    pub fn function<P: IntoIterator<Item = ValType>, Q: IntoIterator<Item = ValType>>(
        self,
        params: P,
        results: Q,
    ) -> Result<()>
    where
        P::IntoIter: ExactSizeIterator + Drop,
        Q::IntoIter: ExactSizeIterator + Drop,
        requires params { HasKnownLength P.into_iter_gives P.IntoIter.can_next P.IntoIter.next_gives P.IntoIter.remaining params }
        requires results { HasKnownLength Q.into_iter_gives Q.IntoIter.can_next Q.IntoIter.next_gives Q.IntoIter.remaining results }
        ensures { AddsTwoListed S.model P.into_iter_gives P.IntoIter.next_gives P.IntoIter.remaining Q.into_iter_gives Q.IntoIter.next_gives Q.IntoIter.remaining params results func_encoding self.entry.section.now self.exit.0.now result }
    {
        let section = self.section;
        let params = vec_of(params);
        let results = vec_of(results);
        section.entries.add_item_once((FUNC, params?, results?))
    }

    /// Adds a structure type of these fields. If the iterator reports more than 4294967295 fields,
    /// the call returns `TooLong` and requests none, as tests show.
    pub fn struct_<F: IntoIterator<Item = FieldType>>(self, fields: F) -> Result<()>
    where
        F::IntoIter: ExactSizeIterator + Drop,
        requires { HasKnownLength F.into_iter_gives F.IntoIter.can_next F.IntoIter.next_gives F.IntoIter.remaining fields }
        ensures { AddsListed S.model F.into_iter_gives F.IntoIter.next_gives F.IntoIter.remaining (λ _. ⊤) fields struct_encoding self.entry.section.now self.exit.0.now result }
    {
        let section = self.section;
        let fields = vec_of(fields)?;
        section.entries.add_item_once((STRUCT, fields))
    }

    /// Adds a recursion group: subtypes that may refer to one another. If the iterator reports more
    /// than 4294967295 subtypes, the call returns `TooLong` and requests none, as tests show.
    pub fn rec<T: IntoIterator<Item = SubType<B>>, B: Allocator>(self, types: T) -> Result<()>
    where
        T::IntoIter: ExactSizeIterator + Drop,
        requires { HasKnownLength T.into_iter_gives T.IntoIter.can_next T.IntoIter.next_gives T.IntoIter.remaining types }
        ensures { AddsListed S.model T.into_iter_gives T.IntoIter.next_gives T.IntoIter.remaining (λ s. IsEncodableShape (shape_in s.composite_type.inner)) types group_encoding self.entry.section.now self.exit.0.now result }
    {
        let section = self.section;
        let types = vec_of(types)?;
        section.entries.add_item_once((REC, types))
    }
}

/// The byte before a recursion group.
pub(crate) const REC: u8 = 0x4E;

/// Decodes the payload of a type section, in the grammar `G`: a count and that many entries, which
/// occupy all of the bytes.
///
/// # Errors
///
/// Every error except `Memory` means that the bytes are not such a payload.
pub fn read_types<'a, A: Allocator + Copy, G: Grammar>(
    bytes: &'a [u8],
    alloc: A,
) -> Result<Vec<TypeEntry<A>, A>, DecodeError>
    ensures found { IfOk result (λ x. vec type_item (padded_of G.grammar) bytes.now (map entry_view x.items)) }
    ensures none { IfErr result (λ e. e.cause ≢ Memory → RejectsWhole (vec type_item) (padded_of G.grammar) bytes.now) }
{
    read_whole::<'a, Vec<TypeEntry<A>, A>, A, G>(bytes, alloc)
}

/// Appends the minimal encoding of a type section's payload: the number of types, and the types.
///
/// # Errors
///
/// Returns [`Refused`](wasm_base::Refused), and leaves the bytes of the sink unchanged, if an
/// allocation fails. Decoded types never cause `TooLong`.
#[tactic(auto, using(crate::proofs::MinimalTypes::types_appended))]
pub fn append_types<A: Allocator, B: Allocator>(
    types: &[TypeEntry<A>],
    sink: &mut Vec<u8, B>,
) -> Result<()>
    ensures ok { OnOk result (AppendsMinimal builders_alone (vec type_item) (map entry_view types.now) sink.old.items sink.new.items) }
    ensures err { OnErr result (sink.new.items ≡ sink.old.items) }
    ensures too_long { HasEncoding builders_alone (vec type_item) (map entry_view types.now) → result ≢ Err TooLong }
{
    types.encode(sink)
}
