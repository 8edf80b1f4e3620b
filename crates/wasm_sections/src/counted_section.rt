// The builder of all sections of counted items.
ghost use Rattle.std.specs.Prelude.{◌≡◌, ◌≢◌, ℕ, List, IfOk, IsTrue, ◌↔◌, slice_get, Err, ⊤};
ghost use Rattle.std.proofs.Common.{refl};
ghost use Rattle.std.specs.Option.{option_copied};
ghost use Rattle.wasm_base.specs.Calls.{AddsTo, DecodesBackBoth};
ghost use Rattle.wasm_base.specs.Entries.{ContainsItems, ContainsPadded, counted_format};
ghost use Rattle.wasm_base.specs.Once.{AddsOnceTo};
ghost use Rattle.wasm_base.specs.declared.refused.Refused.TheVariants.{TooLong};

use std::alloc::Allocator;
use std::marker::{Model, PhantomData};
use wasm_base::{
    Counted, Encode, EncodeOnce, ItemsOf, Kind, NewStore, PaddedOf, Pieces, Result, Section, Store,
};

/// A kind of items that a section counts.
pub trait ItemKind: Kind {
    /// The id of the section of these items.
    ghost section_id: { ℕ };

    /// Returns the id of the section of these items.
    fn id() -> u8
        ensures { result ≡ section_id };
}

/// A record that can be added to a section of items of the kind `K`.
pub trait RecordOf<K>: Encode {}

/// A section of counted items of the kind `K`, whose entries a store of the type `S` keeps.
///
/// # Errors
///
/// An adding call that returns an error leaves the section unchanged. The error is `TooLong` only
/// if the section is full or the item does not fit, and `Memory` only if an allocation fails.
#[derive(Drop, Debug)]
pub struct CountedSection<K, S: Store = Pieces> {
    entries: S,
    kind: PhantomData<K>,
}

impl<K, S: Store> Model for CountedSection<K, S> {
    ghost Value = { S };

    ghost view = { λ s. s.entries };
}

impl<K, S: Store> CountedSection<K, S> {
    /// Returns the number of entries.
    pub fn len(&self) -> u32
        ensures { result ≡ (S.model.joins self.now).number }
    {
        self.entries.count()
    }

    /// Returns `true` if there are no entries.
    pub fn is_empty(&self) -> bool
        ensures { IsTrue result ↔ ((S.model.joins self.now).number ≡ 0) }
    {
        self.entries.count() == 0
    }

    /// Adds the encoding of the record as an entry.
    #[inline(always)]
    pub(crate) fn add_record<T: Encode>(&mut self, given: &T) -> Result<()>
        ensures { AddsTo S.model (T.encoding given.now) (T.encodable given.now) self.old self.new result }
    {
        self.entries.add_item(given)
    }

    /// Adds an encoding of the item as an entry, and consumes the item.
    #[inline(always)]
    pub(crate) fn add_once<T: EncodeOnce + Drop>(&mut self, item: T) -> Result<()>
        requires { T.lawful item }
        ensures { AddsOnceTo S.model (T.gives item) (T.encodable item) self.old self.new result }
    {
        self.entries.add_item_once(item)
    }

    /// Adds an entry that is already encoded.
    #[inline(always)]
    pub(crate) fn add_piece(&mut self, piece: &[u8]) -> Result<()>
        ensures { AddsTo S.model piece.now ⊤ self.old self.new result }
    {
        self.entries.add_bytes(piece)
    }
}

impl<K, A: Allocator> CountedSection<K, Pieces<A>> {
    /// Returns the bytes of the entry at `index`, or `None` if there is no such entry.
    pub fn piece(&self, index: u32) -> Option<&[u8]>
        ensures { option_copied result ≡ slice_get self.now index }
    {
        let pieces: &Pieces<A> = &self.entries;
        pieces.get(index)
    }
}

impl<K, S: NewStore> CountedSection<K, S> {
    /// Returns a section without entries, and allocates nothing.
    pub fn new(alloc: S::Alloc) -> Self
        ensures { result ≡ S.none }
    {
        CountedSection {
            entries: S::new_in(alloc),
            kind: PhantomData,
        }
    }

    /// Returns a section of the same entries, in memory of its own.
    pub fn clone(&self) -> Result<Self>
        ensures same { IfOk result (λ section. section ≡ self.now) }
        ensures memory { result ≢ Err TooLong }
    {
        Ok(CountedSection {
            entries: self.entries.copy()?,
            kind: PhantomData,
        })
    }
}

/// Encodes the size prefix, the number of entries, and the entries.
impl<K: ItemKind, S: Store> Encode for CountedSection<K, S> {
    ghost encoding = { S.encoding };

    ghost encodable = { S.encodable };

    ghost overlong = { S.overlong };

    ghost decoding = { λ section. DecodesBackBoth (counted_format K.kind.format) (λ items. S.model.holds (λ pieces. ContainsItems K.kind pieces items) section) (λ items. S.model.holds (λ pieces. ContainsPadded K.kind.format pieces items) section) (S.encoding section) };

    fn encode<B: Allocator>(&self, sink: &mut Vec<u8, B>) -> Result<()> {
        K::laws();
        self.entries.cut::<ItemsOf<K>>();
        self.entries.cut::<PaddedOf<K>>();
        self.entries.encode(sink)
    }
}

impl<K: ItemKind, S: Store> Section for CountedSection<K, S> {
    ghost use Rattle.wasm_base.specs.Entries.{ContainsItems, counted_format};
    ghost use Rattle.wasm_base.specs.Stores.{joined_payload, joined_sized};

    ghost id_of = { λ _. K.section_id };

    ghost Items = { List K.Item };

    ghost format = { counted_format K.kind.format };

    ghost says = { λ section items. S.model.holds (λ pieces. ContainsItems K.kind pieces items) section };

    ghost payload = { λ section bytes. bytes ≡ joined_payload (S.model.joins section) };

    fn id(&self) -> u8 {
        K::id()
    }

    ghost sized = { λ section bytes encodable e. joined_sized (S.model.joins section) (S.encoding section) bytes (S.encodes section) (S.fits section encodable) e };

    ghost decodes_back = { λ section promised. promised.plain };
}

impl<K: ItemKind, T: RecordOf<K>, A: Allocator> Counted<T> for CountedSection<K, Pieces<A>> {
    ghost pieces = { λ section. section };

    ghost item_encoding = { T.encoding };

    ghost item_encodable = { T.encodable };

    fn add(&mut self, item: &T) -> Result<()> {
        self.add_record(item)
    }

    ghost counted = { λ section. refl };
}
