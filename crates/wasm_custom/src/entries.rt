// The builder of all custom sections of entries.
ghost use Rattle.std.specs.Prelude.{◌≡◌, ◌≢◌, ℕ, ◌+◌, ◌<◌, ◌≤◌, List, [], length, Bool, Err, IfOk, IsTrue, ◌↔◌, ⊤};
ghost use Rattle.wasm_base.specs.Calls.{AddsTo, Appends, DecodesBackBoth};
ghost use Rattle.wasm_base.specs.Cow.{items_of, utf8_of};
ghost use Rattle.wasm_base.specs.Entries.{ContainsItems, ContainsPadded};
ghost use Rattle.wasm_base.specs.Numbers.{Mode};
ghost use Rattle.wasm_base.specs.Once.{AddsOnceTo};
ghost use Rattle.wasm_base.specs.Encodings.{longest, size_prefixed_encoding};
ghost use Rattle.wasm_base.specs.declared.refused.Refused.TheVariants.{TooLong};
ghost use Rattle.wasm_custom.specs.Customs.{named_section, named_encoding, IsEncodableNamed};
ghost use Rattle.wasm_custom.specs.Entries.{count_encoding, joined_data, entries, CustomLayoutLaws};

use crate::custom_section::{CustomSection, begin_custom};
use std::alloc::Allocator;
use std::marker::{Model, PhantomData};
use wasm_base::{
    CowSlice, CowStr, Encode, EncodeOnce, ItemsOf, Kind, NewStore, PaddedOf, Pieces, Result,
    Section, SectionId, Store, encoding_size,
};

/// A kind of custom section: its items, its name, the bytes before its entries, and whether the
/// entries are counted.
pub trait CustomKind: Kind {
    /// The name of the section.
    ghost name: { List ℕ };

    /// The bytes before the entries, and their format.
    ghost front: { List ℕ };

    ghost front_format: { Mode → List ℕ → Unit {0} → Type 0 };

    /// Whether the number of entries precedes them.
    ghost counted: { Bool };

    /// Returns the name of the section.
    fn name() -> &'static str
        ensures { result.now ≡ name };

    /// Returns the bytes before the entries.
    fn front() -> &'static [u8]
        ensures { result.now ≡ front };

    /// Returns `true` if the number of entries precedes them.
    fn counted() -> bool
        ensures { result ≡ counted };

    /// Proves three laws: the name is UTF-8, the bytes before the entries encode a value of an
    /// unambiguous format, and uncounted items are never empty. The function does nothing.
    fn layout_laws()
        ensures { CustomLayoutLaws Self.kind.format name front front_format counted };
}

/// A custom section of entries of the kind `K`, which a store of the type `S` keeps.
///
/// # Errors
///
/// An adding call that returns an error leaves the section unchanged. The error is `TooLong` only
/// if the section is full or the item does not fit, and `Memory` only if an allocation fails.
#[derive(Drop, Debug)]
pub struct CustomEntries<K, S: Store = Pieces> {
    entries: S,
    kind: PhantomData<K>,
}

impl<K, S: Store> Model for CustomEntries<K, S> {
    ghost Value = { S };

    ghost view = { λ s. s.entries };
}

impl<K, S: Store> CustomEntries<K, S> {
    /// Returns the number of entries.
    pub fn len(&self) -> u32
        ensures { result ≡ (S.model.joins self.now).number }
    {
        self.entries.count()
    }

    /// Returns `true` if there are no entries.
    pub fn is_empty(&self) -> bool
        ensures { IsTrue result ↔ ((S.model.joins self.now).number ≡ 0) }
    {
        self.entries.count() == 0
    }

    /// Adds the encoding of the record as an entry.
    pub(crate) fn add_record<T: Encode>(&mut self, given: &T) -> Result<()>
        ensures { AddsTo S.model (T.encoding given.now) (T.encodable given.now) self.old self.new result }
    {
        self.entries.add_item(given)
    }

    /// Adds an encoding of the item as an entry, and consumes the item.
    pub(crate) fn add_once<T: EncodeOnce + Drop>(&mut self, item: T) -> Result<()>
        requires { T.lawful item }
        ensures { AddsOnceTo S.model (T.gives item) (T.encodable item) self.old self.new result }
    {
        self.entries.add_item_once(item)
    }

    /// Returns the bytes of the entries, one entry after another.
    pub(crate) fn content(&self) -> &[u8]
        ensures { result.now ≡ (S.model.joins self.now).content }
    {
        self.entries.content()
    }
}

impl<K, S: NewStore> CustomEntries<K, S> {
    /// Returns a section without entries, and allocates nothing.
    pub fn new(alloc: S::Alloc) -> Self
        ensures { result ≡ S.none }
    {
        CustomEntries {
            entries: S::new_in(alloc),
            kind: PhantomData,
        }
    }

    /// Returns a section of the same entries, in memory of its own.
    pub fn clone(&self) -> Result<Self>
        ensures same { IfOk result (λ section. section ≡ self.now) }
        ensures memory { result ≢ Err TooLong }
    {
        Ok(CustomEntries {
            entries: self.entries.copy()?,
            kind: PhantomData,
        })
    }
}

impl<K: CustomKind, S: Store> CustomEntries<K, S> {
    /// Returns the section as a custom section, which owns a copy of the data.
    pub(crate) fn owned<B: Allocator>(&self, alloc: B) -> Result<CustomSection<'_, B>>
        ensures same { IfOk result (λ s. (utf8_of s.name ≡ K.name) × (items_of s.bytes ≡ joined_data K.front K.counted (S.model.joins self.now))) }
        ensures memory { result ≢ Err TooLong }
    {
        let data = data_of(alloc, K::front(), K::counted(), &self.entries)?;
        Ok(CustomSection {
            name: CowStr::Borrowed(K::name()),
            bytes: CowSlice::Owned(data),
        })
    }
}

/// A count that is encoded only if entries are counted.
#[derive(Clone, Copy)]
struct Count {
    counted: bool,
    number: u32,
}

impl Count {
    /// Returns the length of its encoding, in bytes.
    fn size(self) -> usize
        ensures is { result ≡ length (count_encoding self.counted self.number) }
        ensures small { result ≤ 5 }
    {
        if self.counted {
            encoding_size(self.number)
        } else {
            0
        }
    }
}

/// Encodes the number if entries are counted, and no bytes otherwise.
impl Encode for Count {
    ghost encoding = { λ c. count_encoding c.counted c.number };

    ghost encodable = { λ _. ⊤ };

    fn encode<A: Allocator>(&self, sink: &mut Vec<u8, A>) -> Result<()> {
        if self.counted {
            self.number.encode(sink)
        } else {
            Ok(())
        }
    }
}

/// Returns the length of the data in bytes if a size prefix can represent it, and a number above
/// 4294967295 otherwise.
fn data_size<S: Store>(front: &[u8], count: Count, entries: &S) -> usize
    ensures known { result ≤ longest → result ≡ length front.now + (length (count_encoding count.counted count.number) + length (S.model.joins entries.now).content) }
    ensures small { length front.now + (length (count_encoding count.counted count.number) + length (S.model.joins entries.now).content) ≤ longest → result ≡ length front.now + (length (count_encoding count.counted count.number) + length (S.model.joins entries.now).content) }
{
    front
        .len()
        .saturating_add(count.size())
        .saturating_add(entries.content().len())
}

/// Appends a custom section without its id: the size prefix, the name, the bytes `front`, the
/// number of entries if they are counted, and the entries.
#[tactic(auto, unfolding(crate::specs::Customs::named_encoding))]
pub(crate) fn encode_entries<A: Allocator, S: Store>(
    sink: &mut Vec<u8, A>,
    name: &str,
    front: &[u8],
    counted: bool,
    entries: &S,
) -> Result<()>
    ensures appends { Appends (named_encoding name.now (joined_data front.now counted (S.model.joins entries.now))) (IsEncodableNamed name.now (joined_data front.now counted (S.model.joins entries.now))) sink.old sink.new result }
    ensures few { (S.model.joins entries.now).number ≤ longest }
    ensures too_many { longest < length (size_prefixed_encoding name.now) + length (joined_data front.now counted (S.model.joins entries.now)) → result ≡ Err TooLong }
{
    let count = Count {
        counted,
        number: entries.count(),
    };
    let size = data_size(front, count, entries);
    begin_custom(sink, name, size)?;
    sink.extend_from_slice(front).unwrap();
    count.encode(sink).unwrap();
    sink.extend_from_slice(entries.content()).unwrap();
    Ok(())
}

/// Returns a copy of the data of a section.
pub(crate) fn data_of<A: Allocator, S: Store>(
    alloc: A,
    front: &[u8],
    counted: bool,
    entries: &S,
) -> Result<Vec<u8, A>>
    ensures same { IfOk result (λ v. v.items ≡ joined_data front.now counted (S.model.joins entries.now)) }
    ensures memory { result ≢ Err TooLong }
{
    let count = Count {
        counted,
        number: entries.count(),
    };
    let mut sink = Vec::from_slice(alloc, front)?;
    count.encode(&mut sink)?;
    sink.extend_from_slice(entries.content())?;
    Ok(sink)
}

/// Encodes the size prefix, the name and the data.
impl<K: CustomKind, S: Store> Encode for CustomEntries<K, S> {
    ghost encoding = { λ section. named_encoding K.name (joined_data K.front K.counted (S.model.joins section)) };

    ghost encodable = { λ section. IsEncodableNamed K.name (joined_data K.front K.counted (S.model.joins section)) };

    ghost overlong = { λ section. longest < length (size_prefixed_encoding K.name) + length (joined_data K.front K.counted (S.model.joins section)) };

    ghost decoding = { λ section. DecodesBackBoth (named_section K.name (entries K.front_format K.counted K.kind.format)) (λ items. S.model.holds (λ pieces. ContainsItems K.kind pieces items) section) (λ items. S.model.holds (λ pieces. ContainsPadded K.kind.format pieces items) section) (named_encoding K.name (joined_data K.front K.counted (S.model.joins section))) };

    fn encode<B: Allocator>(&self, sink: &mut Vec<u8, B>) -> Result<()> {
        K::laws();
        K::layout_laws();
        self.entries.cut::<ItemsOf<K>>();
        self.entries.cut::<PaddedOf<K>>();
        encode_entries(sink, K::name(), K::front(), K::counted(), &self.entries)
    }
}

impl<K: CustomKind, S: Store> Section for CustomEntries<K, S> {
    ghost use Rattle.wasm_base.specs.Entries.{ContainsItems};
    ghost use Rattle.wasm_base.specs.SectionId.{number_of};
    ghost use Rattle.wasm_base.specs.declared.section_id.SectionId.TheVariants as ids;
    ghost use Rattle.wasm_custom.specs.Customs.{named_section, NamedPayload, named_sized};
    ghost use Rattle.wasm_custom.specs.Entries.{joined_data, entries};

    ghost id_of = { λ _. number_of ids.Custom };

    ghost Items = { List K.Item };

    ghost format = { named_section K.name (entries K.front_format K.counted K.kind.format) };

    ghost says = { λ section items. S.model.holds (λ pieces. ContainsItems K.kind pieces items) section };

    ghost payload = { λ section. NamedPayload K.name (joined_data K.front K.counted (S.model.joins section)) };

    fn id(&self) -> u8 {
        SectionId::Custom.into()
    }

    ghost sized = { λ section bytes encodable pays. named_sized K.name (joined_data K.front K.counted (S.model.joins section)) bytes encodable pays };

    ghost decodes_back = { λ section promised. promised.plain };
}
