// Counted lists, each of which is one argument of a call that adds to a section or to another list.
ghost use Rattle.std.specs.Prelude.{◌≡◌, ◌≢◌, ℕ, List, IfOk, IsTrue, ◌↔◌, ⊤, Option};
ghost use Rattle.wasm_base.specs.Calls.{AddsTo};
ghost use Rattle.wasm_base.specs.Stores.{Cut};
ghost use Rattle.wasm_base.specs.declared.refused.Refused.TheVariants.{TooLong};
ghost use Rattle.wasm_custom.specs.Lists.{list_encoding, listed_encoding, IsEncodableList, ContainsList, IsEncodingOf};

use crate::subsections::{Content, Subsection};
use std::alloc::Allocator;
use std::marker::{Model, PhantomData};
use wasm_base::{Encode, NewStore, Pieces, Property, Result, Store, encoding_size};

/// A kind of members of a list, and their encoding.
pub trait ListKind {
    /// The argument of an adding call.
    ghost Member: { Type 0 };

    /// `member_encoding`: the encoding of a member.
    ghost member_encoding: { Member → List ℕ };

    /// A property of each member that is added.
    ghost is_member: { Member → Type 0 };

    /// The id of the subsection that a list is encoded as, or `None` if the encoding is the vector
    /// alone.
    ghost subsection: { Option ℕ };

    /// Returns the id of the subsection, or `None`.
    fn subsection() -> Option<u8>
        ensures { result ≡ subsection };
}

/// The pieces are the encodings of a list of members of the kind `K`.
#[derive(Clone, Copy, Debug)]
pub struct MembersOf<K>(PhantomData<K>);

impl<K: ListKind> Property for MembersOf<K> {
    ghost Items = { Unit {0} };

    ghost says = { λ pieces _. ContainsList K.member_encoding K.is_member pieces };
}

/// A list of counted members of the kind `K`, whose entries a store of the type `S` keeps.
///
/// # Errors
///
/// An adding call that returns an error leaves the list unchanged. The error is `TooLong` only if
/// the list is full or the member does not fit, and `Memory` only if an allocation fails.
#[derive(Drop, Debug)]
pub struct CountedList<K: ListKind, S: Store = Pieces> {
    entries: S,
    kind: PhantomData<K>,
}

/// Invariant: the entries are the encodings of a list of members.
impl<K: ListKind, S: Store> Model for CountedList<K, S> {
    ghost Value = { S };

    ghost view = { λ l. l.entries };

    ghost invariant = { λ l. S.model.holds (λ pieces. ContainsList K.member_encoding K.is_member pieces) l.entries };
}

impl<K: ListKind, S: Store> CountedList<K, S> {
    /// Returns the number of entries.
    pub fn len(&self) -> u32
        ensures { result ≡ (S.model.joins self.now).number }
    {
        self.entries.count()
    }

    /// Returns `true` if there are no entries.
    pub fn is_empty(&self) -> bool
        ensures { IsTrue result ↔ ((S.model.joins self.now).number ≡ 0) }
    {
        self.entries.count() == 0
    }

    /// Adds the encoding of the record as an entry.
    pub(crate) fn add_record<T: Encode>(&mut self, given: &T) -> Result<()>
        requires { T.encodable given.now → IsEncodingOf K.member_encoding K.is_member (T.encoding given.now) }
        ensures { AddsTo S.model (T.encoding given.now) (T.encodable given.now) self.old self.new result }
    {
        S::grows::<MembersOf<K>>();
        self.entries.add_item(given)?;
        Ok(())
    }

    /// Proves that the entries are the encodings of a list of members. The function does nothing.
    pub fn members_law(&self)
        ensures entries { S.model.holds (λ pieces. ContainsList K.member_encoding K.is_member pieces) self.now }
        ensures cut { Cut (λ pieces. ContainsList K.member_encoding K.is_member pieces) (S.model.joins self.now) }
    {
        self.entries.cut::<MembersOf<K>>();
    }
}

impl<K: ListKind, S: NewStore> CountedList<K, S> {
    /// Returns a list without entries, and allocates nothing.
    pub fn new(alloc: S::Alloc) -> Self
        ensures { result ≡ S.none }
    {
        S::begins::<MembersOf<K>>();
        CountedList {
            entries: S::new_in(alloc),
            kind: PhantomData,
        }
    }

    /// Returns a list of the same entries, in memory of its own.
    pub fn clone(&self) -> Result<Self>
        ensures same { IfOk result (λ l. l ≡ self.now) }
        ensures memory { result ≢ Err TooLong }
    {
        Ok(CountedList {
            entries: self.entries.copy()?,
            kind: PhantomData,
        })
    }
}

/// The vector of a list's entries, as a component of an encoding.
#[derive(Clone, Copy)]
pub(crate) struct Entries<'a, K: ListKind, S: Store>(pub &'a CountedList<K, S>);

impl<K: ListKind, S: Store> Encode for Entries<'_, K, S> {
    ghost encoding = { λ entries. list_encoding (S.model.joins entries.0.now) };

    ghost encodable = { λ _. ⊤ };

    #[tactic(auto, unfolding(crate::specs::Lists::list_encoding))]
    fn encode<B: Allocator>(&self, sink: &mut Vec<u8, B>) -> Result<()> {
        let list = self.0;
        let entries = &list.entries;
        let count = entries.count();
        let content = entries.content();
        sink.reserve(encoding_size(count).saturating_add(content.len()))?;
        count.encode(sink).unwrap();
        sink.extend_from_slice(content).unwrap();
        Ok(())
    }
}

impl<K: ListKind, S: Store> Content for Entries<'_, K, S> {
    #[tactic(auto, unfolding(crate::specs::Lists::list_encoding))]
    fn size(&self) -> usize {
        let list = self.0;
        let entries = &list.entries;
        encoding_size(entries.count()).saturating_add(entries.content().len())
    }
}

/// Encodes the vector of the entries: alone, or as the content of the kind's subsection.
impl<K: ListKind, S: Store> Encode for CountedList<K, S> {
    ghost encoding = { λ list. listed_encoding K.subsection (S.model.joins list) };

    ghost encodable = { λ list. IsEncodableList K.subsection (S.model.joins list) };

    fn encode<B: Allocator>(&self, sink: &mut Vec<u8, B>) -> Result<()> {
        let entries = Entries(self);
        match K::subsection() {
            None => entries.encode(sink),
            Some(id) => Subsection {
                id,
                content: &entries,
            }
            .encode(sink),
        }
    }
}
