// The stores of a builder's entries: with the end of each, or with their number alone.
ghost use Rattle.std.specs.Prelude.{◌≡◌, ◌≢◌, ℕ, List, [], IfOk, ⊤, Err};
ghost use Rattle.std.specs.Bool.{Decides};
ghost use Rattle.wasm_base.specs.Calls.{AddsTo};
ghost use Rattle.wasm_base.specs.Once.{AddsOnceTo};
ghost use Rattle.wasm_base.specs.Entries.{ContainsItems, ContainsPadded};
ghost use Rattle.wasm_base.specs.Encodings.{longest};
ghost use Rattle.wasm_base.specs.Stores.{Joined, Cut, Extends, StoreModel, pieces_model, joined_model, joined_encoding, IsEncodableJoined, IsOverlongJoined};

use crate::encode::Encode;
use crate::frames::encode_section;
use crate::kind::Kind;
use crate::once::EncodeOnce;
use crate::pieces::Pieces;
use crate::refused::{Refused, Result};
use std::alloc::{Allocator, Global};
use std::marker::{Model, PhantomData};

/// A store of the encoded entries of a builder. Its encoding is a counted section without its id.
///
/// # Errors
///
/// An adding call that returns an error leaves the store unchanged. The error is
/// [`Refused::TooLong`] only if there are 4294967295 entries already or the item does not fit, and
/// [`Refused::Memory`] only if an allocation fails.
pub trait Store: Encode {
    ghost use Rattle.wasm_base.specs.Stores.{joined_encoding, IsEncodableJoined};

    /// The type of the store's allocator.
    type Alloc: Allocator;

    /// How the store holds entries.
    ghost model: { StoreModel Self };

    /// Returns the number of entries.
    fn count(&self) -> u32
        ensures { result ≡ (model.joins self.now).number };

    /// Returns the bytes of the entries, one entry after another.
    fn content(&self) -> &[u8]
        ensures { result.now ≡ (model.joins self.now).content };

    /// Adds an entry of these bytes.
    fn add_bytes(&mut self, entry: &[u8]) -> Result<()>
        ensures { AddsTo model entry.now ⊤ self.old self.new result };

    /// Adds the encoding of the item as an entry.
    fn add_item<T: Encode>(&mut self, item: &T) -> Result<()>
        ensures { AddsTo model (T.encoding item.now) (T.encodable item.now) self.old self.new result };

    /// Adds an encoding of the item as an entry, and consumes the item.
    fn add_item_once<T: EncodeOnce + Drop>(&mut self, item: T) -> Result<()>
        requires { T.lawful item }
        ensures { AddsOnceTo model (T.gives item) (T.encodable item) self.old self.new result };

    /// Proves that entries with a property can be cut into pieces that have it. The function does
    /// nothing.
    fn cut<P: Property>(&self)
        ensures { (items : P.Items) → model.holds (λ pieces. P.says pieces items) self.now → Cut (λ pieces. P.says pieces items) (model.joins self.now) };

    /// Proves that entries with a property have another one after a call that adds an entry, if
    /// pieces do. The function does nothing.
    fn grows<P: Property>()
        ensures { (encoding : List ℕ) (old new : Self) (before after : P.Items) → Extends (model.joins old).number encoding (λ pieces. P.says pieces before) (λ pieces. P.says pieces after) → model.gains encoding old new → model.holds (λ pieces. P.says pieces before) old → model.holds (λ pieces. P.says pieces after) new };

    /// The encoding is that of the number of entries and their bytes.
    ghost encodes: { (store : Self) → Self.encoding store ≡ joined_encoding (model.joins store) };

    /// A section that fits has a number of entries and a size that fit.
    ghost fits: { (store : Self) → Self.encodable store → IsEncodableJoined (model.joins store) };
}

/// A store that begins without entries, with memory of an allocator.
pub trait NewStore: Store {
    /// The store without entries.
    ghost none: { Self };

    /// Returns a store without entries. It allocates nothing.
    fn new_in(alloc: Self::Alloc) -> Self
        ensures { result ≡ none };

    /// Proves that the store without entries has each property of no pieces. The function does
    /// nothing.
    fn begins<P: Property>()
        ensures { (items : P.Items) → P.says [] items → Self.model.holds (λ pieces. P.says pieces items) none };

    /// Returns a copy of the entries in newly allocated memory.
    ///
    /// # Errors
    ///
    /// Returns [`Refused::Memory`] if an allocation fails, and never [`Refused::TooLong`].
    fn copy(&self) -> Result<Self>
        ensures same { IfOk result (λ store. store ≡ self.now) }
        ensures memory { result ≢ Err Refused.TooLong };
}

/// What pieces of bytes say of items.
pub trait Property {
    ghost Items: { Type 0 };

    ghost says: { List (List ℕ) → Items → Type 0 };
}

/// The pieces contain items of the kind `K`.
#[derive(Clone, Copy, Debug)]
pub struct ItemsOf<K>(PhantomData<K>);

impl<K: Kind> Property for ItemsOf<K> {
    ghost Items = { List K.Item };

    ghost says = { ContainsItems K.kind };
}

/// The pieces contain items of the kind `K`, possibly padded.
#[derive(Clone, Copy, Debug)]
pub struct PaddedOf<K>(PhantomData<K>);

impl<K: Kind> Property for PaddedOf<K> {
    ghost Items = { List K.Item };

    ghost says = { ContainsPadded K.kind.format };
}

impl<A: Allocator> Store for Pieces<A> {
    ghost use Rattle.wasm_base.specs.Stores.{pieces_encode, pieces_fit};

    type Alloc = A;

    ghost model = { pieces_model };

    #[inline]
    fn count(&self) -> u32 {
        self.len()
    }

    #[inline]
    fn content(&self) -> &[u8] {
        self.bytes()
    }

    #[inline]
    fn add_bytes(&mut self, entry: &[u8]) -> Result<()> {
        self.add(entry)
    }

    #[inline]
    fn add_item<T: Encode>(&mut self, item: &T) -> Result<()> {
        self.add_encoded(item)
    }

    #[inline]
    fn add_item_once<T: EncodeOnce + Drop>(&mut self, item: T) -> Result<()> {
        self.add_once(item)
    }

    fn cut<P: Property>(&self) {}

    fn grows<P: Property>() {}

    ghost encodes = { pieces_encode };

    ghost fits = { pieces_fit };
}

impl<A: Allocator + Copy> NewStore for Pieces<A> {
    ghost none = { [] };

    fn begins<P: Property>() {}

    fn new_in(alloc: A) -> Self {
        Pieces::new(alloc)
    }

    fn copy(&self) -> Result<Self> {
        self.clone()
    }
}

/// The encoded entries of a builder, one after another, and their number. Each entry takes 8 bytes
/// less than in [`Pieces`], and no call returns an entry.
#[derive(Drop, Debug)]
pub struct Entries<A: Allocator = Global> {
    bytes: Vec<u8, A>,
    count: u32,
}

impl<A: Allocator> Model for Entries<A> {
    ghost Value = { Joined };

    ghost view = { λ e. record { number = e.count; content = e.bytes.items } };
}

impl<A: Allocator> Entries<A> {
    /// Returns `true` if there are as many entries as a count of 32 bits represents.
    #[inline]
    fn is_full(&self) -> bool
        ensures { Decides result (self.now.number ≡ longest) }
    {
        self.count == u32::MAX
    }
}

/// Encodes a counted section without its id: the size prefix, the number of entries, and the
/// entries.
impl<A: Allocator> Encode for Entries<A> {
    ghost encoding = { joined_encoding };

    ghost encodable = { IsEncodableJoined };

    ghost overlong = { IsOverlongJoined };

    #[tactic(auto, unfolding(crate::specs::Stores::joined_encoding))]
    fn encode<B: Allocator>(&self, sink: &mut Vec<u8, B>) -> Result<()> {
        encode_section(sink, self.count, &self.bytes)
    }
}

impl<A: Allocator> Store for Entries<A> {
    ghost use Rattle.std.proofs.Common.{refl};

    type Alloc = A;

    ghost model = { joined_model };

    #[inline]
    fn count(&self) -> u32 {
        self.count
    }

    #[inline]
    fn content(&self) -> &[u8] {
        &self.bytes
    }

    #[inline(always)]
    fn add_bytes(&mut self, entry: &[u8]) -> Result<()> {
        if self.is_full() {
            return Err(Refused::TooLong);
        }
        self.bytes.extend_from_slice(entry)?;
        self.count += 1;
        Ok(())
    }

    #[inline(always)]
    fn add_item<T: Encode>(&mut self, item: &T) -> Result<()> {
        if self.is_full() {
            return Err(Refused::TooLong);
        }
        item.encode(&mut self.bytes)?;
        self.count += 1;
        Ok(())
    }

    #[inline(always)]
    fn add_item_once<T: EncodeOnce + Drop>(&mut self, item: T) -> Result<()> {
        if self.is_full() {
            return Err(Refused::TooLong);
        }
        item.encode_once(&mut self.bytes)?;
        self.count += 1;
        Ok(())
    }

    fn cut<P: Property>(&self) {}

    fn grows<P: Property>() {}

    ghost encodes = { λ _. refl };

    ghost fits = { λ _ fits. fits };
}

impl<A: Allocator + Copy> NewStore for Entries<A> {
    ghost none = { record { number = 0; content = [] } };

    fn begins<P: Property>() {}

    fn new_in(alloc: A) -> Self {
        Entries {
            bytes: Vec::new(alloc),
            count: 0,
        }
    }

    fn copy(&self) -> Result<Self> {
        let alloc = *self.bytes.allocator();
        Ok(Entries {
            bytes: Vec::from_slice(alloc, &self.bytes)?,
            count: self.count,
        })
    }
}
