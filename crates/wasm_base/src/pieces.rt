// The buffer of a builder, in which its entries are encoded.
ghost use Rattle.std.specs.Prelude.{◌≡◌, ◌≢◌, ℕ, ◌≤◌, List, [], ◌∷◌, length, IfOk, IsTrue, ◌↔◌, slice_get, slice_index, ⊤};
ghost use Rattle.std.specs.Bool.{Decides};
ghost use Rattle.std.specs.Option.{option_copied};
ghost use Rattle.wasm_base.specs.Calls.{Adds};
ghost use Rattle.wasm_base.specs.Once.{AddsOnce};
ghost use Rattle.wasm_base.specs.Pieces.{joined, cut_from, IsCut, section_encoding, IsEncodableSection, IsOverlong};
ghost use Rattle.wasm_base.specs.Encodings.{longest};

use crate::encode::Encode;
use crate::frames::encode_section;
use crate::once::EncodeOnce;
use crate::refused::{Refused, Result};
use std::alloc::{Allocator, Global};
use std::marker::Model;

/// The encoded entries of a builder, modelled as the list of their bytes.
///
/// One buffer holds the entries one after another, and a second vector holds the end offset of
/// each.
///
/// # Errors
///
/// An adding call that returns an error leaves the entries unchanged. The error is
/// [`Refused::TooLong`] only if there are 4294967295 entries already or the item does not fit, and
/// [`Refused::Memory`] only if an allocation fails.
#[derive(Drop, Debug)]
pub struct Pieces<A: Allocator = Global> {
    bytes: Vec<u8, A>,
    ends: Vec<usize, A>,
}

impl<A: Allocator> Model for Pieces<A> {
    ghost Value = { List (List ℕ) };

    ghost view = { λ p. cut_from 0 p.ends.items p.bytes.items };

    ghost invariant = { λ p. IsCut p.bytes.items p.ends.items × (length p.ends.items ≤ longest) };
}

/// Returns the offset at which the entry at `index` begins.
fn start_of(ends: &[usize], index: usize) -> usize
    requires { index ≤ length ends.now }
    ensures { result ≡ slice_index (0 ∷ ends.now) index }
{
    if index == 0 { 0 } else { ends[index - 1] }
}

impl<A: Allocator> Pieces<A> {
    /// Returns the length of all entries together, in bytes.
    pub fn raw_len(&self) -> usize
        ensures { result ≡ length (joined self.now) }
    {
        self.bytes.len()
    }

    /// Returns the number of entries.
    #[tactic(auto, using(crate::proofs::Cut::length_cut))]
    pub fn len(&self) -> u32
        ensures { result ≡ length self.now }
    {
        self.ends.len() as u32
    }

    /// Returns `true` if there are no entries.
    pub fn is_empty(&self) -> bool
        ensures { IsTrue result ↔ (length self.now ≡ 0) }
    {
        self.ends.is_empty()
    }

    /// Returns `true` if there are as many entries as a count of 32 bits represents.
    #[inline]
    fn is_full(&self) -> bool
        ensures { Decides result (length self.now ≡ longest) }
    {
        self.len() == u32::MAX
    }

    /// Returns the bytes of the entries, one entry after another.
    pub fn bytes(&self) -> &[u8]
        ensures { result.now ≡ joined self.now }
    {
        &self.bytes
    }

    /// Returns the bytes of the entry at `index`, or `None` if there is no such entry.
    pub fn get(&self, index: u32) -> Option<&[u8]>
        ensures { option_copied result ≡ slice_get self.now index }
    {
        let index = index as usize;
        if index >= self.ends.len() {
            return None;
        }
        let start = start_of(&self.ends, index);
        let end = self.ends[index];
        Some(&self.bytes[start..end])
    }

    /// Adds an entry of these bytes.
    #[tactic(auto, using(crate::proofs::Cut::length_cut))]
    #[inline]
    pub fn add(&mut self, entry: &[u8]) -> Result<()>
        ensures { Adds entry.now ⊤ self.old self.new result }
    {
        if self.is_full() {
            return Err(Refused::TooLong);
        }
        self.ends.reserve(1)?;
        self.bytes.extend_from_slice(entry)?;
        let end = self.bytes.len();
        self.ends.push_reserved(end);
        Ok(())
    }

    /// Adds the encoding of the item as an entry. It is encoded directly into the buffer.
    #[tactic(auto, using(crate::proofs::Cut::length_cut))]
    #[inline]
    pub fn add_encoded<T: Encode>(&mut self, item: &T) -> Result<()>
        ensures { Adds (T.encoding item.now) (T.encodable item.now) self.old self.new result }
    {
        if self.is_full() {
            return Err(Refused::TooLong);
        }
        self.ends.reserve(1)?;
        item.encode(&mut self.bytes)?;
        let end = self.bytes.len();
        self.ends.push_reserved(end);
        Ok(())
    }

    /// Adds an encoding of the item as an entry, and consumes the item. It is encoded directly into
    /// the buffer.
    #[tactic(auto, using(crate::proofs::Cut::length_cut))]
    #[inline]
    pub fn add_once<T: EncodeOnce + Drop>(&mut self, item: T) -> Result<()>
        requires { T.lawful item }
        ensures { AddsOnce (T.gives item) (T.encodable item) self.old self.new result }
    {
        if self.is_full() {
            return Err(Refused::TooLong);
        }
        self.ends.reserve(1)?;
        item.encode_once(&mut self.bytes)?;
        let end = self.bytes.len();
        self.ends.push_reserved(end);
        Ok(())
    }
}

impl<A: Allocator + Copy> Pieces<A> {
    /// Returns a buffer without entries. It allocates nothing.
    pub fn new(alloc: A) -> Self
        ensures { result ≡ [] }
    {
        Pieces {
            bytes: Vec::new(alloc),
            ends: Vec::new(alloc),
        }
    }

    /// Returns a copy of the entries in newly allocated memory.
    ///
    /// # Errors
    ///
    /// Returns [`Refused::Memory`] if an allocation fails, and never [`Refused::TooLong`].
    pub fn clone(&self) -> Result<Self>
        ensures same { IfOk result (λ pieces. pieces ≡ self.now) }
        ensures memory { result ≢ Err Refused.TooLong }
    {
        let alloc = *self.bytes.allocator();
        Ok(Pieces {
            bytes: Vec::from_slice(alloc, &self.bytes)?,
            ends: Vec::from_slice(alloc, &self.ends)?,
        })
    }
}

/// Encodes a counted section without its id: the size prefix, the number of entries, and the
/// entries.
impl<A: Allocator> Encode for Pieces<A> {
    ghost encoding = { section_encoding };

    ghost encodable = { IsEncodableSection };

    ghost overlong = { IsOverlong };

    #[tactic(auto, unfolding(crate::specs::Pieces::section_encoding))]
    fn encode<B: Allocator>(&self, sink: &mut Vec<u8, B>) -> Result<()> {
        encode_section(sink, self.len(), self.bytes())
    }
}
