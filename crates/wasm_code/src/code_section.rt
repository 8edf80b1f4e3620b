// The code section, to which function bodies are added.
ghost use Rattle.std.specs.Prelude.{◌≡◌, ◌≢◌, ℕ, List, [], length, IfOk, IsTrue, ◌↔◌, slice_get};
ghost use Rattle.std.specs.Option.{option_copied};
ghost use Rattle.wasm_base.specs.Calls.{AddsTo};
ghost use Rattle.wasm_base.specs.Encodings.{size_prefixed_encoding, HasEncodableSize};
ghost use Rattle.wasm_base.specs.declared.refused.Refused.TheVariants.{TooLong};
ghost use Rattle.wasm_code.specs.Bodies.{Body};
ghost use Rattle.wasm_code.specs.Code.{code_section, ContainsBodies, EncodesBodies, EncodesBodiesPadded, DecodesCode};

use crate::function::Function;
use std::alloc::{Allocator, Global};
use std::marker::Model;
use wasm_base::{
    Counted, Encode, NewStore, Pieces, Property, Result, Section, SectionId, Store,
    encode_size_prefixed,
};

/// The code section: the bodies of a module's functions, modelled as the bytes of each entry. An
/// entry is a raw body with its size prefix.
///
/// ```rust
/// let mut code = CodeSection::new(alloc);
/// code.raw(&[0x00, 0x0B])?;
/// module.section(&code)?;
/// ```
pub type CodeSection<A = Global> = CodeSectionIn<Pieces<A>>;

/// A code section, whose entries a store of the type `S` keeps.
///
/// # Errors
///
/// An adding call that returns an error leaves the section unchanged. The error is `TooLong` only
/// if the section is full or the body is longer than 4294967295 bytes, and `Memory` only if an
/// allocation fails.
#[derive(Drop, Debug)]
pub struct CodeSectionIn<S: Store = Pieces> {
    entries: S,
}

impl<S: Store> Model for CodeSectionIn<S> {
    ghost Value = { S };

    ghost view = { λ s. s.entries };
}

/// A raw body that the caller passes as bytes.
#[derive(Clone, Copy)]
pub(crate) struct RawBody<'a> {
    pub(crate) bytes: &'a [u8],
}

impl Encode for RawBody<'_> {
    ghost encoding = { λ body. size_prefixed_encoding body.bytes.now };

    ghost encodable = { λ body. HasEncodableSize body.bytes.now };

    #[inline]
    fn encode<A: Allocator>(&self, sink: &mut Vec<u8, A>) -> Result<()> {
        encode_size_prefixed(sink, self.bytes)
    }
}

/// The entries are raw bodies with their size prefixes.
#[derive(Clone, Copy, Debug)]
struct RawBodies;

impl Property for RawBodies {
    ghost Items = { List (List ℕ) };

    ghost says = { ContainsBodies };
}

/// The entries minimally encode bodies.
#[derive(Clone, Copy, Debug)]
struct Bodies;

impl Property for Bodies {
    ghost Items = { List Body };

    ghost says = { EncodesBodies };
}

/// The entries encode bodies, possibly padded.
#[derive(Clone, Copy, Debug)]
struct PaddedBodies;

impl Property for PaddedBodies {
    ghost Items = { List Body };

    ghost says = { EncodesBodiesPadded };
}

impl<S: Store> CodeSectionIn<S> {
    /// Returns the number of bodies.
    pub fn len(&self) -> u32
        ensures { result ≡ (S.model.joins self.now).number }
    {
        self.entries.count()
    }

    /// Returns the length of all entries together, in bytes, without their count.
    pub fn byte_len(&self) -> usize
        ensures { result ≡ length (S.model.joins self.now).content }
    {
        self.entries.content().len()
    }

    /// Returns `true` if there are no bodies.
    pub fn is_empty(&self) -> bool
        ensures { IsTrue result ↔ ((S.model.joins self.now).number ≡ 0) }
    {
        self.entries.count() == 0
    }

    /// Adds a function body.
    pub fn function<B: Allocator>(&mut self, function: &Function<B>) -> Result<()>
        ensures { AddsTo S.model (size_prefixed_encoding function.now) (HasEncodableSize function.now) self.old self.new result }
    {
        self.entries.add_item(function)
    }

    /// Adds a raw body, as [`Function::into_raw_body`](crate::Function::into_raw_body) returns it.
    pub fn raw(&mut self, body: &[u8]) -> Result<()>
        ensures { AddsTo S.model (size_prefixed_encoding body.now) (HasEncodableSize body.now) self.old self.new result }
    {
        self.entries.add_item(&RawBody { bytes: body })
    }
}

impl<A: Allocator> CodeSection<A> {
    /// Returns the bytes of the entry at `index`, a raw body with its size prefix, or `None` if
    /// there is no such entry.
    pub fn piece(&self, index: u32) -> Option<&[u8]>
        ensures { option_copied result ≡ slice_get self.now index }
    {
        self.entries.get(index)
    }
}

impl<S: NewStore> CodeSectionIn<S> {
    /// Returns a section without bodies, and allocates nothing.
    pub fn new(alloc: S::Alloc) -> Self
        ensures { result ≡ S.none }
    {
        CodeSectionIn {
            entries: S::new_in(alloc),
        }
    }

    /// Returns a copy of the section in newly allocated memory.
    pub fn clone(&self) -> Result<Self>
        ensures same { IfOk result (λ section. section ≡ self.now) }
        ensures memory { result ≢ Err TooLong }
    {
        Ok(CodeSectionIn {
            entries: self.entries.copy()?,
        })
    }
}

/// Encodes the size prefix, the number of bodies, and the bodies, each with its size prefix.
impl<S: Store> Encode for CodeSectionIn<S> {
    ghost encoding = { S.encoding };

    ghost encodable = { S.encodable };

    ghost overlong = { S.overlong };

    ghost decoding = { λ section. DecodesCode S.model.holds section (S.encoding section) };

    fn encode<B: Allocator>(&self, sink: &mut Vec<u8, B>) -> Result<()> {
        self.entries.cut::<RawBodies>();
        self.entries.cut::<Bodies>();
        self.entries.cut::<PaddedBodies>();
        self.entries.encode(sink)
    }
}

impl<S: Store> Section for CodeSectionIn<S> {
    ghost use Rattle.wasm_base.specs.Stores.{joined_payload, joined_sized};
    ghost use Rattle.wasm_base.specs.SectionId.{number_of};
    ghost use Rattle.wasm_base.specs.declared.section_id.SectionId.TheVariants as ids;

    ghost id_of = { λ _. number_of ids.Code };

    ghost Items = { List Body };

    ghost format = { code_section };

    ghost says = { λ section bodies. S.model.holds (λ pieces. EncodesBodies pieces bodies) section };

    ghost payload = { λ section bytes. bytes ≡ joined_payload (S.model.joins section) };

    fn id(&self) -> u8 {
        SectionId::Code.into()
    }

    ghost sized = { λ section bytes encodable e. joined_sized (S.model.joins section) (S.encoding section) bytes (S.encodes section) (S.fits section encodable) e };

    ghost decodes_back = { λ section promised. promised.bodies };
}

impl<A: Allocator, B: Allocator> Counted<Function<B>> for CodeSection<A> {
    ghost use Rattle.std.proofs.Common.{refl};

    ghost pieces = { λ section. section };

    ghost item_encoding = { size_prefixed_encoding };

    ghost item_encodable = { HasEncodableSize };

    fn add(&mut self, item: &Function<B>) -> Result<()> {
        self.function(item)
    }

    ghost counted = { λ section. refl };
}
