// Slices and strings that are borrowed or owned.
ghost use Rattle.std.specs.Prelude.{◌≡◌, ◌≢◌, IfOk};
ghost use Rattle.wasm_base.specs.Cow.{items_of, utf8_of};
ghost use Rattle.wasm_base.specs.Encodings.{vec_encoding, IsEncodableVec, size_prefixed_encoding, HasEncodableSize};

use crate::encode::Encode;
use crate::refused::{Refused, Result};
use std::alloc::{Allocator, Global};

/// A slice of items that is borrowed, or owned as a `Vec`.
#[derive(Drop, Debug)]
pub enum CowSlice<'a, T, A: Allocator = Global> {
    Borrowed(&'a [T]),
    Owned(Vec<T, A>),
}

impl<'a, T, A: Allocator> CowSlice<'a, T, A> {
    /// Returns the items.
    pub fn as_slice(&self) -> &[T]
        ensures { result.now ≡ items_of self.now }
    {
        match self {
            CowSlice::Borrowed(items) => items,
            CowSlice::Owned(items) => items.as_slice(),
        }
    }
}

impl<'a, T: Copy, A: Allocator + Copy> CowSlice<'a, T, A> {
    /// Returns a copy: borrowed items stay borrowed, and owned ones are copied to a new `Vec`.
    ///
    /// # Errors
    ///
    /// Returns [`Memory`](crate::Refused::Memory) if an allocation fails.
    pub fn clone(&self) -> Result<Self>
        ensures same { IfOk result (λ cow. items_of cow ≡ items_of self.now) }
        ensures memory { result ≢ Err Refused.TooLong }
    {
        match self {
            CowSlice::Borrowed(items) => Ok(CowSlice::Borrowed(items)),
            CowSlice::Owned(items) => Ok(CowSlice::Owned(Vec::from_slice(
                *items.allocator(),
                items.as_slice(),
            )?)),
        }
    }
}

/// Encodes the items as a vector.
impl<T: Encode, A: Allocator> Encode for CowSlice<'_, T, A> {
    ghost encoding = { λ cow. vec_encoding T.encoding (items_of cow) };

    ghost encodable = { λ cow. IsEncodableVec T.encodable (items_of cow) };

    fn encode<B: Allocator>(&self, sink: &mut Vec<u8, B>) -> Result<()> {
        self.as_slice().encode(sink)
    }
}

/// A string that is borrowed, or owned as a `String`.
#[derive(Drop, Debug)]
pub enum CowStr<'a, A: Allocator = Global> {
    Borrowed(&'a str),
    Owned(String<A>),
}

impl<'a, A: Allocator> CowStr<'a, A> {
    /// Returns the string.
    pub fn as_str(&self) -> &str
        ensures { result.now ≡ utf8_of self.now }
    {
        match self {
            CowStr::Borrowed(encoding) => encoding,
            CowStr::Owned(encoding) => encoding.as_str(),
        }
    }
}

impl<'a, A: Allocator + Copy> CowStr<'a, A> {
    /// Returns a copy: a borrowed string stays borrowed, and an owned one is copied to a new
    /// `String`.
    ///
    /// # Errors
    ///
    /// Returns [`Memory`](crate::Refused::Memory) if an allocation fails.
    pub fn clone(&self) -> Result<Self>
        ensures same { IfOk result (λ cow. utf8_of cow ≡ utf8_of self.now) }
        ensures memory { result ≢ Err Refused.TooLong }
    {
        match self {
            CowStr::Borrowed(encoding) => Ok(CowStr::Borrowed(encoding)),
            CowStr::Owned(encoding) => Ok(CowStr::Owned(String::from_str(
                *encoding.allocator(),
                encoding.as_str(),
            )?)),
        }
    }
}

/// Encodes the string as a name.
impl<A: Allocator> Encode for CowStr<'_, A> {
    ghost encoding = { λ cow. size_prefixed_encoding (utf8_of cow) };

    ghost encodable = { λ cow. HasEncodableSize (utf8_of cow) };

    fn encode<B: Allocator>(&self, sink: &mut Vec<u8, B>) -> Result<()> {
        self.as_str().encode(sink)
    }
}
