// Floats, as their bits.
ghost use Rattle.std.specs.Prelude.{◌≡◌, ⊤, ℕ};
ghost use Rattle.wasm_base.specs.Encodings.{little_endian_encoding};
ghost use Rattle.wasm_base.specs.Formats.{little_endian};

use std::alloc::Allocator;
use wasm_base::{DecodeError, Encode, Grammar, Layout, ReadFault, Readable, Result};

/// A float of 32 bits, as its IEEE 754 bits.
#[derive(Clone, Copy, PartialEq, Eq, Hash, Debug)]
pub struct Ieee32 {
    bits: u32,
}

impl Ieee32 {
    /// Returns the float of these bits.
    pub fn new(bits: u32) -> Self
        ensures { result.bits ≡ bits }
    {
        Ieee32 { bits }
    }

    /// Returns the bits.
    pub fn bits(self) -> u32
        ensures { result ≡ self.bits }
    {
        self.bits
    }
}

/// Encodes the bits in four bytes, little-endian.
impl Encode for Ieee32 {
    ghost encoding = { λ float. little_endian_encoding 4 float.bits };

    ghost encodable = { λ _. ⊤ };

    #[tactic(auto, using(crate::proofs::FixedBytes::four_bytes))]
    fn encode<A: Allocator>(&self, sink: &mut Vec<u8, A>) -> Result<()> {
        let bytes: [u8; 4] = self.bits.to_le_bytes();
        bytes.encode(sink)
    }
}

/// A float of 64 bits, as its IEEE 754 bits.
#[derive(Clone, Copy, PartialEq, Eq, Hash, Debug)]
pub struct Ieee64 {
    bits: u64,
}

impl Ieee64 {
    /// Returns the float of these bits.
    pub fn new(bits: u64) -> Self
        ensures { result.bits ≡ bits }
    {
        Ieee64 { bits }
    }

    /// Returns the bits.
    pub fn bits(self) -> u64
        ensures { result ≡ self.bits }
    {
        self.bits
    }
}

/// Encodes the bits in eight bytes, little-endian.
impl Encode for Ieee64 {
    ghost encoding = { λ float. little_endian_encoding 8 float.bits };

    ghost encodable = { λ _. ⊤ };

    #[tactic(auto, using(crate::proofs::FixedBytes::eight_bytes))]
    fn encode<A: Allocator>(&self, sink: &mut Vec<u8, A>) -> Result<()> {
        let bytes: [u8; 8] = self.bits.to_le_bytes();
        bytes.encode(sink)
    }
}

/// A float's four bytes, little-endian.
impl Layout for Ieee32 {
    ghost Value = { ℕ };

    ghost format = { little_endian 4 };

    ghost view = { λ float. float.bits };

    #[tactic(auto, using(wasm_base::proofs::BaseLaws::fixed_4_unambiguous))]
    fn laws() {}
}

impl<'a, A: Allocator + Copy, G: Grammar> Readable<'a, A, G> for Ieee32 {
    ghost may_allocate = { ⊥ };

    fn read(bytes: &'a [u8], _alloc: A) -> Result<(Ieee32, &'a [u8]), DecodeError> {
        match bytes.split_first_chunk::<4>() {
            Some((front, rest)) => Ok((Ieee32::new(u32::from_le_bytes(*front)), rest)),
            None => Err(ReadFault::Ended.at(b"")),
        }
    }
}

/// A float's eight bytes, little-endian.
impl Layout for Ieee64 {
    ghost Value = { ℕ };

    ghost format = { little_endian 8 };

    ghost view = { λ float. float.bits };

    #[tactic(auto, using(wasm_base::proofs::BaseLaws::fixed_8_unambiguous))]
    fn laws() {}
}

impl<'a, A: Allocator + Copy, G: Grammar> Readable<'a, A, G> for Ieee64 {
    ghost may_allocate = { ⊥ };

    fn read(bytes: &'a [u8], _alloc: A) -> Result<(Ieee64, &'a [u8]), DecodeError> {
        match bytes.split_first_chunk::<8>() {
            Some((front, rest)) => Ok((Ieee64::new(u64::from_le_bytes(*front)), rest)),
            None => Err(ReadFault::Ended.at(b"")),
        }
    }
}
