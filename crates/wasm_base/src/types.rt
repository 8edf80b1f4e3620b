// Heap types, reference types and value types.
ghost use Rattle.std.specs.Prelude.{◌≡◌, ◌∷◌, [], ⊤, cond, ◌≢◌, IfOk, IfErr, IsTrue, true, false, MatchOption};
ghost use Rattle.wasm_base.specs.Calls.{Appends};
ghost use Rattle.wasm_base.specs.Types.{abstract_code, heap_encoding, ref_encoding, val_encoding, tight_bytes, ref_encoding_in, val_encoding_in, abstract_type, heap_type, ref_type, val_type, HasNoByte, HasLongForm};
ghost use Rattle.wasm_base.specs.Formats.{after_byte};
ghost use Rattle.wasm_base.specs.Minimal.{builders_alone};
ghost use Rattle.wasm_base.specs.Numbers.{is_admitted, padded_of};
ghost use Rattle.wasm_base.specs.Decoding.{Decodes, Rejects};
ghost use Rattle.wasm_base.specs.declared.types.AbstractHeapType.{AbstractHeapType as Abstract};
ghost use Rattle.wasm_base.specs.declared.types.HeapType.{HeapType as Heap};
ghost use Rattle.wasm_base.specs.declared.types.RefType.{RefType as Ref};
ghost use Rattle.wasm_base.specs.declared.types.ValType.{ValType as Val};
ghost use Rattle.wasm_base.specs.declared.fault.ReadFault.TheVariants.{Memory};

use crate::effect::{Effect, EncodeIn};
use crate::encode::Encode;
use crate::fault::{DecodeError, ReadFault};
use crate::grammar::Grammar;
use crate::leb128::read_index;
use crate::readable::{Layout, Readable};
use crate::refused::Result;
use crate::shorten::Shorten;
use crate::walk::{Walk, walk_in};
use std::alloc::Allocator;

/// An abstract heap type, as the core specification ("Heap Types") and its proposals define it.
#[derive(Clone, Copy, PartialEq, Eq, Hash, Debug)]
pub enum AbstractHeapType {
    Func = 0x70,
    Extern = 0x6F,
    Any = 0x6E,
    Eq = 0x6D,
    I31 = 0x6C,
    Struct = 0x6B,
    Array = 0x6A,
    Exn = 0x69,
    NoExn = 0x74,
    NoFunc = 0x73,
    NoExtern = 0x72,
    None = 0x71,
    Cont = 0x68,
    NoCont = 0x75,
}

/// The type of the values that a reference refers to.
#[derive(Clone, Copy, PartialEq, Eq, Hash, Debug)]
pub enum HeapType {
    Abstract { shared: bool, ty: AbstractHeapType },
    /// The type of this index, and its subtypes.
    Concrete(u32),
    /// Exactly the type of this index.
    Exact(u32),
}

impl HeapType {
    /// Any function.
    pub const FUNC: HeapType = HeapType::Abstract {
        shared: false,
        ty: AbstractHeapType::Func,
    };

    /// Any value of the host.
    pub const EXTERN: HeapType = HeapType::Abstract {
        shared: false,
        ty: AbstractHeapType::Extern,
    };
}

/// A reference type, nullable or not.
#[derive(Clone, Copy, PartialEq, Eq, Hash, Debug)]
pub struct RefType {
    pub nullable: bool,
    pub heap_type: HeapType,
}

impl RefType {
    /// A function or null.
    pub const FUNCREF: RefType = RefType {
        nullable: true,
        heap_type: HeapType::FUNC,
    };

    /// A value of the host or null.
    pub const EXTERNREF: RefType = RefType {
        nullable: true,
        heap_type: HeapType::EXTERN,
    };
}

/// The type of a value: a number, a vector or a reference.
#[derive(Clone, Copy, PartialEq, Eq, Hash, Debug)]
pub enum ValType {
    I32,
    I64,
    F32,
    F64,
    V128,
    Ref(RefType),
}

impl AbstractHeapType {
    /// Returns the byte that encodes the type.
    #[inline]
    fn byte(self) -> u8
        ensures { result ≡ abstract_code self }
    {
        self as u8
    }
}

/// Encodes the type as one byte.
impl Encode for AbstractHeapType {
    ghost encoding = { λ ty. abstract_code ty ∷ [] };

    ghost encodable = { λ _. ⊤ };

    #[inline]
    fn encode<A: Allocator>(&self, sink: &mut Vec<u8, A>) -> Result<()> {
        self.byte().encode(sink)
    }
}

/// Encodes an abstract type as its byte, after a prefix byte if it is shared. An index is encoded
/// as a signed number, and an exact type as a prefix byte and its index.
impl Encode for HeapType {
    ghost encoding = { heap_encoding };

    ghost encodable = { λ _. ⊤ };

    #[inline]
    fn encode<A: Allocator>(&self, sink: &mut Vec<u8, A>) -> Result<()> {
        match *self {
            HeapType::Abstract { shared: false, ty } => ty.encode(sink),
            HeapType::Abstract { shared: true, ty } => (0x65u8, ty).encode(sink),
            HeapType::Concrete(index) => i64::from(index).encode(sink),
            HeapType::Exact(index) => (0x62u8, index).encode(sink),
        }
    }
}

impl RefType {
    /// Appends the byte for the nullability, and the heap type. Out of line, since most reference
    /// types have a byte of their own.
    #[inline(never)]
    fn encode_heap_type<A: Allocator>(self, sink: &mut Vec<u8, A>) -> Result<()>
        ensures { Appends (cond self.nullable 0x63 0x64 ∷ heap_encoding self.heap_type) ⊤ sink.old sink.new result }
    {
        let byte: u8 = if self.nullable { 0x63 } else { 0x64 };
        (byte, self.heap_type).encode(sink)
    }
}

/// Encodes `FUNCREF` and `EXTERNREF` as one byte, and all others as a byte and the heap type.
impl Encode for RefType {
    ghost encoding = { ref_encoding };

    ghost encodable = { λ _. ⊤ };

    #[inline(never)]
    fn encode<A: Allocator>(&self, sink: &mut Vec<u8, A>) -> Result<()> {
        let byte: u8 = match (self.nullable, self.heap_type) {
            (
                true,
                HeapType::Abstract {
                    shared: false,
                    ty: AbstractHeapType::Func,
                },
            ) => 0x70,
            (
                true,
                HeapType::Abstract {
                    shared: false,
                    ty: AbstractHeapType::Extern,
                },
            ) => 0x6F,
            _ => return self.encode_heap_type(sink),
        };
        byte.encode(sink)
    }
}

impl RefType {
    /// Appends the minimal encoding by the standard.
    fn encode_tight<A: Allocator>(self, sink: &mut Vec<u8, A>) -> Result<()>
        ensures { Appends (tight_bytes self.nullable self.heap_type) ⊤ sink.old sink.new result }
    {
        match self {
            RefType {
                nullable: true,
                heap_type: HeapType::Abstract { shared: false, ty },
            } => ty.encode(sink),
            _ => self.encode_heap_type(sink),
        }
    }
}

/// In the standard's grammar, a nullable reference to an abstract type has one byte.
impl<G: Grammar> EncodeIn<G> for RefType {
    ghost encoding_in = { ref_encoding_in G.grammar };

    fn encode_in<A: Allocator>(&self, sink: &mut Vec<u8, A>) -> Result<()> {
        if G::is_standard() {
            self.encode_tight(sink)
        } else {
            self.encode(sink)
        }
    }

    #[tactic(auto, using(crate::proofs::TightTypes::ref_in))]
    fn minimal_in() {}
}

/// In the standard's grammar, a nullable reference to an abstract type has one byte.
impl<G: Grammar> EncodeIn<G> for ValType {
    ghost encoding_in = { val_encoding_in G.grammar };

    #[inline]
    fn encode_in<A: Allocator>(&self, sink: &mut Vec<u8, A>) -> Result<()> {
        match *self {
            ValType::Ref(ty) if G::is_standard() => ty.encode_tight(sink),
            _ => self.encode(sink),
        }
    }

    #[tactic(auto, using(crate::proofs::TightTypes::val_in))]
    fn minimal_in() {}
}

/// Encodes a number or vector type as one byte, and a reference as its reference type.
impl Encode for ValType {
    ghost encoding = { val_encoding };

    ghost encodable = { λ _. ⊤ };

    #[inline(always)]
    fn encode<A: Allocator>(&self, sink: &mut Vec<u8, A>) -> Result<()> {
        let byte: u8 = match *self {
            ValType::I32 => 0x7F,
            ValType::I64 => 0x7E,
            ValType::F32 => 0x7D,
            ValType::F64 => 0x7C,
            ValType::V128 => 0x7B,
            ValType::Ref(ty) => return ty.encode(sink),
        };
        byte.encode(sink)
    }
}

/// Returns the abstract heap type that the byte encodes, or `None` if it encodes none.
#[tactic(auto, using(crate::proofs::DecodeTypes::abstract_steps))]
fn abstract_of(byte: u8) -> Option<AbstractHeapType>
    ensures { MatchOption result ((ty : Abstract) → byte ≢ abstract_code ty) (λ ty. byte ≡ abstract_code ty) }
{
    match byte {
        0x70 => Some(AbstractHeapType::Func),
        0x6F => Some(AbstractHeapType::Extern),
        0x6E => Some(AbstractHeapType::Any),
        0x6D => Some(AbstractHeapType::Eq),
        0x6C => Some(AbstractHeapType::I31),
        0x6B => Some(AbstractHeapType::Struct),
        0x6A => Some(AbstractHeapType::Array),
        0x69 => Some(AbstractHeapType::Exn),
        0x74 => Some(AbstractHeapType::NoExn),
        0x73 => Some(AbstractHeapType::NoFunc),
        0x72 => Some(AbstractHeapType::NoExtern),
        0x71 => Some(AbstractHeapType::None),
        0x68 => Some(AbstractHeapType::Cont),
        0x75 => Some(AbstractHeapType::NoCont),
        _ => None,
    }
}

impl Layout for AbstractHeapType {
    ghost Value = { Abstract };

    ghost format = { abstract_type };

    ghost view = { λ ty. ty };

    #[tactic(auto, using(crate::proofs::TypeLaws::abstract_unambiguous))]
    fn laws() {}
}

impl<'a, A: Allocator + Copy, G: Grammar> Readable<'a, A, G> for AbstractHeapType {
    ghost may_allocate = { ⊥ };

    #[tactic(auto, using(crate::proofs::DecodeTypes::abstract_type_steps))]
    fn read(bytes: &'a [u8], alloc: A) -> Result<(AbstractHeapType, &'a [u8]), DecodeError> {
        let (byte, rest) = <u8 as Readable<'a, A, G>>::read(bytes, alloc)?;
        match abstract_of(byte) {
            Some(ty) => Ok((ty, rest)),
            None => Err(ReadFault::UnknownTag.at(bytes)),
        }
    }
}

impl Layout for HeapType {
    ghost Value = { Heap };

    ghost format = { heap_type };

    ghost view = { λ heap. heap };

    #[tactic(auto, using(crate::proofs::TypeLaws::heap_unambiguous))]
    fn laws() {}
}

impl<'a, A: Allocator + Copy, G: Grammar> Readable<'a, A, G> for HeapType {
    ghost may_allocate = { ⊥ };

    #[tactic(auto, using(crate::proofs::DecodeTypes::heap_steps))]
    fn read(bytes: &'a [u8], alloc: A) -> Result<(HeapType, &'a [u8]), DecodeError> {
        let (tag, rest) = <u8 as Readable<'a, A, G>>::read(bytes, alloc)?;
        match tag {
            0x62 => {
                let (index, rest) = <u32 as Readable<'a, A, G>>::read(rest, alloc)?;
                Ok((HeapType::Exact(index), rest))
            }
            0x65 => {
                let (ty, rest) = <AbstractHeapType as Readable<'a, A, G>>::read(rest, alloc)?;
                Ok((HeapType::Abstract { shared: true, ty }, rest))
            }
            _ => match abstract_of(tag) {
                Some(ty) => Ok((HeapType::Abstract { shared: false, ty }, rest)),
                None => {
                    let (index, rest) = read_index::<G>(bytes)?;
                    Ok((HeapType::Concrete(index), rest))
                }
            },
        }
    }
}

/// Returns `true` if the nullable reference to the heap type has a one-byte encoding by builders.
#[tactic(auto, using(crate::proofs::DecodeTypes::own_byte_steps))]
fn has_own_byte(heap: HeapType) -> bool
    ensures yes { IsTrue result → HasNoByte heap → ⊥ }
    ensures no { result ≡ false → HasNoByte heap }
{
    match heap {
        HeapType::Abstract {
            shared: false,
            ty: AbstractHeapType::Func | AbstractHeapType::Extern,
        } => true,
        _ => false,
    }
}

/// Returns `true` if the byte 0x63 may precede the heap type of a nullable reference type.
#[tactic(auto, using(crate::proofs::DecodeTypes::long_form_steps))]
fn has_long_form<G: Grammar>(heap: HeapType) -> bool
    ensures yes { IsTrue result → HasLongForm G.grammar heap }
    ensures no { result ≡ false → HasLongForm G.grammar heap → ⊥ }
{
    if G::is_standard() {
        return true;
    }
    !has_own_byte(heap)
}

/// Returns the nullable reference type that the byte alone encodes in the standard's grammar.
/// Returns `None` for any other byte, and in the builders' grammar.
#[tactic(auto, using(crate::proofs::DecodeTypes::short_steps))]
fn short_ref<G: Grammar>(byte: u8) -> Option<RefType>
    ensures { MatchOption result (is_admitted G.grammar ≡ true → (ty : Abstract) → byte ≢ abstract_code ty) (λ r. ref_type (padded_of G.grammar) (byte ∷ []) r) }
{
    if !G::is_standard() {
        return None;
    }
    match abstract_of(byte) {
        Some(ty) => Some(RefType {
            nullable: true,
            heap_type: HeapType::Abstract { shared: false, ty },
        }),
        None => None,
    }
}

/// Decodes a reference type after its first byte, `tag`.
#[tactic(auto, using(crate::proofs::DecodeTypes::ref_steps))]
fn read_ref_after<'a, A: Allocator + Copy, G: Grammar>(
    tag: u8,
    bytes: &'a [u8],
    alloc: A,
) -> Result<(RefType, &'a [u8]), DecodeError>
    ensures found { IfOk result (λ x. Decodes (after_byte ref_type tag) (padded_of G.grammar) bytes.now x.0 x.1.now) }
    ensures none { IfErr result (λ e. e.cause ≢ Memory → Rejects (after_byte ref_type tag) (padded_of G.grammar) bytes.now) }
    ensures no_memory { IfErr result (λ e. e.cause ≢ Memory) }
{
    match tag {
        0x70 => Ok((RefType::FUNCREF, bytes)),
        0x6F => Ok((RefType::EXTERNREF, bytes)),
        0x64 => {
            let (heap_type, rest) = <HeapType as Readable<'a, A, G>>::read(bytes, alloc)?;
            Ok((
                RefType {
                    nullable: false,
                    heap_type,
                },
                rest,
            ))
        }
        0x63 => {
            let (heap_type, rest) = <HeapType as Readable<'a, A, G>>::read(bytes, alloc)?;
            if has_long_form::<G>(heap_type) {
                Ok((
                    RefType {
                        nullable: true,
                        heap_type,
                    },
                    rest,
                ))
            } else {
                Err(ReadFault::UnknownTag.just_before(rest))
            }
        }
        _ => match short_ref::<G>(tag) {
            Some(ty) => Ok((ty, bytes)),
            None => Err(ReadFault::UnknownTag.just_before(bytes)),
        },
    }
}

impl Layout for RefType {
    ghost Value = { Ref };

    ghost format = { ref_type };

    ghost view = { λ r. r };

    #[tactic(auto, using(crate::proofs::RefTypeLaws::ref_unambiguous))]
    fn laws() {}
}

impl<'a, A: Allocator + Copy, G: Grammar> Readable<'a, A, G> for RefType {
    ghost may_allocate = { ⊥ };

    #[tactic(auto, using(crate::proofs::DecodeTypes::ref_type_steps))]
    fn read(bytes: &'a [u8], alloc: A) -> Result<(RefType, &'a [u8]), DecodeError> {
        let (tag, rest) = <u8 as Readable<'a, A, G>>::read(bytes, alloc)?;
        read_ref_after::<A, G>(tag, rest, alloc)
    }
}

impl<G: Grammar> Walk<G> for RefType {
    #[inline]
    fn walk<'a, A: Allocator + Copy, E: Effect>(
        bytes: &'a [u8],
        alloc: A,
        effect: &mut E,
    ) -> Result<&'a [u8], DecodeError> {
        walk_in::<RefType, A, G, _>(bytes, alloc, effect)
    }
}

/// Decodes a value type after its first byte, `tag`.
///
/// # Errors
///
/// An error means that no value type is at the front of `tag` and the bytes.
#[tactic(auto, using(crate::proofs::DecodeTypes::val_steps))]
pub fn read_val_after<'a, A: Allocator + Copy, G: Grammar>(
    tag: u8,
    bytes: &'a [u8],
    alloc: A,
) -> Result<(ValType, &'a [u8]), DecodeError>
    ensures found { IfOk result (λ x. Decodes (after_byte val_type tag) (padded_of G.grammar) bytes.now x.0 x.1.now) }
    ensures none { IfErr result (λ e. e.cause ≢ Memory → Rejects (after_byte val_type tag) (padded_of G.grammar) bytes.now) }
    ensures no_memory { IfErr result (λ e. e.cause ≢ Memory) }
{
    match tag {
        0x7F => Ok((ValType::I32, bytes)),
        0x7E => Ok((ValType::I64, bytes)),
        0x7D => Ok((ValType::F32, bytes)),
        0x7C => Ok((ValType::F64, bytes)),
        0x7B => Ok((ValType::V128, bytes)),
        _ => {
            let (ty, rest) = read_ref_after::<A, G>(tag, bytes, alloc)?;
            Ok((ValType::Ref(ty), rest))
        }
    }
}

impl Layout for ValType {
    ghost Value = { Val };

    ghost format = { val_type };

    ghost view = { λ ty. ty };

    #[tactic(auto, using(crate::proofs::ValTypeLaws::val_unambiguous))]
    fn laws() {}
}

impl<'a, A: Allocator + Copy, G: Grammar> Readable<'a, A, G> for ValType {
    ghost may_allocate = { ⊥ };

    #[tactic(auto, using(crate::proofs::DecodeTypes::val_type_steps))]
    fn read(bytes: &'a [u8], alloc: A) -> Result<(ValType, &'a [u8]), DecodeError> {
        let (tag, rest) = <u8 as Readable<'a, A, G>>::read(bytes, alloc)?;
        read_val_after::<A, G>(tag, rest, alloc)
    }
}

impl Shorten for ValType {
    ghost grammars = { builders_alone };

    #[tactic(auto, using(crate::proofs::DecodePlain::val_appended))]
    fn write_minimal<B: Allocator>(&self, sink: &mut Vec<u8, B>) -> Result<()> {
        self.encode(sink)
    }
}

impl<G: Grammar> Walk<G> for ValType {
    #[inline]
    fn walk<'a, A: Allocator + Copy, E: Effect>(
        bytes: &'a [u8],
        alloc: A,
        effect: &mut E,
    ) -> Result<&'a [u8], DecodeError> {
        walk_in::<ValType, A, G, _>(bytes, alloc, effect)
    }
}
