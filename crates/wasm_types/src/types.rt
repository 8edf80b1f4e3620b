// The types that a module can define: functions, structures, arrays and continuations.
ghost use Rattle.std.specs.Iterator.{IsFinite, Drains};
ghost use Rattle.std.specs.Prelude.{◌≡◌, ◌≢◌, ◌∷◌, [], pos, IfOk, ⊤};
ghost use Rattle.wasm_base.specs.declared.refused.Refused.TheVariants.{TooLong};
ghost use Rattle.wasm_base.specs.Numbers.{signed_encoding};
ghost use Rattle.wasm_base.specs.Encodings.{vec_encoding, IsEncodableVec};
ghost use Rattle.wasm_types.specs.RecTypes.{
  storage_encoding,
  mutable_code,
  field_encoding,
  func_encoding,
  shape_encoding,
  index_encoding,
  shared_encoding,
  composite_encoding,
  before_encoding,
  sub_encoding,
};

use std::alloc::{Allocator, Global};
use std::slice;
use wasm_base::{Encode, Lent, Result, ValType};

/// The type of the content of a field or an element: a value, or a packed integer.
#[derive(Clone, Copy, PartialEq, Eq, Hash, Debug)]
pub enum StorageType {
    I8,
    I16,
    Val(ValType),
}

/// The type of a field, or of the elements of an array.
#[derive(Clone, Copy, PartialEq, Eq, Hash, Debug)]
pub struct FieldType {
    pub element_type: StorageType,
    pub mutable: bool,
}

/// The type of an array.
#[derive(Clone, Copy, PartialEq, Eq, Hash, Debug)]
pub struct ArrayType(pub FieldType);

/// The type of a continuation of the function type of this index.
#[derive(Clone, Copy, PartialEq, Eq, Hash, Debug)]
pub struct ContType(pub u32);

/// The type of a function.
#[derive(Drop, Debug)]
pub struct FuncType<A: Allocator = Global> {
    params: Vec<ValType, A>,
    results: Vec<ValType, A>,
}

/// The type of a structure.
#[derive(Drop, Debug)]
pub struct StructType<A: Allocator = Global> {
    pub fields: Vec<FieldType, A>,
}

/// A composite type without its sharing and descriptor prefixes.
#[derive(Drop, Debug)]
pub enum CompositeInnerType<A: Allocator = Global> {
    Func(FuncType<A>),
    Array(ArrayType),
    Struct(StructType<A>),
    Cont(ContType),
}

/// A composite type, with its prefixes.
#[derive(Drop, Debug)]
pub struct CompositeType<A: Allocator = Global> {
    pub inner: CompositeInnerType<A>,
    /// Whether threads share its values.
    pub shared: bool,
    /// The index of the type that describes it.
    pub descriptor: Option<u32>,
    /// The index of the type that it describes.
    pub describes: Option<u32>,
}

/// A subtype: a composite type, an optional supertype, and whether it is final, so that it can have
/// no subtypes.
#[derive(Drop, Debug)]
pub struct SubType<A: Allocator = Global> {
    pub is_final: bool,
    /// The index of its supertype.
    pub supertype_idx: Option<u32>,
    pub composite_type: CompositeType<A>,
}

impl<A: Allocator + Copy> FuncType<A> {
    /// Returns a function type of the parameters and results that these iterators yield.
    ///
    /// # Errors
    ///
    /// Returns [`Memory`](wasm_base::Refused::Memory) if an allocation fails.
    pub fn new<P: IntoIterator<Item = ValType>, Q: IntoIterator<Item = ValType>>(
        alloc: A,
        params: P,
        results: Q,
    ) -> Result<Self>
    where
        P::IntoIter: Drop,
        Q: Drop,
        Q::IntoIter: Drop,
        requires params { (it : P.IntoIter) → P.into_iter_gives params it → P.IntoIter.can_next it × IsFinite (P.IntoIter.remaining it) }
        requires results { (it : Q.IntoIter) → Q.into_iter_gives results it → Q.IntoIter.can_next it × IsFinite (Q.IntoIter.remaining it) }
        ensures params { IfOk result (λ f. (it : P.IntoIter) × P.into_iter_gives params it × Drains P.IntoIter.next_gives it f.params.items) }
        ensures results { IfOk result (λ f. (it : Q.IntoIter) × Q.into_iter_gives results it × Drains Q.IntoIter.next_gives it f.results.items) }
        ensures memory { result ≢ Err TooLong }
    {
        let params = collected(alloc, params)?;
        let results = collected(alloc, results)?;
        Ok(FuncType { params, results })
    }
}

/// Returns the types that an iterator yields.
fn collected<A: Allocator, P: IntoIterator<Item = ValType>>(
    alloc: A,
    types: P,
) -> Result<Vec<ValType, A>>
where
    P::IntoIter: Drop,
    requires { (it : P.IntoIter) → P.into_iter_gives types it → P.IntoIter.can_next it × IsFinite (P.IntoIter.remaining it) }
    ensures all { IfOk result (λ v. (it : P.IntoIter) × P.into_iter_gives types it × Drains P.IntoIter.next_gives it v.items) }
    ensures memory { result ≢ Err TooLong }
{
    let mut collected = Vec::new(alloc);
    for ty in types {
        collected.push(ty)?;
    }
    Ok(collected)
}

impl<A: Allocator> FuncType<A> {
    /// Returns a function type of these parameters and results.
    pub fn of(params: Vec<ValType, A>, results: Vec<ValType, A>) -> Self
        ensures params { result.params.items ≡ params.items }
        ensures results { result.results.items ≡ results.items }
    {
        FuncType { params, results }
    }

    /// Returns the types of the parameters.
    pub fn params(&self) -> &[ValType]
        ensures { result.now ≡ self.now.params.items }
    {
        self.params.as_slice()
    }

    /// Returns the types of the results.
    pub fn results(&self) -> &[ValType]
        ensures { result.now ≡ self.now.results.items }
    {
        self.results.as_slice()
    }
}

/// Returns a copy of the items in newly allocated memory.
fn copied<T: Copy, A: Allocator + Copy>(items: &Vec<T, A>) -> Result<Vec<T, A>>
    ensures same { IfOk result (λ copies. copies.items ≡ items.now.items) }
    ensures memory { result ≢ Err TooLong }
{
    Ok(Vec::from_slice(*items.allocator(), items.as_slice())?)
}

impl<A: Allocator + Copy> FuncType<A> {
    ghost use Rattle.wasm_types.specs.Given.{func_in};

    /// Returns a copy of the type in newly allocated memory.
    ///
    /// # Errors
    ///
    /// Returns [`Memory`](wasm_base::Refused::Memory) if an allocation fails.
    pub fn clone(&self) -> Result<Self>
        ensures same { IfOk result (λ f. func_in f ≡ func_in self.now) }
        ensures memory { result ≢ Err TooLong }
    {
        Ok(FuncType {
            params: copied(&self.params)?,
            results: copied(&self.results)?,
        })
    }
}

impl<A: Allocator + Copy> StructType<A> {
    /// Returns a copy of the type in newly allocated memory.
    ///
    /// # Errors
    ///
    /// Returns [`Memory`](wasm_base::Refused::Memory) if an allocation fails.
    pub fn clone(&self) -> Result<Self>
        ensures same { IfOk result (λ s. s.fields.items ≡ self.now.fields.items) }
        ensures memory { result ≢ Err TooLong }
    {
        Ok(StructType {
            fields: copied(&self.fields)?,
        })
    }
}

impl<A: Allocator + Copy> CompositeInnerType<A> {
    ghost use Rattle.wasm_types.specs.Given.{shape_in};

    /// Returns a copy of the type in newly allocated memory.
    ///
    /// # Errors
    ///
    /// Returns [`Memory`](wasm_base::Refused::Memory) if an allocation fails.
    pub fn clone(&self) -> Result<Self>
        ensures same { IfOk result (λ inner. shape_in inner ≡ shape_in self.now) }
        ensures memory { result ≢ Err TooLong }
    {
        Ok(match self {
            CompositeInnerType::Func(func) => CompositeInnerType::Func(func.clone()?),
            CompositeInnerType::Array(array) => CompositeInnerType::Array(*array),
            CompositeInnerType::Struct(fields) => CompositeInnerType::Struct(fields.clone()?),
            CompositeInnerType::Cont(cont) => CompositeInnerType::Cont(*cont),
        })
    }
}

impl<A: Allocator + Copy> CompositeType<A> {
    ghost use Rattle.wasm_types.specs.Given.{composite_in};

    /// Returns a copy of the type in newly allocated memory.
    ///
    /// # Errors
    ///
    /// Returns [`Memory`](wasm_base::Refused::Memory) if an allocation fails.
    pub fn clone(&self) -> Result<Self>
        ensures same { IfOk result (λ c. composite_in c ≡ composite_in self.now) }
        ensures memory { result ≢ Err TooLong }
    {
        Ok(CompositeType {
            inner: self.inner.clone()?,
            shared: self.shared,
            descriptor: self.descriptor,
            describes: self.describes,
        })
    }
}

impl<A: Allocator + Copy> SubType<A> {
    ghost use Rattle.wasm_types.specs.Given.{sub_in};

    /// Returns a copy of the type in newly allocated memory.
    ///
    /// # Errors
    ///
    /// Returns [`Memory`](wasm_base::Refused::Memory) if an allocation fails.
    pub fn clone(&self) -> Result<Self>
        ensures same { IfOk result (λ s. sub_in s ≡ sub_in self.now) }
        ensures memory { result ≢ Err TooLong }
    {
        Ok(SubType {
            is_final: self.is_final,
            supertype_idx: self.supertype_idx,
            composite_type: self.composite_type.clone()?,
        })
    }
}

/// Encodes a packed type as its byte, and a value type as such.
impl Encode for StorageType {
    ghost encoding = { storage_encoding };

    ghost encodable = { λ _. ⊤ };

    fn encode<A: Allocator>(&self, sink: &mut Vec<u8, A>) -> Result<()> {
        match *self {
            StorageType::I8 => 0x78u8.encode(sink),
            StorageType::I16 => 0x77u8.encode(sink),
            StorageType::Val(ty) => ty.encode(sink),
        }
    }
}

/// Returns the byte that encodes the mutability of a field.
#[inline]
pub(crate) fn mutability(mutable: bool) -> u8
    ensures { result ≡ mutable_code mutable }
{
    if mutable { 0x01 } else { 0x00 }
}

/// Encodes the storage type, and the mutability of the field.
impl Encode for FieldType {
    ghost encoding = { field_encoding };

    ghost encodable = { λ _. ⊤ };

    fn encode<A: Allocator>(&self, sink: &mut Vec<u8, A>) -> Result<()> {
        (self.element_type, mutability(self.mutable)).encode(sink)
    }
}

// The first bytes of composite types.
pub(crate) const CONT: u8 = 0x5D;

pub(crate) const ARRAY: u8 = 0x5E;

pub(crate) const STRUCT: u8 = 0x5F;

pub(crate) const FUNC: u8 = 0x60;

/// Encodes a byte, and the element type.
impl Encode for ArrayType {
    ghost encoding = { λ a. 0x5E ∷ field_encoding a.0 };

    ghost encodable = { λ _. ⊤ };

    fn encode<A: Allocator>(&self, sink: &mut Vec<u8, A>) -> Result<()> {
        (ARRAY, self.0).encode(sink)
    }
}

/// Encodes a byte, and the index as a signed number.
impl Encode for ContType {
    ghost encoding = { λ c. 0x5D ∷ signed_encoding (pos c.0) };

    ghost encodable = { λ _. ⊤ };

    fn encode<A: Allocator>(&self, sink: &mut Vec<u8, A>) -> Result<()> {
        (CONT, i64::from(self.0)).encode(sink)
    }
}

/// Encodes a byte, the vector of the parameters and the vector of the results.
impl<A: Allocator> Encode for FuncType<A> {
    ghost encoding = { λ f. func_encoding f.params.items f.results.items };

    ghost encodable = { λ f. IsEncodableVec (λ _. ⊤) f.params.items × IsEncodableVec (λ _. ⊤) f.results.items };

    fn encode<B: Allocator>(&self, sink: &mut Vec<u8, B>) -> Result<()> {
        (FUNC, self.params.as_slice(), self.results.as_slice()).encode(sink)
    }
}

/// Encodes a byte, and the vector of the fields.
impl<A: Allocator> Encode for StructType<A> {
    ghost encoding = { λ s. 0x5F ∷ vec_encoding field_encoding s.fields.items };

    ghost encodable = { λ s. IsEncodableVec (λ _. ⊤) s.fields.items };

    fn encode<B: Allocator>(&self, sink: &mut Vec<u8, B>) -> Result<()> {
        (STRUCT, self.fields.as_slice()).encode(sink)
    }
}

/// Encodes a byte that selects the case, and its fields.
impl<A: Allocator> Encode for CompositeInnerType<A> {
    ghost use Rattle.wasm_types.specs.Given.{shape_in, IsEncodableShape};

    ghost encoding = { λ c. shape_encoding (shape_in c) };

    ghost encodable = { λ c. IsEncodableShape (shape_in c) };

    fn encode<B: Allocator>(&self, sink: &mut Vec<u8, B>) -> Result<()> {
        match self {
            CompositeInnerType::Func(func) => func.encode(sink),
            CompositeInnerType::Array(array) => array.encode(sink),
            CompositeInnerType::Struct(fields) => fields.encode(sink),
            CompositeInnerType::Cont(cont) => cont.encode(sink),
        }
    }
}

/// The byte of a shared type, or nothing for others.
#[derive(Clone, Copy)]
struct Shared(bool);

impl Encode for Shared {
    ghost encoding = { λ s. shared_encoding s.0 };

    ghost encodable = { λ _. ⊤ };

    fn encode<A: Allocator>(&self, sink: &mut Vec<u8, A>) -> Result<()> {
        if self.0 { 0x65u8.encode(sink) } else { Ok(()) }
    }
}

/// A byte and an index, or nothing if there is no index.
#[derive(Clone, Copy)]
struct Marked {
    byte: u8,
    index: Option<u32>,
}

impl Encode for Marked {
    ghost encoding = { λ m. index_encoding m.byte m.index };

    ghost encodable = { λ _. ⊤ };

    fn encode<A: Allocator>(&self, sink: &mut Vec<u8, A>) -> Result<()> {
        match self.index {
            Some(index) => (self.byte, index).encode(sink),
            None => Ok(()),
        }
    }
}

/// Encodes the prefixes, and the inner type.
impl<A: Allocator> Encode for CompositeType<A> {
    ghost use Rattle.wasm_types.specs.Given.{composite_in, IsEncodableShape, shape_in};

    ghost encoding = { λ c. composite_encoding (composite_in c) };

    ghost encodable = { λ c. IsEncodableShape (shape_in c.inner) };

    fn encode<B: Allocator>(&self, sink: &mut Vec<u8, B>) -> Result<()> {
        let describes = Marked {
            byte: 0x4C,
            index: self.describes,
        };
        let descriptor = Marked {
            byte: 0x4D,
            index: self.descriptor,
        };
        (
            Shared(self.shared),
            describes,
            (descriptor, Lent(&self.inner)),
        )
            .encode(sink)
    }
}

/// The prefix of a subtype before its composite type.
#[derive(Clone, Copy)]
struct Before {
    is_final: bool,
    supertype_idx: Option<u32>,
}

/// Encodes nothing for a final type without a supertype, and otherwise a byte and the vector of its
/// supertypes.
impl Encode for Before {
    ghost use Rattle.wasm_types.specs.Given.{listed};

    ghost encoding = { λ b. before_encoding b.is_final (listed b.supertype_idx) };

    ghost encodable = { λ _. ⊤ };

    fn encode<A: Allocator>(&self, sink: &mut Vec<u8, A>) -> Result<()> {
        let byte: u8 = if self.is_final { 0x4F } else { 0x50 };
        match &self.supertype_idx {
            Some(index) => (byte, slice::from_ref(index)).encode(sink),
            None if self.is_final => Ok(()),
            None => {
                let none: &[u32] = &[];
                (byte, none).encode(sink)
            }
        }
    }
}

/// Encodes the subtype's prefix, unless it is final without a supertype, and the composite type.
impl<A: Allocator> Encode for SubType<A> {
    ghost use Rattle.wasm_types.specs.Given.{sub_in, shape_in, IsEncodableShape};

    ghost encoding = { λ s. sub_encoding (sub_in s) };

    ghost encodable = { λ s. IsEncodableShape (shape_in s.composite_type.inner) };

    fn encode<B: Allocator>(&self, sink: &mut Vec<u8, B>) -> Result<()> {
        let before = Before {
            is_final: self.is_final,
            supertype_idx: self.supertype_idx,
        };
        (before, Lent(&self.composite_type)).encode(sink)
    }
}
