// Function bodies: locals and instructions.
ghost use Rattle.std.specs.Prelude.{◌≡◌, ◌≢◌, ◌++◌, ℕ, List, length, OnOk, OnErr, IfOk};
ghost use Rattle.std.specs.Iterator.{Drains, IsFinite};
ghost use Rattle.wasm_base.specs.Calls.{DecodesBack};
ghost use Rattle.wasm_base.specs.Formats.{size_prefixed};
ghost use Rattle.wasm_base.specs.Iterators.{HasKnownLength};
ghost use Rattle.wasm_base.specs.Encodings.{size_prefixed_encoding, HasEncodableSize};
ghost use Rattle.wasm_base.specs.declared.refused.Refused.TheVariants.{TooLong};
ghost use Rattle.wasm_code.specs.Bodies.{body, IsWellFormedBody, GrowsBy, AddsInstruction, BeginsWithRuns, BeginsWithTypes};

use crate::locals::runs_of;
use std::alloc::{Allocator, Global};
use std::marker::Model;
use wasm_base::{Encode, EncodeOnce, Refused, Result, ValType, encode_size_prefixed, vec_of};
use wasm_insn::{Buffer, Instruction, InstructionSink};

/// A function, modelled as its raw body: the runs of its locals, and its instructions.
///
/// ```rust
/// let mut function = Function::new(alloc, [(1, ValType::I32)])?;
/// let mut instructions = function.instructions();
/// instructions.local_get(0)?;
/// instructions.end()?;
/// code.function(&function)?;
/// ```
///
/// # Errors
///
/// A call that returns an error leaves the body unchanged. The error is `TooLong` only if a count
/// or length is not representable, and `Memory` only if an allocation fails.
#[derive(Drop, Debug)]
pub struct Function<A: Allocator = Global> {
    bytes: Vec<u8, A>,
}

/// The initial capacity in bytes, so that a short function allocates once.
const FIRST_CAPACITY: usize = 128;

impl<A: Allocator> Model for Function<A> {
    ghost Value = { List ℕ };

    ghost view = { λ f. f.bytes.items };
}

impl<A: Allocator> Function<A> {
    /// Returns a function with these runs of locals, to which instructions are then appended.
    ///
    /// # Errors
    ///
    /// Returns `Memory` if an allocation fails. If the length that the locals report exceeds
    /// 4294967295, the call returns `TooLong`, and requests none of them, as tests show.
    pub fn new<V: IntoIterator<Item = (u32, ValType)>>(alloc: A, locals: V) -> Result<Self>
    where
        V::IntoIter: ExactSizeIterator + Drop,
        requires { HasKnownLength V.into_iter_gives V.IntoIter.can_next V.IntoIter.next_gives V.IntoIter.remaining locals }
        ensures { BeginsWithRuns V.into_iter_gives V.IntoIter.next_gives V.IntoIter.remaining locals result }
    {
        let runs = vec_of(locals)?;
        let mut bytes = Vec::with_capacity(alloc, FIRST_CAPACITY)?;
        runs.encode_once(&mut bytes)?;
        Ok(Function { bytes })
    }

    /// Returns a sink that appends instructions to the raw body.
    pub fn instructions(&mut self) -> InstructionSink<'_, Function<A>>
        ensures same_reference { result.sink.ghost_name ≡ self.entry.ghost_name }
        ensures same { result.sink.now ≡ self.old }
    {
        InstructionSink::new(self)
    }

    /// Appends an instruction.
    #[tactic(auto, using(crate::proofs::BodyLaws::grows))]
    pub fn instruction(&mut self, instruction: &Instruction<'_>) -> Result<()>
        ensures { AddsInstruction instruction.now self.old self.new result }
    {
        instruction.encode(&mut self.bytes)
    }

    /// Appends bytes, which should encode instructions. The call does not check that.
    pub fn raw<I: IntoIterator<Item = u8>>(&mut self, bytes: I) -> Result<()>
    where
        I::IntoIter: Drop,
        requires { (it : I.IntoIter) → I.into_iter_gives bytes it → I.IntoIter.can_next it × IsFinite (I.IntoIter.remaining it) }
        ensures ok { OnOk result ((it : I.IntoIter) × (xs : List ℕ)
            × I.into_iter_gives bytes it
            × Drains I.IntoIter.next_gives it xs
            × GrowsBy xs self.old self.new) }
        ensures err { OnErr result (self.new ≡ self.old) }
        ensures memory { result ≢ Err TooLong }
    {
        append_all(&mut self.bytes, bytes)
    }

    /// Returns the length of the raw body so far, in bytes. If the raw body decodes, this is the
    /// offset of the next instruction ([`offset`](crate::laws::offset)).
    pub fn byte_len(&self) -> usize
        ensures { result ≡ length self.now }
    {
        self.bytes.len()
    }

    /// Returns the raw body, which `CodeSection::raw` accepts.
    pub fn into_raw_body(self) -> Vec<u8, A>
        ensures { result.items ≡ self }
    {
        let Function { bytes } = self;
        bytes
    }
}

impl<A: Allocator + Copy> Function<A> {
    /// Returns a function with locals of these types. Neighbours of one type form one run.
    pub fn new_with_locals_types<I: IntoIterator<Item = ValType>>(
        alloc: A,
        locals: I,
    ) -> Result<Self>
    where
        I::IntoIter: Drop,
        requires { (it : I.IntoIter) → I.into_iter_gives locals it → I.IntoIter.can_next it × IsFinite (I.IntoIter.remaining it) }
        ensures { BeginsWithTypes I.into_iter_gives I.IntoIter.next_gives locals result }
    {
        let runs = runs_of(alloc, locals)?;
        Function::new(alloc, runs)
    }

    /// Returns a copy of the function in newly allocated memory.
    pub fn clone(&self) -> Result<Self>
        ensures same { IfOk result (λ f. f ≡ self.now) }
        ensures memory { result ≢ Err TooLong }
    {
        let alloc = *self.bytes.allocator();
        Ok(Function {
            bytes: Vec::from_slice(alloc, &self.bytes)?,
        })
    }
}

/// Functions are equal if their raw bodies are equal.
impl<A: Allocator> PartialEq for Function<A> {
    ghost use Rattle.std.specs.Str.{bytes_eq};
    ghost use Rattle.std.proofs.Common.{rules};
    ghost use Rattle.std.specs.Cmp.Rules.{comparing};

    ghost eq = { bytes_eq };

    ghost laws = { Prim.search (comparing, rules) };

    fn eq(&self, other: &Self) -> bool {
        self.bytes.as_slice() == other.bytes.as_slice()
    }
}

impl<A: Allocator> Eq for Function<A> {
    ghost use Rattle.std.proofs.Common.{rules};
    ghost use Rattle.std.specs.Cmp.Rules.{comparing};

    ghost laws = { Prim.search (comparing, rules) };
}

/// Instructions are appended to the raw body.
impl<A: Allocator> Buffer for Function<A> {
    ghost written = { λ f. f };

    fn append<E: Encode>(&mut self, value: &E) -> Result<()> {
        value.encode(&mut self.bytes)
    }

    fn append_vec<S: Encode, T: Encode + Drop, V: IntoIterator<Item = T>, U: Encode>(
        &mut self,
        before: &S,
        elements: V,
        after: &U,
    ) -> Result<()>
    where
        V::IntoIter: ExactSizeIterator + Drop,
    {
        self.bytes.append_vec(before, elements, after)
    }
}

/// Appends every byte, or none of them.
pub(crate) fn append_all<I: IntoIterator<Item = u8>, A: Allocator>(
    sink: &mut Vec<u8, A>,
    bytes: I,
) -> Result<()>
where
    I::IntoIter: Drop,
    requires { (it : I.IntoIter) → I.into_iter_gives bytes it → I.IntoIter.can_next it × IsFinite (I.IntoIter.remaining it) }
    ensures ok { OnOk result ((it : I.IntoIter) × (xs : List ℕ)
        × I.into_iter_gives bytes it
        × Drains I.IntoIter.next_gives it xs
        × (sink.new.items ≡ sink.old.items ++ xs)) }
    ensures err { OnErr result (sink.new.items ≡ sink.old.items) }
    ensures memory { result ≢ Err TooLong }
{
    let start = sink.len();
    for byte in bytes {
        if sink.push(byte).is_err() {
            sink.truncate(start);
            return Err(Refused::Memory);
        }
    }
    Ok(())
}

/// Encodes the raw body with its size prefix.
impl<A: Allocator> Encode for Function<A> {
    ghost encoding = { size_prefixed_encoding };

    ghost encodable = { HasEncodableSize };

    ghost decoding = { λ f. DecodesBack (size_prefixed body) (IsWellFormedBody f) (size_prefixed_encoding f) };

    fn encode<B: Allocator>(&self, sink: &mut Vec<u8, B>) -> Result<()> {
        encode_size_prefixed(sink, &self.bytes)
    }
}
