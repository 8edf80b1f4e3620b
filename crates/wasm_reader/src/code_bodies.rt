// Iterates over the bodies of a code section, without decoding them.
ghost use Rattle.std.specs.Prelude.{◌≡◌, ◌≢◌, ◌+◌, ◌<◌, ◌≤◌, ◌⊎◌, ◌^◌, [], length, min, IfOk, IfErr};
ghost use Rattle.std.specs.Iterator.{at_most};
ghost use Rattle.wasm_base.specs.Formats.{u32, pair, vec};
ghost use Rattle.wasm_base.specs.Numbers.{padded, standard};
ghost use Rattle.wasm_base.specs.Continuing.{RejectsWhole};
ghost use Rattle.wasm_base.specs.Decoding.{Decodes, Rejects};
ghost use Rattle.wasm_base.specs.Types.{val_type};
ghost use Rattle.wasm_base.specs.declared.fault.ReadFault.TheVariants.{Memory};
ghost use Rattle.wasm_code.specs.Bodies.{body};
ghost use Rattle.wasm_code.specs.Walks.{ahead as ahead_in};
ghost use Rattle.wasm_reader.specs.Iterating.{Visiting, LocatedBody, NextBody, end_of};

use crate::read_error::ReadError;
use crate::sections::Section;
use std::alloc::{Allocator, Global};
use std::iter::FusedIterator;
use std::marker::Model;
use wasm_base::{DecodeError, Padded, ReadFault, Readable, Standard, ValType};
use wasm_code::Instructions;

/// The bodies of a code section, one after another. It allocates nothing, and does not compare
/// their number with that of the functions.
///
/// ```text
/// for body in section.bodies()? {
///     let body = body?;
///     let (locals, mut instructions) = body.instructions()?;
///     while let Some(decoded) = instructions.next().map_err(|error| body.locate(error))? {
///         // decoded.op, decoded.operands
///     }
/// }
/// ```
///
/// # Errors
///
/// Every error except `Memory` means that no size-prefixed body is next, or that bytes remain after
/// the last one. It is the last item.
#[derive(Clone, Debug, Drop)]
pub struct Bodies<'a, A: Allocator = Global> {
    alloc: A,
    left: u32,
    rest: &'a [u8],
    /// The offset of the end of `rest` in the module.
    end: usize,
}

impl<'a, A: Allocator> Model for Bodies<'a, A> {
    ghost Value = { Visiting };

    ghost view = { λ b. record { left = b.left; rest = b.rest.now; end = b.end } };

    ghost invariant = { λ b. length b.rest.now ≤ b.end };
}

impl<'a, A: Allocator + Copy> Section<'a, A> {
    /// Decodes the number of bodies of a code section, and returns an iterator over them.
    ///
    /// # Errors
    ///
    /// An error means that this is no code section, or that its payload does not begin
    /// with a number.
    pub fn bodies(&self) -> Result<Bodies<'a, A>, ReadError>
        ensures id { IfOk result (λ _. self.now.section.id ≡ 10) }
        ensures found { IfOk result (λ it. Decodes u32 padded self.now.section.payload it.left it.rest) }
        ensures end { IfOk result (λ it. it.end ≡ end_of self.now) }
        ensures none { IfErr result (λ e. e.cause ≢ Memory → (self.now.section.id ≢ 10) ⊎ Rejects u32 padded self.now.section.payload) }
        ensures no_memory { IfErr result (λ e. e.cause ≢ Memory) }
        ensures from { IfErr result (λ e. self.now.offset ≤ e.offset) }
        ensures within { IfErr result (λ e. e.offset ≤ end_of self.now) }
    {
        if self.id() != 10 {
            return Err(ReadError {
                cause: ReadFault::UnknownTag,
                offset: self.offset(),
            });
        }
        let payload = self.payload();
        let end = self.range().end;
        let alloc = self.allocator();
        match <u32 as Readable<'a, A, Padded>>::read(payload, alloc) {
            Ok((left, rest)) => Ok(Bodies {
                alloc,
                left,
                rest,
                end,
            }),
            Err(error) => Err(ReadError::located(error, payload.len(), end)),
        }
    }
}

impl<'a, A: Allocator + Copy> Bodies<'a, A> {
    /// Returns the number of bodies that are left, as the section states it.
    pub fn left(&self) -> u32
        ensures { result ≡ self.now.left }
    {
        self.left
    }

    /// Ends the iteration with this error.
    fn fail(&mut self, error: ReadError) -> Option<Result<CodeBody<'a, A>, ReadError>>
        ensures error { result ≡ Some (Err error) }
        ensures ended { self.new ≡ record { left = 0; rest = []; end = self.old.end } }
    {
        self.left = 0;
        self.rest = b"";
        Some(Err(error))
    }
}

impl<'a, A: Allocator + Copy> Iterator for Bodies<'a, A> {
    type Item = Result<CodeBody<'a, A>, ReadError>;

    ghost next_gives = { NextBody };

    ghost remaining = { λ it. at_most (it.left + length it.rest) };

    fn next(&mut self) -> Option<Result<CodeBody<'a, A>, ReadError>> {
        let (size, end) = (self.rest.len(), self.end);
        if self.left == 0 {
            if size == 0 {
                return None;
            }
            let error = ReadFault::SizeMismatch.at(self.rest);
            return self.fail(ReadError::located(error, size, end));
        }
        match <&'a [u8] as Readable<'a, A, Padded>>::read(self.rest, self.alloc) {
            Ok((bytes, rest)) => {
                self.left -= 1;
                self.rest = rest;
                let offset = end - rest.len() - bytes.len();
                Some(Ok(CodeBody {
                    alloc: self.alloc,
                    offset,
                    bytes,
                }))
            }
            Err(error) => self.fail(ReadError::located(error, size, end)),
        }
    }
}

impl<'a, A: Allocator + Copy> FusedIterator for Bodies<'a, A> {}

/// A body of a code section, not yet decoded. Blocks are not matched: a body also decodes without
/// its final `End`, and with instructions after it.
#[derive(Clone, Debug, Drop)]
pub struct CodeBody<'a, A: Allocator = Global> {
    alloc: A,
    offset: usize,
    bytes: &'a [u8],
}

impl<'a, A: Allocator> Model for CodeBody<'a, A> {
    ghost Value = { LocatedBody };

    ghost view = { λ b. record { offset = b.offset; bytes = b.bytes.now } };

    ghost invariant = { λ b. b.offset + length b.bytes.now < 2 ^ 64 };
}

impl<'a, A: Allocator + Copy> CodeBody<'a, A> {
    /// Returns the offset of its first byte, after its size prefix, in the module, in bytes.
    pub fn offset(&self) -> usize
        ensures { result ≡ self.now.offset }
    {
        self.offset
    }

    /// Returns its bytes: the locals and the instructions, without the size prefix.
    pub fn bytes(&self) -> &'a [u8]
        ensures { result.now ≡ self.now.bytes }
    {
        self.bytes
    }

    /// Decodes the runs of its locals, and returns them with a visitor of its instructions. The
    /// visitor counts offsets from the first byte of the body. It accepts all encodings that the
    /// standard admits. [`locate`](CodeBody::locate) gives its errors their offsets in the module.
    ///
    /// # Errors
    ///
    /// Every error except `Memory` means that the bytes are no body.
    pub fn instructions(
        &self,
    ) -> Result<(Vec<(u32, ValType), A>, Instructions<'a, A, Standard>), ReadError>
        ensures found { IfOk result (λ x. Decodes (vec (pair u32 val_type)) standard self.now.bytes x.0.items (ahead_in x.1)) }
        ensures same { IfOk result (λ x. x.1.bytes ≡ self.now.bytes) }
        ensures inside { IfOk result (λ x. x.1.offset ≤ length self.now.bytes) }
        ensures none { IfErr result (λ e. e.cause ≢ Memory → RejectsWhole body standard self.now.bytes) }
        ensures from { IfErr result (λ e. self.now.offset ≤ e.offset) }
        ensures within { IfErr result (λ e. e.offset ≤ self.now.offset + length self.now.bytes) }
    {
        match Instructions::<A, Standard>::of_standard_body(self.bytes, self.alloc) {
            Ok(read) => Ok(read),
            Err(error) => Err(self.locate(error)),
        }
    }

    /// Returns an error of the visitor of its instructions with the offset in the module: that of
    /// the end of the body, less the bytes left of the error.
    pub fn locate(&self, error: DecodeError) -> ReadError
        ensures cause { result.cause ≡ error.cause }
        ensures offset { result.offset + min (length self.now.bytes) error.left ≡ self.now.offset + length self.now.bytes }
        ensures from { self.now.offset ≤ result.offset }
        ensures within { result.offset ≤ self.now.offset + length self.now.bytes }
    {
        let size = self.bytes.len();
        ReadError::located(error, size, self.offset + size)
    }
}
