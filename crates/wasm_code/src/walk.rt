// A visitor of instructions, one at a time. It allocates nothing.
ghost use Rattle.std.specs.Prelude.{◌≡◌, ◌≢◌, ◌≤◌, IfOk, IfErr, length};
ghost use Rattle.wasm_base.specs.Formats.{u32, pair, vec};
ghost use Rattle.wasm_base.specs.Continuing.{RejectsWhole};
ghost use Rattle.wasm_base.specs.Numbers.{padded, standard, padded_of};
ghost use Rattle.wasm_base.specs.Decoding.{Decodes};
ghost use Rattle.wasm_base.specs.Types.{val_type};
ghost use Rattle.wasm_insn.specs.Plain.{instruction};
ghost use Rattle.wasm_insn.specs.Table.{table};
ghost use Rattle.wasm_code.specs.Bodies.{body};
ghost use Rattle.wasm_base.specs.declared.fault.ReadFault.TheVariants.{Memory};
ghost use Rattle.wasm_code.specs.Walks.{Walking, ahead, GivesInstruction, GivesFailure, NextInstruction, NextBeforeEnd};

use crate::expression::END;
use std::alloc::{Allocator, Global};
use std::marker::{Model, PhantomData};
use wasm_base::{DecodeError, Grammar, Padded, ReadFault, Readable, Standard, ValType};
use wasm_insn::{Op, Operands, read_instruction};

/// Visits the instructions of a body or an expression, one after another, and allocates nothing.
///
/// ```text
/// let (_runs, mut instructions) = Instructions::of_body(bytes, alloc)?;
/// while let Some(decoded) = instructions.next()? {
///     // decoded.op begins at decoded.offset, and decoded.operands are its operands
/// }
/// ```
///
/// # Errors
///
/// Every error except `Memory` means that the bytes at the offset encode no instruction, and for
/// `next_before_end` no expression.
#[derive(Debug, Drop)]
pub struct Instructions<'a, A: Allocator = Global, G: Grammar = Padded> {
    bytes: &'a [u8],
    offset: usize,
    alloc: A,
    grammar: PhantomData<G>,
}

impl<'a, A: Allocator, G: Grammar> Model for Instructions<'a, A, G> {
    ghost Value = { Walking };

    ghost view = { λ w. record { bytes = w.bytes.now; offset = w.offset } };

    ghost invariant = { λ w. w.offset ≤ length w.bytes.now };
}

/// A decoded instruction: its offset in bytes, its opcode, and its operands, which borrow the
/// bytes.
#[derive(Clone, Copy, Debug)]
pub struct Decoded<'a> {
    pub offset: usize,
    pub op: Op,
    pub operands: Operands<'a>,
}

impl<'a, A: Allocator + Copy> Instructions<'a, A> {
    /// Returns a visitor that begins at the first byte, and allocates nothing. It accepts padded
    /// numbers.
    pub fn new(bytes: &'a [u8], alloc: A) -> Self
        ensures { result ≡ record { bytes = bytes.now; offset = 0 } }
    {
        Instructions::begin(bytes, alloc)
    }

    /// Decodes the runs of a body's locals, and returns them with a visitor of its instructions.
    /// The bytes are those of the body without its size prefix. Offsets count from the first byte,
    /// before the runs. Padded numbers are accepted.
    pub fn of_body(bytes: &'a [u8], alloc: A) -> Result<(Vec<(u32, ValType), A>, Self), DecodeError>
        ensures found { IfOk result (λ x. Decodes (vec (pair u32 val_type)) padded bytes.now x.0.items (ahead x.1)) }
        ensures same { IfOk result (λ x. x.1.bytes ≡ bytes.now) }
        ensures within { IfOk result (λ x. x.1.offset ≤ length bytes.now) }
        ensures none { IfErr result (λ e. e.cause ≢ Memory → RejectsWhole body padded bytes.now) }
    {
        Instructions::begin_body(bytes, alloc)
    }
}

impl<'a, A: Allocator + Copy> Instructions<'a, A, Standard> {
    /// Returns a visitor that begins at the first byte, and allocates nothing. It accepts all
    /// encodings that the standard admits.
    pub fn standard(bytes: &'a [u8], alloc: A) -> Self
        ensures { result ≡ record { bytes = bytes.now; offset = 0 } }
    {
        Instructions::begin(bytes, alloc)
    }

    /// Decodes the runs of a body's locals, as [`of_body`](Instructions::of_body) does, and accepts
    /// all encodings that the standard admits.
    pub fn of_standard_body(
        bytes: &'a [u8],
        alloc: A,
    ) -> Result<(Vec<(u32, ValType), A>, Self), DecodeError>
        ensures found { IfOk result (λ x. Decodes (vec (pair u32 val_type)) standard bytes.now x.0.items (ahead x.1)) }
        ensures same { IfOk result (λ x. x.1.bytes ≡ bytes.now) }
        ensures within { IfOk result (λ x. x.1.offset ≤ length bytes.now) }
        ensures none { IfErr result (λ e. e.cause ≢ Memory → RejectsWhole body standard bytes.now) }
    {
        Instructions::begin_body(bytes, alloc)
    }
}

impl<'a, A: Allocator + Copy, G: Grammar> Instructions<'a, A, G> {
    /// Returns a visitor that begins at the first byte.
    fn begin(bytes: &'a [u8], alloc: A) -> Self
        ensures { result ≡ record { bytes = bytes.now; offset = 0 } }
    {
        Instructions {
            bytes,
            offset: 0,
            alloc,
            grammar: PhantomData,
        }
    }

    /// Decodes the runs of a body's locals, and returns them with a visitor of its instructions.
    #[tactic(auto, using(crate::proofs::WalkLaws::body_steps))]
    fn begin_body(bytes: &'a [u8], alloc: A) -> Result<(Vec<(u32, ValType), A>, Self), DecodeError>
        ensures found { IfOk result (λ x. Decodes (vec (pair u32 val_type)) (padded_of G.grammar) bytes.now x.0.items (ahead x.1)) }
        ensures same { IfOk result (λ x. x.1.bytes ≡ bytes.now) }
        ensures within { IfOk result (λ x. x.1.offset ≤ length bytes.now) }
        ensures none { IfErr result (λ e. e.cause ≢ Memory → RejectsWhole body (padded_of G.grammar) bytes.now) }
    {
        let (runs, rest) = <Vec<(u32, ValType), A> as Readable<'a, A, G>>::read(bytes, alloc)?;
        let instructions = Instructions {
            bytes,
            offset: bytes.len() - rest.len(),
            alloc,
            grammar: PhantomData,
        };
        Ok((runs, instructions))
    }

    /// Visits the instruction at the offset of the visitor, and advances the offset past it.
    #[inline(always)]
    fn step(&mut self) -> Result<Decoded<'a>, DecodeError>
        ensures found { IfOk result (λ it. GivesInstruction (instruction table) (padded_of G.grammar) self.old it self.new) }
        ensures none { IfErr result (λ e. GivesFailure (instruction table) (padded_of G.grammar) self.old e self.new) }
    {
        let offset = self.offset;
        let (op, operands, rest) = read_instruction::<A, G>(&self.bytes[offset..], self.alloc)?;
        self.offset = self.bytes.len() - rest.len();
        Ok(Decoded {
            offset,
            op,
            operands,
        })
    }

    /// Visits the next instruction, or returns `None` at the end of the bytes. After an error the
    /// offset is unchanged.
    #[inline(always)]
    pub fn next(&mut self) -> Result<Option<Decoded<'a>>, DecodeError>
        ensures { NextInstruction (padded_of G.grammar) self.old result self.new }
    {
        if self.offset == self.bytes.len() {
            return Ok(None);
        }
        let decoded = self.step()?;
        Ok(Some(decoded))
    }

    /// Visits the next instruction of an expression, or returns `None` at its final `End`, which
    /// the visitor does not pass. After an error the offset is unchanged.
    #[inline(always)]
    pub fn next_before_end(&mut self) -> Result<Option<Decoded<'a>>, DecodeError>
        ensures { NextBeforeEnd (padded_of G.grammar) self.old result self.new }
    {
        let [first, ..] = &self.bytes[self.offset..] else {
            return Err(ReadFault::Ended.at(b""));
        };
        if *first == END {
            return Ok(None);
        }
        let decoded = self.step()?;
        Ok(Some(decoded))
    }

    /// Returns the offset of the next instruction, in bytes.
    pub fn offset(&self) -> usize
        ensures { result ≡ self.now.offset }
    {
        self.offset
    }

    /// Returns the bytes from the next instruction on.
    pub fn rest(&self) -> &'a [u8]
        ensures { result.now ≡ ahead self.now }
    {
        &self.bytes[self.offset..]
    }
}
