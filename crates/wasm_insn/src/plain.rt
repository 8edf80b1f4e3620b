// An instruction in normal form, an opcode and its arguments: decoded and encoded.
ghost use Rattle.std.specs.Prelude.{◌≢◌, IfOk, IfErr, Err, OnOk, map};
ghost use Rattle.wasm_base.specs.Numbers.{padded_of};
ghost use Rattle.wasm_base.specs.Decoding.{Decodes, Rejects};
ghost use Rattle.wasm_insn.specs.Plain.{Plain as PlainInstruction, instruction, arguments};
ghost use Rattle.wasm_insn.specs.Table.{table};
ghost use Rattle.wasm_base.specs.declared.refused.Refused.TheVariants.{TooLong};
ghost use Rattle.wasm_base.specs.Minimal.{AppendsMinimal, IsFrontOf, HasEncoding, builders_alone};
ghost use Rattle.wasm_base.specs.declared.fault.ReadFault.TheVariants.{Memory};
ghost use Rattle.wasm_insn.specs.Views.{argument_view, plain_view};

use crate::arguments::{Arg, append_arguments};
use crate::op::Op;
use crate::operands::{read_long, read_short};
use std::alloc::{Allocator, Global};
use wasm_base::{DecodeError, Encode, Grammar, Layout, Readable, Result, Shorten};

/// An instruction in normal form: its opcode, and an argument for each immediate of the opcode's
/// shape.
#[derive(Debug, Drop)]
pub struct Plain<A: Allocator = Global> {
    pub op: Op,
    pub args: Vec<Arg<A>, A>,
}

impl<A: Allocator> Layout for Plain<A> {
    ghost Value = { PlainInstruction };

    ghost format = { instruction table };

    ghost view = { plain_view };

    #[tactic(auto, using(crate::proofs::InstructionLaws::unique))]
    fn laws() {}
}

impl<'a, A: Allocator + Copy, G: Grammar> Readable<'a, A, G> for Plain<A> {
    // Each of the two ways has its own call of `to_args`, so that the compiler joins the short one to
    // the cases that `read_short` returns.
    #[inline]
    fn read(bytes: &'a [u8], alloc: A) -> Result<(Plain<A>, &'a [u8]), DecodeError> {
        if let Some((op, operands, rest)) = read_short::<G>(bytes) {
            let args = operands.to_args(alloc)?;
            return Ok((Plain { op, args }, rest));
        }
        let (op, args, rest) = read_long_plain::<A, G>(bytes, alloc)?;
        Ok((Plain { op, args }, rest))
    }
}

/// Decodes any instruction at the front. Out of line, for rare shapes and long numbers.
#[inline(never)]
fn read_long_plain<'a, A: Allocator + Copy, G: Grammar>(
    bytes: &'a [u8],
    alloc: A,
) -> Result<(Op, Vec<Arg<A>, A>, &'a [u8]), DecodeError>
    ensures found { IfOk result (λ x. Decodes (instruction table) (padded_of G.grammar) bytes.now (record { op = x.0; arguments = map argument_view x.1.items }) x.2.now) }
    ensures none { IfErr result (λ e. e.cause ≢ Memory → Rejects (instruction table) (padded_of G.grammar) bytes.now) }
{
    let (op, operands, rest) = read_long::<A, G>(bytes, alloc)?;
    let args = operands.to_args(alloc)?;
    Ok((op, args, rest))
}

/// Appends the minimal encoding of an instruction. After an error, part of it may follow the old
/// bytes of the sink.
fn append_instruction<A: Allocator, B: Allocator>(
    op: Op,
    args: &[Arg<A>],
    sink: &mut Vec<u8, B>,
) -> Result<()>
    ensures ok { OnOk result (AppendsMinimal builders_alone (instruction table) (record { op = op; arguments = map argument_view args.now }) sink.old.items sink.new.items) }
    ensures front { IsFrontOf sink.old.items sink.new.items }
    ensures too_long { HasEncoding builders_alone (instruction table) (record { op = op; arguments = map argument_view args.now }) → result ≢ Err TooLong }
{
    op.encode(sink)?;
    append_arguments(args, sink)
}

impl<A: Allocator> Shorten for Plain<A> {
    ghost grammars = { builders_alone };

    fn write_minimal<B: Allocator>(&self, sink: &mut Vec<u8, B>) -> Result<()> {
        append_instruction(self.op, &self.args, sink)
    }
}
