// Constant expressions as instructions up to `End`: decoded, skipped and minimized.
ghost use Rattle.std.specs.Prelude.{List, map};
ghost use Rattle.wasm_insn.specs.Plain.{Plain as PlainInstruction};
ghost use Rattle.wasm_code.specs.Expressions.{expression};
ghost use Rattle.wasm_insn.specs.Views.{plain_view};
ghost use Rattle.wasm_base.specs.Minimal.{builders_alone};

use crate::body::append_code;
use std::alloc::{Allocator, Global};
use wasm_base::{DecodeError, Effect, Grammar, Layout, ReadFault, Readable, Result, Shorten, Walk};
use wasm_insn::Plain;

/// The opcode of `End`.
pub(crate) const END: u8 = 0x0B;

/// The instructions of a constant expression, without its final `End`.
#[derive(Debug, Drop)]
pub struct Expression<A: Allocator = Global>(pub Vec<Plain<A>, A>);

impl<A: Allocator> Layout for Expression<A> {
    ghost Value = { List PlainInstruction };

    ghost format = { expression };

    ghost view = { λ e. map plain_view e.0.items };

    #[tactic(auto, using(crate::proofs::ExpressionLaws::expression_unambiguous))]
    fn laws() {}
}

impl<'a, A: Allocator + Copy, G: Grammar> Readable<'a, A, G> for Expression<A> {
    #[tactic(auto, using(wasm_insn::proofs::InstructionLaws::any_begins))]
    fn read(bytes: &'a [u8], alloc: A) -> Result<(Expression<A>, &'a [u8]), DecodeError> {
        let mut items = Vec::new(alloc);
        let mut rest = bytes;
        loop {
            let [first, after @ ..] = rest else {
                return Err(ReadFault::Ended.at(b""));
            };
            if *first == END {
                return Ok((Expression(items), after));
            }
            let (item, after) = <Plain<A> as Readable<'a, A, G>>::read(rest, alloc)?;
            items.push(item)?;
            rest = after;
        }
    }
}

impl<A: Allocator> Shorten for Expression<A> {
    ghost grammars = { builders_alone };

    #[tactic(auto, using(crate::proofs::MinimalLists::expression_appended, crate::proofs::MinimalLists::code_encoded))]
    fn write_minimal<B: Allocator>(&self, sink: &mut Vec<u8, B>) -> Result<()> {
        append_code(&self.0, sink)?;
        sink.push(END)?;
        Ok(())
    }
}

/// Walks over the instructions one by one, up to the first `End`.
impl<G: Grammar, C: Allocator> Walk<G> for Expression<C> {
    #[tactic(auto, using(wasm_base::proofs::WalkLaws::keep_steps))]
    fn walk<'a, A: Allocator + Copy, E: Effect>(
        bytes: &'a [u8],
        alloc: A,
        effect: &mut E,
    ) -> Result<&'a [u8], DecodeError> {
        let mut rest = bytes;
        loop {
            let [first, after @ ..] = rest else {
                return Err(ReadFault::Ended.at(b""));
            };
            if *first == END {
                effect.put(&END)?;
                return Ok(after);
            }
            rest = <Plain<C> as Walk<G>>::walk(rest, alloc, effect)?;
        }
    }
}
