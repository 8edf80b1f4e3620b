// The types of blocks.
ghost use Rattle.std.specs.Prelude.{⊤, ◌≢◌, IfOk, IfErr};
ghost use Rattle.wasm_immediates.specs.Immediates.{block_encoding, block_encoding_in};
ghost use Rattle.wasm_base.specs.Calls.{Appends};
ghost use Rattle.wasm_base.specs.Numbers.{padded_of};
ghost use Rattle.wasm_base.specs.Decoding.{Decodes, Rejects};
ghost use Rattle.wasm_immediates.specs.ImmediateFormats.{block_type};
ghost use Rattle.wasm_immediates.specs.declared.block_type.BlockType.{BlockType as BlockModel};
ghost use Rattle.wasm_base.specs.declared.fault.ReadFault.TheVariants.{Memory};

use std::alloc::Allocator;
use wasm_base::{
    DecodeError, Effect, Encode, EncodeIn, Grammar, Layout, Readable, Result, ValType, Walk,
    read_index, read_val_after, walk_in,
};

/// The type of a block: its parameters and results.
#[derive(Clone, Copy, Debug)]
pub enum BlockType {
    /// No parameters and no results.
    Empty,
    /// No parameters, and one result of this type.
    Result(ValType),
    /// The parameters and results of the function type of this index.
    FunctionType(u32),
}

/// Encodes the empty type as 0x40, a result as its value type, and an index as a signed number.
impl Encode for BlockType {
    ghost encoding = { block_encoding };

    ghost encodable = { λ _. ⊤ };

    fn encode<A: Allocator>(&self, sink: &mut Vec<u8, A>) -> Result<()> {
        match *self {
            BlockType::Empty => 0x40u8.encode(sink),
            BlockType::Result(ty) => ty.encode(sink),
            BlockType::FunctionType(index) => i64::from(index).encode(sink),
        }
    }
}

/// Decodes a block type. Out of line, for those with a type.
#[inline(never)]
#[tactic(auto, using(crate::proofs::DecodeImmediates::block_steps))]
fn read_any_block<'a, A: Allocator + Copy, G: Grammar>(
    bytes: &'a [u8],
    alloc: A,
) -> Result<(BlockType, &'a [u8]), DecodeError>
    ensures found { IfOk result (λ x. Decodes block_type (padded_of G.grammar) bytes.now x.0 x.1.now) }
    ensures none { IfErr result (λ e. e.cause ≢ Memory → Rejects block_type (padded_of G.grammar) bytes.now) }
    ensures no_memory { IfErr result (λ e. e.cause ≢ Memory) }
{
    let (tag, rest) = <u8 as Readable<'a, A, G>>::read(bytes, alloc)?;
    match tag {
        0x40 => Ok((BlockType::Empty, rest)),
        0x41..=0x7F => {
            let (ty, rest) = read_val_after::<A, G>(tag, rest, alloc)?;
            Ok((BlockType::Result(ty), rest))
        }
        _ => {
            let (index, rest) = read_index::<G>(bytes)?;
            Ok((BlockType::FunctionType(index), rest))
        }
    }
}

impl Layout for BlockType {
    ghost Value = { BlockModel };

    ghost format = { block_type };

    ghost view = { λ b. b };

    #[tactic(auto, using(crate::proofs::ImmediateLaws::block_unambiguous))]
    fn laws() {}
}

impl<'a, A: Allocator + Copy, G: Grammar> Readable<'a, A, G> for BlockType {
    ghost may_allocate = { ⊥ };

    #[tactic(auto, using(crate::proofs::DecodeImmediates::block_steps))]
    #[inline]
    fn read(bytes: &'a [u8], alloc: A) -> Result<(BlockType, &'a [u8]), DecodeError> {
        let (tag, rest) = <u8 as Readable<'a, A, G>>::read(bytes, alloc)?;
        if tag == 0x40 {
            return Ok((BlockType::Empty, rest));
        }
        read_any_block::<A, G>(bytes, alloc)
    }
}

impl<G: Grammar> EncodeIn<G> for BlockType {
    ghost encoding_in = { block_encoding_in G.grammar };

    fn encode_in<A: Allocator>(&self, sink: &mut Vec<u8, A>) -> Result<()> {
        match self {
            BlockType::Result(ty) => <ValType as EncodeIn<G>>::encode_in(ty, sink),
            _ => self.encode(sink),
        }
    }

    #[tactic(auto, using(crate::proofs::MinimalImmediates::block_in))]
    fn minimal_in() {}
}

impl<G: Grammar> Walk<G> for BlockType {
    #[inline]
    fn walk<'a, A: Allocator + Copy, E: Effect>(
        bytes: &'a [u8],
        alloc: A,
        effect: &mut E,
    ) -> Result<&'a [u8], DecodeError> {
        walk_in::<BlockType, A, G, _>(bytes, alloc, effect)
    }
}
