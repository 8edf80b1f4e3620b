// The clauses of instructions that handle exceptions and suspended stacks.
ghost use Rattle.std.specs.Prelude.{⊤};
ghost use Rattle.wasm_immediates.specs.Immediates.{catch_encoding, handle_encoding};
ghost use Rattle.wasm_immediates.specs.ImmediateFormats.{catch as catch_format, handle as handle_format};
ghost use Rattle.wasm_immediates.specs.declared.control.Catch.{Catch as CatchModel};
ghost use Rattle.wasm_immediates.specs.declared.control.Handle.{Handle as HandleModel};

use std::alloc::Allocator;
use wasm_base::{
    Canonical, DecodeError, Effect, Encode, Grammar, Layout, ReadFault, Readable, Result, Walk,
    walk_value,
};

/// A clause of `try_table`: the exceptions that it catches, and the label that it then branches to.
#[derive(Clone, Copy, Debug)]
pub enum Catch {
    One { tag: u32, label: u32 },
    OneRef { tag: u32, label: u32 },
    All { label: u32 },
    AllRef { label: u32 },
}

/// A clause of `resume` and its variants: the action for a suspension with a tag.
#[derive(Clone, Copy, Debug)]
pub enum Handle {
    OnLabel { tag: u32, label: u32 },
    OnSwitch { tag: u32 },
}

/// Encodes a clause as its kind in one byte, the tag if it has one, and the label.
impl Encode for Catch {
    ghost encoding = { catch_encoding };

    ghost encodable = { λ _. ⊤ };

    fn encode<A: Allocator>(&self, sink: &mut Vec<u8, A>) -> Result<()> {
        match *self {
            Catch::One { tag, label } => (0x00u8, tag, label).encode(sink),
            Catch::OneRef { tag, label } => (0x01u8, tag, label).encode(sink),
            Catch::All { label } => (0x02u8, label).encode(sink),
            Catch::AllRef { label } => (0x03u8, label).encode(sink),
        }
    }
}

/// Encodes a clause as its kind in one byte, the tag, and the label if it has one.
impl Encode for Handle {
    ghost encoding = { handle_encoding };

    ghost encodable = { λ _. ⊤ };

    fn encode<A: Allocator>(&self, sink: &mut Vec<u8, A>) -> Result<()> {
        match *self {
            Handle::OnLabel { tag, label } => (0x00u8, tag, label).encode(sink),
            Handle::OnSwitch { tag } => (0x01u8, tag).encode(sink),
        }
    }
}

impl Layout for Catch {
    ghost Value = { CatchModel };

    ghost format = { catch_format };

    ghost view = { λ c. c };

    #[tactic(auto, using(crate::proofs::ImmediateLaws::catch_unambiguous))]
    fn laws() {}
}

impl<'a, A: Allocator + Copy, G: Grammar> Readable<'a, A, G> for Catch {
    ghost may_allocate = { ⊥ };

    #[tactic(auto, using(crate::proofs::DecodeImmediates::catch_steps))]
    fn read(bytes: &'a [u8], alloc: A) -> Result<(Catch, &'a [u8]), DecodeError> {
        let (kind, rest) = <u8 as Readable<'a, A, G>>::read(bytes, alloc)?;
        match kind {
            0x00 => {
                let ((tag, label), rest) = <(u32, u32) as Readable<'a, A, G>>::read(rest, alloc)?;
                Ok((Catch::One { tag, label }, rest))
            }
            0x01 => {
                let ((tag, label), rest) = <(u32, u32) as Readable<'a, A, G>>::read(rest, alloc)?;
                Ok((Catch::OneRef { tag, label }, rest))
            }
            0x02 => {
                let (label, rest) = <u32 as Readable<'a, A, G>>::read(rest, alloc)?;
                Ok((Catch::All { label }, rest))
            }
            0x03 => {
                let (label, rest) = <u32 as Readable<'a, A, G>>::read(rest, alloc)?;
                Ok((Catch::AllRef { label }, rest))
            }
            _ => Err(ReadFault::UnknownTag.just_before(rest)),
        }
    }
}

impl Layout for Handle {
    ghost Value = { HandleModel };

    ghost format = { handle_format };

    ghost view = { λ h. h };

    #[tactic(auto, using(crate::proofs::ImmediateLaws::handle_unambiguous))]
    fn laws() {}
}

impl<'a, A: Allocator + Copy, G: Grammar> Readable<'a, A, G> for Handle {
    ghost may_allocate = { ⊥ };

    #[tactic(auto, using(crate::proofs::DecodeImmediates::handle_steps))]
    fn read(bytes: &'a [u8], alloc: A) -> Result<(Handle, &'a [u8]), DecodeError> {
        let (kind, rest) = <u8 as Readable<'a, A, G>>::read(bytes, alloc)?;
        match kind {
            0x00 => {
                let ((tag, label), rest) = <(u32, u32) as Readable<'a, A, G>>::read(rest, alloc)?;
                Ok((Handle::OnLabel { tag, label }, rest))
            }
            0x01 => {
                let (tag, rest) = <u32 as Readable<'a, A, G>>::read(rest, alloc)?;
                Ok((Handle::OnSwitch { tag }, rest))
            }
            _ => Err(ReadFault::UnknownTag.just_before(rest)),
        }
    }
}

impl Canonical for Catch {
    #[tactic(auto, using(crate::proofs::MinimalImmediates::catch_canonical))]
    fn canonical() {}
}

impl<G: Grammar> Walk<G> for Catch {
    fn walk<'a, A: Allocator + Copy, E: Effect>(
        bytes: &'a [u8],
        alloc: A,
        effect: &mut E,
    ) -> Result<&'a [u8], DecodeError> {
        walk_value::<Catch, A, G, _>(bytes, alloc, effect)
    }
}

impl Canonical for Handle {
    #[tactic(auto, using(crate::proofs::MinimalImmediates::handle_canonical))]
    fn canonical() {}
}

impl<G: Grammar> Walk<G> for Handle {
    fn walk<'a, A: Allocator + Copy, E: Effect>(
        bytes: &'a [u8],
        alloc: A,
        effect: &mut E,
    ) -> Result<&'a [u8], DecodeError> {
        walk_value::<Handle, A, G, _>(bytes, alloc, effect)
    }
}
