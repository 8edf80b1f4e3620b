// Values after a fixed byte.
ghost use Rattle.std.specs.Prelude.{◌≡◌, ◌≢◌, ◌∷◌, [], List, ℕ, IfOk, IfErr};
ghost use Rattle.wasm_base.specs.Formats.{prefixed};
ghost use Rattle.wasm_base.specs.Numbers.{padded_of};
ghost use Rattle.wasm_base.specs.Decoding.{Unambiguous, Decodes, Rejects};
ghost use Rattle.wasm_custom.specs.CoreDumps.{marked_name};
ghost use Rattle.wasm_base.specs.Walks.{Keeps, Walks};
ghost use Rattle.wasm_base.specs.declared.fault.ReadFault.TheVariants.{Memory};

use std::alloc::Allocator;
use wasm_base::{DecodeError, Effect, Grammar, Layout, ReadFault, Readable, Walk};

/// Decodes the byte `mark` and the value after it, and returns the value with the remaining bytes.
#[tactic(auto, using(crate::proofs::DecodeMarked::marked_steps))]
pub(crate) fn read_marked<'a, T: Readable<'a, A, G>, A: Allocator + Copy, G: Grammar>(
    mark: u8,
    bytes: &'a [u8],
    alloc: A,
) -> Result<(T, &'a [u8]), DecodeError>
    ensures found { IfOk result (λ x. Decodes (prefixed (mark ∷ []) T.format) (padded_of G.grammar) bytes.now (T.view x.0) x.1.now) }
    ensures none { IfErr result (λ e. e.cause ≢ Memory → Rejects (prefixed (mark ∷ []) T.format) (padded_of G.grammar) bytes.now) }
    ensures no_memory { IfErr result (λ e. e.cause ≡ Memory → T.may_allocate) }
{
    let (first, rest) = <u8 as Readable<'a, A, G>>::read(bytes, alloc)?;
    if first != mark {
        return Err(ReadFault::UnknownTag.just_before(rest));
    }
    let (value, rest) = T::read(rest, alloc)?;
    Ok((value, rest))
}

/// Walks over the byte `mark` and the value after it.
#[tactic(auto, using(crate::proofs::DecodeMarked::marked_steps, crate::proofs::WalkCustoms::marked_walks, wasm_base::proofs::WalkLaws::keep_steps))]
pub(crate) fn walk_marked<'a, T: Walk<G>, A: Allocator + Copy, G: Grammar, E: Effect>(
    mark: u8,
    bytes: &'a [u8],
    alloc: A,
    effect: &mut E,
) -> Result<&'a [u8], DecodeError>
    ensures found { IfOk result (λ rest. Walks E.seen G.grammar (prefixed (mark ∷ []) T.format) bytes.now rest.now effect.old effect.new) }
    ensures none { IfErr result (λ e. e.cause ≢ Memory → Rejects (prefixed (mark ∷ []) T.format) (padded_of G.grammar) bytes.now) }
    ensures no_memory { IfErr result (λ e. e.cause ≡ Memory → E.may_fail) }
    ensures front { Keeps E.seen effect.old effect.new }
{
    let (first, after) = <u8 as Readable<'a, A, G>>::read(bytes, alloc)?;
    if first != mark {
        return Err(ReadFault::UnknownTag.just_before(after));
    }
    effect.put(&mark)?;
    let rest = T::walk(after, alloc, effect)?;
    Ok(rest)
}

/// The name of a process or a module: the byte 00, and a name.
#[derive(Clone, Copy, Debug)]
pub(crate) struct MarkedName<'a>(pub &'a str);

impl<'a> Layout for MarkedName<'a> {
    ghost Value = { List ℕ };

    ghost format = { marked_name };

    ghost view = { λ m. m.0.now };

    #[tactic(auto, using(crate::proofs::CoreDumpLaws::marked_unambiguous))]
    fn laws()
        ensures { Unambiguous marked_name }
    {}
}

impl<'a, A: Allocator + Copy, G: Grammar> Readable<'a, A, G> for MarkedName<'a> {
    ghost may_allocate = { ⊥ };

    fn read(bytes: &'a [u8], alloc: A) -> Result<(MarkedName<'a>, &'a [u8]), DecodeError> {
        let (name, rest) = read_marked::<'a, &'a str, A, G>(0x00, bytes, alloc)?;
        Ok((MarkedName(name), rest))
    }
}
