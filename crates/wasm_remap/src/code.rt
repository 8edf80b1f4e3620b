// Instructions that are inserted at the start of bodies.
ghost use Rattle.std.specs.Prelude.{◌≡◌, ◌∷◌, [], ℕ, List, IfOk, IfErr, OnOk};
ghost use Rattle.wasm_base.specs.Words.{size_prefixed, standard, vec};
ghost use Rattle.wasm_code.specs.Words.{Body, body as body_format};
ghost use Rattle.wasm_insn.specs.Words.{Plain};
ghost use Rattle.wasm_remap.specs.Begun.{begun_body, each_from, AddsBodies, EditsCode, EncodeBodies, GainsCode, InsertsCode, IsBegun, IsClosed};
ghost use Rattle.wasm_remap.specs.Errors.{ExplainsBodies, ExplainsBody, ExplainsCode};

use crate::indexed::RemapError;
use crate::insert::module_of;
use crate::places::{found, sections_of};
use crate::shift::IndexTooLarge;
use std::alloc::Allocator;
use wasm_base::{Refused, Result as Written};
use wasm_code::CodeSection;
use wasm_reader::{CodeBody, Section};

/// Instructions that are inserted at the start of each body of a module.
///
/// Close every block that you open, and no other. Otherwise the labels of the body's own
/// instructions would be those of other blocks. The call does not check this. A proof owes it
/// (`closed`).
pub trait Prologue {
    /// The instructions for the body of each number. The first body of the code section has
    /// number 0.
    ghost code: { Self → ℕ → List Plain };

    /// Appends the instructions for the body of this number.
    ///
    /// # Errors
    ///
    /// Returns [`Refused`] if an instruction is too long or an allocation fails.
    fn append<A: Allocator>(&self, body: u32, sink: &mut Vec<u8, A>) -> Written<()>
        ensures { OnOk result (GainsCode (code self.now body) sink.old.items sink.new.items) };

    /// Each block that they begin ends in them.
    ghost closed: { (prologue : Self) (body : ℕ) → IsClosed (code prologue body) };
}

/// Returns the locals, the new instructions and the old ones.
fn joined<P: Prologue, A: Allocator>(
    locals: &[u8],
    prologue: &P,
    number: u32,
    old: &[u8],
    alloc: A,
) -> Written<Vec<u8, A>>
    ensures { IfOk result (λ new. IsBegun locals.now (P.code prologue.now number) old.now new.items) }
{
    let mut new = Vec::from_slice(alloc, locals)?;
    prologue.append(number, &mut new)?;
    new.extend_from_slice(old)?;
    Ok(new)
}

/// A change of the bodies of a module.
pub(crate) trait EditBody {
    // What the change makes of the body of this number.
    ghost edited: { Self → ℕ → Body → List Body };

    /// Adds to a section what the change makes of the body of this number.
    fn add_body<A: Allocator + Copy, E>(
        &self,
        body: &CodeBody<'_, A>,
        number: u32,
        section: &mut CodeSection<A>,
        alloc: A,
    ) -> Result<(), RemapError<E>>
        ensures ok { OnOk result ((x : Body) → body_format standard body.now.bytes x → AddsBodies (edited self.now number x) section.old section.new) }
        ensures why { IfErr result (λ e. ExplainsBody body.now.bytes e) };
}

/// The change that inserts instructions at the start.
#[derive(Clone, Copy)]
struct Begun<'p, P>(&'p P);

impl<P: Prologue> EditBody for Begun<'_, P> {
    ghost edited = { λ begun number x. begun_body (P.code begun.0.now number) x ∷ [] };

    fn add_body<A: Allocator + Copy, E>(
        &self,
        body: &CodeBody<'_, A>,
        number: u32,
        section: &mut CodeSection<A>,
        alloc: A,
    ) -> Result<(), RemapError<E>> {
        let (_runs, instructions) = body.instructions()?;
        let locals = &body.bytes()[..instructions.offset()];
        let new = joined(locals, self.0, number, instructions.rest(), alloc)?;
        section.raw(&new)?;
        Ok(())
    }
}

/// Returns a code section of what the change makes of the bodies.
pub(crate) fn code_of<C: EditBody, A: Allocator + Copy, E>(
    section: &Section<'_, A>,
    change: &C,
    alloc: A,
) -> Result<CodeSection<A>, RemapError<E>>
    ensures ok { IfOk result (λ new. (xs : List Body) → vec (size_prefixed body_format) standard section.now.section.payload xs → EncodeBodies new (each_from (C.edited change.now) 0 xs)) }
    ensures why { section.now.section.id ≡ 10 → IfErr result (λ e. ExplainsBodies section.now.section.payload e) }
{
    let mut bodies = section.bodies()?;
    let mut new = CodeSection::new(alloc);
    let mut number: u32 = 0;
    loop {
        let body = match bodies.next() {
            None => return Ok(new),
            Some(body) => body?,
        };
        change.add_body(&body, number, &mut new, alloc)?;
        number = match number.checked_add(1) {
            Some(next) => next,
            None => return Err(Refused::TooLong.into()),
        };
    }
}

/// Returns the module with the bodies of its first code section changed.
pub(crate) fn edit_code<C: EditBody, A: Allocator + Copy>(
    bytes: &[u8],
    alloc: A,
    change: &C,
) -> Result<Vec<u8, A>, RemapError<IndexTooLarge>>
    ensures ok { IfOk result (λ edited. EditsCode (C.edited change.now) bytes.now edited.items) }
    ensures why { IfErr result (λ e. ExplainsCode bytes.now e) }
{
    let sections = sections_of(bytes, alloc)?;
    let Some((before, old, after)) = found(&sections, 10) else {
        return Ok(Vec::from_slice(alloc, bytes)?);
    };
    let code = code_of(old, change, alloc)?;
    Ok(module_of(before, &code, after, alloc)?)
}

/// Inserts instructions at the start of each body, and returns the new module.
///
/// The bodies are those of the first code section. Their locals and other instructions keep their
/// bytes, and all other sections their payloads. A module without code stays as it is.
///
/// Sections that hold offsets into the code stay, and their offsets become wrong: remove them first
/// ([`Section::has_offsets`]).
///
/// # Errors
///
/// Returns `Read` if the bytes are no module, or if the sizes or the locals of the bodies do not
/// decode. Instructions are not decoded. Returns `Refused` if a section is too long or an
/// allocation fails.
pub fn insert_code<P: Prologue, A: Allocator + Copy>(
    bytes: &[u8],
    alloc: A,
    prologue: &P,
) -> Result<Vec<u8, A>, RemapError<IndexTooLarge>>
    ensures ok { IfOk result (λ edited. InsertsCode (P.code prologue.now) bytes.now edited.items) }
    ensures why { IfErr result (λ e. ExplainsCode bytes.now e) }
{
    edit_code(bytes, alloc, &Begun(prologue))
}
