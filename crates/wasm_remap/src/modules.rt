// Modules whose sections are changed one after another, and those whose indices are mapped.
ghost use Rattle.std.specs.Prelude.{◌≡◌, ℕ, List, [], IfOk, IfErr, OnOk};
ghost use Rattle.wasm_base.specs.Calls.{DecodesOneMore};
ghost use Rattle.wasm_reader.specs.Words.{Section as SectionModel};
ghost use Rattle.wasm_remap.specs.Errors.{ExplainsChange, ExplainsModule, ExplainsRemap, ExplainsSection};
ghost use Rattle.wasm_remap.specs.Mapping.{Follows, Mapping};
ghost use Rattle.wasm_remap.specs.Sections.{ChangesModule, RemapsModule, RemapsSection};
ghost use Rattle.wasm_remap.specs.declared.indexed.RemapError.{RemapError as ErrorModel};
ghost use Rattle.wasm_remap.specs.declared.indexed.RemapError.TheVariants as errors;

use crate::indexed::{Remap, RemapError};
use crate::items::remap_section;
use std::alloc::Allocator;
use wasm_base::{Module, RawSection};
use wasm_reader::{Offsets, Section, Sections};

/// A change of each section of a module.
pub(crate) trait Change {
    /// The reason for which an index is rejected.
    type Error;

    // The bytes are the payload of the new section for this one.
    ghost changes: { Self → SectionModel → List ℕ → Type 0 };

    // The change of the section fails with this error.
    ghost explains: { Self → SectionModel → ErrorModel Self.Error → Type 0 };

    /// Returns the payload of the new section.
    fn payload<A: Allocator + Copy>(
        &self,
        section: &Section<'_, A>,
        alloc: A,
    ) -> Result<Vec<u8, A>, RemapError<Self::Error>>
        ensures ok { IfOk result (λ new. changes self.now section.now.section new.items) }
        ensures why { IfErr result (λ e. explains self.now section.now.section e) };

    // It is no error of offsets.
    ghost no_offsets: { (it : Self) (s : SectionModel) (offset : ℕ) → explains it s (errors.Offsets offset) → ⊥ };
}

/// Appends the changed section to a module.
fn append_changed<A: Allocator + Copy, C: Change>(
    section: &Section<'_, A>,
    alloc: A,
    change: &C,
    module: &mut Module<A>,
) -> Result<(), RemapError<C::Error>>
    ensures ok { OnOk result ((payload : List ℕ) × C.changes change.now section.now.section payload × DecodesOneMore (λ p. p ≡ payload) section.now.section.id module.old module.new) }
    ensures why { IfErr result (λ e. ExplainsChange (C.changes change.now) (C.explains change.now) section.now.section e) }
{
    let payload = change.payload(section, alloc)?;
    let changed = RawSection {
        id: section.id(),
        bytes: &payload,
    };
    module.section(&changed)?;
    Ok(())
}

/// Returns a module whose sections are changed. Those that hold offsets are left out, or an error.
pub(crate) fn change_module<A: Allocator + Copy, C: Change>(
    bytes: &[u8],
    alloc: A,
    change: &C,
    offsets: Offsets,
) -> Result<Vec<u8, A>, RemapError<C::Error>>
    ensures ok { IfOk result (λ new. ChangesModule (C.changes change.now) offsets bytes.now new.items) }
    ensures why { IfErr result (λ e. ExplainsModule (ExplainsChange (C.changes change.now) (C.explains change.now)) offsets bytes.now e) }
{
    let mut sections = Sections::new(alloc, bytes)?;
    let mut module = Module::new(alloc)?;
    loop {
        let section = match sections.next() {
            None => return Ok(module.finish()),
            Some(section) => section?,
        };
        if section.has_offsets() {
            match offsets {
                Offsets::Refuse => return Err(RemapError::Offsets(section.offset())),
                Offsets::LeaveOut => {}
            }
        } else {
            append_changed(&section, alloc, change, &mut module)?;
        }
    }
}

/// The change that maps each index.
#[derive(Clone, Copy)]
struct Remapped<'m, M>(&'m M);

impl<M: Remap> Change for Remapped<'_, M> {
    type Error = M::Error;

    ghost changes = { λ by s payload. (m : Mapping) → Follows (M.mapped by.0.now) (M.rejects by.0.now) m → RemapsSection m s [] payload };

    ghost explains = { λ by. ExplainsSection (M.mapped by.0.now) (M.rejects by.0.now) };

    fn payload<A: Allocator + Copy>(
        &self,
        section: &Section<'_, A>,
        alloc: A,
    ) -> Result<Vec<u8, A>, RemapError<M::Error>> {
        let mut payload = Vec::new(alloc);
        remap_section(section, alloc, self.0, &mut payload)?;
        Ok(payload)
    }

    ghost no_offsets = { λ it s offset h. h };
}

/// Returns a module with each index mapped.
///
/// Every section is decoded, and encoded again in its minimal form. Custom sections that hold
/// offsets would become wrong ([`Offsets`] lists them): with [`Offsets::Refuse`] such a section is
/// an error, whatever the map is, and with [`Offsets::LeaveOut`] it is left out. Other custom
/// sections stay.
///
/// A name is a use of its index. A map that rejects the index of an entity that was removed also
/// rejects its name: remove the name first.
///
/// # Errors
///
/// Returns `Read` if the bytes are no module or a section does not decode, `Index` with the error
/// of the map if it rejects an index, `Offsets` for a section that holds offsets, and `Refused` if
/// an encoding is too long or an allocation fails.
pub fn remap_module<A: Allocator + Copy, M: Remap>(
    bytes: &[u8],
    alloc: A,
    indices: &M,
    offsets: Offsets,
) -> Result<Vec<u8, A>, RemapError<M::Error>>
    ensures ok { IfOk result (λ new. RemapsModule (M.mapped indices.now) offsets bytes.now new.items) }
    ensures every { IfOk result (λ new. (m : Mapping) → Follows (M.mapped indices.now) (M.rejects indices.now) m → RemapsModule m offsets bytes.now new.items) }
    ensures why { IfErr result (λ e. ExplainsRemap (M.mapped indices.now) (M.rejects indices.now) offsets bytes.now e) }
{
    change_module(bytes, alloc, &Remapped(indices), offsets)
}
