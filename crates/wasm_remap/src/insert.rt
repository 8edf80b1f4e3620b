// Sections that are inserted into a module.
ghost use Rattle.std.specs.Prelude.{◌≡◌, ◌≢◌, ℕ, List, ◌++◌, Err, IfOk, IfErr, OnOk};
ghost use Rattle.wasm_base.specs.Words.{u32, unsigned_encoding, standard, wasm_module, Decodes, DecodesWhole, Rejects};
ghost use Rattle.wasm_base.specs.declared.fault.ReadFault.TheVariants.{Memory};
ghost use Rattle.wasm_base.specs.declared.refused.Refused.TheVariants.{TooLong};
ghost use Rattle.wasm_remap.specs.Errors.{ExplainsInsert, ExplainsJoin};
ghost use Rattle.wasm_remap.specs.Inserted.{InsertsSection, IsJoined, between, is_number, joined_lists};
ghost use Rattle.wasm_remap.specs.Places.{sections_in};
ghost use Rattle.wasm_remap.specs.declared.insert.Position.TheVariants.{Instead};

use crate::indexed::RemapError;
use crate::places::{append_copies, found, place_of, rank, sections_of};
use crate::shift::IndexTooLarge;
use std::alloc::Allocator;
use wasm_base::{Encode, Module, RawSection, Readable, Refused, Section as NewSection, Standard};
use wasm_reader::{ReadError, Section};

/// Where members are inserted in a section of the same id.
#[derive(Clone, Copy, PartialEq, Eq, Debug)]
pub enum Position {
    /// Before the old members.
    First,
    /// After the old members.
    Last,
    /// In place of the old members.
    Instead,
}

/// Returns `true` if the payload of a section of this id is one number.
fn is_number(id: u8) -> bool
    ensures { result ≡ is_number id }
{
    id == 8 || id == 12
}

/// Returns the number at the front, and the remaining bytes.
fn counted<A: Allocator + Copy>(
    bytes: &[u8],
    alloc: A,
    offset: usize,
) -> Result<(u32, &[u8]), ReadError>
    ensures ok { IfOk result (λ x. Decodes u32 standard bytes.now x.0 x.1.now) }
    ensures none { IfErr result (λ e. e.cause ≢ Memory → Rejects u32 standard bytes.now) }
{
    match <u32 as Readable<'_, A, Standard>>::read(bytes, alloc) {
        Ok(counted) => Ok(counted),
        Err(error) => Err(ReadError {
            cause: error.cause(),
            offset,
        }),
    }
}

/// Returns a list of this count, whose members are those of two lists.
fn list_of<A: Allocator>(
    count: u32,
    front: &[u8],
    back: &[u8],
    alloc: A,
) -> Result<Vec<u8, A>, Refused>
    ensures ok { IfOk result (λ list. list.items ≡ unsigned_encoding count ++ (front.now ++ back.now)) }
    ensures memory { result ≢ Err TooLong }
{
    let mut list = Vec::new(alloc);
    count.encode(&mut list)?;
    list.extend_from_slice(front)?;
    list.extend_from_slice(back)?;
    Ok(list)
}

/// Returns new members and old ones in their order in a list.
fn in_order<'a>(position: Position, new: &'a [u8], old: &'a [u8]) -> (&'a [u8], &'a [u8])
    ensures { position ≢ Instead → result.0.now ++ result.1.now ≡ joined_lists position new.entry.now old.entry.now }
{
    match position {
        Position::First => (new, old),
        _ => (old, new),
    }
}

/// Returns the payload of a list of the members of a new section and an old one. If the new section
/// does not begin with a count, the error has this offset.
fn joined<S: NewSection, A: Allocator + Copy>(
    position: Position,
    new: &S,
    old: &Section<'_, A>,
    offset: usize,
    alloc: A,
) -> Result<Vec<u8, A>, RemapError<IndexTooLarge>>
    ensures joins { position ≢ Instead → IfOk result (λ payload. (added : List ℕ) → S.payload new.now added → IsJoined position added old.now.section.payload payload.items) }
    ensures fits { OnOk result (S.encodable new.now) }
    ensures why { (added : List ℕ) → S.payload new.now added → IfErr result (λ e. ExplainsJoin (S.encodable new.now) added old.now.section.payload e) }
{
    let mut encoding = Vec::new(alloc);
    new.encode(&mut encoding)?;
    let (_size, payload) = counted(&encoding, alloc, offset)?;
    let (new_count, new_members) = counted(payload, alloc, offset)?;
    let (old_count, old_members) = counted(old.payload(), alloc, old.offset())?;
    let Some(count) = new_count.checked_add(old_count) else {
        return Err(Refused::TooLong.into());
    };
    let (front, back) = in_order(position, new_members, old_members);
    Ok(list_of(count, front, back, alloc)?)
}

/// Returns a module of copies of sections, with a section between them.
pub(crate) fn module_of<S: NewSection, A: Allocator + Copy>(
    before: &[Section<'_, A>],
    section: &S,
    after: &[Section<'_, A>],
    alloc: A,
) -> Result<Vec<u8, A>, Refused>
    ensures read { IfOk result (λ new. (payload : List ℕ) → S.payload section.now payload → DecodesWhole wasm_module new.items (between (sections_in before.now) (S.id_of section.now) payload (sections_in after.now))) }
    ensures fits { OnOk result (S.encodable section.now) }
    ensures too_long { S.encodable section.now → result ≢ Err TooLong }
{
    let mut module = Module::new(alloc)?;
    append_copies(before, &mut module)?;
    module.section(section)?;
    append_copies(after, &mut module)?;
    Ok(module.finish())
}

/// Inserts a section into a module, and returns the new module.
///
/// If the module has a section of the same id, `First` and `Last` add the new members before or
/// after those of the first such section, and `Instead` replaces its payload. The start function
/// and the data count are no lists, and are replaced. If there is no such section, the new one is
/// inserted as it is: behind the last section that comes before it in the standard's order. If
/// there is none, it is behind the leading custom sections. A custom section, or one of an id that
/// the standard lacks, becomes the last section.
///
/// All other sections keep their payloads. No index is mapped: before you insert entities in front
/// of others, map the module with `remap_module` and a `Shift`. The data count stays when data
/// segments are added. So do offsets and numbers of sections in custom sections, which become
/// wrong:
/// [`Section::has_offsets`] finds these.
///
/// ```text
/// let mut globals = GlobalSection::new(alloc);
/// globals.global(counter, &ConstExpr::i32_const(alloc, 0)?)?;
/// let module = insert_section(bytes, alloc, &globals, Position::Last)?;
/// ```
///
/// # Errors
///
/// Returns `Read` if the bytes are no module. If members are added, it also returns `Read` if the
/// old section or the new one does not begin with a count. Of the new one, the offset is the
/// module's length. Returns `Refused` if a count or a section is too long or an allocation fails.
pub fn insert_section<S: NewSection, A: Allocator + Copy>(
    bytes: &[u8],
    alloc: A,
    section: &S,
    position: Position,
) -> Result<Vec<u8, A>, RemapError<IndexTooLarge>>
    ensures inserts { IfOk result (λ edited. (payload : List ℕ) → S.payload section.now payload → InsertsSection position (S.id_of section.now) payload bytes.now edited.items) }
    ensures fits { OnOk result (S.encodable section.now) }
    ensures why { (payload : List ℕ) → S.payload section.now payload → IfErr result (λ e. ExplainsInsert position (S.id_of section.now) (S.encodable section.now) payload bytes.now e) }
{
    let sections = sections_of(bytes, alloc)?;
    let id = section.id();
    if rank(id) == 0 {
        let (before, after) = sections.split_at(sections.len());
        return Ok(module_of(before, section, after, alloc)?);
    }
    let Some((before, old, after)) = found(&sections, id) else {
        let (before, after) = sections.split_at(place_of(&sections, id));
        return Ok(module_of(before, section, after, alloc)?);
    };
    if position == Position::Instead || is_number(id) {
        return Ok(module_of(before, section, after, alloc)?);
    }
    let payload = joined(position, section, old, bytes.len(), alloc)?;
    let section = RawSection {
        id,
        bytes: &payload,
    };
    Ok(module_of(before, &section, after, alloc)?)
}
