// Minimizes modules.
ghost use Rattle.std.specs.Prelude.{◌≡◌, ◌≢◌, ◌++◌, ◌∷◌, [], ◌+◌, ◌<◌, ◌≤◌, ◌^◌, List, ℕ, Some, length, IfOk, IfErr, OnOk, OnErr};
ghost use Rattle.std.specs.Bool.{Decides};
ghost use Rattle.wasm_base.specs.Formats.{header};
ghost use Rattle.wasm_base.specs.declared.fault.ReadFault.TheVariants.{Memory};
ghost use Rattle.wasm_reader.specs.Outlines.{section_of, IsSection};
ghost use Rattle.wasm_reader.specs.Iterating.{ahead};
ghost use Rattle.wasm_reader.specs.Shortening.{
  ExplainsNoHeader,
  names_code_offsets,
  target_named,
  target_of,
  contains_offsets,
  IsLedInto,
  IsPlaced,
  IsEncodingFor,
  GainsSection,
  keeps,
  first_of,
  earlier,
  lost,
  leaves_out,
  lost_at,
  Rewrite,
  IsChange,
  AreMoved,
  size_before,
  size_after,
  HasFound,
  HasTally,
  Rewrites,
  StopsAfter,
  IsFrontOf,
  ShortensModule,
  Explains,
};

use crate::minimal::shorten_in;
use crate::modules::HEADER;
use crate::sections::{Section, Sections};
use crate::standing::Standing;
use std::alloc::{AllocError, Allocator};
use thiserror::Error;
use wasm_base::{ReadFault, Standard};

/// The treatment of custom sections that hold offsets.
///
/// These custom sections, known by their names, hold offsets
///
/// - into code and data: `linking`, `external_debug_info`, `build_id`, `.debug_*`, `.gdb_index`,
///   `.apple_*`, `metadata.code.*`;
/// - into any section that a relocation names: `reloc.*`;
/// - into code, from the first byte of the module: `sourceMappingURL`.
#[derive(Clone, Copy, PartialEq, Eq, Debug)]
pub enum Offsets {
    /// Returns an error for a module whose offsets might become wrong. With any of these sections,
    /// the code and data sections must keep their bytes. With `reloc.*`, so must each custom
    /// section. With `sourceMappingURL`, the length of the bytes before a code section must stay
    /// the same too.
    Refuse,
    /// Leaves these sections out.
    LeaveOut,
}

/// The cause of a failed minimization.
#[derive(Clone, Copy, PartialEq, Eq, Debug, Error)]
pub enum ModuleFault {
    /// The bytes at the section of this number, counted from 1, are not an id and a size-prefixed
    /// payload; 0 is the header. Or an allocation failed there.
    #[error("section {number}: {fault}")]
    Section { number: usize, fault: ReadFault },
    /// The section of this number, counted from 1, is the first that holds offsets which would
    /// become wrong.
    #[error("section {number}: its offsets would become wrong")]
    Offsets { number: usize },
}

/// The sections into which the offsets of a custom section point.
#[derive(Clone, Copy, PartialEq, Eq, Debug)]
pub(crate) enum Target {
    /// Code and data, from the start of a section.
    CodeAndData,
    /// Code, data and custom sections, from the start of a section.
    Relocated,
    /// Code, from the first byte of the module.
    Module,
}

/// The output for a section.
#[derive(Clone, Copy, PartialEq, Eq, Debug)]
pub(crate) enum How {
    /// Its minimal encoding.
    Minimal,
    /// Its unchanged bytes, which do not decode as its kind.
    Kept,
    /// No bytes: the section holds offsets.
    LeftOut,
}

/// Returns `true` if a custom section of this name holds offsets into code and data.
fn has_code_offsets(name: &str) -> bool
    ensures { result ≡ names_code_offsets name.now }
{
    let bytes = name.as_bytes();
    name == "linking"
        || name == "external_debug_info"
        || name == "build_id"
        || bytes.starts_with(b".debug_")
        || name == ".gdb_index"
        || bytes.starts_with(b".apple_")
        || bytes.starts_with(b"metadata.code.")
}

/// Returns the target of the offsets in a custom section of this name, or `None` if it holds none.
fn target_named(name: &str) -> Option<Target>
    ensures { result ≡ target_named name.now }
{
    if name.as_bytes().starts_with(b"reloc.") {
        Some(Target::Relocated)
    } else if name == "sourceMappingURL" {
        Some(Target::Module)
    } else if has_code_offsets(name) {
        Some(Target::CodeAndData)
    } else {
        None
    }
}

impl Target {
    /// Returns `true` if such offsets count from the start of a section of this id.
    fn leads_into(self, id: u8) -> bool
        ensures { Decides result (IsLedInto self id) }
    {
        match self {
            Target::CodeAndData | Target::Module => id == 10 || id == 11,
            Target::Relocated => id == 10 || id == 11 || id == 0,
        }
    }

    /// Returns `true` if such offsets count from the first byte of the module, into a section of
    /// this id.
    fn leads_to_place(self, id: u8) -> bool
        ensures { Decides result (IsPlaced self id) }
    {
        match self {
            Target::CodeAndData | Target::Relocated => false,
            Target::Module => id == 10,
        }
    }

    /// Returns `true` if such offsets into a section of this id become wrong. `is_changed` says
    /// whether its bytes change, and `is_level` whether the output before it is as long as the
    /// input before it.
    fn loses(self, id: u8, is_changed: bool, is_level: bool) -> bool
        ensures { AreMoved result self id is_changed is_level }
    {
        (is_changed && self.leads_into(id)) || (!is_level && self.leads_to_place(id))
    }
}

impl Standing<'_> {
    /// Returns the target of its offsets by its name, or `None` if it holds none.
    fn target(&self) -> Option<Target>
        ensures { result ≡ target_of (section_of self.now).name }
    {
        match self.name {
            Some(name) => target_named(name),
            None => None,
        }
    }

    /// Returns `true` if its offsets point into this target.
    fn is_into(&self, target: Target) -> bool
        ensures { Decides result (target_of (section_of self.now).name ≡ Some target) }
    {
        match (self.target(), target) {
            (Some(Target::CodeAndData), Target::CodeAndData)
            | (Some(Target::Relocated), Target::Relocated)
            | (Some(Target::Module), Target::Module) => true,
            _ => false,
        }
    }
}

impl<A: Allocator + Copy> Section<'_, A> {
    /// Returns `true` if the section holds offsets into other sections, by its name: those that
    /// [`Offsets`] lists do.
    pub fn has_offsets(&self) -> bool
        ensures { result ≡ contains_offsets self.now.section.name }
    {
        self.standing().target().is_some()
    }
}

/// Appends the output for the section's size prefix and payload, unless the section is left out. On
/// an error, the sink is unchanged.
fn append_size_prefixed<A: Allocator + Copy, B: Allocator>(
    alloc: A,
    section: &Standing<'_>,
    sink: &mut Vec<u8, B>,
) -> Result<How, ReadFault>
    requires { IsSection (section_of section.now) }
    ensures ok { IfOk result (λ how. (encoding : List ℕ) × IsEncodingFor how (section_of section.now) encoding × (sink.new.items ≡ sink.old.items ++ encoding)) }
    ensures err { OnErr result (sink.new.items ≡ sink.old.items) }
    ensures memory { IfErr result (λ e. e ≡ Memory) }
{
    match shorten_in::<A, Standard, _>(alloc, section.kind(), section.sized, sink) {
        Ok(_) => Ok(How::Minimal),
        Err(ReadFault::Memory) => Err(ReadFault::Memory),
        Err(_) => match sink.extend_from_slice(section.sized) {
            Ok(()) => Ok(How::Kept),
            Err(_) => Err(ReadFault::Memory),
        },
    }
}

/// Returns `true` if the section is left out.
fn is_left_out(section: &Standing<'_>, offsets: Offsets) -> bool
    ensures { result ≡ leaves_out offsets (contains_offsets (section_of section.now).name) }
{
    match offsets {
        Offsets::Refuse => false,
        Offsets::LeaveOut => section.target().is_some(),
    }
}

/// Returns `true` if the output differs from the section's size prefix and payload.
fn is_changed(section: &Standing<'_>, encoding: &[u8]) -> bool
    ensures { IsChange result (section_of section.now) encoding.now }
{
    encoding != section.sized
}

/// The output for a section, and whether it differs from the input.
#[derive(Clone, Copy)]
struct Written {
    how: How,
    is_changed: bool,
}

/// Appends the output for the section: its id, a size prefix and a payload. On an error, the sink
/// is unchanged.
fn append_section<A: Allocator + Copy, B: Allocator>(
    alloc: A,
    section: &Standing<'_>,
    offsets: Offsets,
    sink: &mut Vec<u8, B>,
) -> Result<Written, ReadFault>
    requires { IsSection (section_of section.now) }
    ensures ok { IfOk result (λ x. GainsSection offsets (section_of section.now) x.how x.is_changed sink.old.items sink.new.items) }
    ensures err { OnErr result (sink.new.items ≡ sink.old.items) }
    ensures memory { IfErr result (λ e. e ≡ Memory) }
{
    if is_left_out(section, offsets) {
        return Ok(Written {
            how: How::LeftOut,
            is_changed: is_changed(section, b""),
        });
    }
    let start = sink.len();
    sink.push(section.id)?;
    match append_size_prefixed(alloc, section, sink) {
        Ok(how) => {
            let is_changed = is_changed(section, &sink[start + 1..]);
            Ok(Written { how, is_changed })
        }
        Err(fault) => {
            sink.truncate(start);
            Err(fault)
        }
    }
}

/// The state of offsets of one class.
#[derive(Clone, Copy)]
struct Found {
    /// The number of the first section that holds such offsets, counted from 1.
    holder: Option<usize>,
    /// Whether a section into which they point moves.
    is_moved: bool,
}

/// The state after some sections were written.
#[derive(Clone, Copy)]
struct Tally {
    sections: usize,
    kept: usize,
    code_and_data: Found,
    relocated: Found,
    in_module: Found,
}

/// The state of a class before any section.
const NONE_FOUND: Found = Found {
    holder: None,
    is_moved: false,
};

/// The state before any section.
const NOTHING: Tally = Tally {
    sections: 0,
    kept: 0,
    code_and_data: NONE_FOUND,
    relocated: NONE_FOUND,
    in_module: NONE_FOUND,
};

impl How {
    /// Returns 1 if a section is kept, and 0 otherwise.
    fn keeps(self) -> usize
        ensures value { result ≡ keeps self }
        ensures bound { result ≤ 1 }
    {
        match self {
            How::Kept => 1,
            How::Minimal | How::LeftOut => 0,
        }
    }
}

/// Returns `found` if it is some, and otherwise this number if the section is such a holder.
fn first_holder(found: Option<usize>, is_such: bool, number: usize) -> Option<usize>
    ensures { result ≡ first_of found is_such number }
{
    match found {
        Some(found) => Some(found),
        None if is_such => Some(number),
        None => None,
    }
}

/// Returns the lesser number.
fn earlier(a: Option<usize>, b: Option<usize>) -> Option<usize>
    ensures { result ≡ earlier a b }
{
    match (a, b) {
        (Some(first), Some(second)) => Some(first.min(second)),
        (Some(number), None) | (None, Some(number)) => Some(number),
        (None, None) => None,
    }
}

impl Found {
    /// Adds one more section, of this number.
    fn and(
        self,
        target: Target,
        section: &Standing<'_>,
        is_changed: bool,
        is_level: bool,
        number: usize,
    ) -> Found
        ensures { (ws : List Rewrite) (w : Rewrite) → HasFound target ws self → length ws + 1 ≡ number → section_of section.now ≡ w.section → IsChange is_changed w.section w.encoding → Decides is_level (size_before ws ≡ size_after ws) → HasFound target (ws ++ w ∷ []) result }
    {
        let loses = target.loses(section.id, is_changed, is_level);
        Found {
            holder: first_holder(self.holder, section.is_into(target), number),
            is_moved: self.is_moved || loses,
        }
    }

    /// Returns the number of the first section whose offsets become wrong.
    fn lost(self) -> Option<usize>
        ensures { result ≡ lost self }
    {
        if self.is_moved { self.holder } else { None }
    }
}

impl Tally {
    /// Adds one more section. `is_level` says whether the output before it is as long as the input
    /// before it.
    fn and(self, section: &Standing<'_>, written: Written, is_level: bool) -> Tally
        requires { self.sections + 1 < 2 ^ 64 × self.kept ≤ self.sections }
        ensures tallied { (ws : List Rewrite) (w : Rewrite) → HasTally ws self → section_of section.now ≡ w.section → written.how ≡ w.how → IsChange written.is_changed w.section w.encoding → Decides is_level (size_before ws ≡ size_after ws) → HasTally (ws ++ w ∷ []) result }
        ensures kept { result.kept ≤ result.sections }
    {
        let sections = self.sections + 1;
        let is_changed = written.is_changed;
        let code = Target::CodeAndData;
        let relocated = Target::Relocated;
        let module = Target::Module;
        Tally {
            sections,
            kept: self.kept + written.how.keeps(),
            code_and_data: self
                .code_and_data
                .and(code, section, is_changed, is_level, sections),
            relocated: self
                .relocated
                .and(relocated, section, is_changed, is_level, sections),
            in_module: self
                .in_module
                .and(module, section, is_changed, is_level, sections),
        }
    }

    /// Returns the number of the first section whose offsets become wrong, if that is an error.
    fn lost_at(self, offsets: Offsets) -> Option<usize>
        ensures { result ≡ lost_at offsets self }
    {
        match offsets {
            Offsets::Refuse => earlier(
                self.code_and_data.lost(),
                earlier(self.relocated.lost(), self.in_module.lost()),
            ),
            Offsets::LeaveOut => None,
        }
    }
}

/// Returns `true` if the numbers are equal.
fn is_same(a: usize, b: usize) -> bool
    ensures { Decides result (a ≡ b) }
{
    a == b
}

/// Appends the output for the sections, one after the other. An error has the number of its
/// section, counted from 1. After an error, the old bytes are still the front of the sink.
fn append_sections<A: Allocator + Copy, B: Allocator>(
    alloc: A,
    mut sections: Sections<'_, A>,
    offsets: Offsets,
    sink: &mut Vec<u8, B>,
) -> Result<Tally, (usize, ReadFault)>
    requires { length (ahead sections) < 2 ^ 64 }
    ensures ok { IfOk result (λ tally. Rewrites offsets (ahead sections.entry) [] sink.old.items sink.new.items tally) }
    ensures front { IsFrontOf sink.old.items sink.new.items }
    ensures none { IfErr result (λ e. e.1 ≢ Memory → StopsAfter (ahead sections.entry) e.0) }
    ensures counted { IfErr result (λ e. e.0 ≢ 0) }
{
    let first = sections.offset();
    let start = sink.len();
    let mut tally = NOTHING;
    loop {
        let section = match sections.next() {
            None => return Ok(tally),
            Some(Ok(section)) => section,
            Some(Err(error)) => return Err((tally.sections + 1, error.cause)),
        };
        let number = tally.sections + 1;
        let is_level = is_same(section.offset() - first, sink.len() - start);
        let written = match append_section(alloc, section.standing(), offsets, sink) {
            Ok(written) => written,
            Err(fault) => return Err((number, fault)),
        };
        tally = tally.and(section.standing(), written, is_level);
    }
}

/// Reserves capacity for `spare` bytes, and appends the header as the first of them.
fn begin_module<A: Allocator>(spare: usize, sink: &mut Vec<u8, A>) -> Result<(), AllocError>
    ensures ok { OnOk result (sink.new.items ≡ sink.old.items ++ header) }
    ensures err { OnErr result (sink.new.items ≡ sink.old.items) }
{
    sink.reserve(spare)?;
    sink.extend_from_slice(&HEADER)
}

/// Appends the module for [`shorten_module`]. After an error, the old bytes are still the front of
/// the sink.
fn append_module<A: Allocator + Copy, B: Allocator>(
    alloc: A,
    bytes: &[u8],
    offsets: Offsets,
    sink: &mut Vec<u8, B>,
) -> Result<usize, ModuleFault>
    ensures ok { IfOk result (λ kept. ShortensModule offsets bytes.now kept sink.old.items sink.new.items) }
    ensures front { IsFrontOf sink.old.items sink.new.items }
    ensures why { IfErr result (λ fault. Explains offsets bytes.now fault) }
    ensures header { IfErr result (λ fault. ExplainsNoHeader bytes.now fault) }
{
    let sections = match Sections::new(alloc, bytes) {
        Ok(sections) => sections,
        Err(error) => {
            return Err(ModuleFault::Section {
                number: 0,
                fault: error.cause,
            });
        }
    };
    match begin_module(bytes.len(), sink) {
        Ok(()) => {}
        Err(_) => {
            return Err(ModuleFault::Section {
                number: 0,
                fault: ReadFault::Memory,
            });
        }
    }
    let tally = match append_sections(alloc, sections, offsets, sink) {
        Ok(tally) => tally,
        Err((number, fault)) => return Err(ModuleFault::Section { number, fault }),
    };
    match tally.lost_at(offsets) {
        Some(number) => Err(ModuleFault::Offsets { number }),
        None => Ok(tally.kept),
    }
}

/// Appends the module with each section in its minimal encoding, and returns the number of sections
/// that are kept unchanged, because they do not decode as their kinds. The name of a custom section
/// selects its kind. On an error, the sink is unchanged.
///
/// When a section becomes shorter, its items and the sections after it move. `offsets` selects the
/// treatment of custom sections that hold offsets. Either a module whose offsets might become wrong
/// is an error ([`Offsets::Refuse`]), or these sections are left out ([`Offsets::LeaveOut`]). A
/// minimized module can always be minimized again, unless an allocation fails. Decoded items are in
/// memory of the allocator.
///
/// ```text
/// let kept = shorten_module(alloc, bytes, Offsets::Refuse, &mut sink)?;
/// ```
///
/// # Errors
///
/// Returns the number of the section that failed, and the cause: see [`ModuleFault`].
pub fn shorten_module<A: Allocator + Copy, B: Allocator>(
    alloc: A,
    bytes: &[u8],
    offsets: Offsets,
    sink: &mut Vec<u8, B>,
) -> Result<usize, ModuleFault>
    ensures ok { IfOk result (λ kept. ShortensModule offsets bytes.now kept sink.old.items sink.new.items) }
    ensures err { OnErr result (sink.new.items ≡ sink.old.items) }
    ensures why { IfErr result (λ fault. Explains offsets bytes.now fault) }
    ensures header { IfErr result (λ fault. ExplainsNoHeader bytes.now fault) }
{
    let start = sink.len();
    let shortened = append_module(alloc, bytes, offsets, sink);
    if shortened.is_err() {
        sink.truncate(start);
    }
    shortened
}
