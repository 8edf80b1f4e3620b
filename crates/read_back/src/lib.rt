//! Callers of the reader, which prove its result: for each kind of section that a builder writes,
//! for sections with padded LEB128, for sections that are built from arguments, and for the
//! sections of a module one by one.
#![tactic(auto, using(wasm_base::proofs::KnownLengths::drained_array))]

ghost use Rattle.std.specs.Prelude.{◌≡◌, ◌≢◌, ◌⊎◌, ◌≤◌, ◌++◌, [], ◌∷◌, ℕ, List, length, IfOk, IfErr, OnOk, OnErr};
ghost use Rattle.wasm_base.specs.Entries.{counted_format};
ghost use Rattle.wasm_base.specs.Formats.{u32 as u32_format, size_prefixed, wasm_module};
ghost use Rattle.wasm_base.specs.Modules.{GainsDecoding};
ghost use Rattle.wasm_custom.specs.Names.{Module, Map, name_payload};
ghost use Rattle.wasm_base.specs.declared.fault.ReadFault.TheVariants.{Memory};
ghost use Rattle.wasm_base.specs.Numbers.{padded};
ghost use Rattle.wasm_base.specs.Decoding.{Decodes, Rejects};
ghost use Rattle.wasm_reader.specs.Kinds.{Functions, Names, contents_of};
ghost use Rattle.wasm_reader.specs.Sections.{section, Takes, Shortens};
ghost use Rattle.wasm_reader.specs.Shortening.{Explains, IsMemory, ShortensModule};
ghost use Rattle.wasm_reader.specs.declared.kinds.SectionKind.TheVariants as kinds;
ghost use Rattle.wasm_reader.specs.declared.whole.Offsets.TheVariants.{LeaveOut, Refuse};

pub mod compilation_hints;
pub mod custom;
pub mod debug_files;
pub mod declared;
pub mod dumps;
pub mod dylink;
pub mod first_values;
pub mod handed;
pub mod inserted;
pub mod instructions;
pub mod objects;
pub mod once;
pub mod padded;
pub mod relocations;
pub mod remapped;
pub mod removed;
pub mod sections;
pub mod stored;

use std::alloc::Allocator;
use wasm_base::{Encode, ReadFault, Result, Shorten};
use wasm_custom::{NameMap, NameSection};
use wasm_reader::{
    Items, ModuleFault, Offsets, SectionKind, laws, read_section, shorten, shorten_module,
};
use wasm_sections::FunctionSection;

/// Decodes the section of this kind in a buffer, and appends its minimal encoding to the sink.
pub(crate) fn read_and_shorten<'a, A: Allocator + Copy + 'a>(
    kind: SectionKind,
    encoding: &'a Vec<u8, A>,
    sink: &mut Vec<u8, A>,
) -> Result<Items<'a, A>, ReadFault>
    ensures found { IfOk result (λ items. (n : ℕ) × Takes kind encoding.now.items (contents_of items) n) }
    ensures shortened { OnOk result ((n : ℕ) × Shortens kind encoding.now.items n sink.old.items sink.new.items) }
    ensures err { OnErr result (sink.new.items ≡ sink.old.items) }
    ensures none { IfErr result (λ e. e ≢ Memory → Rejects (section kind) padded encoding.now.items) }
{
    let (items, _taken) = read_section(*encoding.allocator(), kind, encoding.as_slice())?;
    shorten(kind, encoding.as_slice(), sink)?;
    Ok(items)
}

/// Appends a function section of one function.
pub fn write_function<A: Allocator + Copy>(sink: &mut Vec<u8, A>, index: u32) -> Result<()>
    ensures { OnOk result (GainsDecoding (counted_format u32_format) (index ∷ []) sink.old.items sink.new.items) }
{
    let mut section = FunctionSection::new(*sink.allocator());
    section.function(index)?;
    section.encode(sink)
}

/// Writes a function section and decodes it: `Ok` holds the index that was added, and the only
/// error is `Memory`.
pub fn written_function<'a, A: Allocator + Copy + 'a>(
    encoding: &'a mut Vec<u8, A>,
    index: u32,
) -> Result<Items<'a, A>, ReadFault>
    requires { encoding.old.items ≡ [] }
    ensures read { IfOk result (λ items. contents_of items ≡ Functions (index ∷ [])) }
    ensures memory { IfErr result (λ e. e ≢ Memory → ⊥) }
{
    let alloc = *encoding.allocator();
    match write_function(encoding, index) {
        Ok(()) => {}
        Err(_) => return Err(ReadFault::Memory),
    }
    let (items, _taken) = read_section(alloc, SectionKind::Functions, encoding.as_slice())?;
    Ok(items)
}

/// Writes a function section and minimizes it: the output is that section again.
pub fn shortened_function<A: Allocator + Copy>(
    encoding: &mut Vec<u8, A>,
    index: u32,
    sink: &mut Vec<u8, A>,
) -> Result<usize, ReadFault>
    requires { encoding.old.items ≡ [] }
    ensures same { OnOk result (sink.new.items ≡ sink.old.items ++ encoding.new.items) }
    ensures err { OnErr result (sink.new.items ≡ sink.old.items) }
    ensures memory { IfErr result (λ e. e ≢ Memory → ⊥) }
{
    match write_function(encoding, index) {
        Ok(()) => {}
        Err(_) => return Err(ReadFault::Memory),
    }
    let taken = shorten(SectionKind::Functions, encoding.as_slice(), sink)?;
    Ok(taken)
}

/// Decodes and minimizes a padded encoding of a function section. The items are those that were
/// added, and the output is the section as it was written.
pub fn padded_function<'a, A: Allocator + Copy + 'a>(
    encoding: &mut Vec<u8, A>,
    index: u32,
    input: &'a [u8],
    sink: &mut Vec<u8, A>,
) -> Result<Items<'a, A>, ReadFault>
    requires { encoding.old.items ≡ [] }
    ensures read { IfOk result (λ items. (rest : List ℕ) → Decodes (section kinds.Functions) padded input.now (Functions (index ∷ [])) rest → contents_of items ≡ Functions (index ∷ [])) }
    ensures same { OnOk result ((rest : List ℕ) → Decodes (section kinds.Functions) padded input.now (Functions (index ∷ [])) rest → sink.new.items ≡ sink.old.items ++ encoding.new.items) }
    ensures memory { IfErr result (λ e. e ≢ Memory → (rest : List ℕ) → Decodes (section kinds.Functions) padded input.now (Functions (index ∷ [])) rest → ⊥) }
{
    let alloc = *encoding.allocator();
    match write_function(encoding, index) {
        Ok(()) => {}
        Err(_) => return Err(ReadFault::Memory),
    }
    let (items, _taken) = read_section(alloc, SectionKind::Functions, input)?;
    let _taken = shorten(SectionKind::Functions, input, sink)?;
    Ok(items)
}

/// Appends two decoded values. After an error, the bytes of the sink are unchanged.
pub fn both_or_neither<T: Shorten, U: Shorten, A: Allocator>(
    first: &T,
    second: &U,
    sink: &mut Vec<u8, A>,
) -> Result<()>
    ensures { OnErr result (sink.new.items ≡ sink.old.items) }
{
    let start = sink.len();
    first.append_minimal(sink)?;
    let appended = second.append_minimal(sink);
    if appended.is_err() {
        sink.truncate(start);
    }
    appended
}

/// Appends a name section: the names of the module and of its first function.
pub fn write_names<A: Allocator + Copy>(
    sink: &mut Vec<u8, A>,
    name: &str,
    function: &str,
) -> Result<()>
    ensures { OnOk result (GainsDecoding (size_prefixed name_payload) (Module name.now ∷ Map 1 ((0, function.now) ∷ []) ∷ []) sink.old.items sink.new.items) }
{
    let mut functions = NameMap::new(*sink.allocator());
    functions.append(0, function)?;
    let mut section = NameSection::new(*sink.allocator());
    section.module(name)?;
    section.functions(&functions)?;
    section.encode(sink)
}

/// Writes a name section and decodes it: `Ok` holds the names that were added, and the only error
/// is `Memory`.
pub fn written_names<'a, A: Allocator + Copy + 'a>(
    encoding: &'a mut Vec<u8, A>,
    name: &str,
    function: &str,
) -> Result<Items<'a, A>, ReadFault>
    requires { encoding.old.items ≡ [] }
    ensures read { IfOk result (λ items. contents_of items ≡ Names (Module name.now ∷ Map 1 ((0, function.now) ∷ []) ∷ [])) }
    ensures memory { IfErr result (λ e. e ≢ Memory → ⊥) }
{
    let alloc = *encoding.allocator();
    match write_names(encoding, name, function) {
        Ok(()) => {}
        Err(_) => return Err(ReadFault::Memory),
    }
    let (items, _taken) = read_section(alloc, SectionKind::Names, encoding.as_slice())?;
    Ok(items)
}

/// Minimizes a module into an empty buffer, which then holds the minimized module, no longer than
/// the input. After an error the buffer is empty.
#[tactic(auto, using(wasm_reader::proofs::Calls::module_comes, wasm_reader::proofs::Calls::module_no_longer))]
pub fn smaller_module<A: Allocator + Copy, B: Allocator>(
    alloc: A,
    bytes: &[u8],
    sink: &mut Vec<u8, B>,
) -> Result<usize, ModuleFault>
    requires { sink.old.items ≡ [] }
    ensures is_module { OnOk result ((sections : List (ℕ × List ℕ)) × wasm_module padded sink.new.items sections) }
    ensures no_longer { OnOk result (length sink.new.items ≤ length bytes.now) }
    ensures shortened { IfOk result (λ kept. ShortensModule Refuse bytes.now kept sink.old.items sink.new.items) }
    ensures err { OnErr result (sink.new.items ≡ []) }
{
    shorten_module(alloc, bytes, Offsets::Refuse, sink)
}

/// Minimizes a module, and then the output: both outputs are equal, and the second call fails only
/// if an allocation fails.
#[tactic(auto, using(wasm_reader::proofs::Calls::module_stays, wasm_reader::proofs::Calls::module_accepted))]
pub fn shortened_twice<A: Allocator + Copy>(
    alloc: A,
    bytes: &[u8],
    once: &mut Vec<u8, A>,
    twice: &mut Vec<u8, A>,
) -> Result<usize, ModuleFault>
    requires { once.old.items ≡ [] × twice.old.items ≡ [] }
    ensures same { OnOk result (twice.new.items ≡ once.new.items) }
    ensures accepted { IfErr result (λ fault. IsMemory fault ⊎ Explains LeaveOut bytes.now fault) }
{
    laws::shortened();
    shorten_module(alloc, bytes, Offsets::LeaveOut, once)?;
    shorten_module(alloc, once, Offsets::LeaveOut, twice)
}
