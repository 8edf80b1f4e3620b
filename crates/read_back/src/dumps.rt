//! Core dumps, written and read back: the process, its modules, its instances, and the stack of a
//! thread.
ghost use Rattle.std.specs.Prelude.{◌≡◌, ◌≢◌, [], ◌∷◌, IfOk, IfErr, OnOk, codes};
ghost use Rattle.wasm_base.specs.Formats.{size_prefixed};
ghost use Rattle.wasm_base.specs.Modules.{GainsDecoding, DecodesSections};
ghost use Rattle.wasm_custom.specs.CoreStacks.{SaysStack, stack_payload};
ghost use Rattle.wasm_custom.specs.CoreDumps.{ContainsModules, ContainsInstances, core_payload, modules_payload, instances_payload};
ghost use Rattle.wasm_base.specs.declared.fault.ReadFault.TheVariants.{Memory};
ghost use Rattle.read_back.specs.Dumps.{first_instance, other_instance, first_frame, other_frame, dump_sections};
ghost use Rattle.wasm_reader.specs.Kinds.{Core, CoreModules, CoreInstances, CoreStack, contents_of};

use crate::read_and_shorten;
use std::alloc::Allocator;
use wasm_base::{Encode, Module, ReadFault, Result};
use wasm_custom::{
    CoreDumpInstancesSection, CoreDumpModulesSection, CoreDumpSection, CoreDumpStackSection,
    CoreDumpValue,
};
use wasm_reader::{Items, SectionKind};

/// Appends the section of a process.
fn write_process<A: Allocator + Copy>(sink: &mut Vec<u8, A>, name: &str) -> Result<()>
    ensures { OnOk result (GainsDecoding (size_prefixed core_payload) name.now sink.old.items sink.new.items) }
{
    let section = CoreDumpSection::new(*sink.allocator(), name)?;
    section.encode(sink)
}

/// Decodes the section of that process, and appends its minimal encoding.
pub fn read_process<'a, A: Allocator + Copy + 'a>(
    encoding: &'a mut Vec<u8, A>,
    name: &str,
    sink: &mut Vec<u8, A>,
) -> Result<Items<'a, A>, ReadFault>
    requires { encoding.old.items ≡ [] }
    ensures read { IfOk result (λ items. contents_of items ≡ Core name.now) }
    ensures same { OnOk result (GainsDecoding (size_prefixed core_payload) name.now sink.old.items sink.new.items) }
    ensures memory { IfErr result (λ e. e ≢ Memory → ⊥) }
{
    write_process(encoding, name)?;
    let items = read_and_shorten(SectionKind::Core, encoding, sink)?;
    Ok(items)
}

/// Returns two modules: `main`, and one of this name.
fn modules<A: Allocator + Copy>(alloc: A, name: &str) -> Result<CoreDumpModulesSection<A>>
    ensures { IfOk result (λ section. ContainsModules section (codes "main" ∷ name.now ∷ [])) }
{
    let mut section = CoreDumpModulesSection::new(alloc);
    section.module("main")?;
    section.module(name)?;
    Ok(section)
}

/// Appends the section of these modules.
fn write_modules<A: Allocator + Copy>(sink: &mut Vec<u8, A>, name: &str) -> Result<()>
    ensures { OnOk result (GainsDecoding (size_prefixed modules_payload) (codes "main" ∷ name.now ∷ []) sink.old.items sink.new.items) }
{
    let section = modules(*sink.allocator(), name)?;
    section.encode(sink)
}

/// Decodes the section of those modules, and appends its minimal encoding.
pub fn read_modules<'a, A: Allocator + Copy + 'a>(
    encoding: &'a mut Vec<u8, A>,
    name: &str,
    sink: &mut Vec<u8, A>,
) -> Result<Items<'a, A>, ReadFault>
    requires { encoding.old.items ≡ [] }
    ensures read { IfOk result (λ items. contents_of items ≡ CoreModules (codes "main" ∷ name.now ∷ [])) }
    ensures same { OnOk result (GainsDecoding (size_prefixed modules_payload) (codes "main" ∷ name.now ∷ []) sink.old.items sink.new.items) }
    ensures memory { IfErr result (λ e. e ≢ Memory → ⊥) }
{
    write_modules(encoding, name)?;
    let items = read_and_shorten(SectionKind::CoreModules, encoding, sink)?;
    Ok(items)
}

/// Returns two instances: of arrays, and of a vector and a slice.
#[tactic(auto, using(wasm_base::proofs::KnownLengths::drained_array, wasm_base::proofs::KnownLengths::drained_vec, wasm_base::proofs::KnownLengths::drained_copied))]
fn instances<A: Allocator + Copy>(alloc: A, index: u32) -> Result<CoreDumpInstancesSection<A>>
    ensures { IfOk result (λ section. ContainsInstances section (first_instance ∷ other_instance index (7 ∷ []) ∷ [])) }
{
    let memories = Vec::from_slice(alloc, &[1u32])?;
    let globals = [7u32];
    let mut section = CoreDumpInstancesSection::new(alloc);
    section.instance(0, [0u32], [0u32, 1])?;
    section.instance(index, memories, globals.iter().copied())?;
    Ok(section)
}

/// Appends the section of these instances.
fn write_instances<A: Allocator + Copy>(sink: &mut Vec<u8, A>, index: u32) -> Result<()>
    ensures { OnOk result (GainsDecoding (size_prefixed instances_payload) (first_instance ∷ other_instance index (7 ∷ []) ∷ []) sink.old.items sink.new.items) }
{
    let section = instances(*sink.allocator(), index)?;
    section.encode(sink)
}

/// Decodes the section of those instances, and appends its minimal encoding.
pub fn read_instances<'a, A: Allocator + Copy + 'a>(
    encoding: &'a mut Vec<u8, A>,
    index: u32,
    sink: &mut Vec<u8, A>,
) -> Result<Items<'a, A>, ReadFault>
    requires { encoding.old.items ≡ [] }
    ensures read { IfOk result (λ items. contents_of items ≡ CoreInstances (first_instance ∷ other_instance index (7 ∷ []) ∷ [])) }
    ensures same { OnOk result (GainsDecoding (size_prefixed instances_payload) (first_instance ∷ other_instance index (7 ∷ []) ∷ []) sink.old.items sink.new.items) }
    ensures memory { IfErr result (λ e. e ≢ Memory → ⊥) }
{
    write_instances(encoding, index)?;
    let items = read_and_shorten(SectionKind::CoreInstances, encoding, sink)?;
    Ok(items)
}

/// Returns the stack of a thread: two frames, of arrays, and of a slice.
#[tactic(auto, using(wasm_base::proofs::KnownLengths::drained_array, wasm_base::proofs::KnownLengths::drained_copied))]
fn stack<A: Allocator + Copy>(alloc: A, name: &str, offset: u32) -> Result<CoreDumpStackSection<A>>
    ensures { IfOk result (λ section. SaysStack section.0 section.1 (name.now, first_frame ∷ other_frame offset ∷ [])) }
{
    let locals = [CoreDumpValue::I32(5)];
    let mut section = CoreDumpStackSection::new(alloc, name)?;
    section.frame(0, 1, 2, [CoreDumpValue::Missing], [CoreDumpValue::I32(5)])?;
    section.frame(0, 0, offset, locals.iter().copied(), [])?;
    Ok(section)
}

/// Appends the section of this stack.
fn write_stack<A: Allocator + Copy>(sink: &mut Vec<u8, A>, name: &str, offset: u32) -> Result<()>
    ensures { OnOk result (GainsDecoding (size_prefixed stack_payload) (name.now, first_frame ∷ other_frame offset ∷ []) sink.old.items sink.new.items) }
{
    let section = stack(*sink.allocator(), name, offset)?;
    section.encode(sink)
}

/// Decodes the section of that stack, and appends its minimal encoding.
pub fn read_stack<'a, A: Allocator + Copy + 'a>(
    encoding: &'a mut Vec<u8, A>,
    name: &str,
    offset: u32,
    sink: &mut Vec<u8, A>,
) -> Result<Items<'a, A>, ReadFault>
    requires { encoding.old.items ≡ [] }
    ensures read { IfOk result (λ items. contents_of items ≡ CoreStack (name.now, first_frame ∷ other_frame offset ∷ [])) }
    ensures same { OnOk result (GainsDecoding (size_prefixed stack_payload) (name.now, first_frame ∷ other_frame offset ∷ []) sink.old.items sink.new.items) }
    ensures memory { IfErr result (λ e. e ≢ Memory → ⊥) }
{
    write_stack(encoding, name, offset)?;
    let items = read_and_shorten(SectionKind::CoreStack, encoding, sink)?;
    Ok(items)
}

/// Returns a core dump: a module of these four sections.
pub fn core_dump<A: Allocator + Copy>(alloc: A, name: &str, index: u32) -> Result<Vec<u8, A>>
    ensures { IfOk result (λ bytes. DecodesSections (dump_sections name.now index) bytes.items) }
{
    let mut dump = Module::new(alloc)?;
    dump.section(&CoreDumpSection::new(alloc, name)?)?;
    dump.section(&modules(alloc, name)?)?;
    dump.section(&instances(alloc, index)?)?;
    dump.section(&stack(alloc, name, index)?)?;
    Ok(dump.finish())
}
