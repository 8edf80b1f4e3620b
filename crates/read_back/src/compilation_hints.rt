//! Compilation hints, written and read back: instruction frequencies, compilation orders and call
//! targets.
ghost use Rattle.std.specs.Prelude.{◌≡◌, ◌≢◌, [], IfOk, IfErr, OnOk};
ghost use Rattle.wasm_base.specs.Formats.{size_prefixed};
ghost use Rattle.wasm_base.specs.Modules.{GainsDecoding};
ghost use Rattle.wasm_base.specs.declared.fault.ReadFault.TheVariants.{Memory};
ghost use Rattle.wasm_custom.specs.CodeMetadata.{call_targets_payload, frequencies_payload, orders_payload};
ghost use Rattle.wasm_reader.specs.Kinds.{CallTargets, CompilationOrders, InstructionFrequencies, contents_of};
ghost use Rattle.read_back.specs.CompilationHints.{frequent, ordered, targeted};

use crate::read_and_shorten;
use std::alloc::Allocator;
use wasm_base::{Encode, ReadFault, Result};
use wasm_custom::{
    CallTarget, CallTargets, CodeHint, CompilationOrder, CompilationOrders, InstructionFrequencies,
    InstructionFrequency,
};
use wasm_reader::{Items, SectionKind};

/// Appends a section of instruction frequencies.
fn write_frequencies<A: Allocator + Copy>(sink: &mut Vec<u8, A>, index: u32) -> Result<()>
    ensures { OnOk result (GainsDecoding (size_prefixed frequencies_payload) (frequent index) sink.old.items sink.new.items) }
{
    let hint = CodeHint {
        offset: 3,
        value: InstructionFrequency(32),
    };
    let mut section = InstructionFrequencies::new(*sink.allocator());
    section.function_hints(index, [hint])?;
    section.encode(sink)
}

/// Decodes that section of instruction frequencies, and appends its minimal encoding.
pub fn read_frequencies<'a, A: Allocator + Copy + 'a>(
    encoding: &'a mut Vec<u8, A>,
    index: u32,
    sink: &mut Vec<u8, A>,
) -> Result<Items<'a, A>, ReadFault>
    requires { encoding.old.items ≡ [] }
    ensures read { IfOk result (λ items. contents_of items ≡ InstructionFrequencies (frequent index)) }
    ensures same { OnOk result (GainsDecoding (size_prefixed frequencies_payload) (frequent index) sink.old.items sink.new.items) }
    ensures memory { IfErr result (λ e. e ≢ Memory → ⊥) }
{
    write_frequencies(encoding, index)?;
    let items = read_and_shorten(SectionKind::InstructionFrequencies, encoding, sink)?;
    Ok(items)
}

/// Appends a section of compilation orders.
fn write_orders<A: Allocator + Copy>(sink: &mut Vec<u8, A>, index: u32) -> Result<()>
    ensures { OnOk result (GainsDecoding (size_prefixed orders_payload) (ordered index) sink.old.items sink.new.items) }
{
    let value = CompilationOrder {
        order: 1,
        hotness: Some(5),
    };
    let mut section = CompilationOrders::new(*sink.allocator());
    section.function_hints(index, [CodeHint { offset: 0, value }])?;
    section.encode(sink)
}

/// Decodes that section of compilation orders, and appends its minimal encoding.
pub fn read_orders<'a, A: Allocator + Copy + 'a>(
    encoding: &'a mut Vec<u8, A>,
    index: u32,
    sink: &mut Vec<u8, A>,
) -> Result<Items<'a, A>, ReadFault>
    requires { encoding.old.items ≡ [] }
    ensures read { IfOk result (λ items. contents_of items ≡ CompilationOrders (ordered index)) }
    ensures same { OnOk result (GainsDecoding (size_prefixed orders_payload) (ordered index) sink.old.items sink.new.items) }
    ensures memory { IfErr result (λ e. e ≢ Memory → ⊥) }
{
    write_orders(encoding, index)?;
    let items = read_and_shorten(SectionKind::CompilationOrders, encoding, sink)?;
    Ok(items)
}

/// Appends a section of call targets.
fn write_call_targets(sink: &mut Vec<u8>, index: u32) -> Result<()>
    ensures { OnOk result (GainsDecoding (size_prefixed call_targets_payload) (targeted index) sink.old.items sink.new.items) }
{
    let target = CallTarget {
        function_index: index,
        percent: 90,
    };
    let value = Vec::from_slice(*sink.allocator(), &[target])?;
    let mut section = CallTargets::new(*sink.allocator());
    section.function_hints(0, [CodeHint { offset: 5, value }])?;
    section.encode(sink)
}

/// Decodes that section of call targets, and appends its minimal encoding.
pub fn read_call_targets<'a>(
    encoding: &'a mut Vec<u8>,
    index: u32,
    sink: &mut Vec<u8>,
) -> Result<Items<'a>, ReadFault>
    requires { encoding.old.items ≡ [] }
    ensures read { IfOk result (λ items. contents_of items ≡ CallTargets (targeted index)) }
    ensures same { OnOk result (GainsDecoding (size_prefixed call_targets_payload) (targeted index) sink.old.items sink.new.items) }
    ensures memory { IfErr result (λ e. e ≢ Memory → ⊥) }
{
    write_call_targets(encoding, index)?;
    let items = read_and_shorten(SectionKind::CallTargets, encoding, sink)?;
    Ok(items)
}
