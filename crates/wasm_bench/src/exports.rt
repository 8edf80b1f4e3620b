// The workload of the export section.
ghost use Rattle.std.specs.Prelude.{◌≡◌, length, IfOk, OnErr};
ghost use Rattle.wasm_bench.specs.Answers.{CountedAnswer, Outcome};

use crate::answers::{Fault, answer, number};
use crate::kinds::export_kind_of;
use crate::names::Names;
use std::alloc::Global;
use wasm_sections::ExportSection;

/// Returns a section of exports, from the length of the name, the kind and the index of each.
fn build(
    alloc: Global,
    names: &[u8],
    lens: &[u32],
    kinds: &[u8],
    indices: &[u32],
) -> Result<ExportSection, Fault>
    ensures { IfOk result (λ section. length section ≡ length kinds.now) }
{
    if kinds.len() != lens.len() || indices.len() != lens.len() {
        return Err(Fault::WrongInput);
    }
    let mut rest = Names::new(names)?;
    let mut section = ExportSection::new(alloc);
    for i in 0..lens.len() {
        let name = rest.next(lens[i])?;
        section.export(name, export_kind_of(kinds[i])?, indices[i])?;
    }
    if rest.is_empty() {
        Ok(section)
    } else {
        Err(Fault::WrongInput)
    }
}

fn export_section(
    alloc: Global,
    names: &[u8],
    lens: &[u32],
    kinds: &[u8],
    indices: &[u32],
    phase: u32,
    out: &mut [u8],
) -> Result<u64, Fault>
    ensures ok { IfOk result (λ n. CountedAnswer 7 (length kinds.now) phase out.old out.new n) }
    ensures err { OnErr result (out.new ≡ out.old) }
{
    let section = build(alloc, names, lens, kinds, indices)?;
    answer(alloc, &section, phase, out)
}

/// Builds a section of exports. The names lie one after another, and have these lengths.
#[unsafe(no_mangle)]
pub extern "C" fn wb_exports(
    alloc: Global,
    names: &[u8],
    lens: &[u32],
    kinds: &[u8],
    indices: &[u32],
    phase: u32,
    out: &mut [u8],
) -> u64
    ensures { Outcome out.old out.new result (CountedAnswer 7 (length kinds.now) phase out.old out.new result) }
{
    number(export_section(alloc, names, lens, kinds, indices, phase, out))
}
