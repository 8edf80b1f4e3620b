// The workload of the name section.
ghost use Rattle.std.specs.Prelude.{◌≡◌, length, IfOk, OnErr};
ghost use Rattle.wasm_bench.specs.Answers.{NamesAnswer, Outcome};

use crate::answers::{Fault, answer, number};
use crate::names::Names;
use std::alloc::Global;
use wasm_custom::{NameMap, NameSection};

/// Returns the names of functions, from the length and the index of each.
fn build(alloc: Global, names: &[u8], lens: &[u32], indices: &[u32]) -> Result<NameMap, Fault>
    ensures { IfOk result (λ map. length map ≡ length indices.now) }
{
    if indices.len() != lens.len() {
        return Err(Fault::WrongInput);
    }
    let mut rest = Names::new(names)?;
    let mut map = NameMap::new(alloc);
    for i in 0..lens.len() {
        map.append(indices[i], rest.next(lens[i])?)?;
    }
    if rest.is_empty() {
        Ok(map)
    } else {
        Err(Fault::WrongInput)
    }
}

fn name_section(
    alloc: Global,
    names: &[u8],
    lens: &[u32],
    indices: &[u32],
    phase: u32,
    out: &mut [u8],
) -> Result<u64, Fault>
    ensures ok { IfOk result (λ n. NamesAnswer (length indices.now) phase out.old out.new n) }
    ensures err { OnErr result (out.new ≡ out.old) }
{
    let map = build(alloc, names, lens, indices)?;
    let mut section = NameSection::new(alloc);
    section.functions(&map)?;
    answer(alloc, &section, phase, out)
}

/// Builds a name section of the names of functions. The names lie one after another, and have these
/// lengths.
#[unsafe(no_mangle)]
pub extern "C" fn wb_names(
    alloc: Global,
    names: &[u8],
    lens: &[u32],
    indices: &[u32],
    phase: u32,
    out: &mut [u8],
) -> u64
    ensures { Outcome out.old out.new result (NamesAnswer (length indices.now) phase out.old out.new result) }
{
    number(name_section(alloc, names, lens, indices, phase, out))
}
