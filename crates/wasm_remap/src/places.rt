// The places of sections in a module.
ghost use Rattle.std.specs.Prelude.{◌≡◌, ◌≢◌, ℕ, List, ◌++◌, ◌∷◌, take, drop, map, length, ◌≤◌, Err, IfOk, IfErr, OnOk, MatchOption};
ghost use Rattle.wasm_base.specs.declared.refused.Refused.TheVariants.{TooLong};
ghost use Rattle.wasm_reader.specs.Outlines.{HasSections};
ghost use Rattle.wasm_remap.specs.Errors.{ExplainsSections};
ghost use Rattle.wasm_remap.specs.Places.{AppendsSections, IsFound, IsPlace, copied, lacks, rank_of, sections_in};

use crate::indexed::RemapError;
use std::alloc::Allocator;
use wasm_base::{Module, RawSection, Refused, SectionId};
use wasm_reader::{Section, Sections};

/// Returns the place of a section's id in the standard's order, counted from 1, and 0 for custom
/// sections and ids that the standard lacks.
#[tactic(auto, using(crate::proofs::PlaceLaws::rank_steps))]
pub(crate) fn rank(id: u8) -> u32
    ensures { result ≡ rank_of id }
{
    match id {
        1 => 1,
        2 => 2,
        3 => 3,
        4 => 4,
        5 => 5,
        13 => 6,
        6 => 7,
        7 => 8,
        8 => 9,
        9 => 10,
        12 => 11,
        10 => 12,
        11 => 13,
        _ => 0,
    }
}

/// Returns the sections of a module.
pub(crate) fn sections_of<'a, A: Allocator + Copy, E>(
    bytes: &'a [u8],
    alloc: A,
) -> Result<Vec<Section<'a, A>, A>, RemapError<E>>
    ensures ok { IfOk result (λ list. HasSections bytes.now (sections_in list.items)) }
    ensures why { IfErr result (λ e. ExplainsSections bytes.now e) }
{
    let mut list = Vec::new(alloc);
    let mut sections = Sections::new(alloc, bytes)?;
    loop {
        let section = match sections.next() {
            None => return Ok(list),
            Some(section) => section?,
        };
        if list.push(section).is_err() {
            return Err(Refused::Memory.into());
        }
    }
}

/// Returns the sections before the first one of this id, that section, and those after it.
pub(crate) fn found<'s, 'a, A: Allocator + Copy>(
    sections: &'s [Section<'a, A>],
    id: u8,
) -> Option<
    (
        &'s [Section<'a, A>],
        &'s Section<'a, A>,
        &'s [Section<'a, A>],
    ),
>
    ensures { MatchOption result (lacks id (sections_in sections.now)) (λ x. IsFound id (sections_in x.0.now) x.1.now.section (sections_in x.2.now) (sections_in sections.now)) }
{
    let mut at = 0;
    while at < sections.len() {
        let section = &sections[at];
        if section.id() == id {
            return Some((&sections[..at], section, &sections[at + 1..]));
        }
        at += 1;
    }
    None
}

/// Returns the place of a new section of this id: behind the last section that comes before it in
/// the standard's order. If there is none, it is in front of the first section that is not custom.
pub(crate) fn place_of<A: Allocator + Copy>(sections: &[Section<'_, A>], id: u8) -> usize
    ensures within { result ≤ length sections.now }
    ensures place { IsPlace id (take result (sections_in sections.now)) (drop result (sections_in sections.now)) }
{
    let new = rank(id);
    let (mut place, mut read, mut is_leading) = (0, 0, true);
    while read < sections.len() {
        let old = rank(sections[read].id());
        read += 1;
        if old == 0 {
            if is_leading {
                place = read;
            }
        } else {
            is_leading = false;
            if old < new {
                place = read;
            }
        }
    }
    place
}

/// Appends copies of sections to a module.
pub(crate) fn append_copies<A: Allocator + Copy>(
    sections: &[Section<'_, A>],
    module: &mut Module<A>,
) -> Result<(), Refused>
    ensures ok { OnOk result (AppendsSections (map copied (sections_in sections.now)) module.old module.new) }
    ensures memory { result ≢ Err TooLong }
{
    for section in sections.iter() {
        let copied = RawSection {
            id: section.id(),
            bytes: section.payload(),
        };
        module.section(&copied)?;
    }
    Ok(())
}
