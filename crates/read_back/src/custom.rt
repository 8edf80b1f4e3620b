//! Custom sections, written and read back: names, linking, producers, target features, hints, and
//! any name and data.
ghost use Rattle.std.specs.Prelude.{◌≡◌, ◌≢◌, ◌++◌, [], ◌∷◌, true, false, Err, IfOk, IfErr, OnOk, OnErr, map};
ghost use Rattle.wasm_base.specs.Formats.{size_prefixed, custom as custom_format};
ghost use Rattle.wasm_base.specs.Modules.{GainsDecoding};
ghost use Rattle.wasm_custom.specs.Symbols.{AreSymbols};
ghost use Rattle.wasm_base.specs.declared.refused.Refused.TheVariants.{TooLong};
ghost use Rattle.wasm_custom.specs.Names.{name_payload, name_item_view};
ghost use Rattle.wasm_custom.specs.Linking.{linking_payload};
ghost use Rattle.wasm_custom.specs.Producers.{producers_payload};
ghost use Rattle.wasm_custom.specs.Hints.{hints_payload};
ghost use Rattle.wasm_custom.specs.TargetFeatures.{features_payload};
ghost use Rattle.wasm_base.specs.Minimal.{AppendsMinimal, MinimizesWhole, both_grammars};
ghost use Rattle.wasm_base.specs.Numbers.{admitted, standard};
ghost use Rattle.wasm_base.specs.Continuing.{RejectsWhole};
ghost use Rattle.wasm_base.specs.declared.fault.ReadFault.TheVariants.{Memory};
ghost use Rattle.read_back.specs.Customs.{name_and_more, data_symbol, links, language, likely_hints, used_and_not};
ghost use Rattle.wasm_reader.specs.Kinds.{Names, Linking, Producers, Hints, Custom, TargetFeatures, contents_of};

use crate::read_and_shorten;
use std::alloc::Allocator;
use wasm_base::{CowSlice, CowStr, DecodeError, Encode, Padded, ReadFault, Result, Standard};
use wasm_custom::{
    BranchHint, BranchHints, CustomSection, DataSymbolDefinition, FeaturePrefix, LinkingSection,
    NameItem, NameSection, ProducersField, ProducersSection, SymbolTable, TargetFeaturesSection,
    append_links, append_names, read_links, read_names,
};
use wasm_reader::{Items, SectionKind};

/// Appends a name section: the name of the module, and bytes of an id that no call has.
fn write_more_names<A: Allocator + Copy>(
    sink: &mut Vec<u8, A>,
    name: &str,
    more: &[u8],
) -> Result<()>
    ensures { OnOk result (GainsDecoding (size_prefixed name_payload) (name_and_more name.now more.now) sink.old.items sink.new.items) }
{
    let mut section = NameSection::new(*sink.allocator());
    section.module(name)?;
    section.raw(14, more)?;
    section.encode(sink)
}

/// Decodes that name section, and appends its minimal encoding.
pub fn read_more_names<'a, A: Allocator + Copy + 'a>(
    encoding: &'a mut Vec<u8, A>,
    name: &str,
    more: &[u8],
    sink: &mut Vec<u8, A>,
) -> Result<Items<'a, A>, ReadFault>
    requires { encoding.old.items ≡ [] }
    ensures read { IfOk result (λ items. contents_of items ≡ Names (name_and_more name.now more.now)) }
    ensures same { OnOk result (GainsDecoding (size_prefixed name_payload) (name_and_more name.now more.now) sink.old.items sink.new.items) }
    ensures memory { IfErr result (λ e. e ≢ Memory → ⊥) }
{
    write_more_names(encoding, name, more)?;
    let items = read_and_shorten(SectionKind::Names, encoding, sink)?;
    Ok(items)
}

/// Appends a title and the names after it, or the title alone if an allocation for the names fails.
/// Returns whether the names are there.
pub fn titled_names<A: Allocator>(
    title: &[u8],
    names: &[NameItem<'_, A>],
    sink: &mut Vec<u8, A>,
) -> Result<bool>
    ensures named { IfOk result (λ all. all ≡ true → AppendsMinimal both_grammars name_payload (map name_item_view names.now) (sink.old.items ++ title.now) sink.new.items) }
    ensures titled { IfOk result (λ all. all ≡ false → sink.new.items ≡ sink.old.items ++ title.now) }
    ensures err { OnErr result (sink.new.items ≡ sink.old.items) }
{
    sink.extend_from_slice(title)?;
    match append_names(names, sink) {
        Ok(()) => Ok(true),
        Err(_) => Ok(false),
    }
}

/// Appends the minimal encoding of the names that the bytes encode, with their section's name.
/// Returns whether they do. No count or size is too long.
pub fn rewritten_names<A: Allocator + Copy>(bytes: &[u8], sink: &mut Vec<u8, A>) -> Result<bool>
    ensures too_long { result ≢ Err TooLong }
    ensures err { OnErr result (sink.new.items ≡ sink.old.items) }
{
    match read_names::<A, Padded>(bytes, *sink.allocator()) {
        Ok(names) => {
            append_names(&names, sink)?;
            Ok(true)
        }
        Err(_) => Ok(false),
    }
}

/// Decodes the payload of the linking section of an object file, and appends it in its minimal
/// encoding.
pub fn rewritten_linking<A: Allocator + Copy>(
    payload: &[u8],
    sink: &mut Vec<u8, A>,
) -> Result<(), DecodeError>
    ensures found { OnOk result (MinimizesWhole admitted linking_payload payload.now sink.old.items sink.new.items) }
    ensures none { IfErr result (λ e. e.cause ≢ Memory → RejectsWhole linking_payload standard payload.now) }
    ensures err { OnErr result (sink.new.items ≡ sink.old.items) }
{
    let items = read_links::<A, Standard>(payload, *sink.allocator())?;
    append_links(&items, sink)?;
    Ok(())
}

/// Returns a symbol table of one data symbol.
fn symbols<A: Allocator + Copy>(alloc: A, name: &str) -> Result<SymbolTable<A>>
    ensures { IfOk result (λ table. AreSymbols table (data_symbol name.now ∷ [])) }
{
    let definition = DataSymbolDefinition {
        index: 0,
        offset: 0,
        size: 1,
    };
    let mut table = SymbolTable::new(alloc);
    table.data(0, name, Some(definition))?;
    Ok(table)
}

/// Appends a linking section: a symbol, and the architecture of the target.
fn write_linking<A: Allocator + Copy>(sink: &mut Vec<u8, A>, name: &str) -> Result<()>
    ensures { OnOk result (GainsDecoding (size_prefixed linking_payload) (links name.now) sink.old.items sink.new.items) }
{
    let alloc = *sink.allocator();
    let mut section = LinkingSection::new(alloc);
    section.symbol_table(&symbols(alloc, name)?)?;
    section.target_arch("wasm32")?;
    section.encode(sink)
}

/// Decodes that linking section, and appends its minimal encoding.
pub fn read_linking<'a, A: Allocator + Copy + 'a>(
    encoding: &'a mut Vec<u8, A>,
    name: &str,
    sink: &mut Vec<u8, A>,
) -> Result<Items<'a, A>, ReadFault>
    requires { encoding.old.items ≡ [] }
    ensures read { IfOk result (λ items. contents_of items ≡ Linking (links name.now)) }
    ensures same { OnOk result (GainsDecoding (size_prefixed linking_payload) (links name.now) sink.old.items sink.new.items) }
    ensures memory { IfErr result (λ e. e ≢ Memory → ⊥) }
{
    write_linking(encoding, name)?;
    let items = read_and_shorten(SectionKind::Linking, encoding, sink)?;
    Ok(items)
}

/// Appends a producers section of one field.
fn write_producers<A: Allocator + Copy>(sink: &mut Vec<u8, A>, version: &str) -> Result<()>
    ensures { OnOk result (GainsDecoding (size_prefixed producers_payload) (language version.now) sink.old.items sink.new.items) }
{
    let alloc = *sink.allocator();
    let mut values = ProducersField::new(alloc);
    values.value("rattle", version)?;
    let mut section = ProducersSection::new(alloc);
    section.field("language", &values)?;
    section.encode(sink)
}

/// Decodes that producers section, and appends its minimal encoding.
pub fn read_producers<'a, A: Allocator + Copy + 'a>(
    encoding: &'a mut Vec<u8, A>,
    version: &str,
    sink: &mut Vec<u8, A>,
) -> Result<Items<'a, A>, ReadFault>
    requires { encoding.old.items ≡ [] }
    ensures read { IfOk result (λ items. contents_of items ≡ Producers (language version.now)) }
    ensures same { OnOk result (GainsDecoding (size_prefixed producers_payload) (language version.now) sink.old.items sink.new.items) }
    ensures memory { IfErr result (λ e. e ≢ Memory → ⊥) }
{
    write_producers(encoding, version)?;
    let items = read_and_shorten(SectionKind::Producers, encoding, sink)?;
    Ok(items)
}

/// Appends a target features section: a feature that is used, and one that is not allowed.
fn write_features<A: Allocator + Copy>(sink: &mut Vec<u8, A>, feature: &str) -> Result<()>
    ensures { OnOk result (GainsDecoding (size_prefixed features_payload) (used_and_not feature.now) sink.old.items sink.new.items) }
{
    let mut section = TargetFeaturesSection::new(*sink.allocator());
    section.feature(FeaturePrefix::Used, "atomics")?;
    section.feature(FeaturePrefix::Disallowed, feature)?;
    section.encode(sink)
}

/// Decodes that target features section, and appends its minimal encoding.
pub fn read_features<'a, A: Allocator + Copy + 'a>(
    encoding: &'a mut Vec<u8, A>,
    feature: &str,
    sink: &mut Vec<u8, A>,
) -> Result<Items<'a, A>, ReadFault>
    requires { encoding.old.items ≡ [] }
    ensures read { IfOk result (λ items. contents_of items ≡ TargetFeatures (used_and_not feature.now)) }
    ensures same { OnOk result (GainsDecoding (size_prefixed features_payload) (used_and_not feature.now) sink.old.items sink.new.items) }
    ensures memory { IfErr result (λ e. e ≢ Memory → ⊥) }
{
    write_features(encoding, feature)?;
    let items = read_and_shorten(SectionKind::TargetFeatures, encoding, sink)?;
    Ok(items)
}

/// Appends a section of branch hints: of an array, and of a slice.
#[tactic(auto, using(wasm_base::proofs::KnownLengths::drained_array, wasm_base::proofs::KnownLengths::drained_copied))]
fn write_hints<A: Allocator + Copy>(sink: &mut Vec<u8, A>, index: u32) -> Result<()>
    ensures { OnOk result (GainsDecoding (size_prefixed hints_payload) (likely_hints index) sink.old.items sink.new.items) }
{
    let likely = BranchHint {
        branch_func_offset: 3,
        branch_hint_value: 1,
    };
    let hints = [likely];
    let mut section = BranchHints::new(*sink.allocator());
    section.function_hints(0, [likely])?;
    section.function_hints(index, hints.iter().copied())?;
    section.encode(sink)
}

/// Decodes that section of branch hints, and appends its minimal encoding.
pub fn read_hints<'a, A: Allocator + Copy + 'a>(
    encoding: &'a mut Vec<u8, A>,
    index: u32,
    sink: &mut Vec<u8, A>,
) -> Result<Items<'a, A>, ReadFault>
    requires { encoding.old.items ≡ [] }
    ensures read { IfOk result (λ items. contents_of items ≡ Hints (likely_hints index)) }
    ensures same { OnOk result (GainsDecoding (size_prefixed hints_payload) (likely_hints index) sink.old.items sink.new.items) }
    ensures memory { IfErr result (λ e. e ≢ Memory → ⊥) }
{
    write_hints(encoding, index)?;
    let items = read_and_shorten(SectionKind::Hints, encoding, sink)?;
    Ok(items)
}

/// Appends a custom section of a name and data.
fn write_custom<A: Allocator>(sink: &mut Vec<u8, A>, name: &str, bytes: &[u8]) -> Result<()>
    ensures { OnOk result (GainsDecoding custom_format (name.now, bytes.now) sink.old.items sink.new.items) }
{
    let section: CustomSection<'_> = CustomSection {
        name: CowStr::Borrowed(name),
        bytes: CowSlice::Borrowed(bytes),
    };
    section.encode(sink)
}

/// Decodes that custom section, and appends its minimal encoding.
pub fn read_custom<'a, A: Allocator + Copy + 'a>(
    encoding: &'a mut Vec<u8, A>,
    name: &str,
    bytes: &[u8],
    sink: &mut Vec<u8, A>,
) -> Result<Items<'a, A>, ReadFault>
    requires { encoding.old.items ≡ [] }
    ensures read { IfOk result (λ items. contents_of items ≡ Custom (name.now, bytes.now)) }
    ensures same { OnOk result (GainsDecoding custom_format (name.now, bytes.now) sink.old.items sink.new.items) }
    ensures memory { IfErr result (λ e. e ≢ Memory → ⊥) }
{
    write_custom(encoding, name, bytes)?;
    let items = read_and_shorten(SectionKind::Custom, encoding, sink)?;
    Ok(items)
}
