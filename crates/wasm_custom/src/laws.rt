//! Laws about custom sections and their items, for all byte sequences: each function does nothing,
//! and its clauses are the law.
//!
//! `ItemLaws` says of a kind of items that its format is unambiguous, and that a well-formed record
//! encodes its item.
ghost use Rattle.std.specs.Prelude.{◌++◌, ◌∷◌, []};
ghost use Rattle.wasm_base.specs.Entries.{ItemLaws};
ghost use Rattle.wasm_base.specs.Formats.{coded, custom, size_prefixed, pair, name, any_bytes};
ghost use Rattle.wasm_base.specs.Laws.{ContainsMore, ContainsMorePadded, RejectsAllAfterPadded};
ghost use Rattle.wasm_base.specs.Modules.{DecodesPayloads, DecodesPayloadsPadded};
ghost use Rattle.wasm_base.specs.Decoding.{IsIncludedIn, Unambiguous, UnambiguousPadded};
ghost use Rattle.wasm_custom.specs.CodeMetadata.{call_target_items, call_targets_payload, frequencies_payload, frequency_items, order_items, orders_payload};
ghost use Rattle.wasm_custom.specs.CoreDumps.{marked_name, instance, module_items, instance_items, modules_payload, instances_payload, core_payload};
ghost use Rattle.wasm_custom.specs.CoreStacks.{stack_frame, frame_items, stack_payload};
ghost use Rattle.wasm_custom.specs.CoreValues.{value};
ghost use Rattle.wasm_custom.specs.Dylink.{needs, export_flags, export_flags_encoding, IsDylinkExport, import_flags, import_flags_encoding, IsDylinkImport, dylink_item, dylink_items, dylink_payload};
ghost use Rattle.wasm_base.specs.Encodings.{size_prefixed_encoding};
ghost use Rattle.wasm_base.specs.Laws.{IsEncodableName};
ghost use Rattle.wasm_custom.specs.DebugFiles.{source_map_payload, debug_file_payload, build_id_payload};
ghost use Rattle.wasm_custom.specs.Hints.{hints, hints_name, hint_items, hints_payload};
ghost use Rattle.wasm_base.specs.Numbers.{padded as padded_mode, standard, standard_minimal};
ghost use Rattle.wasm_custom.specs.Linking.{link, linking_name, link_items, linking_payload, full_link, object_items, object_payload};
ghost use Rattle.wasm_custom.specs.Relocations.{relocation_code, relocation, relocation_items, relocations_payload};
ghost use Rattle.wasm_custom.specs.Segments.{segment_encoding, IsSegment, segment};
ghost use Rattle.wasm_custom.specs.InitFunctions.{init_encoding, IsInit, init_function};
ghost use Rattle.wasm_custom.specs.Comdats.{comdat_symbol_encoding, IsComdatSymbol, comdat_symbol, comdat_encoding, IsComdat, comdat};
ghost use Rattle.wasm_custom.specs.Lists.{IsVectorOf, ListMore};
ghost use Rattle.wasm_custom.specs.Names.{naming_encoding, IsNaming, inside_encoding, IsInside, subsection, name_items, name_payload};
ghost use Rattle.wasm_custom.specs.Producers.{producer_encoding, IsProducer, field, field_items, producers_payload};
ghost use Rattle.wasm_custom.specs.Symbols.{symbol_encoding, IsFullSymbol, IsGivenSymbol, symbol, full_symbol};
ghost use Rattle.wasm_custom.specs.TargetFeatures.{prefix_code, feature, feature_items, features_payload};

pub use self::{padded as wide, rejections as nothing_stands};

/// The formats of sections and of their items are unambiguous. A well-formed record encodes its
/// item.
pub fn sections()
    ensures names { Unambiguous (size_prefixed name_payload) }
    ensures linking { Unambiguous (size_prefixed linking_payload) }
    ensures objects { Unambiguous (size_prefixed object_payload) }
    ensures producers { Unambiguous (size_prefixed producers_payload) }
    ensures dylink { Unambiguous (size_prefixed dylink_payload) }
    ensures target_features { Unambiguous (size_prefixed features_payload) }
    ensures hints { Unambiguous (size_prefixed hints_payload) }
    ensures frequencies { Unambiguous (size_prefixed frequencies_payload) }
    ensures orders { Unambiguous (size_prefixed orders_payload) }
    ensures call_targets { Unambiguous (size_prefixed call_targets_payload) }
    ensures modules { Unambiguous (size_prefixed modules_payload) }
    ensures instances { Unambiguous (size_prefixed instances_payload) }
    ensures core { Unambiguous (size_prefixed core_payload) }
    ensures stack { Unambiguous (size_prefixed stack_payload) }
    ensures source_maps { Unambiguous (size_prefixed source_map_payload) }
    ensures debug_files { Unambiguous (size_prefixed debug_file_payload) }
    ensures build_ids { Unambiguous (size_prefixed build_id_payload) }
    ensures relocation_sections { Unambiguous (size_prefixed relocations_payload) }
    ensures customs { Unambiguous custom }
    ensures subsections { Unambiguous subsection }
    ensures links { Unambiguous link }
    ensures symbols { Unambiguous symbol }
    ensures object_links { Unambiguous full_link }
    ensures object_symbols { Unambiguous full_symbol }
    ensures segments { Unambiguous segment }
    ensures init_functions { Unambiguous init_function }
    ensures comdat_symbols { Unambiguous comdat_symbol }
    ensures comdats { Unambiguous comdat }
    ensures fields { Unambiguous field }
    ensures dylink_items { Unambiguous dylink_item }
    ensures dylink_needs { Unambiguous needs }
    ensures export_flags { Unambiguous export_flags }
    ensures import_flags { Unambiguous import_flags }
    ensures prefixes { Unambiguous (coded prefix_code) }
    ensures features { Unambiguous feature }
    ensures functions_hints { Unambiguous hints }
    ensures marked_names { Unambiguous marked_name }
    ensures single_instances { Unambiguous instance }
    ensures frames { Unambiguous stack_frame }
    ensures values { Unambiguous value }
    ensures relocation_kinds { Unambiguous (coded relocation_code) }
    ensures relocations { Unambiguous relocation }

    ensures name_laws { ItemLaws name_items }
    ensures linking_items { ItemLaws link_items }
    ensures object_laws { ItemLaws object_items }
    ensures producer_laws { ItemLaws field_items }
    ensures dylink_laws { ItemLaws dylink_items }
    ensures feature_laws { ItemLaws feature_items }
    ensures hint_laws { ItemLaws hint_items }
    ensures frequency_laws { ItemLaws frequency_items }
    ensures order_laws { ItemLaws order_items }
    ensures call_target_laws { ItemLaws call_target_items }
    ensures module_laws { ItemLaws module_items }
    ensures instance_laws { ItemLaws instance_items }
    ensures frame_laws { ItemLaws frame_items }
    ensures relocation_laws { ItemLaws relocation_items }
{}

/// The formats of sections are also unambiguous if padded LEB128 is admitted. A minimal encoding is
/// an encoding in that mode too.
pub fn padded()
    ensures names { UnambiguousPadded (size_prefixed name_payload) }
    ensures linking { UnambiguousPadded (size_prefixed linking_payload) }
    ensures objects { UnambiguousPadded (size_prefixed object_payload) }
    ensures producers { UnambiguousPadded (size_prefixed producers_payload) }
    ensures dylink { UnambiguousPadded (size_prefixed dylink_payload) }
    ensures target_features { UnambiguousPadded (size_prefixed features_payload) }
    ensures hints { UnambiguousPadded (size_prefixed hints_payload) }
    ensures frequencies { UnambiguousPadded (size_prefixed frequencies_payload) }
    ensures orders { UnambiguousPadded (size_prefixed orders_payload) }
    ensures call_targets { UnambiguousPadded (size_prefixed call_targets_payload) }
    ensures modules { UnambiguousPadded (size_prefixed modules_payload) }
    ensures instances { UnambiguousPadded (size_prefixed instances_payload) }
    ensures core { UnambiguousPadded (size_prefixed core_payload) }
    ensures stack { UnambiguousPadded (size_prefixed stack_payload) }
    ensures source_maps { UnambiguousPadded (size_prefixed source_map_payload) }
    ensures debug_files { UnambiguousPadded (size_prefixed debug_file_payload) }
    ensures build_ids { UnambiguousPadded (size_prefixed build_id_payload) }
    ensures relocations { UnambiguousPadded (size_prefixed relocations_payload) }
    ensures customs { UnambiguousPadded custom }
{}

/// The items that sections and lists hold, call by call: none at first, and one more after each
/// call that adds a well-formed record. A list encodes the vector of its members.
pub fn calls()
    ensures names { ContainsMore name_items }
    ensures linking { ContainsMore link_items }
    ensures objects { ContainsMore object_items }
    ensures producers { ContainsMore field_items }
    ensures dylink { ContainsMore dylink_items }
    ensures features { ContainsMore feature_items }
    ensures hints { ContainsMore hint_items }
    ensures frequencies { ContainsMore frequency_items }
    ensures orders { ContainsMore order_items }
    ensures call_targets { ContainsMore call_target_items }
    ensures modules { ContainsMore module_items }
    ensures instances { ContainsMore instance_items }
    ensures frames { ContainsMore frame_items }
    ensures relocations { ContainsMore relocation_items }
    ensures name_maps { ListMore naming_encoding IsNaming }
    ensures indirect_maps { ListMore inside_encoding IsInside }
    ensures symbol_tables { ListMore symbol_encoding IsGivenSymbol }
    ensures object_symbols { ListMore symbol_encoding IsFullSymbol }
    ensures segments { ListMore segment_encoding IsSegment }
    ensures init_functions { ListMore init_encoding IsInit }
    ensures comdat_symbols { ListMore comdat_symbol_encoding IsComdatSymbol }
    ensures comdats { ListMore comdat_encoding IsComdat }
    ensures dylink_names { ListMore size_prefixed_encoding IsEncodableName }
    ensures dylink_exports { ListMore export_flags_encoding IsDylinkExport }
    ensures dylink_imports { ListMore import_flags_encoding IsDylinkImport }
    ensures producer_fields { ListMore producer_encoding IsProducer }
    ensures name_maps_encoding { IsVectorOf naming_encoding IsNaming }
    ensures indirect_maps_encoding { IsVectorOf inside_encoding IsInside }
    ensures symbol_tables_encoding { IsVectorOf symbol_encoding IsGivenSymbol }
    ensures object_symbols_encoding { IsVectorOf symbol_encoding IsFullSymbol }
    ensures segments_encoding { IsVectorOf segment_encoding IsSegment }
    ensures init_functions_encoding { IsVectorOf init_encoding IsInit }
    ensures comdat_symbols_encoding { IsVectorOf comdat_symbol_encoding IsComdatSymbol }
    ensures comdats_encoding { IsVectorOf comdat_encoding IsComdat }
    ensures dylink_names_encoding { IsVectorOf size_prefixed_encoding IsEncodableName }
    ensures dylink_exports_encoding { IsVectorOf export_flags_encoding IsDylinkExport }
    ensures dylink_imports_encoding { IsVectorOf import_flags_encoding IsDylinkImport }
    ensures producer_fields_encoding { IsVectorOf producer_encoding IsProducer }
{}

/// The same with padded LEB128, for the sections of entries: an entry may be a padded encoding of
/// its item.
#[tactic(auto, using(crate::proofs::Calls::sections, wasm_base::proofs::SectionLaws::held_padded))]
pub fn padded_calls()
    ensures names { ContainsMorePadded name_items }
    ensures linking { ContainsMorePadded link_items }
    ensures objects { ContainsMorePadded object_items }
    ensures producers { ContainsMorePadded field_items }
    ensures dylink { ContainsMorePadded dylink_items }
    ensures features { ContainsMorePadded feature_items }
    ensures hints { ContainsMorePadded hint_items }
    ensures frequencies { ContainsMorePadded frequency_items }
    ensures orders { ContainsMorePadded order_items }
    ensures call_targets { ContainsMorePadded call_target_items }
    ensures modules { ContainsMorePadded module_items }
    ensures instances { ContainsMorePadded instance_items }
{}

/// If a module decodes to ids and payloads, and a section decodes to its items alone, then its
/// payload decodes to these alone.
#[tactic(auto, using(crate::proofs::Calls::sections, crate::proofs::Calls::payloads, wasm_base::proofs::SectionLaws::payloads))]
pub fn payloads()
    ensures names { DecodesPayloads name_payload }
    ensures linking { DecodesPayloads linking_payload }
    ensures objects { DecodesPayloads object_payload }
    ensures producers { DecodesPayloads producers_payload }
    ensures dylink { DecodesPayloads dylink_payload }
    ensures features { DecodesPayloads features_payload }
    ensures hints { DecodesPayloads hints_payload }
    ensures frequencies { DecodesPayloads frequencies_payload }
    ensures orders { DecodesPayloads orders_payload }
    ensures call_targets { DecodesPayloads call_targets_payload }
    ensures modules { DecodesPayloads modules_payload }
    ensures instances { DecodesPayloads instances_payload }
    ensures core { DecodesPayloads core_payload }
    ensures stack { DecodesPayloads stack_payload }
    ensures source_maps { DecodesPayloads source_map_payload }
    ensures debug_files { DecodesPayloads debug_file_payload }
    ensures build_ids { DecodesPayloads build_id_payload }
    ensures relocations { DecodesPayloads relocations_payload }
    ensures customs { DecodesPayloads (pair name any_bytes) }
{}

/// The same with padded LEB128.
#[tactic(auto, using(wasm_base::proofs::Payloads::padded_payloads))]
pub fn padded_payloads()
    ensures names { DecodesPayloadsPadded name_payload }
    ensures linking { DecodesPayloadsPadded linking_payload }
    ensures objects { DecodesPayloadsPadded object_payload }
    ensures producers { DecodesPayloadsPadded producers_payload }
    ensures dylink { DecodesPayloadsPadded dylink_payload }
    ensures features { DecodesPayloadsPadded features_payload }
    ensures hints { DecodesPayloadsPadded hints_payload }
    ensures frequencies { DecodesPayloadsPadded frequencies_payload }
    ensures orders { DecodesPayloadsPadded orders_payload }
    ensures call_targets { DecodesPayloadsPadded call_targets_payload }
    ensures modules { DecodesPayloadsPadded modules_payload }
    ensures instances { DecodesPayloadsPadded instances_payload }
    ensures core { DecodesPayloadsPadded core_payload }
    ensures stack { DecodesPayloadsPadded stack_payload }
    ensures source_maps { DecodesPayloadsPadded source_map_payload }
    ensures debug_files { DecodesPayloadsPadded debug_file_payload }
    ensures build_ids { DecodesPayloadsPadded build_id_payload }
    ensures relocations { DecodesPayloadsPadded relocations_payload }
    ensures customs { DecodesPayloadsPadded (pair name any_bytes) }
{}

/// In the standard's grammar, a payload encodes the items of a linking section if and only if it
/// encodes them as that of an object file, which is the format that `ObjectLinking` promises. In
/// the builders' grammar, the payload of a linking section is one of an object file too.
#[tactic(auto, using(crate::proofs::LinkLaws::object_linking))]
pub fn object_linking()
    ensures decoded { IsIncludedIn (linking_payload standard) (object_payload standard) }
    ensures encoded { IsIncludedIn (object_payload standard) (linking_payload standard) }
    ensures minimal_decoded { IsIncludedIn (linking_payload standard_minimal) (object_payload standard_minimal) }
    ensures minimal_encoded { IsIncludedIn (object_payload standard_minimal) (linking_payload standard_minimal) }
    ensures built { IsIncludedIn (linking_payload padded_mode) (object_payload padded_mode) }
{}

/// Two byte sequences that encode, in the builders' grammar, no section of branch hints and no
/// linking section, even if padded LEB128 is admitted. In the first a value has two bytes. In the
/// second a defined function has no name.
#[tactic(auto, using(crate::proofs::RejectionLaws::nothing))]
pub fn rejections()
    ensures long_value { RejectsAllAfterPadded (size_prefixed hints_payload) (33 ∷ 25 ∷ (hints_name ++ (1 ∷ 0 ∷ 1 ∷ 3 ∷ 1 ∷ 128 ∷ 1 ∷ []))) }
    ensures no_name { RejectsAllAfterPadded (size_prefixed linking_payload) (15 ∷ 7 ∷ (linking_name ++ (2 ∷ 8 ∷ 4 ∷ 1 ∷ 0 ∷ 0 ∷ 1 ∷ []))) }
{}
