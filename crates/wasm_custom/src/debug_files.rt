// Custom sections that refer to debug information elsewhere: a source map, a file of DWARF, and the
// identity of the build.
ghost use Rattle.std.specs.Prelude.{◌≡◌, ◌≢◌, IfOk, IfErr, Err, OnOk, OnErr};
ghost use Rattle.wasm_base.specs.Calls.{DecodesBack};
ghost use Rattle.wasm_base.specs.Continuing.{RejectsWhole};
ghost use Rattle.wasm_base.specs.Encodings.{size_prefixed_encoding};
ghost use Rattle.wasm_base.specs.Minimal.{AppendsMinimal, HasEncoding, both_grammars};
ghost use Rattle.wasm_base.specs.Numbers.{padded_of};
ghost use Rattle.wasm_base.specs.Walks.{Keeps, WalksWhole};
ghost use Rattle.wasm_base.specs.declared.fault.ReadFault.TheVariants.{Memory};
ghost use Rattle.wasm_base.specs.declared.refused.Refused.TheVariants.{TooLong};
ghost use Rattle.wasm_custom.specs.Customs.{named_encoding, IsEncodableNamed};
ghost use Rattle.wasm_custom.specs.DebugFiles.{source_map_name, debug_file_name, build_id_name, source_map_payload, debug_file_payload, build_id_payload, source_map_section, debug_file_section, build_id_section, SaysText};

use crate::single::{append_single, encode_single, read_single, walk_single};
use std::alloc::Allocator;
use wasm_base::{DecodeError, Effect, Encode, Grammar, Result, Section, SectionId};

/// The `sourceMappingURL` section: the URL of the source map of a module.
///
/// ```rust
/// module.section(&SourceMappingUrl("a.wasm.map"))?;
/// ```
#[derive(Clone, Copy, Debug)]
pub struct SourceMappingUrl<'a>(pub &'a str);

/// Encodes the size prefix, the name of the section, and the URL.
impl Encode for SourceMappingUrl<'_> {
    ghost encoding = { λ s. named_encoding source_map_name (size_prefixed_encoding s.0.now) };

    ghost encodable = { λ s. IsEncodableNamed source_map_name (size_prefixed_encoding s.0.now) };

    ghost decoding = { λ s. DecodesBack source_map_section (SaysText s.0.now) (named_encoding source_map_name (size_prefixed_encoding s.0.now)) };

    fn encode<A: Allocator>(&self, sink: &mut Vec<u8, A>) -> Result<()> {
        encode_single(sink, "sourceMappingURL", self.0.as_bytes())
    }
}

impl Section for SourceMappingUrl<'_> {
    ghost use Rattle.std.specs.Prelude.{ℕ, List};
    ghost use Rattle.wasm_base.specs.Encodings.{size_prefixed_encoding};
    ghost use Rattle.wasm_base.specs.SectionId.{number_of};
    ghost use Rattle.wasm_base.specs.declared.section_id.SectionId.TheVariants as ids;
    ghost use Rattle.wasm_custom.specs.Customs.{NamedPayload, named_sized};
    ghost use Rattle.wasm_custom.specs.DebugFiles.{source_map_name, source_map_section, SaysText};

    ghost id_of = { λ _. number_of ids.Custom };

    ghost Items = { List ℕ };

    ghost format = { source_map_section };

    ghost says = { λ s. SaysText s.0.now };

    ghost payload = { λ s. NamedPayload source_map_name (size_prefixed_encoding s.0.now) };

    fn id(&self) -> u8 {
        SectionId::Custom.into()
    }

    ghost sized = { λ s bytes encodable pays. named_sized source_map_name (size_prefixed_encoding s.0.now) bytes encodable pays };

    ghost decodes_back = { λ s promised. promised };
}

/// Decodes the payload of the section of a source map, in the grammar `G`: its URL.
///
/// # Errors
///
/// An error means that the bytes are not such a payload.
pub fn read_source_map<'a, A: Allocator + Copy, G: Grammar>(
    bytes: &'a [u8],
    alloc: A,
) -> Result<&'a str, DecodeError>
    ensures found { IfOk result (λ x. source_map_payload (padded_of G.grammar) bytes.now x.now) }
    ensures none { IfErr result (λ e. e.cause ≢ Memory → RejectsWhole source_map_payload (padded_of G.grammar) bytes.now) }
    ensures no_memory { IfErr result (λ e. e.cause ≢ Memory) }
{
    read_single::<&'a str, A, G>("sourceMappingURL", bytes, alloc)
}

/// Walks over the payload of the section of a source map, in the grammar `G`.
///
/// # Errors
///
/// Every error except `Memory` means that the bytes are not such a payload.
pub fn walk_source_map<'a, A: Allocator + Copy, G: Grammar, E: Effect>(
    bytes: &'a [u8],
    alloc: A,
    effect: &mut E,
) -> Result<(), DecodeError>
    ensures found { OnOk result (WalksWhole E.seen G.grammar source_map_payload bytes.now effect.old effect.new) }
    ensures none { IfErr result (λ e. e.cause ≢ Memory → RejectsWhole source_map_payload (padded_of G.grammar) bytes.now) }
    ensures no_memory { IfErr result (λ e. e.cause ≡ Memory → E.may_fail) }
    ensures front { Keeps E.seen effect.old effect.new }
{
    walk_single::<&'a str, A, G, _>("sourceMappingURL", bytes, alloc, effect)
}

/// Appends the minimal encoding of the payload of the section of this source map. On an error, the
/// sink is unchanged.
pub fn append_source_map<B: Allocator>(url: &str, sink: &mut Vec<u8, B>) -> Result<()>
    ensures ok { OnOk result (AppendsMinimal both_grammars source_map_payload url.now sink.old.items sink.new.items) }
    ensures err { OnErr result (sink.new.items ≡ sink.old.items) }
    ensures too_long { HasEncoding both_grammars source_map_payload url.now → result ≢ Err TooLong }
{
    append_single("sourceMappingURL", &url, sink)
}

/// The `external_debug_info` section: the path of a file that has the debug information of a
/// module.
///
/// ```rust
/// module.section(&ExternalDebugInfo("a.debug.wasm"))?;
/// ```
#[derive(Clone, Copy, Debug)]
pub struct ExternalDebugInfo<'a>(pub &'a str);

/// Encodes the size prefix, the name of the section, and the path.
impl Encode for ExternalDebugInfo<'_> {
    ghost encoding = { λ s. named_encoding debug_file_name (size_prefixed_encoding s.0.now) };

    ghost encodable = { λ s. IsEncodableNamed debug_file_name (size_prefixed_encoding s.0.now) };

    ghost decoding = { λ s. DecodesBack debug_file_section (SaysText s.0.now) (named_encoding debug_file_name (size_prefixed_encoding s.0.now)) };

    fn encode<A: Allocator>(&self, sink: &mut Vec<u8, A>) -> Result<()> {
        encode_single(sink, "external_debug_info", self.0.as_bytes())
    }
}

impl Section for ExternalDebugInfo<'_> {
    ghost use Rattle.std.specs.Prelude.{ℕ, List};
    ghost use Rattle.wasm_base.specs.Encodings.{size_prefixed_encoding};
    ghost use Rattle.wasm_base.specs.SectionId.{number_of};
    ghost use Rattle.wasm_base.specs.declared.section_id.SectionId.TheVariants as ids;
    ghost use Rattle.wasm_custom.specs.Customs.{NamedPayload, named_sized};
    ghost use Rattle.wasm_custom.specs.DebugFiles.{debug_file_name, debug_file_section, SaysText};

    ghost id_of = { λ _. number_of ids.Custom };

    ghost Items = { List ℕ };

    ghost format = { debug_file_section };

    ghost says = { λ s. SaysText s.0.now };

    ghost payload = { λ s. NamedPayload debug_file_name (size_prefixed_encoding s.0.now) };

    fn id(&self) -> u8 {
        SectionId::Custom.into()
    }

    ghost sized = { λ s bytes encodable pays. named_sized debug_file_name (size_prefixed_encoding s.0.now) bytes encodable pays };

    ghost decodes_back = { λ s promised. promised };
}

/// Decodes the payload of the section of a file of debug information, in the grammar `G`: its path.
///
/// # Errors
///
/// An error means that the bytes are not such a payload.
pub fn read_debug_file<'a, A: Allocator + Copy, G: Grammar>(
    bytes: &'a [u8],
    alloc: A,
) -> Result<&'a str, DecodeError>
    ensures found { IfOk result (λ x. debug_file_payload (padded_of G.grammar) bytes.now x.now) }
    ensures none { IfErr result (λ e. e.cause ≢ Memory → RejectsWhole debug_file_payload (padded_of G.grammar) bytes.now) }
    ensures no_memory { IfErr result (λ e. e.cause ≢ Memory) }
{
    read_single::<&'a str, A, G>("external_debug_info", bytes, alloc)
}

/// Walks over the payload of the section of an external file of debug information, in the grammar `G`.
///
/// # Errors
///
/// Every error except `Memory` means that the bytes are not such a payload.
pub fn walk_debug_file<'a, A: Allocator + Copy, G: Grammar, E: Effect>(
    bytes: &'a [u8],
    alloc: A,
    effect: &mut E,
) -> Result<(), DecodeError>
    ensures found { OnOk result (WalksWhole E.seen G.grammar debug_file_payload bytes.now effect.old effect.new) }
    ensures none { IfErr result (λ e. e.cause ≢ Memory → RejectsWhole debug_file_payload (padded_of G.grammar) bytes.now) }
    ensures no_memory { IfErr result (λ e. e.cause ≡ Memory → E.may_fail) }
    ensures front { Keeps E.seen effect.old effect.new }
{
    walk_single::<&'a str, A, G, _>("external_debug_info", bytes, alloc, effect)
}

/// Appends the minimal encoding of the payload of the section of this file of debug information. On
/// an error, the sink is unchanged.
pub fn append_debug_file<B: Allocator>(path: &str, sink: &mut Vec<u8, B>) -> Result<()>
    ensures ok { OnOk result (AppendsMinimal both_grammars debug_file_payload path.now sink.old.items sink.new.items) }
    ensures err { OnErr result (sink.new.items ≡ sink.old.items) }
    ensures too_long { HasEncoding both_grammars debug_file_payload path.now → result ≢ Err TooLong }
{
    append_single("external_debug_info", &path, sink)
}

/// The `build_id` section: bytes that identify the build. A file of debug information of the same
/// build has them too.
///
/// ```rust
/// module.section(&BuildId(&[0x12, 0x34]))?;
/// ```
#[derive(Clone, Copy, Debug)]
pub struct BuildId<'a>(pub &'a [u8]);

/// Encodes the size prefix, the name of the section, and the bytes with their size prefix.
impl Encode for BuildId<'_> {
    ghost encoding = { λ s. named_encoding build_id_name (size_prefixed_encoding s.0.now) };

    ghost encodable = { λ s. IsEncodableNamed build_id_name (size_prefixed_encoding s.0.now) };

    ghost decoding = { λ s. DecodesBack build_id_section (λ said. said ≡ s.0.now) (named_encoding build_id_name (size_prefixed_encoding s.0.now)) };

    fn encode<A: Allocator>(&self, sink: &mut Vec<u8, A>) -> Result<()> {
        encode_single(sink, "build_id", self.0)
    }
}

impl Section for BuildId<'_> {
    ghost use Rattle.std.specs.Prelude.{◌≡◌, ℕ, List};
    ghost use Rattle.wasm_base.specs.Encodings.{size_prefixed_encoding};
    ghost use Rattle.wasm_base.specs.SectionId.{number_of};
    ghost use Rattle.wasm_base.specs.declared.section_id.SectionId.TheVariants as ids;
    ghost use Rattle.wasm_custom.specs.Customs.{NamedPayload, named_sized};
    ghost use Rattle.wasm_custom.specs.DebugFiles.{build_id_name, build_id_section};

    ghost id_of = { λ _. number_of ids.Custom };

    ghost Items = { List ℕ };

    ghost format = { build_id_section };

    ghost says = { λ s. λ said. said ≡ s.0.now };

    ghost payload = { λ s. NamedPayload build_id_name (size_prefixed_encoding s.0.now) };

    fn id(&self) -> u8 {
        SectionId::Custom.into()
    }

    ghost sized = { λ s bytes encodable pays. named_sized build_id_name (size_prefixed_encoding s.0.now) bytes encodable pays };

    ghost decodes_back = { λ s promised. promised };
}

/// Decodes the payload of the section of a build's identity, in the grammar `G`: its bytes.
///
/// # Errors
///
/// An error means that the bytes are not such a payload.
pub fn read_build_id<'a, A: Allocator + Copy, G: Grammar>(
    bytes: &'a [u8],
    alloc: A,
) -> Result<&'a [u8], DecodeError>
    ensures found { IfOk result (λ x. build_id_payload (padded_of G.grammar) bytes.now x.now) }
    ensures none { IfErr result (λ e. e.cause ≢ Memory → RejectsWhole build_id_payload (padded_of G.grammar) bytes.now) }
    ensures no_memory { IfErr result (λ e. e.cause ≢ Memory) }
{
    read_single::<&'a [u8], A, G>("build_id", bytes, alloc)
}

/// Walks over the payload of the section of a build's identity, in the grammar `G`.
///
/// # Errors
///
/// Every error except `Memory` means that the bytes are not such a payload.
pub fn walk_build_id<'a, A: Allocator + Copy, G: Grammar, E: Effect>(
    bytes: &'a [u8],
    alloc: A,
    effect: &mut E,
) -> Result<(), DecodeError>
    ensures found { OnOk result (WalksWhole E.seen G.grammar build_id_payload bytes.now effect.old effect.new) }
    ensures none { IfErr result (λ e. e.cause ≢ Memory → RejectsWhole build_id_payload (padded_of G.grammar) bytes.now) }
    ensures no_memory { IfErr result (λ e. e.cause ≡ Memory → E.may_fail) }
    ensures front { Keeps E.seen effect.old effect.new }
{
    walk_single::<&'a [u8], A, G, _>("build_id", bytes, alloc, effect)
}

/// Appends the minimal encoding of the payload of the section of these bytes. On an error, the sink
/// is unchanged.
pub fn append_build_id<B: Allocator>(bytes: &[u8], sink: &mut Vec<u8, B>) -> Result<()>
    ensures ok { OnOk result (AppendsMinimal both_grammars build_id_payload bytes.now sink.old.items sink.new.items) }
    ensures err { OnErr result (sink.new.items ≡ sink.old.items) }
    ensures too_long { HasEncoding both_grammars build_id_payload bytes.now → result ≢ Err TooLong }
{
    append_single("build_id", &bytes, sink)
}
