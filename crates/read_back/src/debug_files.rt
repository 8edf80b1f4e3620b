//! References to debug information, written and read back: a source map, a file, and the identity
//! of the build.
ghost use Rattle.std.specs.Prelude.{◌≡◌, ◌≢◌, [], IfOk, IfErr, OnOk};
ghost use Rattle.wasm_base.specs.Formats.{size_prefixed};
ghost use Rattle.wasm_base.specs.Modules.{GainsDecoding};
ghost use Rattle.wasm_custom.specs.DebugFiles.{source_map_payload, debug_file_payload, build_id_payload};
ghost use Rattle.wasm_base.specs.declared.fault.ReadFault.TheVariants.{Memory};
ghost use Rattle.wasm_reader.specs.Kinds.{SourceMappingUrl as Url, ExternalDebugInfo as Path, BuildId as Build, contents_of};

use crate::read_and_shorten;
use std::alloc::Allocator;
use wasm_base::{Encode, ReadFault, Result};
use wasm_custom::{BuildId, ExternalDebugInfo, SourceMappingUrl};
use wasm_reader::{Items, SectionKind};

/// Appends the section of a source map.
fn write_source_map<A: Allocator>(sink: &mut Vec<u8, A>, url: &str) -> Result<()>
    ensures { OnOk result (GainsDecoding (size_prefixed source_map_payload) url.now sink.old.items sink.new.items) }
{
    SourceMappingUrl(url).encode(sink)
}

/// Decodes the section of a source map, and appends its minimal encoding.
pub fn read_source_map<'a, A: Allocator + Copy + 'a>(
    encoding: &'a mut Vec<u8, A>,
    url: &str,
    sink: &mut Vec<u8, A>,
) -> Result<Items<'a, A>, ReadFault>
    requires { encoding.old.items ≡ [] }
    ensures read { IfOk result (λ items. contents_of items ≡ Url url.now) }
    ensures same { OnOk result (GainsDecoding (size_prefixed source_map_payload) url.now sink.old.items sink.new.items) }
    ensures memory { IfErr result (λ e. e ≢ Memory → ⊥) }
{
    write_source_map(encoding, url)?;
    let items = read_and_shorten(SectionKind::SourceMappingUrl, encoding, sink)?;
    Ok(items)
}

/// Appends the section of a file of debug information.
fn write_debug_file<A: Allocator>(sink: &mut Vec<u8, A>, path: &str) -> Result<()>
    ensures { OnOk result (GainsDecoding (size_prefixed debug_file_payload) path.now sink.old.items sink.new.items) }
{
    ExternalDebugInfo(path).encode(sink)
}

/// Decodes the section of a file of debug information, and appends its minimal encoding.
pub fn read_debug_file<'a, A: Allocator + Copy + 'a>(
    encoding: &'a mut Vec<u8, A>,
    path: &str,
    sink: &mut Vec<u8, A>,
) -> Result<Items<'a, A>, ReadFault>
    requires { encoding.old.items ≡ [] }
    ensures read { IfOk result (λ items. contents_of items ≡ Path path.now) }
    ensures same { OnOk result (GainsDecoding (size_prefixed debug_file_payload) path.now sink.old.items sink.new.items) }
    ensures memory { IfErr result (λ e. e ≢ Memory → ⊥) }
{
    write_debug_file(encoding, path)?;
    let items = read_and_shorten(SectionKind::ExternalDebugInfo, encoding, sink)?;
    Ok(items)
}

/// Appends the section of a build's identity.
fn write_build_id<A: Allocator>(sink: &mut Vec<u8, A>, bytes: &[u8]) -> Result<()>
    ensures { OnOk result (GainsDecoding (size_prefixed build_id_payload) bytes.now sink.old.items sink.new.items) }
{
    BuildId(bytes).encode(sink)
}

/// Decodes the section of a build's identity, and appends its minimal encoding.
pub fn read_build_id<'a, A: Allocator + Copy + 'a>(
    encoding: &'a mut Vec<u8, A>,
    bytes: &[u8],
    sink: &mut Vec<u8, A>,
) -> Result<Items<'a, A>, ReadFault>
    requires { encoding.old.items ≡ [] }
    ensures read { IfOk result (λ items. contents_of items ≡ Build bytes.now) }
    ensures same { OnOk result (GainsDecoding (size_prefixed build_id_payload) bytes.now sink.old.items sink.new.items) }
    ensures memory { IfErr result (λ e. e ≢ Memory → ⊥) }
{
    write_build_id(encoding, bytes)?;
    let items = read_and_shorten(SectionKind::BuildId, encoding, sink)?;
    Ok(items)
}
