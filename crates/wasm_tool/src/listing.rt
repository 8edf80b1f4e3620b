// The listing of a module's sections, for `--read`.
ghost use Rattle.std.specs.Prelude.{◌≡◌, ◌≢◌, ◌++◌, OnOk, IfErr, IfOk, string_bytes};
ghost use Rattle.wasm_tool.specs.Listings.{line_of, listing_of, DropsBlanks, IsHexText, Lists};
ghost use Rattle.wasm_tool.specs.declared.program.Trouble.TheVariants.{Usage};

use crate::program::{Trouble, unlisted};
use hex::FromHexError;
use std::alloc::{AllocError, Allocator};
use wasm_reader::{Listed, list_module};

/// Appends the line of a section: its id, its size and its number of items.
fn push_line<A: Allocator>(text: &mut String<A>, section: &Listed) -> Result<(), AllocError>
    ensures { OnOk result (string_bytes text.new ≡ string_bytes text.old ++ line_of section.now) }
{
    let id = section.id;
    let size = section.size;
    match section.items {
        Some(items) => writeln!(text, "{id} {size} {items}"),
        None => writeln!(text, "{id} {size} -"),
    }
}

/// Returns the lines of the sections.
fn lines<A: Allocator>(alloc: A, sections: &[Listed]) -> Result<String<A>, AllocError>
    ensures { IfOk result (λ text. string_bytes text ≡ listing_of sections.now) }
{
    let mut text = String::new(alloc);
    for section in sections {
        push_line(&mut text, section)?;
    }
    Ok(text)
}

/// Returns the input without spaces and line ends at its end.
fn without_end(text: &[u8]) -> &[u8]
    ensures { DropsBlanks text.now result.now }
{
    let mut text = text;
    while let [front @ .., b' ' | b'\r' | b'\n'] = text {
        text = front;
    }
    text
}

/// Returns the bytes that the hexadecimal digits encode.
fn hex_bytes<A: Allocator>(alloc: A, text: &[u8]) -> Result<Vec<u8, A>, Trouble>
    ensures bytes { IfOk result (λ bytes. IsHexText text.now bytes.items) }
    ensures usage { IfErr result (λ trouble. trouble ≢ Usage) }
{
    if str::from_utf8(text).is_err() {
        return Err(Trouble::NotText);
    }
    hex::decode(alloc, without_end(text)).map_err(|e| match e {
        FromHexError::OutOfMemory => unlisted(),
        _ => Trouble::BadHex,
    })
}

/// Returns the output for a module in hexadecimal.
pub(crate) fn listing<A: Allocator + Copy>(alloc: A, text: &[u8]) -> Result<String<A>, Trouble>
    ensures listed { IfOk result (λ lines. Lists text.now (string_bytes lines)) }
    ensures usage { IfErr result (λ trouble. trouble ≢ Usage) }
{
    let bytes = hex_bytes(alloc, text)?;
    let sections = list_module(alloc, &bytes).map_err(|(number, fault)| Trouble::Section {
        number,
        fault,
    })?;
    lines(alloc, &sections).map_err(|_| unlisted())
}
