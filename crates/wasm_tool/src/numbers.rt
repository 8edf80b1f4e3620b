// The numbers and bytes that words of a recipe denote.
ghost use Rattle.std.specs.Prelude.{get_or, ◌≡◌, ◌≢◌, ◌⊎◌, ◌++◌, ◌∷◌, [], IfOk, IsSomeAnd, IfErr, IsErr, MatchResult, Ok, Some, None};
ghost use Rattle.hex.specs.Hex.{decode_of};
ghost use Rattle.wasm_tool.specs.Lines.{counted_words};
ghost use Rattle.wasm_tool.specs.Recipe.{decimal_of, signed_of, indices_of};

use crate::fault::RecipeCause;
use crate::words::Words;
use hex::FromHexError;
use std::alloc::Allocator;
use wasm_base::Result;

/// Decodes a word of hexadecimal digits.
pub(crate) fn hex_bytes<A: Allocator>(alloc: A, word: &str) -> Result<Vec<u8, A>, RecipeCause>
    ensures ok { IfOk result (λ bytes. decode_of word.now ≡ Ok bytes.items) }
    ensures err { IfErr result (λ cause. (cause ≡ RecipeCause.Memory) ⊎ ((cause ≡ RecipeCause.BadHex) × IsErr (decode_of word.now))) }
{
    hex::decode(alloc, word).map_err(|e| match e {
        FromHexError::OutOfMemory => RecipeCause::Memory,
        _ => RecipeCause::BadHex,
    })
}

/// Returns the word unless it begins with a plus sign, which `parse` accepts and a number of a
/// recipe does not have.
fn numeral(word: &str) -> Result<&str, RecipeCause>
    ensures { MatchResult result (λ same. (same.now ≡ word.now) × (get_or word.now 0 0 ≢ 43)) (λ cause. (cause ≡ RecipeCause.BadNumber) × (get_or word.now 0 0 ≡ 43)) }
{
    if word.starts_with('+') {
        return Err(RecipeCause::BadNumber);
    }
    Ok(word)
}

/// Parses a word of decimal digits as a number of 64 bits.
pub(crate) fn number(word: &str) -> Result<u64, RecipeCause>
    ensures { MatchResult result (λ n. decimal_of 64 word.now ≡ Some n) (λ cause. (cause ≡ RecipeCause.BadNumber) × (decimal_of 64 word.now ≡ None)) }
{
    let Ok(n) = numeral(word)?.parse() else {
        return Err(RecipeCause::BadNumber);
    };
    Ok(n)
}

/// Parses a word of decimal digits as a number of 32 bits.
pub(crate) fn index(word: &str) -> Result<u32, RecipeCause>
    ensures { MatchResult result (λ n. decimal_of 32 word.now ≡ Some n) (λ cause. (cause ≡ RecipeCause.BadNumber) × (decimal_of 32 word.now ≡ None)) }
{
    let Ok(n) = u32::try_from(number(word)?) else {
        return Err(RecipeCause::BadNumber);
    };
    Ok(n)
}

/// Parses a word of decimal digits, negative after `-`, as a signed number of 32 bits.
pub(crate) fn signed(word: &str) -> Result<i32, RecipeCause>
    ensures { MatchResult result (λ n. signed_of word.now ≡ Some n) (λ cause. (cause ≡ RecipeCause.BadNumber) × (signed_of word.now ≡ None)) }
{
    let Ok(value) = numeral(word)?.parse() else {
        return Err(RecipeCause::BadNumber);
    };
    Ok(value)
}

/// Parses a word of decimal digits as a number of 32 bits, and adds it to the others.
fn push_index<A: Allocator>(numbers: &mut Vec<u32, A>, word: &str) -> Result<(), RecipeCause>
    ensures ok { IfOk result (λ _. IsSomeAnd (decimal_of 32 word.now) (λ n. numbers.new.items ≡ numbers.old.items ++ n ∷ [])) }
    ensures err { IfErr result (λ cause. (cause ≡ RecipeCause.Memory) ⊎ ((cause ≡ RecipeCause.BadNumber) × (decimal_of 32 word.now ≡ None))) }
{
    let number = index(word)?;
    numbers.push(number).map_err(|_| RecipeCause::Memory)
}

/// Parses words of decimal digits as numbers of 32 bits.
pub(crate) fn indices<A: Allocator>(
    alloc: A,
    first: &str,
    words: Words<'_>,
) -> Result<Vec<u32, A>, RecipeCause>
    ensures ok { IfOk result (λ v. indices_of (first.now ∷ counted_words words.entry.version words.entry.rest.now) ≡ Some v.items) }
    ensures err { IfErr result (λ cause. (cause ≡ RecipeCause.Memory) ⊎ ((cause ≡ RecipeCause.BadNumber) × (indices_of (first.now ∷ counted_words words.entry.version words.entry.rest.now) ≡ None))) }
{
    let mut numbers = Vec::new(alloc);
    push_index(&mut numbers, first)?;
    for word in words {
        push_index(&mut numbers, word)?;
    }
    Ok(numbers)
}
