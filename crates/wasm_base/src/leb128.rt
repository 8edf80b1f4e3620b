// LEB128 numbers: encodes them in their minimal form, and decodes minimal and padded ones. One byte
// is decoded inline, up to five in 64 bits.
ghost use Rattle.std.specs.Prelude.{◌≡◌, ◌+◌, ◌*◌, ◌^◌, ◌≤◌, ◌<◌, ◌++◌, [], length, vec_len, vec_capacity, ⊤, IfOk, IfErr, ◌≢◌, ℕ, ℤ};
ghost use Rattle.wasm_base.specs.Calls.{Appends};
ghost use Rattle.wasm_base.specs.Groups.{groups, HasGroups, signed_of};
ghost use Rattle.wasm_base.specs.Numbers.{padded, padded_of, next_group, last_group, groups_encoding, unsigned_encoding, signed_encoding};
ghost use Rattle.wasm_base.specs.Decoding.{Rejects, Decodes};
ghost use Rattle.wasm_base.specs.Encodings.{longest};
ghost use Rattle.wasm_base.specs.Minimal.{both_grammars};
ghost use Rattle.wasm_base.specs.declared.fault.ReadFault.TheVariants.{Ended, TooLarge, Memory};
ghost use Rattle.wasm_base.specs.Formats.{u32 as u32_format, u64 as u64_format, s32, s64, s33};

use crate::effect::Effect;
use crate::encode::Encode;
use crate::fault::{DecodeError, ReadFault};
use crate::grammar::Grammar;
use crate::readable::{Layout, Readable};
use crate::refused::{Refused, Result};
use crate::shorten::Shorten;
use crate::walk::{Canonical, Walk, walk_value};
use std::alloc::Allocator;

/// An unsigned number below this is one group, the last one.
const UNSIGNED_LIMIT: u64 = 0x80;

/// A signed number from `-SIGNED_LIMIT` up to, but not including, `SIGNED_LIMIT` is one group: bit
/// 6 is the sign.
const SIGNED_LIMIT: u64 = 0x40;

/// Returns the length in bytes of the minimal unsigned encoding of `n`.
pub fn encoding_size(n: u32) -> usize
    ensures value { result ≡ length (unsigned_encoding n) }
    ensures bound { result ≤ 5 }
{
    groups_size(false, UNSIGNED_LIMIT, u64::from(n))
}

/// Returns the number of groups of `n`.
fn groups_size(negative: bool, limit: u64, n: u64) -> usize
    requires { 0 < limit }
    ensures { result ≡ length (groups_encoding negative limit n) }
{
    let mut size = 1;
    let mut rest = n;
    while rest >= limit {
        rest /= 0x80;
        size += 1;
    }
    size
}

/// Returns the lowest group of `n`, which further groups follow.
#[inline]
fn group_before_others(negative: bool, n: u64) -> u8
    ensures { result ≡ next_group negative n }
{
    let low = (n % 0x80) as u8;
    if negative { 0xFF - low } else { low + 0x80 }
}

/// Returns the last group of a number.
#[inline]
fn group_at_the_end(negative: bool, n: u64) -> u8
    requires { n < 0x80 }
    ensures { result ≡ last_group negative n }
{
    let low = n as u8;
    if negative { 0x7F - low } else { low }
}

/// Appends the groups of `n` into spare capacity of the sink, which holds them all.
fn put_groups<A: Allocator>(sink: &mut Vec<u8, A>, negative: bool, limit: u64, n: u64)
    requires limit { 0 < limit × limit ≤ 0x80 }
    requires spare { vec_len sink.old + length (groups_encoding negative limit n) ≤ vec_capacity sink.old }
    ensures items { sink.new.items ≡ sink.old.items ++ groups_encoding negative limit n }
    ensures capacity { vec_capacity sink.new ≡ vec_capacity sink.old }
{
    let mut rest = n;
    while rest >= limit {
        sink.push_reserved(group_before_others(negative, rest));
        rest /= 0x80;
    }
    sink.push_reserved(group_at_the_end(negative, rest));
}

/// Appends the two groups of `n` into spare capacity of the sink, which holds them.
#[inline]
fn put_two_groups<A: Allocator>(sink: &mut Vec<u8, A>, negative: bool, limit: u64, n: u64)
    requires limit { 0 < limit × limit ≤ 0x80 }
    requires two { limit ≤ n × n < limit * 0x80 }
    requires spare { vec_len sink.old + 2 ≤ vec_capacity sink.old }
    ensures items { sink.new.items ≡ sink.old.items ++ groups_encoding negative limit n }
    ensures capacity { vec_capacity sink.new ≡ vec_capacity sink.old }
{
    sink.push_reserved(group_before_others(negative, n));
    sink.push_reserved(group_at_the_end(negative, n / 0x80));
}

/// The most groups that a number of 64 bits has.
const MOST_GROUPS: usize = 10;

/// Appends the groups of `n`, of which there are at least two. With spare capacity for
/// `MOST_GROUPS` they are not counted first, and two groups are written without a loop.
#[tactic(auto, using(crate::proofs::NumberEncodings::most_groups))]
#[inline(always)]
fn append_groups<A: Allocator>(
    sink: &mut Vec<u8, A>,
    negative: bool,
    limit: u64,
    n: u64,
) -> Result<()>
    requires limit { 0x40 ≤ limit × limit ≤ 0x80 }
    requires several { limit ≤ n }
    ensures { Appends (groups_encoding negative limit n) ⊤ sink.old sink.new result }
{
    if sink.capacity() - sink.len() < MOST_GROUPS {
        return append_counted_groups(sink, negative, limit, n);
    }
    if n < limit * 0x80 {
        put_two_groups(sink, negative, limit, n);
    } else {
        put_groups(sink, negative, limit, n);
    }
    Ok(())
}

/// Appends the groups of `n`, which are counted first so that one reservation suffices.
#[cold]
#[inline(never)]
fn append_counted_groups<A: Allocator>(
    sink: &mut Vec<u8, A>,
    negative: bool,
    limit: u64,
    n: u64,
) -> Result<()>
    requires { 0 < limit × limit ≤ 0x80 }
    ensures { Appends (groups_encoding negative limit n) ⊤ sink.old sink.new result }
{
    sink.reserve(groups_size(negative, limit, n))?;
    put_groups(sink, negative, limit, n);
    Ok(())
}

/// Appends an unsigned number of several groups.
#[inline(never)]
fn append_long_unsigned<A: Allocator>(sink: &mut Vec<u8, A>, n: u64) -> Result<()>
    requires { 0x80 ≤ n }
    ensures { Appends (unsigned_encoding n) ⊤ sink.old sink.new result }
{
    append_groups(sink, false, UNSIGNED_LIMIT, n)
}

/// Appends a signed number of several groups.
#[inline(never)]
fn append_long_signed<A: Allocator>(sink: &mut Vec<u8, A>, negative: bool, n: u64) -> Result<()>
    requires { 0x40 ≤ n }
    ensures { Appends (groups_encoding negative SIGNED_LIMIT n) ⊤ sink.old sink.new result }
{
    append_groups(sink, negative, SIGNED_LIMIT, n)
}

/// Appends an unsigned number. Most have one byte, which is written here without a call.
#[tactic(auto, using(crate::proofs::NumberEncodings::one_group))]
#[inline]
fn append_unsigned<A: Allocator>(sink: &mut Vec<u8, A>, n: u64) -> Result<()>
    ensures { Appends (unsigned_encoding n) ⊤ sink.old sink.new result }
{
    if n < UNSIGNED_LIMIT {
        sink.push(n as u8)?;
        return Ok(());
    }
    append_long_unsigned(sink, n)
}

/// Appends a signed number. Most have one byte, which is written here without a call.
#[tactic(auto, using(crate::proofs::NumberEncodings::one_group))]
#[inline]
fn append_signed<A: Allocator>(sink: &mut Vec<u8, A>, n: i64) -> Result<()>
    ensures { Appends (signed_encoding n) ⊤ sink.old sink.new result }
{
    let negative = n < 0;
    let n = if negative { -(n + 1) } else { n } as u64;
    if n < SIGNED_LIMIT {
        sink.push(group_at_the_end(negative, n))?;
        return Ok(());
    }
    append_long_signed(sink, negative, n)
}

/// Encodes the number as unsigned LEB128.
impl Encode for u32 {
    ghost encoding = { unsigned_encoding };

    ghost encodable = { λ _. ⊤ };

    #[inline]
    fn encode<A: Allocator>(&self, sink: &mut Vec<u8, A>) -> Result<()> {
        append_unsigned(sink, u64::from(*self))
    }
}

/// Encodes the number as unsigned LEB128.
impl Encode for u64 {
    ghost encoding = { unsigned_encoding };

    ghost encodable = { λ _. ⊤ };

    #[inline]
    fn encode<A: Allocator>(&self, sink: &mut Vec<u8, A>) -> Result<()> {
        append_unsigned(sink, *self)
    }
}

/// Encodes a count or a length as unsigned LEB128. Returns `TooLong` for a number above 4294967295.
impl Encode for usize {
    ghost encoding = { unsigned_encoding };

    ghost encodable = { λ n. n ≤ longest };

    ghost overlong = { λ n. longest < n };

    fn encode<A: Allocator>(&self, sink: &mut Vec<u8, A>) -> Result<()> {
        match u32::try_from(*self) {
            Ok(n) => n.encode(sink),
            Err(_) => Err(Refused::TooLong),
        }
    }
}

/// Encodes the number as signed LEB128.
impl Encode for i32 {
    ghost encoding = { signed_encoding };

    ghost encodable = { λ _. ⊤ };

    #[inline]
    fn encode<A: Allocator>(&self, sink: &mut Vec<u8, A>) -> Result<()> {
        append_signed(sink, i64::from(*self))
    }
}

/// Encodes the number as signed LEB128.
impl Encode for i64 {
    ghost encoding = { signed_encoding };

    ghost encodable = { λ _. ⊤ };

    #[inline]
    fn encode<A: Allocator>(&self, sink: &mut Vec<u8, A>) -> Result<()> {
        append_signed(sink, *self)
    }
}

/// The groups of seven bits at the front of bytes, the lowest group first.
#[derive(Clone, Copy, Debug)]
pub struct Groups {
    /// The number that the groups encode without a sign.
    pub sum: u128,
    /// 128 to the power of the number of groups.
    pub power: u128,
    /// The last group. Bit 6 is the sign of a signed number.
    pub last: u8,
}

/// Decodes the groups at the front, at most `limit` of them, and returns them with the remaining
/// bytes.
#[tactic(auto, using(crate::proofs::GroupLaws::group_steps))]
pub fn read_groups(bytes: &[u8], limit: u8) -> Result<(Groups, &[u8]), DecodeError>
    requires { limit ≤ 10 }
    ensures found { IfOk result (λ x. HasGroups limit bytes.now x.0.sum x.0.power x.0.last x.1.now) }
    ensures power { IfOk result (λ x. x.0.power ≤ 128 ^ limit) }
    ensures below { IfOk result (λ x. x.0.sum < x.0.power) }
    ensures none { IfErr result (λ _. Rejects (groups limit) padded bytes.now) }
    ensures no_memory { IfErr result (λ e. e.cause ≢ Memory) }
    ensures ended { IfErr result (λ e. e.cause ≡ Ended → length bytes.now < limit) }
    ensures too_many { IfErr result (λ e. e.cause ≡ TooLarge → limit ≤ length bytes.now) }
{
    if limit == 0 {
        return Err(ReadFault::TooLarge.just_before(bytes));
    }
    match bytes {
        [] => Err(ReadFault::Ended.at(bytes)),
        [b, rest @ ..] => {
            if *b < 0x80 {
                let last = Groups {
                    sum: u128::from(*b),
                    power: 0x80,
                    last: *b,
                };
                return Ok((last, rest));
            }
            let (more, rest) = read_groups(rest, limit - 1)?;
            let groups = Groups {
                sum: u128::from(*b % 0x80) + 0x80 * more.sum,
                power: 0x80 * more.power,
                last: more.last,
            };
            Ok((groups, rest))
        }
    }
}

/// Returns the number that the groups encode in two's complement.
fn signed(groups: Groups) -> i128
    requires { groups.sum < 2 ^ 70 × groups.power ≤ 2 ^ 70 }
    ensures { result ≡ signed_of groups.sum groups.power groups.last }
{
    if groups.last < 0x40 {
        groups.sum as i128
    } else {
        groups.sum as i128 - groups.power as i128
    }
}

/// Returns the number that one group encodes in two's complement.
#[inline]
fn signed_byte(group: u8) -> i16
    requires { group < 0x80 }
    ensures { result ≡ signed_of group 0x80 group }
{
    if group < 0x40 {
        i16::from(group)
    } else {
        i16::from(group) - 0x80
    }
}

/// At most five groups, with the fields of [`Groups`] in 64 bits.
#[derive(Clone, Copy)]
struct FewGroups {
    sum: u64,
    power: u64,
    last: u8,
}

/// Decodes the groups at the front, at most five, and returns them with the remaining bytes.
#[inline]
fn read_few_groups(bytes: &[u8]) -> Result<(FewGroups, &[u8]), DecodeError>
    ensures found { IfOk result (λ x. HasGroups 5 bytes.now x.0.sum x.0.power x.0.last x.1.now) }
    ensures power { IfOk result (λ x. x.0.power ≤ 2 ^ 35) }
    ensures below { IfOk result (λ x. x.0.sum < x.0.power) }
    ensures none { IfErr result (λ _. Rejects (groups 5) padded bytes.now) }
    ensures no_memory { IfErr result (λ e. e.cause ≢ Memory) }
{
    let mut rest = bytes;
    let mut sum: u64 = 0;
    let mut power: u64 = 1;
    for _group in 0..5u8 {
        let [b, after @ ..] = rest else {
            return Err(ReadFault::Ended.at(rest));
        };
        sum += power * u64::from(*b % 0x80);
        power *= 0x80;
        if *b < 0x80 {
            let few = FewGroups {
                sum,
                power,
                last: *b,
            };
            return Ok((few, after));
        }
        rest = after;
    }
    Err(ReadFault::TooLarge.just_before(rest))
}

/// Returns the number that at most five groups encode in two's complement.
#[inline]
fn signed_few(groups: FewGroups) -> i64
    requires { groups.sum < 2 ^ 35 × groups.power ≤ 2 ^ 35 }
    ensures { result ≡ signed_of groups.sum groups.power groups.last }
{
    if groups.last < 0x40 {
        groups.sum as i64
    } else {
        groups.sum as i64 - groups.power as i64
    }
}

/// Decodes an unsigned number of 32 bits. Out of line, for those of several bytes.
#[inline(never)]
#[tactic(auto, using(crate::proofs::DecodeNumbers::u32_steps))]
fn read_long_u32<G: Grammar>(bytes: &[u8]) -> Result<(u32, &[u8]), DecodeError>
    ensures found { IfOk result (λ x. Decodes u32_format (padded_of G.grammar) bytes.now x.0 x.1.now) }
    ensures none { IfErr result (λ e. e.cause ≢ Memory → Rejects u32_format (padded_of G.grammar) bytes.now) }
    ensures no_memory { IfErr result (λ e. e.cause ≢ Memory) }
{
    let (groups, rest) = read_few_groups(bytes)?;
    if groups.sum < 1 << 32 {
        Ok((groups.sum as u32, rest))
    } else {
        Err(ReadFault::TooLarge.just_before(rest))
    }
}

/// Decodes an unsigned number of 64 bits. Out of line, for those of several bytes.
#[inline(never)]
#[tactic(auto, using(crate::proofs::DecodeNumbers::u64_steps))]
fn read_long_u64<G: Grammar>(bytes: &[u8]) -> Result<(u64, &[u8]), DecodeError>
    ensures found { IfOk result (λ x. Decodes u64_format (padded_of G.grammar) bytes.now x.0 x.1.now) }
    ensures none { IfErr result (λ e. e.cause ≢ Memory → Rejects u64_format (padded_of G.grammar) bytes.now) }
    ensures no_memory { IfErr result (λ e. e.cause ≢ Memory) }
{
    if let Ok((groups, rest)) = read_few_groups(bytes) {
        return Ok((groups.sum, rest));
    }
    let (groups, rest) = read_groups(bytes, 10)?;
    if groups.sum < 1 << 64 {
        Ok((groups.sum as u64, rest))
    } else {
        Err(ReadFault::TooLarge.just_before(rest))
    }
}

/// Decodes a signed number of 32 bits. Out of line, for those of several bytes.
#[inline(never)]
#[tactic(auto, using(crate::proofs::DecodeNumbers::s32_steps))]
fn read_long_i32<G: Grammar>(bytes: &[u8]) -> Result<(i32, &[u8]), DecodeError>
    ensures found { IfOk result (λ x. Decodes s32 (padded_of G.grammar) bytes.now x.0 x.1.now) }
    ensures none { IfErr result (λ e. e.cause ≢ Memory → Rejects s32 (padded_of G.grammar) bytes.now) }
    ensures no_memory { IfErr result (λ e. e.cause ≢ Memory) }
{
    let (groups, rest) = read_few_groups(bytes)?;
    let value = signed_few(groups);
    if value < -0x8000_0000 {
        return Err(ReadFault::TooLarge.just_before(rest));
    }
    if value < 0x8000_0000 {
        Ok((value as i32, rest))
    } else {
        Err(ReadFault::TooLarge.just_before(rest))
    }
}

/// Decodes a signed number of 64 bits. Out of line, for those of several bytes.
#[inline(never)]
#[tactic(auto, using(crate::proofs::DecodeNumbers::s64_steps))]
fn read_long_i64<G: Grammar>(bytes: &[u8]) -> Result<(i64, &[u8]), DecodeError>
    ensures found { IfOk result (λ x. Decodes s64 (padded_of G.grammar) bytes.now x.0 x.1.now) }
    ensures none { IfErr result (λ e. e.cause ≢ Memory → Rejects s64 (padded_of G.grammar) bytes.now) }
    ensures no_memory { IfErr result (λ e. e.cause ≢ Memory) }
{
    if let Ok((groups, rest)) = read_few_groups(bytes) {
        return Ok((signed_few(groups), rest));
    }
    let (groups, rest) = read_groups(bytes, 10)?;
    let value = signed(groups);
    if value < -0x8000_0000_0000_0000 {
        return Err(ReadFault::TooLarge.just_before(rest));
    }
    if value < 0x8000_0000_0000_0000 {
        Ok((value as i64, rest))
    } else {
        Err(ReadFault::TooLarge.just_before(rest))
    }
}

impl Layout for u32 {
    ghost Value = { ℕ };

    ghost format = { u32_format };

    ghost view = { λ n. n };

    #[tactic(auto, using(crate::proofs::NumberLaws::u32_unambiguous))]
    fn laws() {}
}

impl<'a, A: Allocator + Copy, G: Grammar> Readable<'a, A, G> for u32 {
    ghost may_allocate = { ⊥ };

    #[tactic(auto, using(crate::proofs::DecodeNumbers::u32_steps))]
    #[inline]
    fn read(bytes: &'a [u8], _alloc: A) -> Result<(u32, &'a [u8]), DecodeError> {
        if let [b, rest @ ..] = bytes {
            if *b < 0x80 {
                return Ok((u32::from(*b), rest));
            }
        }
        read_long_u32::<G>(bytes)
    }
}

impl Layout for u64 {
    ghost Value = { ℕ };

    ghost format = { u64_format };

    ghost view = { λ n. n };

    #[tactic(auto, using(crate::proofs::BaseLaws::u64_unambiguous))]
    fn laws() {}
}

impl<'a, A: Allocator + Copy, G: Grammar> Readable<'a, A, G> for u64 {
    ghost may_allocate = { ⊥ };

    #[tactic(auto, using(crate::proofs::DecodeNumbers::u64_steps))]
    #[inline]
    fn read(bytes: &'a [u8], _alloc: A) -> Result<(u64, &'a [u8]), DecodeError> {
        if let [b, rest @ ..] = bytes {
            if *b < 0x80 {
                return Ok((u64::from(*b), rest));
            }
        }
        read_long_u64::<G>(bytes)
    }
}

impl Layout for i32 {
    ghost Value = { ℤ };

    ghost format = { s32 };

    ghost view = { λ n. n };

    #[tactic(auto, using(crate::proofs::BaseLaws::s32_unambiguous))]
    fn laws() {}
}

impl<'a, A: Allocator + Copy, G: Grammar> Readable<'a, A, G> for i32 {
    ghost may_allocate = { ⊥ };

    #[tactic(auto, using(crate::proofs::DecodeNumbers::s32_steps))]
    #[inline]
    fn read(bytes: &'a [u8], _alloc: A) -> Result<(i32, &'a [u8]), DecodeError> {
        if let [b, rest @ ..] = bytes {
            if *b < 0x80 {
                return Ok((i32::from(signed_byte(*b)), rest));
            }
        }
        read_long_i32::<G>(bytes)
    }
}

impl Layout for i64 {
    ghost Value = { ℤ };

    ghost format = { s64 };

    ghost view = { λ n. n };

    #[tactic(auto, using(crate::proofs::BaseLaws::s64_unambiguous))]
    fn laws() {}
}

impl<'a, A: Allocator + Copy, G: Grammar> Readable<'a, A, G> for i64 {
    ghost may_allocate = { ⊥ };

    #[tactic(auto, using(crate::proofs::DecodeNumbers::s64_steps))]
    #[inline]
    fn read(bytes: &'a [u8], _alloc: A) -> Result<(i64, &'a [u8]), DecodeError> {
        if let [b, rest @ ..] = bytes {
            if *b < 0x80 {
                return Ok((i64::from(signed_byte(*b)), rest));
            }
        }
        read_long_i64::<G>(bytes)
    }
}

/// Decodes an index, encoded as a signed number of 33 bits. Negative numbers encode types, whose
/// known bytes the caller has already matched.
///
/// # Errors
///
/// An error means that no such index is at the front.
#[tactic(auto, using(crate::proofs::DecodeNumbers::index_steps))]
#[inline]
pub fn read_index<G: Grammar>(bytes: &[u8]) -> Result<(u32, &[u8]), DecodeError>
    ensures found { IfOk result (λ x. Decodes s33 (padded_of G.grammar) bytes.now x.0 x.1.now) }
    ensures none { IfErr result (λ e. e.cause ≢ Memory → Rejects s33 (padded_of G.grammar) bytes.now) }
    ensures no_memory { IfErr result (λ e. e.cause ≢ Memory) }
{
    let (groups, rest) = read_few_groups(bytes)?;
    if groups.last >= 0x40 {
        return Err(ReadFault::UnknownTag.just_before(rest));
    }
    if groups.sum < 1 << 32 {
        Ok((groups.sum as u32, rest))
    } else {
        Err(ReadFault::TooLarge.just_before(rest))
    }
}

impl Shorten for u32 {
    ghost grammars = { both_grammars };

    #[tactic(auto, using(crate::proofs::DecodePlain::u32_appended))]
    fn write_minimal<B: Allocator>(&self, sink: &mut Vec<u8, B>) -> Result<()> {
        self.encode(sink)
    }
}

impl Canonical for u32 {
    #[tactic(auto, using(crate::proofs::GrammarLaws::u32_canonical))]
    fn canonical() {}
}

impl<G: Grammar> Walk<G> for u32 {
    #[inline]
    fn walk<'a, A: Allocator + Copy, E: Effect>(
        bytes: &'a [u8],
        alloc: A,
        effect: &mut E,
    ) -> Result<&'a [u8], DecodeError> {
        walk_value::<u32, A, G, _>(bytes, alloc, effect)
    }
}

impl Canonical for i32 {
    #[tactic(auto, using(crate::proofs::GrammarLaws::s32_canonical))]
    fn canonical() {}
}

impl<G: Grammar> Walk<G> for i32 {
    #[inline]
    fn walk<'a, A: Allocator + Copy, E: Effect>(
        bytes: &'a [u8],
        alloc: A,
        effect: &mut E,
    ) -> Result<&'a [u8], DecodeError> {
        walk_value::<i32, A, G, _>(bytes, alloc, effect)
    }
}

impl Canonical for i64 {
    #[tactic(auto, using(crate::proofs::GrammarLaws::s64_canonical))]
    fn canonical() {}
}

impl<G: Grammar> Walk<G> for i64 {
    #[inline]
    fn walk<'a, A: Allocator + Copy, E: Effect>(
        bytes: &'a [u8],
        alloc: A,
        effect: &mut E,
    ) -> Result<&'a [u8], DecodeError> {
        walk_value::<i64, A, G, _>(bytes, alloc, effect)
    }
}
