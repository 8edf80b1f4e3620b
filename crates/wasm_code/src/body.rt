// Lists of instructions and function bodies: decoded, skipped and minimized.
ghost use Rattle.std.specs.Prelude.{◌≡◌, ◌≢◌, IfOk, IfErr, Err, OnOk, OnErr, map, List};
ghost use Rattle.wasm_base.specs.Formats.{members, size_prefixed};
ghost use Rattle.wasm_base.specs.Continuing.{RejectsWhole};
ghost use Rattle.wasm_base.specs.Numbers.{padded, padded_of};
ghost use Rattle.wasm_insn.specs.Plain.{instruction, Plain as PlainInstruction};
ghost use Rattle.wasm_insn.specs.Table.{table};
ghost use Rattle.wasm_code.specs.Bodies.{Body as BodyModel, body};
ghost use Rattle.wasm_base.specs.declared.refused.Refused.TheVariants.{TooLong};
ghost use Rattle.wasm_base.specs.Minimal.{AppendsMinimal, IsFrontOf, HasEncoding, MinimizesWhole, builders_alone};
ghost use Rattle.wasm_base.specs.Walks.{Keeps, WalksWhole};
ghost use Rattle.wasm_base.specs.declared.fault.ReadFault.TheVariants.{Memory};
ghost use Rattle.wasm_insn.specs.Views.{plain_view};
ghost use Rattle.wasm_code.specs.BodyViews.{body_view};

use std::alloc::{Allocator, Global};
use wasm_base::{
    DecodeError, Effect, Grammar, Layout, Padded, Readable, Result, Shorten, ValType, Walk,
    prefix_size_since, walk_to_end,
};
use wasm_insn::Plain;

/// The capacity of a new list allows for one instruction per this many bytes. The list grows if
/// they are shorter.
const BYTES_OF_ONE: usize = 2;

/// Decodes instructions that occupy all of the bytes.
///
/// # Errors
///
/// Every error except `Memory` means that the bytes as a whole encode no instructions.
pub fn read_code<'a, A: Allocator + Copy, G: Grammar>(
    bytes: &'a [u8],
    alloc: A,
) -> Result<Vec<Plain<A>, A>, DecodeError>
    ensures found { IfOk result (λ x. members (instruction table) (padded_of G.grammar) bytes.now (map plain_view x.items)) }
    ensures none { IfErr result (λ e. e.cause ≢ Memory → RejectsWhole (members (instruction table)) (padded_of G.grammar) bytes.now) }
{
    let capacity = bytes.len() / BYTES_OF_ONE + bytes.len() % BYTES_OF_ONE;
    let mut items = Vec::with_capacity(alloc, capacity)?;
    let mut rest = bytes;
    loop {
        if rest.is_empty() {
            return Ok(items);
        }
        let (item, after) = <Plain<A> as Readable<'a, A, G>>::read(rest, alloc)?;
        items.push(item)?;
        rest = after;
    }
}

/// Appends the minimal encodings of the instructions.
#[tactic(auto, using(wasm_base::proofs::MinimalEncodings::no_members_appended))]
pub(crate) fn append_code<A: Allocator, B: Allocator>(
    code: &[Plain<A>],
    sink: &mut Vec<u8, B>,
) -> Result<()>
    ensures ok { OnOk result (AppendsMinimal builders_alone (members (instruction table)) (map plain_view code.now) sink.old.items sink.new.items) }
    ensures front { IsFrontOf sink.old.items sink.new.items }
    ensures too_long { HasEncoding builders_alone (members (instruction table)) (map plain_view code.now) → result ≢ Err TooLong }
{
    for instruction in code {
        instruction.write_minimal(sink)?;
    }
    Ok(())
}

/// A function body: the runs of its locals, each a count and a type, and its instructions,
/// including each `End`.
#[derive(Debug, Drop)]
pub struct Body<A: Allocator = Global> {
    pub runs: Vec<(u32, ValType), A>,
    pub code: Vec<Plain<A>, A>,
}

/// Decodes a body that occupies all of the bytes, which are a payload without its size prefix.
///
/// # Errors
///
/// Every error except `Memory` means that the bytes as a whole encode no body.
#[tactic(auto, using(crate::proofs::DecodeLists::body_steps))]
pub fn read_body<'a, A: Allocator + Copy, G: Grammar>(
    bytes: &'a [u8],
    alloc: A,
) -> Result<Body<A>, DecodeError>
    ensures found { IfOk result (λ x. body (padded_of G.grammar) bytes.now (body_view x)) }
    ensures none { IfErr result (λ e. e.cause ≢ Memory → RejectsWhole body (padded_of G.grammar) bytes.now) }
{
    let (runs, rest) = <Vec<(u32, ValType), A> as Readable<'a, A, G>>::read(bytes, alloc)?;
    let code = read_code::<A, G>(rest, alloc)?;
    Ok(Body { runs, code })
}

/// A body with its size prefix, as in a code section.
impl<A: Allocator> Layout for Body<A> {
    ghost Value = { BodyModel };

    ghost format = { size_prefixed body };

    ghost view = { body_view };

    #[tactic(auto, using(crate::proofs::BodyLaws::size_prefixed_body_unambiguous))]
    fn laws() {}
}

impl<'a, A: Allocator + Copy, G: Grammar> Readable<'a, A, G> for Body<A> {
    fn read(bytes: &'a [u8], alloc: A) -> Result<(Body<A>, &'a [u8]), DecodeError> {
        let (content, rest) = <&'a [u8] as Readable<'a, A, G>>::read(bytes, alloc)?;
        match read_body::<A, G>(content, alloc) {
            Ok(body) => Ok((body, rest)),
            Err(error) => Err(error.before(rest)),
        }
    }
}

impl<A: Allocator> Shorten for Body<A> {
    ghost grammars = { builders_alone };

    #[tactic(auto, using(crate::proofs::MinimalLists::body_code_encoded))]
    fn write_minimal<B: Allocator>(&self, sink: &mut Vec<u8, B>) -> Result<()> {
        let start = sink.len();
        self.runs.write_minimal(sink)?;
        append_code(&self.code, sink)?;
        prefix_size_since(sink, start)
    }
}

/// Walks over the content of a body, without its size prefix.
#[tactic(auto, using(wasm_base::proofs::WalkLaws::keep_steps))]
fn walk_content<'a, A: Allocator + Copy, G: Grammar, E: Effect>(
    bytes: &'a [u8],
    alloc: A,
    effect: &mut E,
) -> Result<(), DecodeError>
    ensures found { OnOk result (WalksWhole E.seen G.grammar body bytes.now effect.old effect.new) }
    ensures none { IfErr result (λ e. e.cause ≢ Memory → RejectsWhole body (padded_of G.grammar) bytes.now) }
    ensures no_memory { IfErr result (λ e. e.cause ≡ Memory → E.may_fail) }
    ensures front { Keeps E.seen effect.old effect.new }
{
    let rest = <Vec<(u32, ValType), A> as Walk<G>>::walk(bytes, alloc, effect)?;
    walk_to_end::<Plain<A>, A, G, _>(rest, alloc, effect)
}

/// Appends the minimal encoding of the content of a body, without its size prefix. After an error,
/// part of it may follow the old bytes of the sink.
#[tactic(auto, using(wasm_base::proofs::EffectLaws::appending))]
fn minimize_content<A: Allocator + Copy, G: Grammar, B: Allocator>(
    bytes: &[u8],
    alloc: A,
    sink: &mut Vec<u8, B>,
) -> Result<(), DecodeError>
    ensures found { OnOk result (MinimizesWhole G.grammar body bytes.now sink.old.items sink.new.items) }
    ensures none { IfErr result (λ e. e.cause ≢ Memory → RejectsWhole body (padded_of G.grammar) bytes.now) }
    ensures front { IsFrontOf sink.old.items sink.new.items }
{
    walk_content::<A, G, _>(bytes, alloc, sink)
}

/// Appends the minimal encoding of a body with its size prefix. After an error, part of it may
/// follow the old bytes of the sink.
#[tactic(auto, using(wasm_base::proofs::MinimalEncodings::front_steps))]
fn write_body<A: Allocator + Copy, B: Allocator>(
    bytes: &[u8],
    alloc: A,
    sink: &mut Vec<u8, B>,
) -> Result<(), DecodeError>
    ensures found { OnOk result ((x : BodyModel) × body padded bytes.now x × AppendsMinimal builders_alone (size_prefixed body) x sink.old.items sink.new.items) }
    ensures none { IfErr result (λ e. e.cause ≢ Memory → RejectsWhole body padded bytes.now) }
    ensures front { IsFrontOf sink.old.items sink.new.items }
{
    let start = sink.len();
    minimize_content::<A, Padded, _>(bytes, alloc, sink)?;
    prefix_size_since(sink, start)?;
    Ok(())
}

/// Appends the minimal encoding of a function body with its size prefix, as in a code section. The
/// bytes are those of the body without its size prefix. Instructions are minimized one by one. On
/// an error, the sink is unchanged.
///
/// ```text
/// shorten_body(&[0x80, 0x00, 0x20, 0x81, 0x00, 0x0B], alloc, &mut out)?;
/// // 04 00 20 01 0B was appended: a body of no locals, `LocalGet(1)` and `End`
/// ```
///
/// # Errors
///
/// Every error except `Memory` means that the bytes as a whole encode no body.
pub fn shorten_body<A: Allocator + Copy, B: Allocator>(
    bytes: &[u8],
    alloc: A,
    sink: &mut Vec<u8, B>,
) -> Result<(), DecodeError>
    ensures found { OnOk result ((x : BodyModel) × body padded bytes.now x × AppendsMinimal builders_alone (size_prefixed body) x sink.old.items sink.new.items) }
    ensures none { IfErr result (λ e. e.cause ≢ Memory → RejectsWhole body padded bytes.now) }
    ensures err { OnErr result (sink.new.items ≡ sink.old.items) }
{
    let start = sink.len();
    let written = write_body(bytes, alloc, sink);
    if written.is_err() {
        sink.truncate(start);
    }
    written
}

/// Walks over a body with its size prefix, as in a code section.
impl<G: Grammar, C: Allocator> Walk<G> for Body<C> {
    #[tactic(auto, using(wasm_base::proofs::WalkLaws::sized_steps, wasm_base::proofs::DecodeSizePrefixed::filled_steps))]
    fn walk<'a, A: Allocator + Copy, E: Effect>(
        bytes: &'a [u8],
        alloc: A,
        effect: &mut E,
    ) -> Result<&'a [u8], DecodeError> {
        let (content, rest) = <&'a [u8] as Readable<'a, A, G>>::read(bytes, alloc)?;
        let start = effect.position();
        match walk_content::<A, G, _>(content, alloc, effect) {
            Ok(()) => {}
            Err(error) => return Err(error.before(rest)),
        }
        effect.prefix_size(start)?;
        Ok(rest)
    }
}
