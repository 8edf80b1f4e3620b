//! Readers and writers that fail at a call that a test selects.
ghost use Rattle.std.specs.Prelude.{◌≡◌, ◌+◌, ◌-◌, ◌<◌, ◌↔◌, Some, None, IsOk, IsErr, IsOkAnd, IfOk, [], min, length, slice_set};
ghost use Rattle.std.specs.Io.KnownBytes.{Keeps, ReadConsumes, WriteAppends};
ghost use Rattle.std.specs.Io.{ReadsAtMost, WritesAtMost};

use std::alloc::Allocator;
use std::io::{Error, ErrorKind, Read, Result, Write};

/// Counts calls down to the one that fails.
#[derive(Drop)]
struct Countdown {
    left: u64,
}

impl Countdown {
    /// Fails if this call is the one that is to fail.
    fn step(&mut self) -> Result<()>
        ensures fails { IsErr result ↔ (self.old.left ≡ 1) }
        ensures counts { self.new.left ≡ self.old.left - 1 }
    {
        let is_failing = self.left == 1;
        self.left = self.left.saturating_sub(1);
        if is_failing {
            return Err(Error::from(ErrorKind::Other));
        }
        Ok(())
    }
}

/// A reader of bytes, which returns them in chunks. One of its reads fails, if a test wants that.
/// A failed read consumes nothing, and the reads after it continue.
#[derive(Drop)]
pub struct FailingReader<'a> {
    text: &'a [u8],
    chunk: usize,
    countdown: Countdown,
    ghost positive: { 0 < chunk },
}

impl<'a> FailingReader<'a> {
    /// Returns a reader whose reads return at most `chunk` bytes. The read numbered `failing`
    /// fails, counted from 1; at 0 none does.
    pub fn new(text: &'a [u8], chunk: usize, failing: u64) -> FailingReader<'a>
        requires { 0 < chunk }
        ensures text { result.text.now ≡ text.now }
        ensures chunk { result.chunk ≡ chunk }
        ensures failing { result.countdown.left ≡ failing }
    {
        FailingReader {
            text,
            chunk,
            countdown: Countdown { left: failing },
        }
    }
}

impl Read for FailingReader<'_> {
    ghost remaining = { λ r. Some r.text.now };

    fn read(&mut self, buf: &mut [u8]) -> Result<usize>
        ensures bound { ReadsAtMost result buf.new }
        ensures bytes { ReadConsumes (Some self.old.text.now) (Some self.new.text.now) result
            buf.new }
        ensures count { let piece = min (length self.old.text.now) self.old.chunk in
            IfOk result (λ n. n ≡ min piece (length buf.new)) }
        ensures fails { IsErr result ↔ (self.old.countdown.left ≡ 1) }
        ensures counts { self.new.countdown.left ≡ self.old.countdown.left - 1 }
        ensures chunk { self.new.chunk ≡ self.old.chunk }
    {
        self.countdown.step()?;
        let count = self.text.len().min(self.chunk).min(buf.len());
        buf[..count].copy_from_slice(&self.text[..count]);
        self.text = &self.text[count..];
        Ok(count)
    }
}

/// A reader that never ends: it returns one space at each read, and counts its reads.
#[derive(Drop)]
pub struct EndlessReader {
    reads: u64,
}

impl EndlessReader {
    /// Returns a reader that has made no read yet.
    pub fn new() -> EndlessReader
        ensures { result.reads ≡ 0 }
    {
        EndlessReader { reads: 0 }
    }

    /// Returns the number of reads. It stops at `u64::MAX`.
    pub fn reads(&self) -> u64
        ensures { result ≡ self.now.reads }
    {
        self.reads
    }
}

impl Read for EndlessReader {
    fn read(&mut self, buf: &mut [u8]) -> Result<usize>
        ensures bound { ReadsAtMost result buf.new }
        ensures bytes { ReadConsumes None None result buf.new }
        ensures count { IsOkAnd result (λ n. n ≡ min 1 (length buf.new)) }
        ensures space { buf.new ≡ slice_set buf.old 0 32 }
        ensures counts { self.new.reads ≡ min (self.old.reads + 1) u64.MAX }
    {
        self.reads = self.reads.saturating_add(1);
        match buf.first_mut() {
            Some(first) => {
                *first = b' ';
                Ok(1)
            }
            None => Ok(0),
        }
    }
}

/// A writer that keeps the bytes that are written. One of its writes fails, if a test wants that.
/// A failed write keeps nothing, and the writes after it continue.
#[derive(Drop)]
pub struct FailingWriter<A: Allocator> {
    written: Vec<u8, A>,
    countdown: Countdown,
}

impl<A: Allocator> FailingWriter<A> {
    /// Returns a writer that keeps its bytes in memory of `alloc`. A write also fails if an
    /// allocation does, and then keeps nothing. The write numbered `failing` fails, counted from 1;
    /// at 0 none does.
    pub fn new(alloc: A, failing: u64) -> FailingWriter<A>
        ensures bytes { result.written.items ≡ [] }
        ensures failing { result.countdown.left ≡ failing }
    {
        FailingWriter {
            written: Vec::new(alloc),
            countdown: Countdown { left: failing },
        }
    }

    /// Returns the bytes that were written so far.
    pub fn bytes(&self) -> &[u8]
        ensures { result.now ≡ self.now.written.items }
    {
        self.written.as_slice()
    }
}

impl<A: Allocator> Write for FailingWriter<A> {
    ghost contents = { λ w. Some w.written.items };

    fn write(&mut self, buf: &[u8]) -> Result<usize>
        ensures bound { WritesAtMost result buf.now }
        ensures bytes { WriteAppends (Some self.old.written.items) (Some self.new.written.items)
            result buf.now }
        ensures whole { IfOk result (λ n. n ≡ length buf.now) }
        ensures fails { self.old.countdown.left ≡ 1 → IsErr result }
        ensures counts { self.new.countdown.left ≡ self.old.countdown.left - 1 }
    {
        self.countdown.step()?;
        self.written.extend_from_slice(buf)?;
        Ok(buf.len())
    }

    fn flush(&mut self) -> Result<()>
        ensures bytes { Keeps (Some self.old.written.items) (Some self.new.written.items) }
        ensures ok { IsOk result }
        ensures same { self.new ≡ self.old }
    {
        Ok(())
    }
}
