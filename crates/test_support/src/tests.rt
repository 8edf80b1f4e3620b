//! Tests of facts that no clause states: the behaviour of a cell, and that each call can succeed.
use crate::{EndlessReader, FailingReader, FailingWriter, Refusing};
use std::alloc::Allocator;
use std::io::{Read, Write};
use std::test::Fail;

/// Makes one request, and returns `true` if it was granted.
fn is_granted<B: Allocator>(heap: &Refusing<B>) -> bool {
    let mut bytes = Vec::new(heap);
    bytes.push(0).is_ok()
}

#[test]
fn one_request_is_refused(rt: HostRuntime) {
    let heap = Refusing::new(rt.alloc());
    for nth in 0..4 {
        heap.refuse(nth);
        assert_eq!(rt; heap.requests(), 0);
        assert_eq!(rt; heap.is_waiting(), 0 < nth);
        for number in 1..6 {
            assert_eq!(rt;
                is_granted(&heap),
                number != nth,
                "request {number}, not {nth}"
            );
            assert_eq!(rt; heap.requests(), number);
            assert_eq!(rt; heap.is_waiting(), number < nth);
        }
    }
}

#[test]
fn every_request_is_refused(rt: HostRuntime) {
    let heap = Refusing::new(rt.alloc());
    assert!(rt; is_granted(&heap));
    assert!(rt; !heap.is_waiting());
    assert_eq!(rt; heap.requests(), 1);
    heap.refuse_all();
    assert!(rt; heap.is_waiting());
    for number in 1..4 {
        assert!(rt; !is_granted(&heap));
        assert!(rt; !heap.is_waiting());
        assert_eq!(rt; heap.requests(), number);
    }
    heap.refuse(2);
    assert!(rt; is_granted(&heap));
    assert!(rt; !is_granted(&heap));
    assert!(rt; is_granted(&heap));
}

#[test]
fn a_growth_is_a_request(rt: HostRuntime) {
    let heap = Refusing::new(rt.alloc());
    let mut bytes = Vec::new(&heap);
    heap.refuse(2);
    for byte in 0..100 {
        if bytes.push(byte).is_err() {
            break;
        }
    }
    assert_eq!(rt; heap.requests(), 2);
    let kept = bytes.len();
    assert!(rt; 0 < kept && kept < 100);
    assert!(rt; bytes.push(7).is_ok());
    assert_eq!(rt; heap.requests(), 3);
    assert_eq!(rt; bytes.len(), kept + 1);
}

#[test]
fn one_read_fails(rt: HostRuntime) {
    for failing in 0..6 {
        let mut reader = FailingReader::new(b"abcde", 2, failing);
        let mut numbers = 1..6;
        for piece in ["ab", "cd", "e", ""] {
            let mut buf = [0; 4];
            if numbers.next() == Some(failing) {
                assert!(rt; reader.read(&mut buf).is_err());
                numbers.next();
            }
            assert_eq!(rt; reader.read(&mut buf).ok(), Some(piece.len()));
            assert!(rt; buf.starts_with(piece.as_bytes()), "{piece} at {failing}");
        }
    }
}

#[test]
fn a_text_is_read(rt: HostRuntime) {
    for (failing, want) in [
        (0, "abcde"),
        (1, ""),
        (2, "abc"),
        (3, "abcde"),
        (4, "abcde"),
    ] {
        let mut reader = FailingReader::new(b"abcde", 3, failing);
        let mut bytes = Vec::new(rt.alloc());
        let is_ok = reader.read_to_end(&mut bytes).is_ok();
        assert_eq!(rt; bytes.as_slice(), want.as_bytes());
        assert_eq!(rt; is_ok, failing == 0 || failing == 4);
    }
}

#[test]
fn spaces_never_end(rt: HostRuntime) -> Result<(), Fail> {
    let mut reader = EndlessReader::new();
    assert_eq!(rt; reader.reads(), 0);
    assert_eq!(rt; reader.read(&mut [])?, 0);
    for number in 2..5 {
        let mut buf = [0; 3];
        assert_eq!(rt; reader.read(&mut buf)?, 1);
        assert_eq!(rt; buf, [b' ', 0, 0]);
        assert_eq!(rt; reader.reads(), number);
    }
    let mut bytes = [0; 3];
    reader.read_exact(&mut bytes)?;
    assert_eq!(rt; bytes, *b"   ");
    assert_eq!(rt; reader.reads(), 7);
    Ok(())
}

#[test]
fn one_write_fails(rt: HostRuntime) -> Result<(), Fail> {
    for (failing, want) in [
        (0, "abcdef"),
        (1, "cdef"),
        (2, "abef"),
        (3, "abcd"),
        (4, "abcdef"),
    ] {
        let mut writer = FailingWriter::new(rt.alloc(), failing);
        for (number, piece) in [(1, "ab"), (2, "cd"), (3, "ef")] {
            let count = if number == failing { None } else { Some(2) };
            assert_eq!(rt; writer.write(piece.as_bytes()).ok(), count);
        }
        writer.flush()?;
        assert_eq!(rt; writer.bytes(), want.as_bytes());
    }
    Ok(())
}

#[test]
fn a_write_has_no_memory(rt: HostRuntime) {
    let heap = Refusing::new(rt.alloc());
    heap.refuse(1);
    let mut writer = FailingWriter::new(&heap, 0);
    assert!(rt; writer.write_all(b"ab").is_err());
    assert!(rt; writer.bytes().is_empty());
    assert!(rt; writer.write_all(b"cd").is_ok());
    assert_eq!(rt; writer.bytes(), b"cd".as_slice());
}
