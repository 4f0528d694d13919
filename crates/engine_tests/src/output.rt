// Standard output, and what stands in for it.
use site_edge::{OutSink, Sink, SinkFault};
use std::alloc::AllocError;
use std::cell::RefCell;
use std::fmt::Display;
use std::io;
use std::process::Abort;
use std::test::Fail;

/// Standard output that keeps what is written.
#[derive(Drop)]
struct Kept<'a> {
    bytes: &'a RefCell<Vec<u8>>,
}

impl io::Print for Kept<'_> {
    fn print<D: Display + Drop>(&self, _: D) -> io::Result<()> {
        Ok(())
    }

    fn println<D: Display + Drop>(&self, _: D) -> io::Result<()> {
        Ok(())
    }

    fn write_all(&self, bytes: &[u8]) -> io::Result<()> {
        match self.bytes.try_borrow_mut() {
            Ok(mut kept) => kept.extend_from_slice(bytes)?,
            Err(_) => return Err(io::Error::from(io::ErrorKind::Other)),
        }
        Ok(())
    }
}

/// How many bytes were written.
fn count(bytes: &RefCell<Vec<u8>>) -> usize {
    match bytes.try_borrow() {
        Ok(kept) => kept.len(),
        Err(_) => usize::MAX,
    }
}

/// Puts each piece, and expects that it is taken.
fn put_all(rt: &impl Abort, out: &mut impl Sink, pieces: &[&[u8]]) {
    for piece in pieces {
        assert!(rt; out.put(piece) == Ok(()));
    }
}

/// Puts so many bytes as one piece, and adds them to those that were put.
fn put_many<R: Abort + AllocGlobal, S: Sink>(
    rt: &R,
    out: &mut S,
    whole: &mut Vec<u8>,
    byte: u8,
    length: usize,
) -> Result<(), AllocError> {
    let piece = vec![in rt.alloc(); byte; length]?;
    assert!(rt; out.put(piece.as_slice()) == Ok(()));
    whole.extend_from_slice(piece.as_slice())
}

/// Puts pieces of which none is written before a flush.
fn put_few<R: Abort + AllocGlobal>(rt: &R, bytes: &RefCell<Vec<u8>>) {
    let mut out = OutSink::new(rt.alloc(), Kept { bytes });
    put_all(rt, &mut out, &[b"ab\n", b"", b"\xff\0", b"c"]);
    assert!(rt; count(bytes) == 0);
    assert!(rt; out.flush() == Ok(()));
    assert!(rt; out.flush() == Ok(()));
}

#[test]
fn pieces_are_written_whole_by_a_flush(rt: HostRuntime) -> Result<(), Fail> {
    let bytes = RefCell::new(Vec::new(rt.alloc()));
    put_few(&rt, &bytes);
    assert!(rt; bytes.into_inner().as_slice() == b"ab\n\xff\0c".as_slice());
    Ok(())
}

/// Puts more than is kept back, and gives all that was put.
fn put_much<R: Abort + AllocGlobal>(
    rt: &R,
    bytes: &RefCell<Vec<u8>>,
) -> Result<Vec<u8>, AllocError> {
    let mut out = OutSink::new(rt.alloc(), Kept { bytes });
    let mut whole = Vec::new(rt.alloc());
    for (byte, length, written) in &[
        (b'a', 40_000, 0),
        (b'b', 40_000, 40_000),
        (b'c', 70_000, 150_000),
    ] {
        put_many(rt, &mut out, &mut whole, *byte, *length)?;
        assert!(rt; count(bytes) == *written);
    }
    put_many(rt, &mut out, &mut whole, b'd', 1)?;
    assert!(rt; out.flush() == Ok(()));
    Ok(whole)
}

/// 40,000 bytes twice are more than are kept back, and 70,000 are more than that alone.
#[test]
fn many_bytes_are_written_in_their_order(rt: HostRuntime) -> Result<(), Fail> {
    let bytes = RefCell::new(Vec::new(rt.alloc()));
    let whole = put_much(&rt, &bytes)?;
    assert!(rt; bytes.into_inner().as_slice() == whole.as_slice());
    Ok(())
}

/// Standard output that takes no byte.
#[derive(Clone, Copy)]
struct Stuck;

impl io::Print for Stuck {
    fn print<D: Display + Drop>(&self, _: D) -> io::Result<()> {
        Ok(())
    }

    fn println<D: Display + Drop>(&self, _: D) -> io::Result<()> {
        Ok(())
    }

    fn write_all(&self, _: &[u8]) -> io::Result<()> {
        Err(io::Error::from(io::ErrorKind::WriteZero))
    }
}

/// Puts and flushes nothing, which is no fault.
fn flush_nothing(rt: &impl Abort, out: &mut impl Sink) {
    assert!(rt; out.put(b"") == Ok(()));
    assert!(rt; out.flush() == Ok(()));
}

/// Bytes that are kept back are lost by a flush that fails, and those that aren't kept back by their own call.
fn write_in_vain(rt: &impl Abort, out: &mut impl Sink, long: &[u8]) {
    assert!(rt; out.put(b"a") == Ok(()));
    assert!(rt; out.flush() == Err(SinkFault::Failed));
    assert!(rt; out.flush() == Ok(()));
    assert!(rt; out.put(long) == Err(SinkFault::Failed));
}

#[test]
fn a_refused_write_is_a_fault(rt: HostRuntime) -> Result<(), Fail> {
    flush_nothing(&rt, &mut OutSink::new(rt.alloc(), &rt));
    let long = vec![in rt.alloc(); b'a'; 70_000]?;
    write_in_vain(&rt, &mut OutSink::new(rt.alloc(), Stuck), long.as_slice());
    Ok(())
}
