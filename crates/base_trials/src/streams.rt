//! Sources and sinks: in memory, over files, and over streams that break.

use mesa_base::{Failed, InSource, MemorySink, MemorySource, Numbers, OutSink, Sink, Source};
use std::alloc::Global;
use std::io::{ErrorKind, Read, Write};
use std::test::Fail;
use std::{fs, io};

fn gives<S: Source>(source: &mut S, wanted: Option<u8>) -> bool {
    match source.next() {
        Ok(byte) => byte == wanted,
        Err(Failed) => false,
    }
}

fn source_in_memory(alloc: Global) -> Result<bool, Fail> {
    let failing = Numbers::from_slice(alloc, &[1, 3])?;
    let mut source = MemorySource::new(alloc, b"ab", failing)?;
    let begins = gives(&mut source, Some(b'a')) && source.next().is_err();
    let goes_on = begins && gives(&mut source, Some(b'b')) && source.next().is_err();
    Ok(goes_on && gives(&mut source, None) && gives(&mut source, None))
}

#[test]
fn sources_in_memory(rt: HostRuntime) -> Result<(), Fail> {
    assert!(rt; source_in_memory(rt.alloc())?);
    Ok(())
}

/// Whether a piece is taken or not, and what then is there.
fn takes(sink: &mut MemorySink, piece: &[u8], is_taken: bool, bytes: &[u8]) -> bool {
    sink.put(piece).is_ok() == is_taken && sink.bytes() == bytes
}

fn sink_in_memory(alloc: Global) -> Result<bool, Fail> {
    let failing = Numbers::from_slice(alloc, &[1, 3])?;
    let mut sink = MemorySink::new(alloc, 9, failing)?;
    let begins = takes(&mut sink, b"abc", true, b"abc")
        && takes(&mut sink, b"defgh", false, b"abcde");
    let goes_on = begins
        && takes(&mut sink, b"", true, b"abcde")
        && takes(&mut sink, b"ij", true, b"abcdeij");
    let is_full = goes_on && takes(&mut sink, b"klmnopq", false, b"abcdeijkl");
    Ok(is_full && takes(&mut sink, b"r", false, b"abcdeijkl"))
}

#[test]
fn sinks_in_memory(rt: HostRuntime) -> Result<(), Fail> {
    assert!(rt; sink_in_memory(rt.alloc())?);
    Ok(())
}

#[test]
fn streams(rt: HostRuntime) -> Result<(), Fail> {
    let mut sink = OutSink::new(fs::create(&rt, "base_trials_streams.tmp")?);
    assert!(rt; sink.put(b"a").is_ok() && sink.put(b"").is_ok() && sink.put(b"b").is_ok());
    let mut source = InSource::new(fs::open(&rt, "base_trials_streams.tmp")?);
    assert!(rt; gives(&mut source, Some(b'a')) && gives(&mut source, Some(b'b')));
    assert!(rt; gives(&mut source, None) && gives(&mut source, None));
    fs::remove_file(&rt, "base_trials_streams.tmp")?;
    Ok(())
}

#[derive(Drop)]
struct Narrow {
    room: usize,
}

impl Write for Narrow {
    fn write(&mut self, buf: &[u8]) -> io::Result<usize> {
        let taken = buf.len().min(self.room).min(1);
        self.room -= taken;
        Ok(taken)
    }

    fn flush(&mut self) -> io::Result<()> {
        Ok(())
    }
}

#[derive(Drop)]
struct Broken;

impl Read for Broken {
    fn read(&mut self, _buf: &mut [u8]) -> io::Result<usize> {
        Err(io::Error::from(ErrorKind::BrokenPipe))
    }
}

#[test]
fn broken_streams(rt: HostRuntime) {
    let mut sink = OutSink::new(Narrow { room: 3 });
    assert!(rt; sink.put(b"ab").is_ok() && sink.put(b"ab").is_err() && sink.put(b"ab").is_err());
    assert!(rt; InSource::new(Broken).next().is_err());
}
