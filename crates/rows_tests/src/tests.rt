//! What no case can say: streams that fail in mid-stream, the system's own streams and clock, and
//! boxes.

use folder_core::ScanError;
use folder_drivers::{Drivers, DriversError};
use mail_base::{
    Bytes, Clock, Kind, Line, MemoryClock, MemorySink, MemorySource, NoMemory, Numbers, ReadFault,
    RealClock, Sink, Source, StdSink, StdSource, WriteFault,
};
use maildir_folder::MaildirDriver;
use mh_folder::MhDriver;
use std::alloc::Global;
use std::io;
use std::test::Fail;

#[test]
fn lists_and_lines_grow(rt: HostRuntime) -> Result<(), Fail> {
    let mut numbers = Numbers::new(rt.alloc());
    numbers.reserve(2)?;
    for n in [3, 5, 7] {
        numbers.push(n)?;
    }
    assert_eq!(rt; numbers.len(), 3);
    numbers.shorten(2);
    assert_eq!(rt; numbers.as_slice(), [3, 5].as_slice());
    let mut line = Line::copy_of(rt.alloc(), "é".as_bytes())?;
    line.reserve(1)?;
    line.push(b'!')?;
    line.append("ö")?;
    assert_eq!(rt; line.as_slice(), "é!ö".as_bytes());
    Ok(())
}

fn numbered(alloc: Global, numbers: &[u64]) -> Result<Numbers, NoMemory> {
    let mut list = Numbers::new(alloc);
    for n in numbers {
        list.push(*n)?;
    }
    Ok(list)
}

#[test]
fn memory_streams_fail_where_they_are_told_to(rt: HostRuntime) -> Result<(), Fail> {
    let alloc = rt.alloc();
    let mut source = MemorySource::new(Bytes::copy_of(alloc, b"ab")?, numbered(alloc, &[1])?);
    assert_eq!(rt; source.next_byte(), Ok(Some(b'a')));
    assert_eq!(rt; source.next_byte(), Err(ReadFault));
    assert_eq!(rt; source.next_byte(), Ok(Some(b'b')));
    assert_eq!(rt; source.next_byte(), Ok(None));
    let mut sink = MemorySink::new(alloc, 3, numbered(alloc, &[1])?)?;
    assert_eq!(rt; sink.put_all(b"ab"), Ok(()));
    assert_eq!(rt; sink.put_all(b"c"), Err(WriteFault));
    assert_eq!(rt; sink.put_all(b"cd"), Err(WriteFault));
    assert_eq!(rt; sink.put_all(b"c"), Ok(()));
    assert_eq!(rt; sink.written().as_slice(), b"abc".as_slice());
    Ok(())
}

#[test]
fn a_clock_in_memory_keeps_its_last_moment(rt: HostRuntime) -> Result<(), Fail> {
    let alloc = rt.alloc();
    let mut clock = MemoryClock::new(numbered(alloc, &[5, u64::MAX])?);
    assert_eq!(rt; clock.now(), 5);
    assert_eq!(rt; clock.now(), i64::MAX);
    assert_eq!(rt; clock.now(), i64::MAX);
    assert_eq!(rt; MemoryClock::new(Numbers::new(alloc)).now(), 0);
    Ok(())
}

#[derive(Drop)]
struct Broken;

impl io::Read for Broken {
    fn read(&mut self, _buffer: &mut [u8]) -> io::Result<usize> {
        Err(io::Error::from(io::ErrorKind::Other))
    }
}

impl io::Write for Broken {
    fn write(&mut self, _bytes: &[u8]) -> io::Result<usize> {
        Ok(0)
    }

    fn flush(&mut self) -> io::Result<()> {
        Ok(())
    }
}

#[test]
fn std_streams_pass_on_what_std_tells(rt: HostRuntime) -> Result<(), Fail> {
    let mut source = StdSource::new(b"ab".as_slice());
    assert_eq!(rt; source.next_byte(), Ok(Some(b'a')));
    assert_eq!(rt; source.next_byte(), Ok(Some(b'b')));
    assert_eq!(rt; source.next_byte(), Ok(None));
    let mut sink = StdSink::new(Vec::new(rt.alloc()));
    assert_eq!(rt; sink.put_all(b"some bytes"), Ok(()));
    assert_eq!(rt; StdSource::new(Broken).next_byte(), Err(ReadFault));
    assert_eq!(rt; StdSink::new(Broken).put_all(b"x"), Err(WriteFault));
    Ok(())
}

#[test]
fn the_system_tells_the_time(rt: HostRuntime) -> Result<(), Fail> {
    let mut clock = RealClock::new(rt.clone()?);
    let now = clock.now();
    assert!(rt; now > 1_700_000_000, "it was {now}");
    Ok(())
}

#[test]
fn each_kind_has_one_driver(rt: HostRuntime) -> Result<(), Fail> {
    let alloc = rt.alloc();
    let mut drivers = Drivers::new(alloc);
    for wanted in [Ok(()), Err(DriversError::Twice)] {
        let handlers = Box::new(alloc, MhDriver::new())?;
        assert_eq!(rt; drivers.add(handlers), wanted);
        let maildirs = Box::new(alloc, MaildirDriver::new())?;
        assert_eq!(rt; drivers.add(maildirs), wanted);
    }
    for (kind, there) in [
        (Kind::Mh, true),
        (Kind::Maildir, true),
        (Kind::Mbox, false),
        (Kind::Mmdf, false),
    ] {
        assert_eq!(rt; drivers.has(kind), there, "{kind:?}");
    }
    Ok(())
}

#[test]
fn errors_say_what_is_wrong(rt: HostRuntime) -> Result<(), Fail> {
    let rows = [
        (ScanError::Missing, "missing"),
        (ScanError::NotMailbox(12), "not a mailbox (12)"),
        (ScanError::TooMany(65_536), "too many messages (65536)"),
        (ScanError::TooLarge(536_870_913), "too large (536870913)"),
        (ScanError::Unfinished, "unfinished"),
        (ScanError::ArchiveFull, "archive full"),
        (ScanError::Fault, "disk fault"),
        (ScanError::NoMemory, "no memory"),
    ];
    for (error, wanted) in rows {
        let said = format!(in rt.alloc(); "{error}")?;
        assert_eq!(rt; said.as_str(), wanted, "{error:?}");
    }
    for (error, wanted) in [
        (DriversError::Twice, "a driver of this kind is there"),
        (DriversError::NoMemory, "no memory"),
    ] {
        let said = format!(in rt.alloc(); "{error}")?;
        assert_eq!(rt; said.as_str(), wanted, "{error:?}");
    }
    Ok(())
}
