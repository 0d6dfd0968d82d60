use super::*;
use cv_values::Text;
use std::alloc::Global;
use std::test::Fail;

#[test]
fn listed_reads_fail(rt: HostRuntime) -> Result<(), Fail> {
    let alloc = rt.alloc();
    let mut source = MemSource::new(b"abc".to_vec(alloc)?, [1].to_vec(alloc)?);
    let mut piece = [0u8; 2];
    assert_eq!(rt; source.read(&mut piece), Ok(2));
    assert_eq!(rt; piece.as_slice(), b"ab".as_slice());
    assert_eq!(rt; source.read(&mut piece), Err(Failed));
    assert_eq!(rt; source.read(&mut piece), Ok(1));
    assert_eq!(rt; piece[0], b'c');
    assert_eq!(rt; source.read(&mut piece), Ok(0));
    Ok(())
}

#[test]
fn a_sink_takes_what_fits(rt: HostRuntime) -> Result<(), Fail> {
    let alloc = rt.alloc();
    let mut sink = MemSink::new(alloc, 3, [0].to_vec(alloc)?)?;
    assert_eq!(rt; sink.write(b"ab"), Err(Failed));
    assert_eq!(rt; sink.write(b"ab"), Ok(2));
    assert_eq!(rt; sink.write(b"cd"), Ok(1));
    assert_eq!(rt; sink.write(b"d"), Err(Failed));
    assert_eq!(rt; sink.bytes(), b"abc".as_slice());
    Ok(())
}

#[test]
fn streams_pass_bytes_on(rt: HostRuntime) -> Result<(), Fail> {
    let alloc = rt.alloc();
    let mut source = StdSource::new(b"abc".as_slice());
    let mut piece = [0u8; 8];
    assert_eq!(rt; source.read(&mut piece), Ok(3));
    assert_eq!(rt; &piece[..3], b"abc".as_slice());
    assert_eq!(rt; source.read(&mut piece), Ok(0));
    let mut sink = StdSink::new(Vec::new(alloc));
    assert_eq!(rt; sink.write(b"abc"), Ok(3));
    Ok(())
}

fn read_with(alloc: Global, fails: &[u64]) -> Result<Result<Vec<u8>, ReadFault>, Fail> {
    let mut bytes = Vec::new(alloc);
    for _ in 0..3000u32 {
        bytes.extend_from_slice(b"abcd")?;
    }
    let mut source = MemSource::new(bytes, fails.to_vec(alloc)?);
    Ok(read_whole(alloc, &mut source))
}

// 12,000 bytes are two pieces, and a third read finds the end.
#[test]
fn a_source_is_read_to_its_end(rt: HostRuntime) -> Result<(), Fail> {
    let alloc = rt.alloc();
    let Ok(bytes) = read_with(alloc, &[3])? else {
        return Err(Fail::from("no bytes"));
    };
    assert_eq!(rt; bytes.len(), 12_000);
    assert!(rt; bytes.starts_with(b"abcda"));
    assert!(rt; bytes.ends_with(b"dabcd"));
    for k in 0..3u64 {
        let read = read_with(alloc, &[k])?;
        assert!(rt; matches!(&read, Err(ReadFault::Read)), "at read {k}");
    }
    Ok(())
}

#[test]
fn a_text_is_written_whole_or_in_part(rt: HostRuntime) -> Result<(), Fail> {
    let alloc = rt.alloc();
    let mut sink = MemSink::new(alloc, 5, Vec::new(alloc))?;
    assert_eq!(rt; write_whole(&mut sink, b"abc"), Ok(()));
    assert_eq!(rt; write_whole(&mut sink, b"def"), Err(Failed));
    assert_eq!(rt; sink.bytes(), b"abcde".as_slice());
    Ok(())
}

fn told(got: Result<Got, LinkFail>) -> &'static str {
    match got {
        Ok(Got::Text(_)) => "text",
        Ok(Got::Quiet) => "quiet",
        Ok(Got::Closed) => "closed",
        Err(LinkFail::Failed) => "failed",
        Err(LinkFail::Memory) => "memory",
    }
}

fn link_with(alloc: Global, text: &str, fails: u64) -> Result<MemLink, Fail> {
    let mut link = MemLink::new(alloc, [fails].to_vec(alloc)?);
    link.push(Text::of(alloc, text)?)?;
    Ok(link)
}

// Four calls, of which one fails: a text comes, one is sent, none comes, and the link closes.
#[test]
fn a_link_fails_at_each_of_its_calls(rt: HostRuntime) -> Result<(), Fail> {
    let alloc = rt.alloc();
    let table = [
        (0, "failed", true, "text", "closed", 1),
        (1, "text", false, "quiet", "closed", 0),
        (2, "text", true, "failed", "closed", 1),
        (3, "text", true, "quiet", "failed", 1),
        (4, "text", true, "quiet", "closed", 1),
    ];
    let text = Text::of(alloc, "b")?;
    for (fails, first, sends, second, third, sent) in table {
        let mut link = link_with(alloc, "a", fails)?;
        assert_eq!(rt; told(link.recv(alloc)), first, "at {fails}");
        assert_eq!(rt; link.send(alloc, &text).is_ok(), sends, "at {fails}");
        assert_eq!(rt; told(link.recv(alloc)), second, "at {fails}");
        link.close();
        assert_eq!(rt; told(link.recv(alloc)), third, "at {fails}");
        assert_eq!(rt; link.sent().len(), sent, "at {fails}");
    }
    Ok(())
}

// The second call fails, and the fourth finds no link.
#[test]
fn a_door_runs_out_of_links(rt: HostRuntime) -> Result<(), Fail> {
    let alloc = rt.alloc();
    let mut links = Vec::new(alloc);
    links.push(MemLink::new(alloc, Vec::new(alloc)))?;
    links.push(MemLink::new(alloc, Vec::new(alloc)))?;
    let mut door = MemDoor::new(alloc, links, [1].to_vec(alloc)?);
    let Ok(first) = door.next(alloc) else {
        return Err(Fail::from("no first link"));
    };
    door.back(first);
    let Err(LinkFail::Failed) = door.next(alloc) else {
        return Err(Fail::from("the second call is to fail"));
    };
    let Ok(second) = door.next(alloc) else {
        return Err(Fail::from("no second link"));
    };
    door.back(second);
    assert_eq!(rt; door.next(alloc).err(), Some(LinkFail::Failed));
    assert_eq!(rt; door.given_back().len(), 2);
    Ok(())
}

#[test]
fn a_clock_stands_still(rt: HostRuntime) -> Result<(), Fail> {
    let mut clock = MemClock::new(-5);
    assert_eq!(rt; clock.now(), -5);
    clock.set(7);
    assert_eq!(rt; clock.now(), 7);
    Ok(())
}
