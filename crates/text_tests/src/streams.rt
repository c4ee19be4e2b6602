//! Sources, sinks, lines, clocks and ids.

ghost use Rattle.std.specs.Prelude.{◌≡◌, IfOk, ⊤};

use lake_io::{
    Clock, FixedClock, Ids, LineError, Lines, ListIds, MAX_INPUT, MAX_LINE, MemSink, MemSource,
    ReadFault, Sink, Source, StdSink, StdSource, SystemClock, TimeOfDay, WriteFault, put_all,
};
use std::alloc::{AllocError, Global};
use std::io;
use std::io::{ErrorKind, Read, Write};
use std::test::Fail;
use std::time::{Duration, SystemTime, UNIX_EPOCH};

/// What a new reader answers, up to its first stop and once more: each line's number and text, `!` for one that is too long.
fn heard<S: Source>(alloc: Global, source: &mut S) -> Result<String, AllocError> {
    let mut lines = Lines::new(alloc)?;
    let mut all = String::new(alloc);
    let mut stopped = false;
    for _ in 0..20 {
        let stop = match lines.next(source) {
            Ok(Some(line)) => {
                let text = String::from_utf8_lossy(alloc, line.text.as_slice())?;
                all.push_str(format!(in alloc; "{}={text} ", line.number)?.as_str())?;
                continue;
            }
            Err(LineError::TooLong { at }) => {
                all.push_str(format!(in alloc; "{at}! ")?.as_str())?;
                continue;
            }
            Ok(None) => "end",
            Err(LineError::ReadFault) => "fault",
            Err(LineError::TooMuch) => "much",
            Err(LineError::Memory) => "memory",
        };
        all.push_str(stop)?;
        if stopped {
            break;
        }
        stopped = true;
        all.push(' ')?;
    }
    Ok(all)
}

#[test]
fn lines_in_pieces(rt: HostRuntime) -> Result<(), Fail> {
    let alloc = rt.alloc();
    for (text, want) in [
        ("", "end end"),
        ("\n", "1= end end"),
        ("one\ntwo\n", "1=one 2=two end end"),
        ("one\n\n \r\nlast", "1=one 2= 3= \r 4=last end end"),
    ] {
        for piece in [1, 3, 100] {
            let bytes = text.as_bytes().to_vec(alloc)?;
            let mut source = MemSource::new(bytes, piece, Vec::new(alloc));
            assert_eq!(rt;
                heard(alloc, &mut source)?.as_str(),
                want,
                "{text:?} in pieces of {piece}"
            );
        }
    }
    // The reads are `o`, `n`, `e`, LF, then the one that fails.
    for (fails, want) in [
        (1, "fault fault"),
        (5, "1=one fault fault"),
        (9, "1=one 2=two end end"),
    ] {
        let bytes = b"one\ntwo".to_vec(alloc)?;
        let mut source = MemSource::new(bytes, 1, vec![in alloc; fails]?);
        assert_eq!(rt;
            heard(alloc, &mut source)?.as_str(),
            want,
            "read {fails} fails"
        );
        assert_eq!(rt; source.faults() == 1, fails < 9, "read {fails} fails");
    }
    Ok(())
}

#[test]
fn longest_line(rt: HostRuntime) -> Result<(), Fail> {
    let alloc = rt.alloc();
    for (len, piece) in [
        (MAX_LINE, 1),
        (MAX_LINE, 10_000_000),
        (MAX_LINE + 1, 1),
        (MAX_LINE + 1, 10_000_000),
    ] {
        for last in [false, true] {
            let mut bytes = vec![in alloc; b'a'; len]?;
            if !last {
                bytes.extend_from_slice(b"\nnext\n")?;
            }
            let mut source = MemSource::new(bytes, piece, Vec::new(alloc));
            let mut lines = Lines::new(alloc)?;
            let first = match lines.next(&mut source) {
                Ok(Some(line)) => line.text.len(),
                Err(LineError::TooLong { at: 1 }) => 0,
                _ => 1,
            };
            assert_eq!(rt;
                first,
                if len > MAX_LINE { 0 } else { len },
                "{len} bytes in pieces of {piece}"
            );
            let second = match lines.next(&mut source) {
                Ok(Some(line)) => line.number == 2 && line.text.as_slice() == b"next".as_slice(),
                Ok(None) => last,
                Err(_) => false,
            };
            assert!(rt; second, "after {len} bytes in pieces of {piece}");
        }
    }
    Ok(())
}

/// A reader of the letter `a`, so many times, and then of a text.
#[derive(Drop)]
struct Long {
    letters: u64,
    text: &'static [u8],
}

impl Read for Long {
    fn read(&mut self, into: &mut [u8]) -> io::Result<usize> {
        if self.letters == 0 {
            return self.text.read(into);
        }
        let n = (into.len() as u64).min(self.letters);
        into[..n as usize].fill(b'a');
        self.letters -= n;
        Ok(n as usize)
    }
}

/// What a new reader answers of a line of letters and a text, where the line and its LF leave room for nine bytes.
fn heard_of_much(alloc: Global, text: &'static str) -> Result<String, AllocError> {
    let letters = MAX_INPUT - 10;
    let text = text.as_bytes();
    heard(alloc, &mut StdSource::new(Long { letters, text }))
}

#[test]
fn too_much(rt: HostRuntime) -> Result<(), Fail> {
    for (text, want) in [
        ("\none\ntwo\nx", "1! 2=one 3=two much much"),
        ("\none\ntwo\n", "1! 2=one 3=two end end"),
    ] {
        assert_eq!(rt; heard_of_much(rt.alloc(), text)?.as_str(), want, "{text:?}");
    }
    Ok(())
}

#[test]
fn writes(rt: HostRuntime) -> Result<(), Fail> {
    let alloc = rt.alloc();
    let mut sink = MemSink::new(alloc, vec![in alloc; 3]?);
    for (text, written) in [
        ("one", true),
        ("", true),
        ("two", true),
        ("three", false),
        ("four", true),
    ] {
        assert_eq!(rt;
            put_all(&mut sink, text.as_bytes()).is_ok(),
            written,
            "{text}"
        );
    }
    assert!(rt; sink.written() == b"onetwofour".as_slice());
    assert_eq!(rt; (sink.calls(), sink.faults()), (4, 1));
    Ok(())
}

#[test]
fn clocks_and_ids(rt: HostRuntime) -> Result<(), Fail> {
    let alloc = rt.alloc();
    let mut fixed = FixedClock::new(1_000);
    for _ in 0..3 {
        assert_eq!(rt; fixed.now_ms(), 1_000);
    }
    let most = u128::MAX;
    let mut counting = ListIds::from(alloc, most - 1);
    let mut listed = ListIds::of(vec![in alloc; 1, 2, 2]?);
    for (counted, id) in [(most - 1, 1), (most, 2), (most, 2), (most, 2)] {
        assert_eq!(rt; (counting.next(), listed.next()), (counted, id));
    }
    Ok(())
}

/// Tells the times after 1970 of a list, from its last one on, and then none.
#[derive(Drop)]
struct Listed {
    times: Vec<Option<Duration>>,
}

impl TimeOfDay for Listed {
    ghost tells = { λ _ _ _. ⊤ };

    fn tell(&mut self) -> Option<SystemTime> {
        UNIX_EPOCH.checked_add(self.times.pop()??)
    }
}

#[test]
fn system_clock(rt: HostRuntime) -> Result<(), Fail> {
    // The last millisecond that 64 bits hold.
    let last = 9_223_372_036_854_775_807;
    let rows = [
        (None, 0),
        (Some(Duration::from_nanos(2_999_999)), 2),
        (Some(Duration::from_millis(last)), last),
        (Some(Duration::from_millis(last + 1)), last),
        (None, last),
        (Some(Duration::from_nanos(1_999_999)), 1),
        (None, 1),
    ];
    let mut times = Vec::new(rt.alloc());
    for (time, _) in rows.iter().rev() {
        times.push(*time)?;
    }
    let mut clock = SystemClock::new(Listed { times });
    for (time, reading) in rows {
        assert_eq!(rt; clock.now_ms().unsigned_abs(), reading, "{time:?}");
    }
    Ok(())
}

/// A reader and a writer that fail, but are interrupted first, or that take nothing.
#[derive(Drop)]
struct Broken(Option<ErrorKind>);

impl Broken {
    fn answer(&mut self) -> io::Result<usize>
        ensures { IfOk result (λ n. n ≡ 0) }
    {
        match self.0.take() {
            Some(kind) => Err(io::Error::from(kind)),
            None => Ok(0),
        }
    }
}

impl Read for Broken {
    fn read(&mut self, _into: &mut [u8]) -> io::Result<usize> {
        self.answer()
    }
}

impl Write for Broken {
    fn write(&mut self, _from: &[u8]) -> io::Result<usize> {
        self.answer()
    }

    fn flush(&mut self) -> io::Result<()> {
        Ok(())
    }
}

#[test]
fn adapters(rt: HostRuntime) -> Result<(), Fail> {
    let alloc = rt.alloc();
    let mut source = StdSource::new(b"one\ntwo".as_slice());
    assert_eq!(rt; heard(alloc, &mut source)?.as_str(), "1=one 2=two end end");
    for (error, read, write) in [
        (None, Ok(0), Err(WriteFault)),
        (Some(ErrorKind::Interrupted), Ok(0), Err(WriteFault)),
        (Some(ErrorKind::BrokenPipe), Err(ReadFault), Err(WriteFault)),
    ] {
        assert_eq!(rt; StdSource::new(Broken(error)).read(&mut [0; 4]), read);
        assert_eq!(rt; StdSink::new(Broken(error)).write(b"one"), write);
    }
    let mut taken = Vec::new(alloc);
    let mut sink = StdSink::new(&mut taken);
    assert!(rt; put_all(&mut sink, b"one").is_ok());
    assert!(rt; put_all(&mut sink, b"two").is_ok());
    assert!(rt; taken.as_slice() == b"onetwo".as_slice());
    let mut output = StdSink::new(io::writer(&rt));
    assert!(rt; put_all(&mut output, b"").is_ok());
    Ok(())
}
