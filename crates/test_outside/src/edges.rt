//! The objects of the outside over the process, and what none of the conversations asks of those in memory.
ghost use Rattle.std.specs.Prelude.{◌≡◌, length, IfOk};

use io_edge::{
    Clock, Entropy, Failed, FileFault, Files, HostClock, HostEntropy, HostFiles, MemoryClock,
    MemoryEntropy, ReadSource, Sink, Source, WriteSink,
};
use std::alloc::Global;
use std::cell::Cell;
use std::random::RandomSource;
use std::test::Fail;
use std::time::Duration;
use std::{env, fs, io, rt};
use tail_base::{Items, NoMemory};

/// What a read into three dots says, and what then stands there.
fn read_three<S: Source>(source: &mut S) -> (Result<usize, Failed>, [u8; 3]) {
    let mut piece = *b"...";
    let said = source.read(&mut piece);
    (said, piece)
}

#[test]
fn read_source(rt: HostRuntime) {
    let mut reader = ReadSource::new(b"hello".as_slice());
    assert_eq!(rt; read_three(&mut reader), (Ok(3), *b"hel"));
    assert_eq!(rt; read_three(&mut reader), (Ok(2), *b"lo."));
    assert_eq!(rt; read_three(&mut reader), (Ok(0), *b"..."));
}

/// A slice takes three bytes and then no more, which is a fault.
#[test]
fn write_sink(rt: HostRuntime) {
    let mut room = *b"...";
    let mut sink = WriteSink::new(room.as_mut_slice());
    assert_eq!(rt; sink.write(b"ab"), Ok(2));
    assert_eq!(rt; sink.write(b"cd"), Ok(1));
    assert_eq!(rt; sink.write(b"ef"), Err(Failed));
    assert_eq!(rt; room, *b"abc");
}

/// A clock that reads 5 seconds, then fails, and reads 6 seconds from then on.
#[derive(Clone, Copy)]
struct Faltering<'a>(&'a Cell<u8>);

impl rt::Clock for Faltering<'_> {
    fn monotonic(&self) -> io::Result<Duration> {
        self.since_1970()
    }

    fn since_1970(&self) -> io::Result<Duration> {
        let calls = self.0.get();
        self.0.set(calls.saturating_add(1));
        match calls {
            0 | 2 => Err(io::Error::from(io::ErrorKind::Other)),
            1 => Ok(Duration::from_secs(5)),
            _ => Ok(Duration::from_millis(6999)),
        }
    }
}

/// Three answers of a clock, and then one of a clock split off.
fn answers<C: Clock + Drop>(clock: &mut C, alloc: Global) -> Result<[i64; 4], NoMemory> {
    let first = [clock.seconds(), clock.seconds(), clock.seconds()];
    let mut other = clock.split(alloc)?;
    Ok([first[0], first[1], first[2], other.seconds()])
}

/// A clock with these answers.
fn clock_of(alloc: Global) -> Result<MemoryClock, NoMemory> {
    let mut moments = Items::from_slice(alloc, &[7, -1])?;
    moments.push(8)?;
    Ok(MemoryClock::new(moments))
}

#[test]
fn memory_clock(rt: HostRuntime) -> Result<(), Fail> {
    let mut memory = clock_of(rt.alloc())?;
    assert_eq!(rt; answers(&mut memory, rt.alloc())?, [7, -1, 8, 8]);
    Ok(())
}

#[test]
fn host_clock(rt: HostRuntime) -> Result<(), Fail> {
    let calls = Cell::new(0);
    let mut host = HostClock::new(Faltering(&calls));
    assert_eq!(rt; answers(&mut host, rt.alloc())?, [0, 5, 5, 6]);
    Ok(())
}

/// Gives the numbers from 1 on, and fails past 32.
#[derive(Clone, Copy)]
struct Counting<'a>(&'a Cell<u8>);

impl RandomSource for Counting<'_> {
    fn fill_bytes(&self, buf: &mut [u8]) -> io::Result<()> {
        for byte in buf.iter_mut() {
            let next = self.0.get().saturating_add(1);
            if next > 32 {
                return Err(io::Error::from(io::ErrorKind::Other));
            }
            self.0.set(next);
            *byte = next;
        }
        Ok(())
    }
}

/// Random words with two answers.
fn entropy_of(alloc: Global) -> Result<MemoryEntropy, NoMemory> {
    let mut words = Items::from_slice(alloc, &[[1, 2, 3, 4]])?;
    words.push([5, 6, 7, 8])?;
    Ok(MemoryEntropy::new(words, Items::new(alloc)))
}

/// Whether one that was split off draws the words that come next here.
fn is_split<N: Entropy>(alloc: Global, words: &mut N) -> bool {
    match words.split(alloc) {
        Ok(mut other) => {
            let is_same = other.words() == words.words();
            words.join(other);
            is_same
        }
        Err(_) => false,
    }
}

#[test]
fn memory_entropy(rt: HostRuntime) -> Result<(), Fail> {
    let mut memory = entropy_of(rt.alloc())?;
    assert_eq!(rt; memory.words(), Ok([1, 2, 3, 4]));
    assert!(rt; is_split(rt.alloc(), &mut memory));
    Ok(())
}

#[test]
fn host_entropy(rt: HostRuntime) -> Result<(), Fail> {
    let given = Cell::new(0);
    let mut host = HostEntropy::new(Counting(&given));
    let drawn = [host.words(), host.words()];
    let words = [
        0x0807_0605_0403_0201,
        0x100f_0e0d_0c0b_0a09,
        0x1817_1615_1413_1211,
        0x201f_1e1d_1c1b_1a19,
    ];
    assert_eq!(rt; drawn, [Ok(words), Err(Failed)]);
    Ok(())
}

/// Whether a read answers so.
fn gives<F: Files>(
    files: &mut F,
    alloc: Global,
    name: &str,
    most: usize,
    want: Result<&[u8], FileFault>,
) -> bool {
    match (files.read(alloc, name, most), want) {
        (Ok(bytes), Ok(want)) => bytes.as_slice() == want,
        (Err(fault), Err(want)) => fault == want,
        _ => false,
    }
}

/// Whether a file of five digits is read as it is to be, while it is there and once it is gone.
fn reads_a_file(rt: HostRuntime, path: &str) -> bool {
    let alloc = rt.alloc();
    let mut host = HostFiles::new(rt);
    let digits = Ok(b"12345".as_slice());
    fs::write(&rt, path, "12345").is_ok()
        && gives(&mut host, alloc, path, 4, Err(FileFault::TooLarge))
        && gives(&mut host, alloc, path, 5, digits)
        && gives(&mut host, alloc, path, usize::MAX, digits)
        && fs::remove_file(&rt, path).is_ok()
        && gives(&mut host, alloc, path, 5, Err(FileFault::Failed))
}

#[test]
fn host_files(rt: HostRuntime) -> Result<(), Fail> {
    let alloc = rt.alloc();
    let name = format!(in alloc; "io_edge-{}", std::process::id(rt.process()))?;
    let path = env::temp_dir(&rt)?.join(alloc, name.as_str())?;
    assert!(rt; reads_a_file(rt, path.as_str()));
    Ok(())
}
