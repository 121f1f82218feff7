// What no clause says, and that a caller which knows only the traits learns enough.
ghost use Rattle.std.specs.Prelude.{◌≡◌, List, ℕ, OnOk, IsErrOf, Some};
ghost use Rattle.jo_io.specs.Files.{Rose, OnFailed, UnlessFailed};
ghost use Rattle.jo_io.specs.Sink.{Extends};

use super::*;
use std::alloc::Global;
use std::test::Fail;
use std::{env, fs, process};

#[derive(Clone, Copy, Debug, PartialEq, Eq)]
enum CopyFault {
    First,
    Second,
    Memory,
    Put,
}

// Reads two files, and puts the second.
fn copy_second<F: Files, S: Sink>(
    files: &mut F,
    sink: &mut S,
    alloc: Global,
    first: &str,
    second: &str,
) -> Result<(), CopyFault>
    ensures first { IsErrOf result CopyFault.First
        → Rose (F.faults files.old) (F.faults files.new) × (F.failed files.new ≡ first.now) }
    ensures second { IsErrOf result CopyFault.Second
        → Rose (F.faults files.old) (F.faults files.new) × (F.failed files.new ≡ second.now) }
    ensures else_quiet { (IsErrOf result CopyFault.First → ⊥) → (IsErrOf result CopyFault.Second → ⊥)
        → (F.faults files.new ≡ F.faults files.old) × (F.failed files.new ≡ F.failed files.old) }
    ensures put { IsErrOf result CopyFault.Put → Rose (S.faults sink.old) (S.faults sink.new) }
    ensures copied { OnOk result ((bytes : List ℕ) → F.held files.old second.now ≡ Some bytes
        → Extends (S.given sink.old) (S.given sink.new) bytes) }
{
    match files.read(alloc, first) {
        Ok(_) => {}
        Err(FileFault::Failed) => return Err(CopyFault::First),
        Err(FileFault::Memory) => return Err(CopyFault::Memory),
    }
    let bytes = match files.read(alloc, second) {
        Ok(bytes) => bytes,
        Err(FileFault::Failed) => return Err(CopyFault::Second),
        Err(FileFault::Memory) => return Err(CopyFault::Memory),
    };
    sink.put(&bytes).map_err(|_| CopyFault::Put)
}

// Reads two files in a row, and passes on what stopped it.
fn read_two<F: Files>(
    files: &mut F,
    alloc: Global,
    first: &str,
    second: &str,
) -> Result<(Vec<u8>, Vec<u8>), FileFault>
    ensures failed { OnFailed result (Rose (F.faults files.old) (F.faults files.new)) }
    ensures quiet { UnlessFailed result (F.faults files.new ≡ F.faults files.old) }
{
    let one = files.read(alloc, first)?;
    let two = files.read(alloc, second)?;
    Ok((one, two))
}

fn named(alloc: Global, name: &str, bytes: &str) -> Result<(String, Vec<u8>), Memory> {
    Ok((
        String::from_str(alloc, name)?,
        bytes.as_bytes().to_vec(alloc)?,
    ))
}

#[test]
fn memory_files_fail_by_number_and_by_name(rt: HostRuntime) -> Result<(), Fail> {
    let alloc = rt.alloc();
    let mut pairs = Vec::new(alloc);
    pairs.push(named(alloc, "A.class", "first")?)?;
    pairs.push(named(alloc, "B.class", "second")?)?;
    pairs.push(named(alloc, "A.class", "third")?)?;
    let mut files = MemoryFiles::new(pairs, vec![in alloc; 2u32]?);
    for (name, wanted, reads, faults) in [
        ("A.class", Some("first"), 1u64, 0u64),
        ("C.class", None, 2, 1),
        ("B.class", None, 3, 2),
        ("B.class", Some("second"), 4, 2),
        ("A.class", Some("first"), 5, 2),
    ] {
        match files.read(alloc, name) {
            Ok(bytes) => assert_eq!(rt;
                bytes.as_slice(),
                wanted.unwrap_or("").as_bytes(),
                "at {reads}"
            ),
            Err(fault) => {
                assert_eq!(rt; fault, FileFault::Failed, "at {reads}");
                assert!(rt; wanted.is_none(), "at {reads}");
            }
        }
        assert_eq!(rt; files.reads(), reads);
        assert_eq!(rt; files.faults(), faults, "at {reads}");
    }
    Ok(())
}

#[test]
fn memory_sinks_take_what_fits(rt: HostRuntime) -> Result<(), Fail> {
    let alloc = rt.alloc();
    // The room, the put that is to fail, the piece, what is taken of it, and how many puts have failed.
    for (room, failing, piece, taken, faults) in [
        (3u32, 9u32, "abc", "abc", 0u64),
        (3, 9, "abcd", "abc", 1),
        (3, 0, "abc", "a", 1),
        (0, 0, "abc", "", 1),
        (3, 0, "", "", 1),
        (0, 9, "", "", 0),
    ] {
        let mut sink = MemorySink::new(alloc, room, vec![in alloc; failing]?)?;
        let put = sink.put(piece.as_bytes());
        assert_eq!(rt; put.is_ok(), faults == 0, "{piece} into {room}");
        assert_eq!(rt; sink.bytes(), taken.as_bytes(), "{piece} into {room}");
        assert_eq!(rt; sink.faults(), faults, "{piece} into {room}");
    }
    Ok(())
}

#[test]
fn sure_sinks_count(rt: HostRuntime) {
    let mut sink = SureSink::new();
    assert_eq!(rt; sink.put(b"ab"), Ok(()));
    assert_eq!(rt; sink.put(b"cde"), Ok(()));
    assert_eq!(rt; sink.count(), 5);
}

#[test]
fn std_files_read_whole_files(rt: HostRuntime) -> Result<(), Fail> {
    let alloc = rt.alloc();
    let mut path = env::temp_dir(&rt)?;
    let id = process::id(rt.process());
    path.push(format!(in alloc; "jo_io-{id}")?.as_str())?;
    // More than one turn reads.
    let held = vec![in alloc; 7u8; 20_000]?;
    fs::write(&rt, path.as_path(), held.as_slice())?;
    let name = path.to_str().ok_or("a path in UTF-8")?;
    let mut files = StdFiles::new(rt);
    let bytes = files.read(alloc, name)?;
    assert_eq!(rt; bytes.as_slice(), held.as_slice());
    assert_eq!(rt; files.faults(), 0);
    fs::remove_file(&rt, path.as_path())?;
    assert_eq!(rt; files.read(alloc, name).err(), Some(FileFault::Failed));
    assert_eq!(rt; files.faults(), 1);
    Ok(())
}

#[test]
fn std_sinks_write_all_or_fail(rt: HostRuntime) {
    let mut errors = StdSink::new(rt.stderr());
    assert_eq!(rt; errors.put(b"from jo_io\n"), Ok(()));
    assert_eq!(rt; errors.faults(), 0);
    let mut output = StdSink::new(rt.stdout());
    assert_eq!(rt; output.put(b"from jo_io\n"), Ok(()));

    // A stream with room for two bytes.
    let mut room = [0u8; 2];
    let mut short = StdSink::new(&mut room[..]);
    assert_eq!(rt; short.put(b"abc"), Err(Failed));
    assert_eq!(rt; short.faults(), 1);
}

#[test]
fn a_generic_caller_copies(rt: HostRuntime) -> Result<(), Fail> {
    let alloc = rt.alloc();
    let mut pairs = Vec::new(alloc);
    pairs.push(named(alloc, "A.class", "first")?)?;
    let mut files = MemoryFiles::new(pairs, Vec::new(alloc));
    let mut sink = MemorySink::new(alloc, 8, Vec::new(alloc))?;
    assert_eq!(rt;
        copy_second(&mut files, &mut sink, alloc, "A.class", "A.class"),
        Ok(())
    );
    assert_eq!(rt; sink.bytes(), b"first".as_slice());
    let fault = copy_second(&mut files, &mut sink, alloc, "A.class", "B.class");
    assert_eq!(rt; fault, Err(CopyFault::Second));
    let two = read_two(&mut files, alloc, "A.class", "A.class")?;
    assert_eq!(rt; two.0.as_slice(), two.1.as_slice());
    Ok(())
}
