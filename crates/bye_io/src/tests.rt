//! Sources, sinks and folders, in memory and real: what they give and take, and where they fail.

ghost use Rattle.std.specs.Prelude.{◌≤◌};

use crate::{
    Failed, Folder, MemFolder, MemSink, ReadErr, RealErr, RealFolder, RealOut, Sink, read_all,
    write_all,
};
use bye_terms::Text;
use std::alloc::Global;
use std::process::Abort;
use std::test::Fail;
use std::{fs, io};

// A folder with the files `letters` and `nothing`.
fn folder(rt: &(impl Abort + AllocGlobal), fails: &[u64], most: u64) -> Result<MemFolder, Fail>
    requires { 1 ≤ most }
{
    let mut files = Vec::new(rt.alloc());
    let letters = Vec::from_slice(rt.alloc(), b"abcd")?;
    files.push((Text::copy_of(rt.alloc(), "letters")?, letters))?;
    files.push((Text::copy_of(rt.alloc(), "nothing")?, Vec::new(rt.alloc())))?;
    assert!(rt; MemFolder::are_distinct(&files));
    let fails = Vec::from_slice(rt.alloc(), fails)?;
    Ok(MemFolder::new(files, fails, most))
}

// Opens a file and reads all of it.
fn file_bytes<F: Folder>(
    alloc: Global,
    folder: &mut F,
    name: &Text,
    limit: u32,
) -> Result<Vec<u8>, ReadErr> {
    folder.open_file(name).map_err(|_| ReadErr::Failed)?;
    read_all(alloc, folder, u64::from(limit))
}

// Sends the pieces in turn, and tells which came through.
fn sends<S: Sink>(sink: &mut S, pieces: [&str; 2]) -> (bool, bool) {
    let [one, other] = pieces;
    (
        write_all(sink, one.as_bytes()).is_ok(),
        write_all(sink, other.as_bytes()).is_ok(),
    )
}

#[test]
fn reads_within_the_limit(rt: HostRuntime) -> Result<(), Fail> {
    let letters = Text::copy_of(rt.alloc(), "letters")?;
    for most in [1u64, 3, 100] {
        let mut folder = folder(&rt, &[], most)?;
        for (limit, want) in [(0, None), (3, None), (4, Some("abcd")), (5, Some("abcd"))] {
            match (file_bytes(rt.alloc(), &mut folder, &letters, limit), want) {
                (Ok(bytes), Some(text)) => assert_eq!(rt; bytes.as_slice(), text.as_bytes()),
                (Err(ReadErr::TooLong), None) => {}
                _ => assert!(rt; false, "limit {limit}, {most} at a time"),
            }
        }
        let nothing = Text::copy_of(rt.alloc(), "nothing")?;
        assert_eq!(rt; file_bytes(rt.alloc(), &mut folder, &nothing, 0)?.len(), 0);
    }
    Ok(())
}

#[test]
fn a_read_fails_in_mid_stream(rt: HostRuntime) -> Result<(), Fail> {
    // The first call opens the file, and the second reads `a`.
    let mut folder = folder(&rt, &[3], 1)?;
    let letters = Text::copy_of(rt.alloc(), "letters")?;
    let first = file_bytes(rt.alloc(), &mut folder, &letters, 9);
    assert!(rt; matches!(first, Err(ReadErr::Failed)));
    assert_eq!(rt;
        read_all(rt.alloc(), &mut folder, 9)?.as_slice(),
        b"bcd".as_slice()
    );
    Ok(())
}

#[test]
fn a_missing_name_leaves_nothing(rt: HostRuntime) -> Result<(), Fail> {
    let mut folder = folder(&rt, &[], 3)?;
    let letters = Text::copy_of(rt.alloc(), "letters")?;
    let missing = Text::copy_of(rt.alloc(), "letter")?;
    folder.open_file(&letters)?;
    assert!(rt; matches!(folder.open_file(&missing), Err(Failed)));
    assert_eq!(rt; read_all(rt.alloc(), &mut folder, 9)?.len(), 0);
    Ok(())
}

#[test]
fn sends_until_a_fault_or_the_room_ends(rt: HostRuntime) -> Result<(), Fail> {
    // The call that fails, the bytes of one write, which piece comes through, and what was sent.
    for (fails, most, done, sent) in [
        (0u64, 1u64, (true, false), "abcd"),
        (0, 3, (true, false), "abcd"),
        (2, 1, (false, true), "aef"),
        (3, 3, (true, false), "abcd"),
    ] {
        let fails = Vec::from_slice(rt.alloc(), &[fails])?;
        let mut sink = MemSink::new(rt.alloc(), 4, fails, most)?;
        assert_eq!(rt; sends(&mut sink, ["abcd", "ef"]), done, "{most} at a time");
        assert_eq!(rt; sink.sent(), sent.as_bytes());
    }
    Ok(())
}

#[test]
fn reads_a_file_of_the_system(rt: HostRuntime) -> Result<(), Fail> {
    fs::write(&rt, "letters.txt", "abcd")?;
    let mut folder = RealFolder::new(&rt);
    let letters = Text::copy_of(rt.alloc(), "letters.txt")?;
    let bytes = file_bytes(rt.alloc(), &mut folder, &letters, 4)?;
    fs::remove_file(&rt, "letters.txt")?;
    assert_eq!(rt; bytes.as_slice(), b"abcd".as_slice());
    let missing = Text::copy_of(rt.alloc(), "missing.txt")?;
    assert!(rt; folder.open_file(&missing).is_err());
    assert_eq!(rt; read_all(rt.alloc(), &mut folder, 4)?.len(), 0);
    Ok(())
}

#[test]
fn writes_to_the_system(rt: HostRuntime) {
    let stderr = rt.stderr();
    let mut out = RealOut::new(io::writer(&rt));
    let mut err = RealErr::new(io::writer(&stderr));
    assert_eq!(rt; sends(&mut out, ["abcd", "ef\n"]), (true, true));
    assert_eq!(rt; sends(&mut err, ["abcd", "ef\n"]), (true, true));
}
