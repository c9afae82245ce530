//! Each public call once with ample memory, and what no contract can say of the real files.

use crate::{
    Failed, FileLibrary, Library, MemoryLibrary, MemorySink, NamedText, NamedTexts, OutSink,
    ReadError, Reason, Sink, Status, Text, put_whole, read_whole,
};
use std::alloc::{AllocError, Global};
use std::fs;
use std::test::Fail;

fn texts_of(alloc: Global, texts: &[(&str, &str)]) -> Result<NamedTexts, AllocError> {
    let mut named = NamedTexts::new(alloc);
    for (name, bytes) in texts {
        named.push(NamedText {
            name: Text::of(alloc, name.as_bytes())?,
            bytes: Text::of(alloc, bytes.as_bytes())?,
        })?;
    }
    Ok(named)
}

// More than 2^17 bytes, each unlike the bytes 2^16 and 2^17 places before it.
fn long_bytes(alloc: Global) -> Result<Vec<u8>, AllocError> {
    let mut bytes = Vec::new(alloc);
    for k in 0u32..140_000 {
        bytes.push((k % 251) as u8)?;
    }
    Ok(bytes)
}

#[test]
fn memory_gives_and_takes_pieces(rt: HostRuntime) -> Result<(), Fail> {
    let alloc = rt.alloc();
    let texts = texts_of(alloc, &[("a", "hello world"), ("b", ""), ("a", "other")])?;
    let mut files = MemoryLibrary::new(texts, 3, [3, 5].to_vec(alloc)?);
    let mut buf = [0u8; 8];
    for (row, name, at, room, want) in [
        ("a piece at the front", "a", 0, 8, Ok("hel")),
        ("as much as there is room", "a", 4, 2, Ok("o ")),
        ("read 3 fails", "a", 0, 8, Err(Failed)),
        ("what is left", "a", 9, 8, Ok("ld")),
        ("read 5 fails", "a", 0, 8, Err(Failed)),
        ("at the end", "a", 11, 8, Ok("")),
        ("behind the end", "a", 20, 8, Ok("")),
        ("an empty text", "b", 0, 8, Ok("")),
        ("no text", "c", 0, 8, Err(Failed)),
    ] {
        assert!(rt; 0 < room && room <= 8 && at <= 20);
        match files.read(name.as_bytes(), at, &mut buf[..room]) {
            Ok(n) => assert_eq!(rt; Ok(&buf[..n]), want.map(|t| t.as_bytes()), "{row}"),
            Err(e) => assert_eq!(rt; Err(e), want, "{row}"),
        }
    }

    let mut sink = MemorySink::new(alloc, 3, 7, [2, 4].to_vec(alloc)?)?;
    for (row, bytes, want, held) in [
        ("a piece of four bytes", "abcd", Ok(3), "abc"),
        ("put 2 fails", "d", Err(Failed), "abc"),
        ("fewer than a piece", "de", Ok(2), "abcde"),
        ("put 4 fails", "f", Err(Failed), "abcde"),
        ("as much as there is room", "fgh", Ok(2), "abcdefg"),
        ("no room", "h", Err(Failed), "abcdefg"),
    ] {
        assert!(rt; !bytes.is_empty());
        assert_eq!(rt; sink.put(bytes.as_bytes()), want, "{row}");
        assert_eq!(rt; sink.bytes(), held.as_bytes(), "{row}");
    }
    Ok(())
}

#[test]
fn texts_are_read_whole(rt: HostRuntime) -> Result<(), Fail> {
    let alloc = rt.alloc();
    for (row, name, fail, want) in [
        ("in pieces", "a", 0, Ok("hello world")),
        ("read 2 fails", "a", 2, Err(ReadError::Failed)),
        ("no text", "b", 0, Err(ReadError::Failed)),
    ] {
        let texts = texts_of(alloc, &[("a", "hello world")])?;
        let mut files = MemoryLibrary::new(texts, 3, [fail].to_vec(alloc)?);
        match read_whole(alloc, &mut files, name.as_bytes()) {
            Ok(text) => assert_eq!(rt; Ok(text.bytes()), want.map(|t| t.as_bytes()), "{row}"),
            Err(e) => assert_eq!(rt; Err(e), want, "{row}"),
        }
    }
    Ok(())
}

// Each put is handed all that is left: a sink takes a piece of it, however large the piece.
#[test]
fn texts_are_put_whole(rt: HostRuntime) -> Result<(), Fail> {
    let alloc = rt.alloc();
    let bytes = long_bytes(alloc)?;
    for (row, piece, room, fail, want, held) in [
        ("in pieces", 40_000, 200_000, 0, Ok(()), 140_000),
        (
            "at once, so put 2 is not called",
            200_000,
            200_000,
            2,
            Ok(()),
            140_000,
        ),
        ("put 2 fails", 100_000, 200_000, 2, Err(Failed), 100_000),
        ("put 3 fails", 50_000, 200_000, 3, Err(Failed), 100_000),
        ("too little room", 200_000, 90_000, 0, Err(Failed), 90_000),
    ] {
        assert!(rt; 0 < piece && held <= bytes.len());
        let mut sink = MemorySink::new(alloc, piece, room, [fail].to_vec(alloc)?)?;
        assert_eq!(rt; put_whole(&mut sink, bytes.as_slice()), want, "{row}");
        assert!(rt; sink.bytes() == &bytes[..held], "{row}");
    }
    Ok(())
}

#[test]
fn texts_hold_their_bytes(rt: HostRuntime) -> Result<(), Fail> {
    let alloc = rt.alloc();
    let mut text = Text::new(alloc);
    text.push(b'r')?;
    text.append(b"are")?;
    assert_eq!(rt; text.bytes(), b"rare".as_slice());
    assert_eq!(rt; text.copy(alloc)?.bytes(), b"rare".as_slice());
    for (reason, word) in [
        (Reason::BadForm, "BadForm"),
        (Reason::UnknownCommand, "UnknownCommand"),
        (Reason::UnknownSymbol, "UnknownSymbol"),
        (Reason::DeclaredTwice, "DeclaredTwice"),
        (Reason::ReservedSymbol, "ReservedSymbol"),
        (Reason::BadSort, "BadSort"),
        (Reason::IllSorted, "IllSorted"),
        (Reason::LiteralTooWide, "LiteralTooWide"),
        (Reason::TermLimit, "TermLimit"),
        (Reason::NonLinear, "NonLinear"),
        (Reason::SampleFails, "SampleFails"),
        (Reason::UnknownRule, "UnknownRule"),
        (Reason::DuplicateParam, "DuplicateParam"),
        (Reason::RuleTooLarge, "RuleTooLarge"),
        (Reason::ContextForm, "ContextForm"),
        (Reason::MisplacedList, "MisplacedList"),
        (Reason::LeftIndex, "LeftIndex"),
        (Reason::Unbound, "Unbound"),
        (Reason::Clash, "Clash"),
        (Reason::NeverHolds, "NeverHolds"),
        (Reason::DuplicateName, "DuplicateName"),
    ] {
        assert_eq!(rt; reason.word(), word);
    }
    assert_eq!(rt; Status::TooLong.number(), 7);
    Ok(())
}

#[test]
fn files_are_read_at_a_place(rt: HostRuntime) -> Result<(), Fail> {
    let alloc = rt.alloc();
    let path = "rare_base-tests.txt";
    let bytes = long_bytes(alloc)?;
    fs::write(&rt, path, bytes.as_slice())?;
    let mut files = FileLibrary::new(&rt);
    let mut buf = [0u8; 16];
    for (row, at, end) in [
        ("at the front", 0, 16),
        ("across 2^16", 65_530, 65_546),
        ("at 2^16", 65_536, 65_552),
        ("across 2^17", 131_060, 131_076),
        ("at 2^17", 131_072, 131_088),
        ("what is left", 139_995, 140_000),
        ("at the end", 140_000, 140_000),
    ] {
        assert!(rt; at <= end && end <= bytes.len() && bytes.len() <= 140_000);
        let n = files.read(path.as_bytes(), at as u64, &mut buf)?;
        assert_eq!(rt; &buf[..n], &bytes[at..end], "{row}");
    }
    let text = read_whole(alloc, &mut files, path.as_bytes())?;
    assert!(rt; text.bytes() == bytes.as_slice());
    fs::remove_file(&rt, path)?;
    assert_eq!(rt;
        files.read(path.as_bytes(), 0, &mut buf),
        Err(Failed),
        "no file"
    );
    assert_eq!(rt;
        files.read(b"\xff", 0, &mut buf),
        Err(Failed),
        "a name that is no UTF-8"
    );
    Ok(())
}

#[test]
fn output_takes_bytes(rt: HostRuntime) -> Result<(), Fail> {
    let mut out = OutSink::new(&rt);
    assert_eq!(rt; put_whole(&mut out, b"rare\n"), Ok(()));
    Ok(())
}
