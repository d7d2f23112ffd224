//! Texts and lists that are copied, folders and sinks. How files are cut into lines is shown by rows
//! of `unitex_rows`.

use crate::comparing::compare;
use std::alloc::{AllocError, Global};
use std::io::Write;
use std::process::Abort;
use std::rt::Files;
use std::test::Fail;
use std::{env, fs, io, process};
use ux_base::{Folder, FolderError, Lst, MemFolder, MemSink, RealFolder, Sink, StdSink, Txt};

/// A list of one text.
fn texts(alloc: Global, text: &str) -> Result<Lst<Txt>, AllocError> {
    let mut texts = Vec::new(alloc);
    texts.push(Txt::from_str(alloc, text)?)?;
    Ok(Lst::new(texts))
}

/// Whether a copy of a list of one text is the same.
fn is_copied(alloc: Global, text: &str) -> Result<bool, AllocError> {
    let texts = texts(alloc, text)?;
    let copy = texts.clone()?;
    Ok(copy == texts)
}

#[test]
fn texts_and_lists_are_copied(rt: HostRuntime) {
    let got = is_copied(rt.alloc(), "élan").ok();
    compare(&rt, "a copy", got, Some(true));
}

/// A file of this name and text.
fn file(alloc: Global, name: &str, text: &str) -> Result<(String, Vec<u8>), AllocError> {
    Ok((
        String::from_str(alloc, name)?,
        Vec::from_slice(alloc, text.as_bytes())?,
    ))
}

/// A folder of three files, whose third read fails.
fn folder_of_three(alloc: Global) -> Result<MemFolder, AllocError> {
    const FILES: &[(&str, &str)] = &[("a", "1"), ("a", "2"), ("b", "")];
    let mut files = Vec::new(alloc);
    for (name, text) in FILES {
        files.push(file(alloc, name, text)?)?;
    }
    Ok(MemFolder::new(files, vec![in alloc; 2]?))
}

/// A name, and how many bytes its file has and the last of them, or the error.
type Reading = (&'static str, Result<(usize, Option<u8>), FolderError>);

/// Reads file after file.
fn compare_reads(rt: &impl Abort, alloc: Global, folder: &mut MemFolder, rows: &[Reading]) {
    for row in rows {
        compare(rt, row.0, ending(alloc, folder, row.0), row.1);
    }
}

#[test]
fn a_folder_in_memory_gives_the_first_file_and_fails_as_told(rt: HostRuntime) -> Result<(), Fail> {
    const ROWS: &[Reading] = &[
        ("a", Ok((1, Some(b'1')))),
        ("c", Err(FolderError::Absent)),
        ("a", Err(FolderError::Fault)),
        ("b", Ok((0, None))),
    ];
    compare_reads(&rt, rt.alloc(), &mut folder_of_three(rt.alloc())?, ROWS);
    Ok(())
}

/// Writes row after row: the bytes, whether that succeeds, and all that was written.
fn compare_writes(rt: &impl Abort, sink: &mut MemSink, rows: &[(&str, bool, &str)]) {
    for (bytes, succeeds, written) in rows {
        let got = sink.write_all(bytes.as_bytes());
        compare(rt, bytes, got.is_ok(), *succeeds);
        compare(rt, bytes, sink.bytes(), written.as_bytes());
    }
}

#[test]
fn a_sink_in_memory_takes_what_fits_and_fails_as_told(rt: HostRuntime) -> Result<(), Fail> {
    let alloc = rt.alloc();
    let mut sink = MemSink::new(alloc, 8, vec![in alloc; (1, 2), (1, 0), (2, 9)]?)?;
    const ROWS: &[(&str, bool, &str)] = &[
        ("ab", true, "ab"),
        ("cde", false, "abcd"),
        ("e", false, "abcde"),
        ("fg", true, "abcdefg"),
        ("hij", false, "abcdefgh"),
        ("", true, "abcdefgh"),
    ];
    compare_writes(&rt, &mut sink, ROWS);
    Ok(())
}

/// A writer that takes two bytes at a time, until it has no room, and then none.
#[derive(Drop)]
struct Narrow {
    room: usize,
    flushes: bool,
}

impl Write for Narrow {
    fn write(&mut self, bytes: &[u8]) -> io::Result<usize> {
        let count = bytes.len().min(2).min(self.room);
        self.room -= count;
        Ok(count)
    }

    fn flush(&mut self) -> io::Result<()> {
        if self.flushes {
            Ok(())
        } else {
            Err(io::Error::other("no flush"))
        }
    }
}

/// A name, the writer's room, whether it can flush, and whether five bytes are written.
fn compare_writers(rt: &impl Abort, rows: &[(&str, usize, bool, bool)]) {
    for (name, room, flushes, succeeds) in rows {
        let mut sink = StdSink::new(Narrow {
            room: *room,
            flushes: *flushes,
        });
        let got = sink.write_all(b"abcde");
        compare(rt, name, got.is_ok(), *succeeds);
    }
}

#[test]
fn a_writer_is_written_to_until_it_fails(rt: HostRuntime) -> Result<(), Fail> {
    const ROWS: &[(&str, usize, bool, bool)] = &[
        ("room for all", 5, true, true),
        ("no room for the last byte", 4, true, false),
        ("no flush", 5, false, false),
    ];
    compare_writers(&rt, ROWS);
    Ok(())
}

/// A path in the system's folder of temporary files that is this process's own.
fn own_path(rt: &HostRuntime) -> Result<String, Fail> {
    let name = format!(in rt.alloc(); "ux_base_{}", process::id(rt.process()))?;
    let place = env::temp_dir(rt)?.join(rt.alloc(), name.as_str())?;
    Ok(String::from_str(rt.alloc(), place.to_str().unwrap_or(""))?)
}

/// How many bytes a read gives, and the last one.
fn ending(
    alloc: Global,
    folder: &mut impl Folder,
    path: &str,
) -> Result<(usize, Option<u8>), FolderError> {
    let bytes = folder.read(alloc, path)?;
    Ok((bytes.len(), bytes.last().copied()))
}

/// Whether a sink takes these bytes, and one more.
fn are_written(sink: &mut impl Sink, bytes: &[u8]) -> bool {
    sink.write_all(bytes).is_ok() && sink.write_all(b"y").is_ok()
}

/// Writes a file that is longer than the first room of a read, so that the buffer grows.
fn is_long_written<R: AllocGlobal + Files>(rt: &R, path: &str) -> Result<bool, Fail> {
    let bytes = vec![in rt.alloc(); b'x'; 70_000]?;
    let mut sink = StdSink::new(fs::create(rt, path)?);
    Ok(are_written(&mut sink, &bytes))
}

/// What the reads of a path give: where nothing is there, of a long file, and of a directory.
type Readings = (
    Result<(usize, Option<u8>), FolderError>,
    Result<(usize, Option<u8>), FolderError>,
    Result<(usize, Option<u8>), FolderError>,
);

/// What the folder reads at a path, before and after a long file is written, and where a directory is.
fn readings<R: AllocGlobal + Files>(
    rt: &R,
    folder: &mut impl Folder,
    path: &str,
) -> Result<(bool, Readings), Fail> {
    let absent = ending(rt.alloc(), folder, path);
    let is_written = is_long_written(rt, path)?;
    let file = ending(rt.alloc(), folder, path);
    fs::remove_file(rt, path)?;
    fs::create_dir(rt, path)?;
    let directory = ending(rt.alloc(), folder, path);
    fs::remove_dir(rt, path)?;
    Ok((is_written, (absent, file, directory)))
}

#[test]
fn the_system_gives_back_what_was_written(rt: HostRuntime) -> Result<(), Fail> {
    let path = own_path(&rt)?;
    fs::remove_file(&rt, path.as_str()).is_ok();
    let mut folder = RealFolder::new(&rt);
    let (is_written, got) = readings(&rt, &mut folder, path.as_str())?;
    compare(&rt, "a long file", is_written, true);
    compare(
        &rt,
        "no file, the long one, and a directory",
        got,
        (
            Err(FolderError::Absent),
            Ok((70_001, Some(b'y'))),
            Err(FolderError::Fault),
        ),
    );
    Ok(())
}
