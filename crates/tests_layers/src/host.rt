use c_syntax_written::Numbers;
use outside_io::*;
use std::alloc::{AllocError, Global};
use std::process::Abort;
use std::rt::Files as HostFileSystem;
use std::{fs, io};

// A text of so many bytes.
fn filled(alloc: Global, len: usize) -> Result<Vec<u8>, AllocError> {
    vec![in alloc; b'x'; len]
}

fn calls(alloc: Global, numbers: &[u64]) -> Result<Numbers, AllocError> {
    Ok(Numbers::from_vec(Vec::from_slice(alloc, numbers)?))
}

static LENGTHS: [usize; 8] = [0, 1, 65_535, 65_536, 65_537, 200_000, 4_194_304, 4_194_305];

#[test]
fn reads_files_of_each_length(rt: HostRuntime) -> Result<(), AllocError> {
    for len in &LENGTHS {
        match is_read_whole(rt.alloc(), *len)? {
            Ok(is_same) => {
                assert!(rt; *len <= 4_194_304, "{len} bytes were read");
                assert!(rt; is_same, "at {len} bytes");
            }
            Err(error) => {
                assert_eq!(rt; error, ReadError::TooLarge);
                assert_eq!(rt; *len, 4_194_305);
            }
        }
    }
    Ok(())
}

// Whether the bytes that are read of a file of this length, one of two, are its own.
fn is_read_whole(alloc: Global, len: usize) -> Result<Result<bool, ReadError>, AllocError> {
    let text = filled(alloc, len)?;
    let mut files = MemFiles::new(alloc, Numbers::new(alloc));
    files.add("a.c", text.as_slice())?;
    files.add("b.c", b"other")?;
    Ok(match read_all(alloc, &mut files, "a.c") {
        Ok(bytes) => Ok(bytes.as_slice() == text.as_slice()),
        Err(error) => Err(error),
    })
}

// Of 65,537 bytes: call 1 begins, 2 and 3 give bytes, 4 is the end.
static FAILING: [(u64, &str, bool); 8] = [
    (0, "a.c", true),
    (1, "a.c", false),
    (2, "a.c", false),
    (3, "a.c", false),
    (4, "a.c", false),
    (5, "a.c", true),
    (0, "b.c", false),
    (0, "", false),
];

#[test]
fn a_call_that_fails_is_a_fault(rt: HostRuntime) -> Result<(), AllocError> {
    for (failing, name, is_read) in &FAILING {
        match length_read(rt.alloc(), *failing, name)? {
            Ok(len) => {
                assert!(rt; *is_read, "{name} was read past the failing call {failing}");
                assert_eq!(rt; len, 65_537);
            }
            Err(error) => {
                assert!(rt; !*is_read, "{name} was not read, failing call {failing}");
                assert_eq!(rt; error, ReadError::Fault);
            }
        }
    }
    Ok(())
}

// How many bytes are read of a name, where this call fails.
fn length_read(
    alloc: Global,
    failing: u64,
    name: &str,
) -> Result<Result<usize, ReadError>, AllocError> {
    let mut files = MemFiles::new(alloc, calls(alloc, &[failing])?);
    files.add("a.c", filled(alloc, 65_537)?.as_slice())?;
    Ok(match read_all(alloc, &mut files, name) {
        Ok(bytes) => Ok(bytes.as_slice().len()),
        Err(error) => Err(error),
    })
}

/// A step with files in memory and a piece of four bytes.
#[derive(Clone, Copy)]
enum Step {
    /// A text is held under a name.
    Add(&'static str, &'static str),
    /// A name is opened, with this answer.
    Begin(&'static str, Result<(), Failed>),
    /// A piece is read, with this answer, and then holds this.
    Read(Result<usize, Failed>, &'static str),
}

static STEPS: [Step; 15] = [
    Step::Read(Err(Failed), "----"),
    Step::Add("a.c", "first"),
    Step::Add("b.c", "second"),
    Step::Add("a.c", "again"),
    Step::Begin("a.c", Ok(())),
    Step::Read(Ok(4), "agai"),
    Step::Read(Ok(1), "ngai"),
    Step::Read(Ok(0), "ngai"),
    Step::Begin("b.c", Ok(())),
    Step::Read(Ok(4), "seco"),
    Step::Begin("c.c", Err(Failed)),
    Step::Read(Err(Failed), "seco"),
    Step::Begin("b.c", Ok(())),
    Step::Add("c.c", "third"),
    Step::Read(Err(Failed), "seco"),
];

#[test]
fn opens_closes_and_replaces(rt: HostRuntime) -> Result<(), AllocError> {
    let alloc = rt.alloc();
    let mut piece = *b"----";
    let mut files = MemFiles::new(alloc, Numbers::new(alloc));
    for step in &STEPS {
        follow(&rt, &mut files, &mut piece, *step)?;
    }
    Ok(())
}

fn follow(
    rt: &impl Abort,
    files: &mut MemFiles,
    piece: &mut [u8],
    step: Step,
) -> Result<(), AllocError> {
    match step {
        Step::Add(name, text) => files.add(name, text.as_bytes())?,
        Step::Begin(name, want) => assert_eq!(rt; files.begin(name), want),
        Step::Read(count, want) => {
            assert_eq!(rt; files.read(piece), count);
            assert!(rt; *piece == *want.as_bytes(), "after {want}");
        }
    }
    Ok(())
}

static SUNK: [(usize, u64, Result<(), Failed>, &str); 7] = [
    (0, 0, Err(Failed), ""),
    (3, 0, Err(Failed), "hel"),
    (5, 0, Ok(()), "hello"),
    (9, 0, Ok(()), "hello"),
    (9, 1, Err(Failed), ""),
    (9, 2, Ok(()), "hello"),
    (3, 2, Err(Failed), "hel"),
];

#[test]
fn a_sink_takes_what_fits(rt: HostRuntime) -> Result<(), AllocError> {
    for (room, failing, answer, taken) in &SUNK {
        let failing_calls = calls(rt.alloc(), &[*failing])?;
        let mut sink = MemSink::new(rt.alloc(), *room, failing_calls)?;
        let written = write_all(&mut sink, b"hello");
        assert!(rt; written == *answer, "room {room}, failing {failing}");
        has_taken(&rt, &sink, taken);
    }
    Ok(())
}

fn has_taken(rt: &impl Abort, sink: &MemSink, taken: &str) {
    assert!(rt; sink.bytes() == taken.as_bytes(), "{taken} was not taken");
}

static WRITTEN: [(&[u8], Result<usize, Failed>); 5] = [
    (b"ab", Ok(2)),
    (b"cd", Err(Failed)),
    (b"efgh", Ok(3)),
    (b"i", Ok(0)),
    (b"", Ok(0)),
];

#[test]
fn a_write_that_fails_takes_nothing(rt: HostRuntime) -> Result<(), AllocError> {
    let failing_calls = calls(rt.alloc(), &[2])?;
    let mut sink = MemSink::new(rt.alloc(), 5, failing_calls)?;
    for (piece, taken) in &WRITTEN {
        writes(&rt, &mut sink, piece, *taken);
    }
    has_taken(&rt, &sink, "abefg");
    Ok(())
}

fn writes(rt: &impl Abort, sink: &mut MemSink, piece: &[u8], taken: Result<usize, Failed>) {
    assert_eq!(rt; sink.write(piece), taken);
}

static TEXTS: [(ReadError, &str); 3] = [
    (ReadError::Fault, "a read failed"),
    (ReadError::TooLarge, "more than 4194304 bytes"),
    (ReadError::NoMemory, "out of memory"),
];

#[test]
fn errors_show_their_texts(rt: HostRuntime) -> Result<(), AllocError> {
    for (error, text) in &TEXTS {
        assert!(rt; error.to_string(rt.alloc())?.as_str() == *text, "{text}");
    }
    Ok(())
}

#[test]
fn real_files_pass_on_their_bytes(rt: HostRuntime) -> io::Result<()> {
    let path = "/tmp/outside_io_reads_this";
    fs::write(&rt, path, "int x;")?;
    reads_real_files(&rt, rt.alloc(), path);
    fs::remove_file(&rt, path)
}

fn reads_real_files<R: HostFileSystem + Abort>(rt: &R, alloc: Global, path: &str) {
    let mut files = HostFiles::new(rt);
    let bytes = read_all(alloc, &mut files, path).expect(rt, "the bytes of the file");
    assert!(rt; bytes.as_slice() == b"int x;".as_slice());
    let absent = read_all(alloc, &mut files, "/tmp/no/such");
    assert!(rt; matches!(absent, Err(ReadError::Fault)));
}

#[test]
fn the_standard_output_takes_bytes(rt: HostRuntime) {
    assert!(rt; write_all(&mut HostOut::new(&rt), b"").is_ok());
    let line = b"written by a test\n";
    assert!(rt; write_all(&mut HostOut::new(&rt), line).is_ok());
}
