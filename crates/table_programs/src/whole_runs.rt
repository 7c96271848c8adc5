// Whole runs of the command over files and a sink in memory.

use c_syntax::Numbers;
use headline::run;
use outside_io::{MemFiles, MemSink};
use std::alloc::{AllocError, Global};

/// The bytes that a sink takes, where a row does not tell.
const ROOM: u64 = 1000;

/// What a run is given beside its file. Calls are counted from 1, so that none is call 0.
#[derive(Clone, Copy)]
struct Setting<'a> {
    /// The name of the file, for which the command asks.
    name: &'a str,
    /// The words before that name, with commas between them.
    words: &'a str,
    /// How many spaces stand behind the text of the file.
    spaces: u64,
    /// The call of the files that fails.
    read: u64,
    /// The call of the sink that fails.
    write: u64,
    /// The bytes that the sink takes.
    room: u64,
    /// How many runs are made over the same files and sink.
    runs: u64,
}

/// The statuses of the runs of a row, settings and a file, and what they wrote.
pub fn line(alloc: Global, row: &str) -> Result<String, AllocError> {
    let Some((words, text)) = row.split_once(": ") else {
        return String::from_str(alloc, "no file");
    };
    let Some(setting) = settings(words) else {
        return String::from_str(alloc, "no setting");
    };
    let mut files = files(alloc, &setting, text)?;
    let mut out = sink(alloc, &setting)?;
    told(alloc, &setting, &mut files, &mut out)
}

// The settings of a row; none where a word is none.
fn settings(words: &str) -> Option<Setting<'_>> {
    let mut setting = Setting {
        name: "a.c",
        words: "",
        spaces: 0,
        read: 0,
        write: 0,
        room: ROOM,
        runs: 1,
    };
    for word in words.split_whitespace() {
        setting = with_word(setting, word)?;
    }
    Some(setting)
}

fn with_word<'a>(setting: Setting<'a>, word: &'a str) -> Option<Setting<'a>> {
    let (key, told) = word.split_once('=')?;
    match key {
        "name" => Some(Setting {
            name: told,
            ..setting
        }),
        "words" => Some(Setting {
            words: told,
            ..setting
        }),
        _ => with_number(setting, key, told),
    }
}

fn with_number<'a>(setting: Setting<'a>, key: &str, told: &str) -> Option<Setting<'a>> {
    let Ok(number) = told.parse::<u64>() else {
        return None;
    };
    with_count(setting, key, number)
}

fn with_count<'a>(mut setting: Setting<'a>, key: &str, number: u64) -> Option<Setting<'a>> {
    match key {
        "spaces" => setting.spaces = number,
        "read" => setting.read = number,
        "write" => setting.write = number,
        "room" => setting.room = number,
        "runs" => setting.runs = number,
        _ => return None,
    }
    Some(setting)
}

// The file of a row, in which `¶` stands for the end of a line.
fn files(alloc: Global, setting: &Setting, text: &str) -> Result<MemFiles, AllocError> {
    let mut bytes = crate::files::with_lines(alloc, text)?;
    for _ in 0..setting.spaces {
        bytes.push(' ')?;
    }
    let mut files = MemFiles::new(alloc, one(alloc, setting.read)?);
    files.add(setting.name, bytes.as_str().as_bytes())?;
    Ok(files)
}

fn sink(alloc: Global, setting: &Setting) -> Result<MemSink, AllocError> {
    MemSink::new(alloc, setting.room as usize, one(alloc, setting.write)?)
}

fn one(alloc: Global, call: u64) -> Result<Numbers, AllocError> {
    let mut calls = Vec::new(alloc);
    calls.push(call)?;
    Ok(Numbers::from_vec(calls))
}

// The status of each run, and what was written, with `¶` for the end of a line.
fn told(
    alloc: Global,
    setting: &Setting,
    files: &mut MemFiles,
    out: &mut MemSink,
) -> Result<String, AllocError> {
    let mut line = String::new(alloc);
    for _ in 0..setting.runs {
        let status = status(alloc, setting, files, out)?;
        line.push_str(format!(in alloc; "{status} ")?.as_str())?;
    }
    push_written(&mut line, out.bytes())?;
    Ok(line)
}

// The exit status of `verac analyze` of the file, with the words before its name.
fn status(
    alloc: Global,
    setting: &Setting,
    files: &mut MemFiles,
    out: &mut MemSink,
) -> Result<u8, AllocError> {
    let mut words = Vec::new(alloc);
    for word in ["verac", "analyze"] {
        words.push(String::from_str(alloc, word)?)?;
    }
    for word in setting.words.split(',').filter(|word| !word.is_empty()) {
        words.push(String::from_str(alloc, word)?)?;
    }
    words.push(String::from_str(alloc, setting.name)?)?;
    Ok(run(alloc, &words, files, out).code())
}

fn push_written(line: &mut String, bytes: &[u8]) -> Result<(), AllocError> {
    let Ok(text) = str::from_utf8(bytes) else {
        return line.push_str("no text");
    };
    for letter in text.chars() {
        line.push(if letter == '\n' { '¶' } else { letter })?;
    }
    Ok(())
}
