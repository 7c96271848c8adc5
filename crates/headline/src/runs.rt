// A run of the tool, from the words to the status.
ghost use Rattle.std.specs.Prelude.{◌≡◌, ◌⊎◌, ◌<◌, ◌≤◌, ◌++◌, List, ℕ, Some, length, IfOk};
ghost use Rattle.outside_io.specs.Io.{Rose, IsFront};
ghost use Rattle.headline_words.specs.Command.{Asked as Command, command_of, texts};
ghost use Rattle.headline_words.specs.Told.{asked_for};
ghost use Rattle.c_syntax.specs.Program.{tprogram_tree};
ghost use Rattle.program_alarms.specs.Ready.{IsReady};
ghost use Rattle.headline.specs.Headline.{IsAnswer, OnCommanded, OnWhole, OnNothing, IsWhole, Completes};
ghost use Rattle.headline.specs.Exact.{IsExactAnswer};
ghost use Rattle.headline.specs.Read.{IsOneProgram};

use crate::program::{Read, program_of};
use crate::status::Status;
use c_syntax::{Plan, TProgram};
use headline_words::{Asked, WordsError, command};
use outside_io::{Files, ReadError, Sink, read_all, write_all};
use program_alarms::alarms_of;
use report::{Refusal, refusal_line};
use report_alarms::alarms_text;
use std::alloc::{AllocError, Global};

/// Analyzes the file that the words name, and writes the report.
///
/// NoAlarm, Alarms and Refused come with their text, written whole. Usage comes exactly where the
/// words are no command, ReadFault only where the files' count of faults of that name rose in this
/// call or stands at its last value, and WriteFault only where the sink's count did. NoMemory is
/// free. Nothing is written before the whole text is there.
pub fn run<F: Files, K: Sink>(
    alloc: Global,
    words: &Vec<String>,
    files: &mut F,
    out: &mut K,
) -> Status
    // Reports, misses none, admitted, refused, shows: the text of a status from 0 to 2.
    ensures answer { OnWhole result ((asked : Command) (bytes before : List ℕ) → command_of (texts words.now.items) ≡ Some asked
        → F.told files.old asked.file ≡ Some bytes → K.wrote out.old ≡ Some before
        → (text : List ℕ) × IsAnswer asked bytes result text × (K.wrote out.new ≡ Some (before ++ text))) }
    // Exact: such a text of a program without inputs, gotos that lead back and more turns than asked for has no false alarm.
    ensures exact { OnWhole result ((asked : Command) (bytes before : List ℕ) → command_of (texts words.now.items) ≡ Some asked
        → F.told files.old asked.file ≡ Some bytes → K.wrote out.old ≡ Some before
        → (text : List ℕ) × IsExactAnswer asked bytes result text × (K.wrote out.new ≡ Some (before ++ text))) }
    // Causes: of Usage, a read fault and a write fault.
    ensures commanded { OnCommanded result ((asked : Command) × (command_of (texts words.now.items) ≡ Some asked)) }
    ensures usage { result ≡ Status.Usage → command_of (texts words.now.items) ≡ None }
    ensures read_fault { result ≡ Status.ReadFault → (asked : Command) → command_of (texts words.now.items) ≡ Some asked
        → Rose (F.faults files.old asked.file) (F.faults files.new asked.file) }
    ensures write_fault { result ≡ Status.WriteFault → Rose (K.faults out.old) (K.faults out.new) }
    // Completes: with no fault of the file or the sink there is an answer with a text, memory aside.
    ensures completes { (asked : Command) → command_of (texts words.now.items) ≡ Some asked → (Rose (F.faults files.old asked.file) (F.faults files.new asked.file) → ⊥)
        → (Rose (K.faults out.old) (K.faults out.new) → ⊥) → Completes result }
    // Prefix: at a write fault the front of such a text was written; else the sink is as it was, and at Usage nothing was opened.
    ensures prefix { result ≡ Status.WriteFault → (asked : Command) (bytes before : List ℕ) → command_of (texts words.now.items) ≡ Some asked
        → F.told files.old asked.file ≡ Some bytes → K.wrote out.old ≡ Some before
        → (status : Status) × (text : List ℕ) × (front : List ℕ) × IsAnswer asked bytes status text × IsFront front text
        × (K.wrote out.new ≡ Some (before ++ front)) }
    ensures nothing { OnNothing result (out.new ≡ out.old) }
    ensures usage_files { result ≡ Status.Usage → files.new ≡ files.old }
{
    let asked = match command(alloc, words) {
        Ok(asked) => asked,
        Err(WordsError::Usage) => return Status::Usage,
        Err(WordsError::NoMemory) => return Status::NoMemory,
    };
    match read_all(alloc, files, asked.file) {
        Err(ReadError::Fault) => Status::ReadFault,
        Err(ReadError::NoMemory) => Status::NoMemory,
        Err(ReadError::TooLarge) => match too_large(alloc, asked) {
            Err(_) => Status::NoMemory,
            Ok(answer) => finish(out, answer.0, answer.1.as_slice()),
        },
        Ok(bytes) => match answer_for(alloc, asked, bytes.as_slice()) {
            Err(_) => Status::NoMemory,
            Ok(answer) => finish(out, answer.0, answer.1.as_slice()),
        },
    }
}

// The answer for a file that is too large.
fn too_large(alloc: Global, asked: Asked<'_>) -> Result<(Status, Vec<u8>), AllocError>
    ensures answer { IfOk result (λ r. (bytes : List ℕ) → 4194304 < length bytes → IsAnswer (asked_for asked.entry) bytes r.0 r.1.items) }
    ensures exact { IfOk result (λ r. (bytes : List ℕ) → IsExactAnswer (asked_for asked.entry) bytes r.0 r.1.items) }
    ensures done { IfOk result (λ r. IsWhole r.0) }
{
    let line = refusal_line(alloc, asked.file, &Refusal::FileTooLarge)?;
    Ok((Status::Refused, line))
}

// The answer where the file has these bytes.
fn answer_for(
    alloc: Global,
    asked: Asked<'_>,
    bytes: &[u8],
) -> Result<(Status, Vec<u8>), AllocError>
    requires { length bytes.now ≤ 4194304 }
    ensures answer { IfOk result (λ r. IsAnswer (asked_for asked.entry) bytes.now r.0 r.1.items) }
    ensures exact { IfOk result (λ r. IsExactAnswer (asked_for asked.entry) bytes.now r.0 r.1.items) }
    ensures done { IfOk result (λ r. IsWhole r.0) }
{
    match program_of(alloc, bytes)? {
        Read::Refused(refusal) => {
            let line = refusal_line(alloc, asked.file, &refusal)?;
            Ok((Status::Refused, line))
        }
        Read::Program(program, plan) => reported(alloc, asked, &program, &plan),
    }
}

// The answer where the file's bytes are this program.
fn reported(
    alloc: Global,
    asked: Asked<'_>,
    program: &TProgram,
    plan: &Plan,
) -> Result<(Status, Vec<u8>), AllocError>
    requires { IsReady (tprogram_tree program.now) plan.now }
    ensures answer { IfOk result (λ r. (bytes : List ℕ) → IsOneProgram bytes (tprogram_tree program.now) → IsAnswer (asked_for asked.entry) bytes r.0 r.1.items) }
    ensures exact { IfOk result (λ r. (bytes : List ℕ) → IsOneProgram bytes (tprogram_tree program.now) → IsExactAnswer (asked_for asked.entry) bytes r.0 r.1.items) }
    ensures done { IfOk result (λ r. IsWhole r.0) }
{
    let alarms = alarms_of(alloc, program, plan, asked.unroll, asked.narrow, asked.ramp)?;
    let text = alarms_text(
        alloc,
        asked.file,
        program,
        plan.main,
        asked.state,
        alarms.as_slice(),
    )?;
    if alarms.as_slice().is_empty() {
        Ok((Status::NoAlarm, text))
    } else {
        Ok((Status::Alarms, text))
    }
}

// Writes the text, and says how the run ends.
fn finish<K: Sink>(out: &mut K, status: Status, text: &[u8]) -> Status
    requires { IsWhole status }
    ensures cases { (result ≡ status) ⊎ (result ≡ Status.WriteFault) }
    ensures whole { result ≡ status → (before : List ℕ) → K.wrote out.old ≡ Some before → K.wrote out.new ≡ Some (before ++ text.now) }
    ensures write_fault { result ≡ Status.WriteFault → Rose (K.faults out.old) (K.faults out.new) }
    ensures cut { result ≡ Status.WriteFault → (before : List ℕ) → K.wrote out.old ≡ Some before
        → (front : List ℕ) × IsFront front text.now × (K.wrote out.new ≡ Some (before ++ front)) }
{
    match write_all(out, text) {
        Ok(()) => status,
        Err(_) => Status::WriteFault,
    }
}
