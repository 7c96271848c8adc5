//! Verac: what may go wrong in a C file, from its bytes to the report.
//!
//! The program gives the words of its command line, the files of the system and standard output to `run` of `headline`,
//! whose contract is the theorem, tells on standard error what has no text, and ends with the status. For example,
//! `verac analyze a.c` on `int main(void) { return 1 / 0; }` writes one alarm, `DivideByZero`, and ends with status 1.
#![tactic(auto)]

use headline::{Status, run};
use outside_io::{HostFiles, HostOut};
use std::process::ExitCode;
use std::{env, io};

fn main(rt: HostRuntime) -> ExitCode {
    let status = match words(&rt) {
        Ok(words) => {
            let mut files = HostFiles::new(&rt);
            let mut out = HostOut::new(&rt);
            run(rt.alloc(), &words, &mut files, &mut out)
        }
        // A word that is no text is no word of a command.
        Err(error) => match error.kind() {
            io::ErrorKind::OutOfMemory => Status::NoMemory,
            _ => Status::Usage,
        },
    };
    let told = match status {
        Status::NoAlarm | Status::Alarms | Status::Refused => Ok(()),
        Status::Usage => eprintln!(rt; "verac: usage"),
        Status::ReadFault => eprintln!(rt; "verac: read fault"),
        Status::WriteFault => eprintln!(rt; "verac: write fault"),
        Status::NoMemory => eprintln!(rt; "verac: out of memory"),
    };
    // The status tells it too, where standard error takes nothing.
    drop(told);
    ExitCode::from(status.code())
}

// The words of the command line, the program's own name first.
fn words(rt: &HostRuntime) -> io::Result<Vec<String>> {
    let mut words = Vec::new(rt.alloc());
    for word in env::args(rt)? {
        words.push(word)?;
    }
    Ok(words)
}
