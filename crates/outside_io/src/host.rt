// Real files, and standard output. They tell nothing of content.
ghost use Rattle.std.specs.Prelude.{◌≡◌, ◌⊎◌, ◌<◌, ◌≤◌, List, ℕ, [], None, IsTrue, IsErr, IfOk, OnErr, false, is_ok, length, take, if◌then◌else◌};
ghost use Rattle.std.specs.Io.KnownBytes.{Appends, ReadConsumes};
ghost use Rattle.outside_io.specs.Io.{IsFront, raised};

use crate::{Failed, Files, Sink};
use std::io::{Read, Write};
use std::marker::Model;
use std::rt::Files as HostFileSystem;
use std::{fs, io};

/// The files of the system. All names have one count of faults, and out of memory inside a call is
/// a fault as any other.
#[derive(Drop)]
pub struct HostFiles<'a, R: HostFileSystem> {
    rt: &'a R,
    file: Option<R::File>,
    failures: u64,
}

impl<'a, R: HostFileSystem> Model for HostFiles<'a, R> {
    ghost use Rattle.std.specs.Prelude.{is_some};
    ghost use Rattle.outside_io.specs.Host.{HostCount};

    ghost Value = { HostCount };

    ghost view = { λ f. record { is_open = is_some f.file; faults = f.failures } };
}

impl<'a, R: HostFileSystem> HostFiles<'a, R> {
    /// The files that the runtime reaches. None is open.
    pub fn new(rt: &'a R) -> Self
        ensures closed { result.is_open ≡ false }
        ensures faults { result.faults ≡ 0 }
    {
        HostFiles {
            rt,
            file: None,
            failures: 0,
        }
    }

    fn fail(&mut self) -> Failed
        ensures raised { self.new ≡ record self.old { faults = raised self.old.faults } }
        ensures later { self.old.faults ≤ self.new.faults }
    {
        self.failures = self.failures.saturating_add(1);
        Failed
    }
}

impl<'a, R: HostFileSystem> Files for HostFiles<'a, R> {
    ghost told = { λ _ _. None };

    ghost is_open = { λ files _. IsTrue files.is_open };

    ghost given = { λ _. None };

    ghost faults = { λ files _. files.faults };

    fn begin(&mut self, name: &str) -> Result<(), Failed>
        ensures open { self.new.is_open ≡ is_ok result }
        ensures faults { self.new.faults ≡ (if is_ok result then self.old.faults else raised self.old.faults) }
        ensures later { self.old.faults ≤ self.new.faults }
    {
        self.file = fs::open(self.rt, name).ok();
        if self.file.is_some() {
            Ok(())
        } else {
            Err(self.fail())
        }
    }

    fn read(&mut self, into: &mut [u8]) -> Result<usize, Failed>
        ensures open { self.new.is_open ≡ self.old.is_open }
        ensures closed { self.old.is_open ≡ false → IsErr result }
        ensures count { IfOk result (λ k. k ≤ length into.old) }
        ensures faults { self.new.faults ≡ (if is_ok result then self.old.faults else raised self.old.faults) }
        ensures later { self.old.faults ≤ self.new.faults }
    {
        if let Some(file) = &mut self.file
            && let Ok(count) = read_piece(file, into)
        {
            return Ok(count);
        }
        Err(self.fail())
    }
}

// Reads some bytes of a source into the front of a piece.
fn read_piece<S: Read>(source: &mut S, into: &mut [u8]) -> Result<usize, Failed>
    ensures count { IfOk result (λ k. k ≤ length into.old) }
    ensures bytes { ReadConsumes (S.remaining source.old) (S.remaining source.new) result into.new }
{
    match source.read(into) {
        Ok(count) => Ok(count),
        Err(_) => Err(Failed),
    }
}

// Writes the front of a piece to a sink, and flushes it. At `Err` a front was written too, where the
// flush failed.
fn write_piece<W: Write>(sink: &mut W, piece: &[u8]) -> Result<usize, Failed>
    ensures count { IfOk result (λ k. k ≤ length piece.now) }
    ensures bytes { IfOk result (λ k. Appends (W.contents sink.old) (W.contents sink.new) (take k piece.now)) }
    ensures cut { OnErr result ((front : List ℕ) × IsFront front piece.now × Appends (W.contents sink.old) (W.contents sink.new) front) }
{
    match sink.write(piece) {
        Ok(count) => match sink.flush() {
            Ok(()) => Ok(count),
            Err(_) => Err(Failed),
        },
        Err(_) => Err(Failed),
    }
}

/// Standard output. Each piece is flushed before the answer, and out of memory inside a call is a
/// fault as any other.
#[derive(Drop)]
pub struct HostOut<'a, R: Print> {
    rt: &'a R,
    failures: u64,
}

impl<'a, R: Print> Model for HostOut<'a, R> {
    ghost use Rattle.std.specs.Prelude.{ℕ};

    ghost Value = { ℕ };

    ghost view = { λ out. out.failures };
}

impl<'a, R: Print> HostOut<'a, R> {
    /// The standard output of the runtime. It has not failed yet.
    pub fn new(rt: &'a R) -> Self
        ensures { result ≡ 0 }
    {
        HostOut { rt, failures: 0 }
    }
}

impl<'a, R: Print> Sink for HostOut<'a, R> {
    ghost wrote = { λ _. None };

    ghost faults = { λ out. out };

    fn write(&mut self, piece: &[u8]) -> Result<usize, Failed>
        ensures count { IfOk result (λ k. k ≤ length piece.now) }
        ensures failed { OnErr result (self.new ≡ raised self.old) }
        ensures none { IfOk result (λ k. k ≡ 0 → 0 < length piece.now → self.new ≡ raised self.old) }
        ensures steady { IfOk result (λ k. (0 < k) ⊎ (piece.now ≡ []) → self.new ≡ self.old) }
        ensures later { self.old ≤ self.new }
    {
        let mut out = io::writer(self.rt);
        if let Ok(count) = write_piece(&mut out, piece) {
            if count == 0 && !piece.is_empty() {
                self.failures = self.failures.saturating_add(1);
            }
            return Ok(count);
        }
        self.failures = self.failures.saturating_add(1);
        Err(Failed)
    }
}
