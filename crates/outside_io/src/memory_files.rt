// Files in memory, whose listed calls fail.
ghost use Rattle.std.specs.Prelude.{◌≡◌, ◌≢◌, ◌⊎◌, ◌<◌, ◌≤◌, ◌+◌, ◌^◌, ◌++◌, ◌↔◌, [], List, ℕ, Option, Some, None, min, length, vec_len, take, drop, slice_set, position, IsSome, IsErr, IsOk, IfOk, OnOk, OnErr, Contains};
ghost use Rattle.std.specs.Str.{bytes_eq};
ghost use Rattle.outside_io.specs.Io.{raised, Rose, IsFront};
ghost use Rattle.outside_io.specs.Memory.{HeldFile, HeldFiles, file_at, after_fault, replaced, told_of, faults_of, IsOpenIn, at_start, moved, given_of, rest_of, RaisesCount};

use crate::calls::Calls;
use crate::{Failed, Files};
use c_syntax_written::Numbers;
use std::alloc::{AllocError as NoMemory, Global};
use std::marker::Model;

#[derive(Drop)]
struct File {
    name: Vec<u8>,
    bytes: Vec<u8>,
    failures: u64,
}

impl Model for File {
    ghost use Rattle.outside_io.specs.Memory.{HeldFile};

    ghost Value = { HeldFile };

    ghost view = { λ f. record { name = f.name.items; bytes = f.bytes.items; faults = f.failures } };
}

impl File {
    fn is_named(&self, name: &str) -> bool
        ensures { result ≡ bytes_eq self.now.name name.now }
    {
        self.name.as_slice() == name.as_bytes()
    }

    // Gives the bytes from a place on, as many as there are and fit, and says how many.
    fn give(&self, from: usize, into: &mut [u8]) -> usize
        requires { from ≤ length self.now.bytes }
        ensures count { result ≡ min (length into.old) (length (drop from self.now.bytes)) }
        ensures within { from + result ≤ length self.now.bytes }
        ensures fits { from + result < 2 ^ 64 }
        ensures bytes { into.new ≡ take result (drop from self.now.bytes) ++ drop result into.old }
    {
        let rest = &self.bytes.as_slice()[from..];
        let count = into.len().min(rest.len());
        into[..count].copy_from_slice(&rest[..count]);
        count
    }
}

// The file that is open, by its place, and how many of its bytes were given.
#[derive(Clone, Copy)]
struct Open {
    place: usize,
    given: usize,
}

/// Files in memory. The calls of `begin` and `read` are counted together from 1, and those whose
/// numbers are listed fail.
#[derive(Drop)]
pub struct MemFiles {
    files: Vec<File>,
    absent_failures: u64,
    current: Option<Open>,
    calls: Calls,
}

impl Model for MemFiles {
    ghost use Rattle.std.specs.Option.{option_map, IfSome};
    ghost use Rattle.outside_io.specs.Memory.{HeldFiles, IsOpenPlace, file_at};

    ghost Value = { HeldFiles };

    ghost view = { λ m. record {
      files = m.files.items;
      absent_faults = m.absent_failures;
      current = option_map (λ o. record { name = (file_at m.files.items o.place).name; given = o.given }) m.current;
      failing = m.calls.failing;
      calls = m.calls.made;
    } };

    ghost invariant = { λ m. IfSome m.current (λ o. IsOpenPlace m.files.items o.place o.given) };
}

impl MemFiles {
    /// Files of which none is held and no name is open. The calls with these numbers are to fail.
    pub fn new(alloc: Global, failing: Numbers) -> MemFiles
        ensures told { (n : List ℕ) → told_of result n ≡ None }
        ensures faults { (n : List ℕ) → faults_of result n ≡ 0 }
        ensures closed { result.current ≡ None }
        ensures failing { result.failing ≡ failing }
        ensures calls { result.calls ≡ 0 }
    {
        MemFiles {
            files: Vec::new(alloc),
            absent_failures: 0,
            current: None,
            calls: Calls::new(failing),
        }
    }

    /// Holds these bytes under a name, in the place of those that it had. No name is open then. A
    /// name that had none goes on with its count of faults. At `Err` nothing else has changed.
    pub fn add(&mut self, name: &str, bytes: &[u8]) -> Result<(), NoMemory>
        ensures told { OnOk result (told_of self.new name.now ≡ Some bytes.now) }
        ensures others { OnOk result ((n : List ℕ) → n ≢ name.now → told_of self.new n ≡ told_of self.old n) }
        ensures faults { (n : List ℕ) → faults_of self.new n ≡ faults_of self.old n }
        ensures closed { self.new.current ≡ None }
        ensures failing { self.new.failing ≡ self.old.failing }
        ensures calls { self.new.calls ≡ self.old.calls }
        ensures err { OnErr result (self.new ≡ record self.old { current = None }) }
    {
        self.current = None;
        let alloc = *self.files.allocator();
        let bytes = Vec::from_slice(alloc, bytes)?;
        if let Some(place) = place_of(&self.files, name) {
            replace_at(&mut self.files, place, bytes);
            return Ok(());
        }
        let name = Vec::from_slice(alloc, name.as_bytes())?;
        self.files.push(File {
            name,
            bytes,
            failures: self.absent_failures,
        })?;
        Ok(())
    }
}

impl Files for MemFiles {
    ghost told = { told_of };

    ghost is_open = { IsOpenIn };

    ghost given = { given_of };

    ghost faults = { faults_of };

    // Fails exactly where the call is listed or the name is not held.
    fn begin(&mut self, name: &str) -> Result<(), Failed>
        ensures failed { IsErr result ↔ ((told_of self.old name.now ≡ None) ⊎ Contains self.old.failing (raised self.old.calls)) }
        ensures calls { self.new.calls ≡ raised self.old.calls }
        ensures failing { self.new.failing ≡ self.old.failing }
        ensures told { (n : List ℕ) → told_of self.new n ≡ told_of self.old n }

        ensures open { OnOk result (self.new.current ≡ at_start name.now) }
        ensures closed { OnErr result (self.new.current ≡ None) }

        ensures later { (n : List ℕ) → faults_of self.old n ≤ faults_of self.new n }
        ensures steady { OnOk result ((n : List ℕ) → faults_of self.new n ≡ faults_of self.old n) }
        ensures fault { OnErr result (RaisesCount self.old self.new name.now) }
        ensures held { self.old.failing ≡ [] → IsSome (told_of self.old name.now) → IsOk result }
        ensures unharmed { self.old.failing ≡ [] → (n : List ℕ) → IsSome (told_of self.old n) → faults_of self.new n ≡ faults_of self.old n }
    {
        self.current = None;
        let fails = self.calls.next_fails();
        let Some(place) = place_of(&self.files, name) else {
            self.absent_failures = self.absent_failures.saturating_add(1);
            return Err(Failed);
        };
        if fails {
            fail_at(&mut self.files, place);
            return Err(Failed);
        }
        self.current = Some(Open { place, given: 0 });
        Ok(())
    }

    // Fails exactly where the call is listed or no name is open. Else it gives what is left and fits.
    fn read(&mut self, into: &mut [u8]) -> Result<usize, Failed>
        ensures failed { IsErr result ↔ ((self.old.current ≡ None) ⊎ Contains self.old.failing (raised self.old.calls)) }
        ensures calls { self.new.calls ≡ raised self.old.calls }
        ensures failing { self.new.failing ≡ self.old.failing }
        ensures told { (n : List ℕ) → told_of self.new n ≡ told_of self.old n }

        ensures count { IfOk result (λ k. k ≡ min (length into.old) (length (rest_of self.old))) }
        ensures bytes { IfOk result (λ k. into.new ≡ take k (rest_of self.old) ++ drop k into.old) }
        ensures moved { IfOk result (λ k. self.new.current ≡ moved k self.old.current) }
        ensures kept { OnErr result (self.new.current ≡ self.old.current) }

        ensures later { (n : List ℕ) → faults_of self.old n ≤ faults_of self.new n }
        ensures steady { OnOk result ((n : List ℕ) → faults_of self.new n ≡ faults_of self.old n) }
        ensures fault { OnErr result ((n : List ℕ) → IsOpenIn self.old n → RaisesCount self.old self.new n) }
        ensures closed { self.old.current ≡ None → (n : List ℕ) → faults_of self.new n ≡ faults_of self.old n }
        ensures held { self.old.failing ≡ [] → IsSome self.old.current → IsOk result }
        ensures unharmed { self.old.failing ≡ [] → (n : List ℕ) → IsSome (told_of self.old n) → faults_of self.new n ≡ faults_of self.old n }
    {
        let fails = self.calls.next_fails();
        let Some(current) = self.current else {
            return Err(Failed);
        };
        if fails {
            fail_at(&mut self.files, current.place);
            return Err(Failed);
        }
        let file = &self.files[current.place];
        let count = file.give(current.given, into);
        self.current = Some(Open {
            place: current.place,
            given: current.given + count,
        });
        Ok(count)
    }
}

// The first place of a file with this name.
fn place_of(files: &Vec<File>, name: &str) -> Option<usize>
    ensures { result ≡ position (λ f. bytes_eq f.name name.now) files.now.items }
{
    files.iter().position(|file| file.is_named(name))
}

// Counts a fault of the file at a place.
fn fail_at(files: &mut Vec<File>, place: usize)
    requires { place < vec_len files.old }
    ensures items { files.new.items ≡ slice_set files.old.items place (after_fault (file_at files.old.items place)) }
    ensures later { (file_at files.old.items place).faults ≤ raised (file_at files.old.items place).faults }
{
    let file = &mut files[place];
    file.failures = file.failures.saturating_add(1);
}

// Puts bytes in the place of those of the file at a place.
fn replace_at(files: &mut Vec<File>, place: usize, bytes: Vec<u8>)
    requires { place < vec_len files.old }
    ensures { files.new.items ≡ slice_set files.old.items place (replaced bytes.items (file_at files.old.items place)) }
{
    let file = &mut files[place];
    file.bytes = bytes;
}
