//! Files, outputs and a console in memory, with calls that fail when told to.
ghost use Rattle.std.specs.Prelude.{◌≡◌, ◌∷◌, ◌++◌, ◌+◌, ◌-◌, ◌<◌, ◌≤◌, ◌^◌, ◌==◌, ◌⊎◌, ◌↔◌, if◌then◌else◌, [], ℕ, List, map, min, length};
ghost use Rattle.std.specs.Prelude.{take, Some, None, IfOk, IfErr, IfSome, OnOk, OnErr, vec_capacity, string_bytes, IsErrOf, IsErr, IsTrue};
ghost use Rattle.std.specs.List.{list_any};
ghost use Rattle.std.specs.declared.option.Option.{Option};
ghost use Rattle.iasl_ports.specs.Gained.{Gains, Named};
ghost use Rattle.iasl_ports.specs.Counts.{Rose};

use crate::counts::raise;
use crate::files::{FetchFault, Files, MOST_BYTES};
use crate::list::{Text, Texts};
use crate::outputs::{Outputs, PutFault};
use crate::sink::{Sink, SinkFault};
use std::alloc::{AllocError, Global};

/// The calls so far, and which of them fail, counted from 1.
#[derive(Drop)]
pub struct Calls {
    done: u64,
    failing: Vec<u64>,
    faults: u64,
}

impl Calls {
    ghost use Rattle.iasl_ports.specs.Memory.{next_call, IsToFail, CountsCall, NamesCall, KeepsCalls, HasNoCalls};

    fn new(alloc: Global) -> Self
        ensures { HasNoCalls result }
    {
        Calls {
            done: 0,
            failing: Vec::new(alloc),
            faults: 0,
        }
    }

    fn fail_at(&mut self, call: u64) -> Result<(), AllocError>
        ensures named { OnOk result (NamesCall self.old self.new call) }
        ensures refused { OnErr result (KeepsCalls self.old self.new) }
    {
        self.failing.push(call)?;
        Ok(())
    }

    fn count_fault(&mut self)
        ensures failing { self.new.failing.items ≡ self.old.failing.items }
        ensures done { self.new.done ≡ self.old.done }
        ensures later { self.old.faults ≤ self.new.faults }
        ensures rose { Rose self.old.faults self.new.faults }
    {
        raise(&mut self.faults);
    }

    // Counts a call, and says whether it is to fail.
    fn next(&mut self) -> bool
        ensures named { result ≡ list_any (λ call. call == next_call self.old) self.old.failing.items }
        ensures failing { self.new.failing.items ≡ self.old.failing.items }
        ensures done { self.new.done ≡ next_call self.old }
        ensures later { self.old.faults ≤ self.new.faults }
        ensures faults { self.new.faults ≡ (if result then min (self.old.faults + 1) (2 ^ 64 - 1) else self.old.faults) }
    {
        self.done = self.done.saturating_add(1);
        let fails = self.failing.contains(&self.done);
        if fails {
            raise(&mut self.faults);
        }
        fails
    }
}

/// One file to read.
#[derive(Drop)]
struct Stored {
    name: String,
    bytes: Vec<u8>,
}

/// Files in memory. The first of a name counts.
pub struct MemoryFiles {
    alloc: Global,
    stored: Vec<Stored>,
    calls: Calls,
    absents: u64,
    larges: u64,
}

// By hand, so that an owner lets go of it by one call (docs/DECISIONS.md).
impl Drop for MemoryFiles {
    fn drop(self) {
        let MemoryFiles {
            alloc: _,
            stored: _,
            calls: _,
            absents: _,
            larges: _,
        } = self;
    }
}

impl MemoryFiles {
    ghost use Rattle.iasl_ports.specs.Memory.{stored_files, NamesCall, KeepsCalls, HasNoCalls};
    ghost use Rattle.iasl_ports.specs.Fetched.{find_file};
    ghost use Rattle.std.specs.Option.{option_copied};

    /// No files, of which no fetch is to fail.
    pub fn new(alloc: Global) -> Self
        ensures files { stored_files result ≡ [] }
        ensures calls { HasNoCalls result.calls }
        ensures absents { result.absents ≡ 0 }
        ensures larges { result.larges ≡ 0 }
    {
        MemoryFiles {
            alloc,
            stored: Vec::new(alloc),
            calls: Calls::new(alloc),
            absents: 0,
            larges: 0,
        }
    }

    /// Adds a file after the others.
    pub fn add(&mut self, name: &str, bytes: &[u8]) -> Result<(), AllocError>
        ensures ok { OnOk result (stored_files self.new ≡ stored_files self.old ++ (name.now, bytes.now) ∷ []) }
        ensures err { OnErr result (stored_files self.new ≡ stored_files self.old) }
        ensures calls { self.new.calls ≡ self.old.calls }
        ensures absents { self.new.absents ≡ self.old.absents }
        ensures larges { self.new.larges ≡ self.old.larges }
    {
        let name = String::from_str(self.alloc, name)?;
        let bytes = bytes.to_vec(self.alloc)?;
        self.stored.push(Stored { name, bytes })?;
        Ok(())
    }

    /// Lets that fetch fail, counted from 1 over the life of these files.
    pub fn fail_at(&mut self, call: u64) -> Result<(), AllocError>
        ensures named { OnOk result (NamesCall self.old.calls self.new.calls call) }
        ensures refused { OnErr result (KeepsCalls self.old.calls self.new.calls) }
        ensures files { stored_files self.new ≡ stored_files self.old }
        ensures absents { self.new.absents ≡ self.old.absents }
        ensures larges { self.new.larges ≡ self.old.larges }
    {
        self.calls.fail_at(call)
    }

    fn find(&self, name: &str) -> Option<&[u8]>
        ensures { option_copied result ≡ find_file (stored_files self.now) name.now }
    {
        let mut rest = self.stored.as_slice();
        while let [file, after @ ..] = rest {
            if file.name.as_str() == name {
                return Some(&file.bytes);
            }
            rest = after;
        }
        None
    }
}

impl Files for MemoryFiles {
    ghost use Rattle.iasl_ports.specs.Memory.{stored_files, IsToFail, CountsCall};
    ghost use Rattle.iasl_ports.specs.Fetched.{find_file, most_bytes, RefusedAt, RefusedCounts};

    ghost contents = { λ files. Some (stored_files files) };

    ghost faults = { λ files. files.calls.faults };

    ghost absents = { λ files. files.absents };

    ghost larges = { λ files. files.larges };

    fn fetch(&mut self, alloc: Global, name: &str) -> Result<Vec<u8>, FetchFault>
        ensures named { IsErrOf result FetchFault.Failed ↔ IsToFail self.old.calls }
        ensures counted { CountsCall self.old.calls self.new.calls }
        ensures contents { Some (stored_files self.new) ≡ Some (stored_files self.old) }
        ensures whole { IfOk result (λ bytes. find_file (stored_files self.old) name.now ≡ Some bytes.items) }
        ensures size { IfOk result (λ bytes. length bytes.items ≤ most_bytes) }
        ensures refused { IfErr result (λ fault. RefusedAt fault (find_file (stored_files self.old) name.now)) }
        ensures faults { OnOk result (self.new.calls.faults ≡ self.old.calls.faults) }
        ensures counts { IfErr result
            (λ fault. RefusedCounts fault self.old.calls.faults self.new.calls.faults self.old.absents self.new.absents self.old.larges
            self.new.larges) }
        ensures later_faults { self.old.calls.faults ≤ self.new.calls.faults }
        ensures later_absents { self.old.absents ≤ self.new.absents }
        ensures later_larges { self.old.larges ≤ self.new.larges }
    {
        if self.calls.next() {
            return Err(FetchFault::Failed);
        }
        match self.find(name) {
            None => {
                raise(&mut self.absents);
                Err(FetchFault::Absent)
            }
            Some(bytes) => {
                if bytes.len() > MOST_BYTES {
                    raise(&mut self.larges);
                    return Err(FetchFault::TooLarge);
                }
                Ok(bytes.to_vec(alloc)?)
            }
        }
    }
}

/// Files that were put, in memory. A failing put leaves a pair with the first half of its bytes.
pub struct MemoryOutputs {
    alloc: Global,
    names: Texts,
    bodies: Texts,
    calls: Calls,
    ghost same_len: { length bodies ≡ length names },
}

// By hand, so that an owner lets go of it by one call (docs/DECISIONS.md).
impl Drop for MemoryOutputs {
    fn drop(self) {
        let MemoryOutputs {
            alloc: _,
            names: _,
            bodies: _,
            calls: _,
        } = self;
    }
}

impl MemoryOutputs {
    ghost use Rattle.iasl_ports.specs.Memory.{put_files, NamesCall, KeepsCalls, HasNoCalls};
    ghost use Rattle.std.specs.List.{zip};

    /// No file yet, and no put that is to fail.
    pub fn new(alloc: Global) -> Self
        ensures files { put_files result ≡ [] }
        ensures calls { HasNoCalls result.calls }
    {
        MemoryOutputs {
            alloc,
            names: Texts::new(alloc),
            bodies: Texts::new(alloc),
            calls: Calls::new(alloc),
        }
    }

    /// Lets that put fail, counted from 1 over the life of these outputs.
    pub fn fail_at(&mut self, call: u64) -> Result<(), AllocError>
        ensures named { OnOk result (NamesCall self.old.calls self.new.calls call) }
        ensures refused { OnErr result (KeepsCalls self.old.calls self.new.calls) }
        ensures files { put_files self.new ≡ put_files self.old }
    {
        self.calls.fail_at(call)
    }

    /// The names of the files that were put, in order.
    pub fn names(&self) -> &Texts
        ensures { result.now ≡ map (λ file. file.0) (put_files self.now) }
    {
        &self.names
    }

    /// The bytes of the files that were put, in order.
    pub fn bodies(&self) -> &Texts
        ensures { result.now ≡ map (λ file. file.1) (put_files self.now) }
    {
        &self.bodies
    }

    #[tactic(auto, using(std::proofs::lemmas::Grind::common_steps, crate::specs::GainedLaws::zip_push))]
    fn add(&mut self, name: &str, bytes: &[u8]) -> Result<(), AllocError>
        ensures ok { OnOk result (put_files self.new ≡ put_files self.old ++ (name.now, bytes.now) ∷ []) }
        ensures err { OnErr result (put_files self.new ≡ put_files self.old) }
        ensures calls { self.new.calls ≡ self.old.calls }
    {
        let name = Text::from_bytes(self.alloc, name.as_bytes())?;
        let body = Text::from_bytes(self.alloc, bytes)?;
        add_pair(&mut self.names, &mut self.bodies, name, body)
    }
}

#[tactic(auto, using(std::proofs::lemmas::Grind::common_steps, crate::specs::GainedLaws::take_seam))]
fn add_pair(names: &mut Texts, bodies: &mut Texts, name: Text, body: Text) -> Result<(), AllocError>
    ensures names { OnOk result (names.new ≡ names.old ++ name ∷ []) }
    ensures bodies { OnOk result (bodies.new ≡ bodies.old ++ body ∷ []) }
    ensures names_stay { OnErr result (names.new ≡ names.old) }
    ensures bodies_stay { OnErr result (bodies.new ≡ bodies.old) }
{
    let count = bodies.len();
    bodies.push(body)?;
    match names.push(name) {
        Ok(()) => Ok(()),
        Err(e) => {
            bodies.truncate(count);
            Err(e)
        }
    }
}

impl Outputs for MemoryOutputs {
    ghost use Rattle.iasl_ports.specs.Memory.{put_files, IsToFail, CountsCall};
    ghost use Rattle.iasl_ports.specs.Put.{PutRefused, PutCounts};

    ghost written = { λ outs. Some (put_files outs) };

    ghost faults = { λ outs. outs.calls.faults };

    fn put(&mut self, name: &str, bytes: &[u8]) -> Result<(), PutFault>
        ensures named { IsErrOf result PutFault.Failed ↔ IsToFail self.old.calls }
        ensures counted { CountsCall self.old.calls self.new.calls }
        ensures written { OnOk result (Gains (Some (put_files self.old)) (Some (put_files self.new)) ((name.now, bytes.now) ∷ [])) }
        ensures refused { IfErr result
            (λ fault. PutRefused fault (Some (put_files self.old)) (Some (put_files self.new)) name.now bytes.now) }
        ensures faults { OnOk result (self.new.calls.faults ≡ self.old.calls.faults) }
        ensures counts { IfErr result (λ fault. PutCounts fault (self.old.calls.faults) (self.new.calls.faults)) }
        ensures later { self.old.calls.faults ≤ self.new.calls.faults }
    {
        if self.calls.next() {
            let _ = self.add(name, &bytes[..bytes.len() / 2]);
            return Err(PutFault::Failed);
        }
        Ok(self.add(name, bytes)?)
    }
}

/// A console in memory, with room for so many bytes. A write takes what there is room for.
pub struct MemorySink {
    bytes: Vec<u8>,
    room: usize,
    calls: Calls,
    ghost within: { length bytes.items ≤ room },
    ghost has_room: { room ≤ vec_capacity bytes },
}

// By hand, so that an owner lets go of it by one call (docs/DECISIONS.md).
impl Drop for MemorySink {
    fn drop(self) {
        let MemorySink {
            bytes: _,
            room: _,
            calls: _,
        } = self;
    }
}

impl MemorySink {
    ghost use Rattle.iasl_ports.specs.Memory.{told_bytes, room_of, NamesCall, KeepsCalls, HasNoCalls};

    /// An empty console with room for so many bytes, of which no write is to fail.
    pub fn new(alloc: Global, room: usize) -> Result<MemorySink, AllocError>
        ensures empty { IfOk result (λ sink. told_bytes sink ≡ []) }
        ensures room { IfOk result (λ sink. room_of sink ≡ room) }
        ensures calls { IfOk result (λ sink. HasNoCalls sink.calls) }
    {
        Ok(MemorySink {
            bytes: Vec::with_capacity(alloc, room)?,
            room,
            calls: Calls::new(alloc),
        })
    }

    /// Lets that write fail, counted from 1 over the life of this console.
    pub fn fail_at(&mut self, call: u64) -> Result<(), AllocError>
        ensures named { OnOk result (NamesCall self.old.calls self.new.calls call) }
        ensures refused { OnErr result (KeepsCalls self.old.calls self.new.calls) }
        ensures bytes { told_bytes self.new ≡ told_bytes self.old }
        ensures room { room_of self.new ≡ room_of self.old }
    {
        self.calls.fail_at(call)
    }

    /// What was told.
    pub fn as_bytes(&self) -> &[u8]
        ensures { result.now ≡ told_bytes self.now }
    {
        &self.bytes
    }
}

impl Sink for MemorySink {
    ghost use Rattle.iasl_ports.specs.Memory.{told_bytes, room_of, IsToFail, CountsCall};

    ghost told = { λ sink. Some (told_bytes sink) };

    ghost faults = { λ sink. sink.calls.faults };

    fn write(&mut self, bytes: &[u8]) -> Result<usize, SinkFault>
        ensures named { IsErr result
            ↔ (IsToFail self.old.calls ⊎ ((length (told_bytes self.old) ≡ room_of self.old) × (0 < length bytes.now))) }
        ensures counted { CountsCall self.old.calls self.new.calls }
        ensures room { room_of self.new ≡ room_of self.old }
        ensures some { IfOk result (λ count. Gains (Some (told_bytes self.old)) (Some (told_bytes self.new)) (take count bytes.now)) }
        ensures bound { IfOk result (λ count. count ≤ length bytes.now) }
        ensures moves { IfOk result (λ count. 0 < length bytes.now → 0 < count) }
        ensures none { OnErr result (Gains (Some (told_bytes self.old)) (Some (told_bytes self.new)) []) }
        ensures faults { OnOk result (self.new.calls.faults ≡ self.old.calls.faults) }
        ensures cause { OnErr result (Rose self.old.calls.faults self.new.calls.faults) }
        ensures later { self.old.calls.faults ≤ self.new.calls.faults }
    {
        if self.calls.next() {
            return Err(SinkFault);
        }
        let left = self.room - self.bytes.len();
        if left == 0 && !bytes.is_empty() {
            self.calls.count_fault();
            return Err(SinkFault);
        }
        let count = left.min(bytes.len());
        match self.bytes.extend_from_slice(&bytes[..count]) {
            Ok(()) => Ok(count),
            Err(_) => unreachable!(),
        }
    }
}
