ghost use Rattle.std.specs.Prelude.{◌≡◌, ◌≢◌, ◌<◌, ◌≤◌, ◌-◌, ◌↔◌, ◌⊎◌, List, ℕ, length, take, drop, min, Contains, None, IfOk, IfSome, IsErr, is_err};
ghost use Rattle.std.specs.Option.{option_copied};
ghost use Rattle.rf_io.specs.Causes.{HasCause};
ghost use Rattle.rf_io.specs.Folder.{IsMissing, NoneFell, ReadsAt, SameFiles, Stores};
ghost use Rattle.rf_io.specs.Memory.{file_named, folder_after, folder_state};

use crate::{Failed, Folder};
use rf_text::Text;
use std::marker::Model;

/// Files in memory, for tests: calls of given numbers fail, and a call gives a given number of bytes
/// at the most.
#[derive(Debug, Drop)]
pub struct MemFolder {
    files: Vec<(Text, Vec<u8>)>,
    failing: Vec<u64>,
    step: u64,
    calls: u64,
    faults: u64,
}

impl Model for MemFolder {
    ghost use Rattle.std.specs.Prelude.{◌≤◌};
    ghost use Rattle.rf_io.specs.Memory.{MemoryFolder};

    ghost Value = { MemoryFolder };

    ghost view = { λ m. record { files = m.files.items; failing = m.failing.items; step = m.step; calls = m.calls; faults = m.faults } };

    ghost invariant = { λ m. 1 ≤ m.step };
}

fn find_file<'a>(files: &'a [(Text, Vec<u8>)], name: &str) -> Option<&'a [u8]>
    ensures { option_copied result ≡ file_named files.now name.now }
{
    let file = files.iter().find(|file| file.0.as_str() == name)?;
    Some(file.1.as_slice())
}

fn copy_prefix(from: &[u8], buf: &mut [u8], step: u64) -> usize
    requires room { 0 < length buf.old }
    requires steps { 1 ≤ step }
    ensures count { result ≡ min step (min (length buf.new) (length from.now)) }
    ensures bytes { take result buf.new ≡ take result from.now }
{
    let count = from.len().min(buf.len()).min(step as usize);
    buf[..count].copy_from_slice(&from[..count]);
    count
}

impl MemFolder {
    /// The calls are numbered from 0, and those whose number is in `failing` fail. Each other read of
    /// a file gives at most `step` bytes. Of two files with one name the first is read.
    pub fn new(files: Vec<(Text, Vec<u8>)>, failing: Vec<u64>, step: u64) -> MemFolder
        requires { 1 ≤ step }
        ensures { result ≡ record { files = files.items; failing = failing.items; step = step; calls = 0; faults = 0 } }
    {
        MemFolder {
            files,
            failing,
            step,
            calls: 0,
            faults: 0,
        }
    }
}

impl Folder for MemFolder {
    ghost state = { folder_state };

    fn read_at(&mut self, name: &str, at: u64, buf: &mut [u8]) -> Result<usize, Failed>
        requires { 0 < length buf.old }
        ensures bound { IfOk result (λ n. n ≤ length buf.new) }
        ensures bytes { IfOk result (λ n. (file : List ℕ) → Stores (folder_state self.old) name.now file → ReadsAt file at n buf.new) }
        ensures missing { IsMissing (folder_state self.old) name.now → IsErr result }
        ensures same { SameFiles (folder_state self.old) (folder_state self.new) }
        ensures later { NoneFell (folder_state self.old) (folder_state self.new) }
        ensures cause { HasCause self.old.faults self.new.faults result }

        // Beyond what every folder promises: which calls fail, and how much the others give.
        ensures failed { IsErr result ↔ (Contains self.old.failing self.old.calls ⊎ (file_named self.old.files name.now ≡ None)) }
        ensures count { IfOk result (λ n. IfSome (file_named self.old.files name.now) (λ file. n ≡ min self.old.step (min (length buf.new) (length file - at)))) }
        ensures after { self.new ≡ folder_after self.old (is_err result) }
    {
        let call = self.calls;
        self.calls = call.saturating_add(1);
        if self.failing.contains(&call) {
            self.faults = self.faults.saturating_add(1);
            return Err(Failed);
        }
        let Some(file) = find_file(self.files.as_slice(), name) else {
            self.faults = self.faults.saturating_add(1);
            return Err(Failed);
        };
        if at >= file.len() as u64 {
            return Ok(0);
        }
        Ok(copy_prefix(&file[at as usize..], buf, self.step))
    }
}
