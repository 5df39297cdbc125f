ghost use Rattle.std.specs.Prelude.{◌≡◌, ◌<◌, ◌≤◌, ◌↔◌, ◌⊎◌, List, [], ℕ, Option, Some, None, MatchOption, IfOk, OnOk, OnErr, IsErr, length, take, min, All, IsTrue};
ghost use Rattle.std.specs.Io.{ReadsAtMost};
ghost use Rattle.std.specs.Io.KnownBytes.{Consumes, IsAtEnd, Keeps};
ghost use Rattle.bye_io.specs.Counts.{raised, Rose};
ghost use Rattle.bye_io.specs.Files.{Lacks, Opens};
ghost use Rattle.bye_io.specs.MemFolder.{lookup, open_bytes, AreDistinct};
ghost use Rattle.bye_io.specs.Plan.{CountsCall, IsNewPlan, IsToFail};

use crate::fault::Failed;
use crate::folder::Folder;
use crate::plan::Plan;
use crate::source::Source;
use bye_terms::Text;

/// Files in memory. It tells its files and the bytes that are left.
#[derive(Drop)]
pub struct MemFolder {
    files: Vec<(Text, Vec<u8>)>,
    // The place of the open file, and how many of its bytes were read.
    open_at: Option<usize>,
    read: usize,
    plan: Plan,
}

// The place of the file of that name.
fn find_file(files: &[(Text, Vec<u8>)], name: &Text) -> Option<usize>
    ensures { MatchOption result (lookup files.now name.now ≡ None)
        (λ i. lookup files.now name.now ≡ Some (open_bytes files.now (Some i) 0)) }
{
    for (i, file) in files.iter().enumerate() {
        if file.0.same(name) {
            return Some(i);
        }
    }
    None
}

// The bytes of the open file that were not read.
fn bytes_left(files: &[(Text, Vec<u8>)], open_at: Option<usize>, read: usize) -> &[u8]
    ensures { result.now ≡ open_bytes files.now open_at read }
{
    let Some(i) = open_at else {
        return &[];
    };
    let Some((_, bytes)) = files.get(i) else {
        return &[];
    };
    bytes.get(read..).unwrap_or(&[])
}

// Copies bytes from the front into the buffer, at most so many, and tells how many.
fn copy_some(bytes: &[u8], buf: &mut [u8], most: u64) -> usize
    ensures count { result ≡ min (min (length buf.old) (length bytes.now)) most }
    ensures same { take result buf.new ≡ take result bytes.now }
    ensures len { length buf.new ≡ length buf.old }
{
    let n = buf.len().min(bytes.len()).min(most as usize);
    let (front, _) = buf.split_at_mut(n);
    front.copy_from_slice(bytes.split_at(n).0);
    n
}

impl MemFolder {
    ghost use Rattle.bye_io.specs.InMemory.{folder_files, folder_plan};

    /// Whether no two files have the same name, as `new` asks.
    pub fn are_distinct(files: &[(Text, Vec<u8>)]) -> bool
        ensures { IsTrue result ↔ AreDistinct files.now }
    {
        let mut rest = files;
        while let Some((file, after)) = rest.split_first() {
            if find_file(after, &file.0).is_some() {
                return false;
            }
            rest = after;
        }
        true
    }

    /// A folder with no file open. The calls of the numbers in `fails`, from 1 on, are to fail,
    /// and one read takes at most `most` bytes.
    pub fn new(files: Vec<(Text, Vec<u8>)>, fails: Vec<u64>, most: u64) -> Self
        requires distinct { AreDistinct files.items }
        requires some { 1 ≤ most }
        ensures files { ⟦<MemFolder as Folder>⟧.files result ≡ Some (lookup files.items) }
        ensures each { All (λ f. lookup files.items f.0 ≡ Some f.1.items) files.items }
        ensures left { ⟦<MemFolder as Source>⟧.left result ≡ Some [] }
        ensures faults { ⟦<MemFolder as Source>⟧.faults result ≡ 0 }
        ensures plan { IsNewPlan (folder_plan result) fails.items most }
    {
        MemFolder {
            files,
            open_at: None,
            read: 0,
            plan: Plan::new(fails, most),
        }
    }
}

impl Source for MemFolder {
    ghost use Rattle.bye_io.specs.InMemory.{folder_files, folder_left, folder_plan};

    ghost Aside = { List ℕ → Option (List ℕ) };

    ghost left = { λ s. Some (folder_left s) };

    ghost faults = { λ s. (folder_plan s).faults };

    ghost doors = { λ s. 0 };

    ghost aside = { folder_files };

    fn read(&mut self, buf: &mut [u8]) -> Result<usize, Failed>
        requires { 0 < length buf.old }
        ensures bound { ReadsAtMost result buf.new }
        ensures taken { IfOk result (λ n.
            Consumes (Some (folder_left self.old)) (Some (folder_left self.new)) (take n buf.new)) }
        ensures end { IfOk result (λ n. n ≡ 0 → IsAtEnd (Some (folder_left self.new))) }
        ensures kept { OnErr result
            (Keeps (Some (folder_left self.old)) (Some (folder_left self.new))) }
        ensures cause { OnErr result
            (Rose (folder_plan self.old).faults (folder_plan self.new).faults) }
        ensures later { (folder_plan self.old).faults ≤ (folder_plan self.new).faults }
        ensures aside { folder_files self.new ≡ folder_files self.old }

        // It fails where the plan says so, and else reads as many bytes as it may.
        ensures planned { IsErr result ↔ IsToFail (folder_plan self.old) }
        ensures count { IfOk result (λ n.
            n ≡ min (min (length buf.old) (length (folder_left self.old))) (folder_plan self.old).most) }
        ensures counted { CountsCall (folder_plan self.old) (folder_plan self.new) }
        ensures fault { OnErr result
            ((folder_plan self.new).faults ≡ raised (folder_plan self.old).faults) }
        ensures no_fault { OnOk result
            ((folder_plan self.new).faults ≡ (folder_plan self.old).faults) }
    {
        if self.plan.fails_now() {
            return Err(Failed);
        }
        let bytes = bytes_left(&self.files, self.open_at, self.read);
        let n = copy_some(bytes, buf, self.plan.most);
        self.read += n;
        Ok(n)
    }
}

impl Folder for MemFolder {
    ghost use Rattle.bye_io.specs.InMemory.{folder_files, folder_left, folder_plan};
    ghost use Rattle.std.proofs.Common.{ap};

    ghost files = { λ s. Some (folder_files s) };

    ghost files_aside = { λ x y e. ap Some e };

    fn open_file(&mut self, name: &Text) -> Result<(), Failed>
        ensures opened { OnOk result
            (Opens (Some (folder_files self.old)) name.now (Some (folder_left self.new))) }
        ensures closed { OnErr result (IsAtEnd (Some (folder_left self.new))) }
        ensures cause { OnErr result
            (Rose (folder_plan self.old).faults (folder_plan self.new).faults ⊎ Lacks (Some (folder_files self.old)) name.now) }
        ensures files { folder_files self.new ≡ folder_files self.old }
        ensures later { (folder_plan self.old).faults ≤ (folder_plan self.new).faults }

        // It fails where the plan says so, and else only where no file has that name, which is no fault.
        ensures planned { IsErr result ↔ IsToFail (folder_plan self.old)
            ⊎ Lacks (Some (folder_files self.old)) name.now }
        ensures counted { CountsCall (folder_plan self.old) (folder_plan self.new) }
        ensures fault { IsToFail (folder_plan self.old) →
            (folder_plan self.new).faults ≡ raised (folder_plan self.old).faults }
        ensures no_fault { ¬ (IsToFail (folder_plan self.old)) →
            (folder_plan self.new).faults ≡ (folder_plan self.old).faults }
    {
        self.open_at = None;
        self.read = 0;
        if self.plan.fails_now() {
            return Err(Failed);
        }
        self.open_at = find_file(&self.files, name);
        match self.open_at {
            Some(_) => Ok(()),
            None => Err(Failed),
        }
    }
}
