ghost use Rattle.std.specs.Prelude.{◌≡◌, ◌<◌, ◌≤◌, ◌↔◌, None, refl, length, OnOk, OnErr, IsOk, IsSome};
ghost use Rattle.std.specs.Io.{ReadsAtMost};
ghost use Rattle.std.specs.Io.KnownBytes.{ReadConsumes};
ghost use Rattle.bye_io.specs.Counts.{raised, Rose};

use crate::fault::Failed;
use crate::folder::Folder;
use crate::source::Source;
use bye_terms::Text;
use std::fs;
use std::io::Read;
use std::rt::Files;

/// The system's files, under names relative to the working folder. It tells no content.
#[derive(Drop)]
pub struct RealFolder<R: Files + Drop> {
    rt: R,
    file: Option<R::File>,
    faults: u64,
}

impl<R: Files + Drop> RealFolder<R> {
    ghost use Rattle.bye_io.specs.Real.{real_file};

    /// A folder with no file open.
    pub fn new(rt: R) -> Self
        ensures file { real_file result ≡ None }
        ensures faults { ⟦<RealFolder<R> as Source>⟧.faults result ≡ 0 }
    {
        RealFolder {
            rt,
            file: None,
            faults: 0,
        }
    }
}

impl<R: Files + Drop> Source for RealFolder<R> {
    ghost use Rattle.bye_io.specs.Real.{file_left, real_faults, real_file};

    ghost Aside = { Unit {0} };

    ghost left = { λ s. None };

    ghost faults = { real_faults };

    ghost doors = { λ s. 0 };

    ghost aside = { λ s. tt };

    fn read(&mut self, buf: &mut [u8]) -> Result<usize, Failed>
        requires { 0 < length buf.old }
        ensures bound { ReadsAtMost result buf.new }
        ensures cause { OnErr result (Rose (real_faults self.old) (real_faults self.new)) }
        ensures later { real_faults self.old ≤ real_faults self.new }

        // The bytes are those of the open file, and only an error is a fault, which needs an open file.
        ensures bytes { ReadConsumes (file_left R.File.remaining (real_file self.old))
            (file_left R.File.remaining (real_file self.new)) result buf.new }
        ensures opened { OnErr result (IsSome (real_file self.old)) }
        ensures fault { OnErr result (real_faults self.new ≡ raised (real_faults self.old)) }
        ensures no_fault { OnOk result (real_faults self.new ≡ real_faults self.old) }
    {
        let Some(file) = &mut self.file else {
            return Ok(0);
        };
        match file.read(buf) {
            Ok(n) => Ok(n),
            Err(_) => {
                self.faults = self.faults.saturating_add(1);
                Err(Failed)
            }
        }
    }
}

impl<R: Files + Drop> Folder for RealFolder<R> {
    ghost use Rattle.bye_io.specs.Real.{real_faults, real_file};

    ghost files = { λ s. None };

    ghost files_aside = { λ x y e. refl };

    fn open_file(&mut self, name: &Text) -> Result<(), Failed>
        ensures cause { OnErr result (Rose (real_faults self.old) (real_faults self.new)) }
        ensures later { real_faults self.old ≤ real_faults self.new }

        // After `Ok` a file is open, and after `Failed` none. Only an error is a fault.
        ensures open { IsOk result ↔ IsSome (real_file self.new) }
        ensures fault { OnErr result (real_faults self.new ≡ raised (real_faults self.old)) }
        ensures no_fault { OnOk result (real_faults self.new ≡ real_faults self.old) }
    {
        self.file = None;
        match fs::open(&self.rt, name.as_str()) {
            Ok(file) => {
                self.file = Some(file);
                Ok(())
            }
            Err(_) => {
                self.faults = self.faults.saturating_add(1);
                Err(Failed)
            }
        }
    }
}
