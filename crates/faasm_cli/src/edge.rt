//! The trusted edge: what is read of real files and written to standard output. Neither tells
//! content.

ghost use Rattle.std.specs.Prelude.{◌≡◌, ◌≤◌, [], None, false, is_some};
ghost use Rattle.fa_outside.specs.Faults.{Rose};

use fa_outside::{Failed, Shelf, Sink};
use std::fs::{Files, open};
use std::io::Read;

const PIECE: usize = 4096;

/// Real files, by their paths.
#[derive(Drop)]
pub struct FileShelf<'r, R: Files> {
    rt: &'r R,
    file: Option<R::File>,
    faults: u64,
}

impl<'r, R: Files> FileShelf<'r, R> {
    /// A shelf with no file open.
    pub fn new(rt: &'r R) -> FileShelf<'r, R>
        ensures closed { is_some result.file ≡ false }
        ensures faults { result.faults ≡ 0 }
    {
        FileShelf {
            rt,
            file: None,
            faults: 0,
        }
    }

    /// Counts a fault, after which nothing is open.
    fn fail(&mut self) -> Failed
        ensures closed { is_some self.new.file ≡ false }
        ensures counted { self.old.faults ≤ self.new.faults }
        ensures rose { Rose self.old.faults self.new.faults }
    {
        self.file = None;
        self.faults = self.faults.saturating_add(1);
        Failed
    }
}

impl<R: Files> Shelf for FileShelf<'_, R> {
    ghost told = { λ _. None };

    ghost is_open = { λ s. is_some s.file };

    ghost rest = { λ _. [] };

    ghost faults = { λ s. s.faults };

    fn open(&mut self, name: &str) -> Result<(), Failed> {
        match open(self.rt, name) {
            Ok(file) => {
                self.file = Some(file);
                Ok(())
            }
            Err(_) => Err(self.fail()),
        }
    }

    /// Reads through a piece of its own, so that a read that fails leaves `buf` as it was.
    fn read(&mut self, buf: &mut [u8]) -> Result<usize, Failed> {
        let mut piece = [0; PIECE];
        let room = PIECE.min(buf.len());
        if let Some(file) = &mut self.file
            && let Ok(n) = file.read(&mut piece[..room])
        {
            buf[..n].copy_from_slice(&piece[..n]);
            return Ok(n);
        }
        Err(self.fail())
    }
}

/// Standard output.
#[derive(Drop)]
pub struct OutSink<'r, P: Print> {
    rt: &'r P,
    faults: u64,
}

impl<'r, P: Print> OutSink<'r, P> {
    /// A sink that has not failed.
    pub fn new(rt: &'r P) -> OutSink<'r, P>
        ensures { result.faults ≡ 0 }
    {
        OutSink { rt, faults: 0 }
    }
}

impl<P: Print> Sink for OutSink<'_, P> {
    ghost written = { λ _. None };

    ghost faults = { λ s. s.faults };

    fn write(&mut self, bytes: &[u8]) -> Result<usize, Failed> {
        if bytes.is_empty() {
            return Ok(0);
        }
        match self.rt.write_some(bytes) {
            Ok(n) if n > 0 => Ok(n),
            _ => {
                self.faults = self.faults.saturating_add(1);
                Err(Failed)
            }
        }
    }
}
