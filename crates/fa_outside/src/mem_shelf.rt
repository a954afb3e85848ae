//! A shelf in memory.

ghost use Rattle.std.specs.Prelude.{◌≡◌, ◌+◌, ◌^◌, ◌<◌, ◌≤◌, ◌↔◌, [], None, Some, Ok, bytes_eq, min, position, take, drop, length, option_map, is_some, unwrap_or, IsSome, IfSome, IsOk, IfOk, OnErr};
ghost use Rattle.std.specs.String.{string_bytes};
ghost use Rattle.fa_outside.specs.Faults.{Rose};
ghost use Rattle.fa_outside.specs.Files.{file_named};
ghost use Rattle.fa_outside.specs.MemShelf.{files_of, content_at, rest_at, failed, opened};

use crate::fault::Failed;
use crate::shelf::Shelf;
use std::marker::Model;

/// Where the open file is read next.
#[derive(Clone, Copy, Debug, PartialEq, Eq)]
struct Place {
    file: usize,
    offset: usize,
}

/// Files in memory. It fails only where no file has the name, and at a read with nothing open.
#[derive(Debug, Drop)]
pub struct MemShelf {
    files: Vec<(String, Vec<u8>)>,
    place: Option<Place>,
    faults: u64,
}

impl Model for MemShelf {
    ghost use Rattle.std.specs.Prelude.{option_map};
    ghost use Rattle.fa_outside.specs.MemShelf.{Shelved, files_of, rest_at};

    ghost Value = { Shelved };

    ghost view = { λ s. record {
      files = files_of s.files.items;
      unread = option_map (rest_at (files_of s.files.items)) s.place;
      faults = s.faults;
    } };
}

impl MemShelf {
    /// A shelf of these files, with none open. Of two files with one name the first counts.
    pub fn new(files: Vec<(String, Vec<u8>)>) -> MemShelf
        ensures { result ≡ record { files = files_of files.items; unread = None; faults = 0 } }
    {
        MemShelf {
            files,
            place: None,
            faults: 0,
        }
    }

    /// Counts a fault, after which nothing is open.
    pub(crate) fn fail(&mut self) -> Failed
        ensures state { self.new ≡ failed self.old }
        ensures counted { self.old.faults ≤ self.new.faults }
        ensures rose { Rose self.old.faults self.new.faults }
    {
        self.place = None;
        self.faults = self.faults.saturating_add(1);
        Failed
    }
}

/// The first file that has this name.
fn first_named(files: &[(String, Vec<u8>)], name: &str) -> Option<usize>
    ensures { result ≡ position (λ file. bytes_eq (string_bytes file.0) name.now) files.now }
{
    files.iter().position(|file| file.0.as_str() == name)
}

fn content(files: &[(String, Vec<u8>)], file: usize) -> &[u8]
    ensures { result.now ≡ content_at (files_of files.now) file }
{
    match files.get(file) {
        Some(found) => &found.1,
        None => &[],
    }
}

/// What is not yet read behind a place.
fn unread(files: &[(String, Vec<u8>)], place: Place) -> &[u8]
    ensures rest { result.now ≡ rest_at (files_of files.now) place }
    ensures fits { place.offset + length result.now < 2 ^ 64 }
{
    let whole = content(files, place.file);
    whole.get(place.offset..).unwrap_or(&[])
}

/// Copies what fits to the front of the buffer, and answers how much that is.
fn copy_front(bytes: &[u8], buf: &mut [u8]) -> usize
    ensures count { result ≡ min (length bytes.now) (length buf.old) }
    ensures front { take result buf.new ≡ take result bytes.now }
{
    let n = bytes.len().min(buf.len());
    buf[..n].copy_from_slice(&bytes[..n]);
    n
}

impl Shelf for MemShelf {
    ghost told = { λ s. Some s.files };

    ghost is_open = { λ s. is_some s.unread };

    ghost rest = { λ s. unwrap_or s.unread [] };

    ghost faults = { λ s. s.faults };

    fn open(&mut self, name: &str) -> Result<(), Failed>
        ensures found { IsOk result ↔ IsSome (file_named self.old.files name.now) }
        ensures state { self.new ≡ opened self.old name.now }
        ensures counted { self.old.faults ≤ self.new.faults }
    {
        match first_named(&self.files, name) {
            Some(file) => {
                self.place = Some(Place { file, offset: 0 });
                Ok(())
            }
            None => Err(self.fail()),
        }
    }

    #[tactic(auto, using(crate::proofs::Named::moved))]
    fn read(&mut self, buf: &mut [u8]) -> Result<usize, Failed>
        ensures open { IsOk result ↔ IsSome self.old.unread }
        ensures count { IfSome self.old.unread (λ rest.
            result ≡ Ok (min (length rest) (length buf.old))) }
        ensures front { IfSome self.old.unread (λ rest.
            IfOk result (λ n. take n buf.new ≡ take n rest)) }
        ensures rest { IfOk result (λ n.
            self.new ≡ record self.old { unread = option_map (drop n) self.old.unread }) }
        ensures closed { OnErr result (self.new ≡ failed self.old) }
        ensures kept { OnErr result (buf.new ≡ buf.old) }
        ensures counted { self.old.faults ≤ self.new.faults }
    {
        let Some(place) = self.place else {
            return Err(self.fail());
        };
        let n = copy_front(unread(&self.files, place), buf);
        self.place = Some(Place {
            file: place.file,
            offset: place.offset + n,
        });
        Ok(n)
    }
}
