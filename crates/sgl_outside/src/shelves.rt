//! Files in memory, of which one is begun.
ghost use Rattle.std.specs.Prelude.{◌≡◌, IsTrue, None, false, min, length, take, drop};
ghost use Rattle.sgl_outside.specs.Folders.{BeginsIn, Moves};
ghost use Rattle.sgl_outside.specs.Shelves.{place_of, held_in, left_in};

use sgl_values::{List, Text};

/// Files, the place of the one that is begun, and how many of its bytes were read.
#[derive(Drop)]
pub struct Shelf {
    pub files: List<(Text, List<u8>)>,
    pub begun: Option<usize>,
    pub at: usize,
}

impl Shelf {
    /// These files, given by name and bytes, of which none is begun.
    pub fn new(files: List<(Text, List<u8>)>) -> Self
        ensures files { result.files ≡ files }
        ensures begun { result.begun ≡ None }
    {
        Shelf {
            files,
            begun: None,
            at: 0,
        }
    }

    /// The place of the first file of that name.
    pub fn place(&self, name: &str) -> Option<usize>
        ensures { result ≡ place_of self.now.files name.now }
    {
        self.files
            .as_slice()
            .iter()
            .position(|file| file.0.as_str() == name)
    }

    /// Begins the first file of that name, and tells whether there is one.
    pub fn begin(&mut self, name: &str) -> bool
        ensures files { self.new.files ≡ self.old.files }
        ensures found { IsTrue result → BeginsIn (held_in self.old.files) (left_in self.new.files self.new.begun self.new.at) name.now }
        ensures missing { result ≡ false → (held_in self.old.files name.now ≡ None) × (self.new ≡ self.old) }
    {
        match self.place(name) {
            Some(place) => {
                self.begun = Some(place);
                self.at = 0;
                true
            }
            None => false,
        }
    }

    /// Moves the next bytes of the file to the front of the buffer, and answers their number.
    pub fn read(&mut self, name: &str, buf: &mut [u8]) -> usize
        ensures files { self.new.files ≡ self.old.files }
        ensures moves { Moves (left_in self.old.files self.old.begun self.old.at) (left_in self.new.files self.new.begun self.new.at) name.now result buf.new }
    {
        let Some(place) = self.begun else {
            return 0;
        };
        let Some((held, bytes)) = self.files.as_slice().get(place) else {
            return 0;
        };
        if held.as_str() != name {
            return 0;
        }
        let count = copy_front(rest_from(bytes.as_slice(), self.at), buf);
        self.at += count;
        count
    }
}

// The bytes from a place on.
fn rest_from(bytes: &[u8], at: usize) -> &[u8]
    ensures { result.now ≡ drop at bytes.now }
{
    if at < bytes.len() { &bytes[at..] } else { &[] }
}

// Copies as many bytes as there are and as the buffer has room for.
fn copy_front(from: &[u8], buf: &mut [u8]) -> usize
    ensures count { result ≡ min (length from.now) (length buf.old) }
    ensures front { take result buf.new ≡ take result from.now }
{
    let count = from.len().min(buf.len());
    buf[..count].copy_from_slice(&from[..count]);
    count
}
