// Parts are packed: the bytes of each follow those of the one before, and all follow the directory.
ghost use Rattle.std.specs.Prelude.{◌≡◌, ◌≤◌, [], ◌++◌, IfOk, OnOk, OnErr, nat_le, vec_items};
ghost use Rattle.sheet_writer.specs.PackedParts.{number_bytes, most_bytes};
ghost use Rattle.sheet_writer.specs.PartLists.{size_with, PartAdded, SameParts, bytes_behind};

use crate::parts::Parts;
use sheets::directory::Directory;
use sheets::sheet::MOST_BYTES;
use std::alloc::{AllocError, Global};

// The most bytes of a row, so that one byte gives an offset in it.
const MOST_ROW_BYTES: usize = 255;

// The most bytes that a sheet or a row may have, so that its directory can name each part.
fn most_bytes(directory: Directory) -> usize
    ensures { result ≡ most_bytes directory }
{
    match directory {
        Directory::Rows => MOST_BYTES,
        Directory::Cells => MOST_ROW_BYTES,
    }
}

// Writes an offset or a length of a directory.
fn write_number(directory: Directory, number: usize, bytes: &mut Vec<u8>) -> Result<(), AllocError>
    requires { number ≤ most_bytes directory }
    ensures { let written = number_bytes directory number in
        OnOk result (vec_items bytes.new ≡ vec_items bytes.old ++ written) }
{
    match directory {
        Directory::Rows => {
            bytes.extend_from_slice(&[(number / 256) as u8, (number % 256) as u8])
        }
        Directory::Cells => bytes.extend_from_slice(&[number as u8]),
    }
}

impl Parts {
    // No parts.
    pub(crate) fn none(heap: Global, directory: Directory) -> Parts
        ensures directory { result.directory ≡ directory }
        ensures empty { (vec_items result.lengths ≡ []) × (vec_items result.bytes ≡ []) }
    {
        Parts {
            directory,
            lengths: Vec::new(heap),
            bytes: Vec::new(heap),
        }
    }

    // Whether the directory can name one part more.
    pub(crate) fn takes(&self, part: &[u8]) -> bool
        ensures { result ≡ nat_le (size_with self.now part.now) (most_bytes self.now.directory) }
    {
        let count = self.lengths.len() as u16;
        self.directory.end(count + 1) + self.bytes.len() + part.len() <= most_bytes(self.directory)
    }

    // Adds a part at the end.
    pub(crate) fn add(&mut self, part: &[u8]) -> Result<(), AllocError>
        requires { size_with self.old part.now ≤ most_bytes self.old.directory }
        ensures directory { self.new.directory ≡ self.old.directory }
        ensures ok { OnOk result (PartAdded self.old self.new part.now) }
        ensures err { OnErr result (SameParts self.old self.new) }
    {
        self.lengths.reserve(1)?;
        self.bytes.extend_from_slice(part)?;
        self.lengths.push_reserved(part.len());
        Ok(())
    }

    // A head of two bytes, the directory of the parts, and the parts.
    pub(crate) fn packed(&self, heap: Global, head: &[u8]) -> Result<Vec<u8>, AllocError>
        ensures { IfOk result (λ packed. vec_items packed ≡ bytes_behind head.now self.now) }
    {
        let mut packed = Vec::from_slice(heap, head)?;
        let mut at = self.directory.end(self.lengths.len() as u16);
        for length in &self.lengths {
            write_number(self.directory, at, &mut packed)?;
            write_number(self.directory, *length, &mut packed)?;
            at += *length;
        }
        packed.extend_from_slice(self.bytes.as_slice())?;
        Ok(packed)
    }
}
