// Directories: a sheet has one of its rows, and each row one of its cells.
ghost use Rattle.std.specs.Prelude.{◌≡◌, ◌+◌, ◌*◌, ◌≤◌, IfSome};
ghost use Rattle.sheets.specs.Layout.{part_at, offset_at, length_at, ends_at, pair_end, directory_end, first_misplaced};

use super::bytes::{byte_at, part_of, word_at};

/// What the pairs of a directory name: the rows of a sheet, by numbers of two bytes, or the cells
/// of a row, by numbers of one. A pair is an offset and a length.
#[derive(Clone, Copy)]
pub enum Directory {
    Rows,
    Cells,
}

impl Directory {
    // The offset of pair k.
    fn offset(self, bytes: &[u8], k: u16) -> u16
        ensures { result ≡ offset_at self bytes.now k }
    {
        match self {
            Directory::Rows => word_at(bytes, 4 * u32::from(k) + 2),
            Directory::Cells => u16::from(byte_at(bytes, 2 * usize::from(k) + 2)),
        }
    }

    // The length of pair k.
    fn length(self, bytes: &[u8], k: u16) -> u16
        ensures { result ≡ length_at self bytes.now k }
    {
        match self {
            Directory::Rows => word_at(bytes, 4 * u32::from(k) + 4),
            Directory::Cells => u16::from(byte_at(bytes, 2 * usize::from(k) + 3)),
        }
    }

    /// Where a directory of `count` pairs ends.
    pub fn end(self, count: u16) -> usize
        ensures { result ≡ directory_end self count }
    {
        match self {
            Directory::Rows => 4 * usize::from(count) + 2,
            Directory::Cells => 2 * usize::from(count) + 2,
        }
    }

    // The bytes that pair k names.
    pub(crate) fn part(self, bytes: &[u8], k: u16) -> &[u8]
        ensures { result.now ≡ part_at self bytes.now k }
    {
        part_of(
            bytes,
            usize::from(self.offset(bytes, k)),
            usize::from(self.length(bytes, k)),
        )
    }

    // The end of pair k, unless it is misplaced: it starts before `least`, or ends outside.
    fn end_if_placed(self, bytes: &[u8], k: u16, least: usize) -> Option<usize>
        ensures { result ≡ pair_end self bytes.now k least }
    {
        let start = usize::from(self.offset(bytes, k));
        let end = start + usize::from(self.length(bytes, k));
        if start < least || bytes.len() < end {
            None
        } else {
            Some(end)
        }
    }

    // The first of `count` pairs, from 1, that is misplaced.
    pub(crate) fn first_misplaced(self, bytes: &[u8], count: u16) -> Option<u16>
        ensures answer { result ≡ first_misplaced self bytes.now count }
        ensures within { IfSome result (λ k. k ≤ count) }
    {
        let mut least = self.end(count);
        for k in 0..count {
            match self.end_if_placed(bytes, k, least) {
                Some(end) => least = end,
                None => return Some(k + 1),
            }
        }
        None
    }
}
