// Parts: what the pairs of a directory name, the rows of a sheet or the cells of a row.
ghost use Rattle.std.specs.Prelude.{◌≡◌, ◌+◌, ◌≤◌, length, vec_len, vec_items};
ghost use Rattle.std.specs.List.{sum};
ghost use Rattle.sheets.specs.Layout.{directory_end};
ghost use Rattle.sheet_writer.specs.PackedParts.{most_bytes};

use sheets::directory::Directory;

// The bytes of the parts, one after the other, and how long each part is. An offset and a length of
// the directory can name each.
#[derive(Drop)]
pub(crate) struct Parts {
    pub(crate) directory: Directory,
    pub(crate) lengths: Vec<usize>,
    pub(crate) bytes: Vec<u8>,
    ghost counted: { sum (vec_items lengths) ≡ length (vec_items bytes) },
    ghost within: { directory_end directory (vec_len lengths) + vec_len bytes
        ≤ most_bytes directory },
}
