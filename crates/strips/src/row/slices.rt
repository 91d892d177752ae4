// The rows of a slice by rank: the first in rank is at the end, so that it leaves without the
// others moving.
ghost use Rattle.std.specs.Prelude.{◌≡◌, ℕ, ◌+◌, ◌-◌, ◌<◌, ◌≤◌, ◌∷◌, ◌++◌, length, take, drop, reverse, slice_set};
ghost use Rattle.std.specs.List.{slice_get, remove};
ghost use Rattle.books.specs.RankedLists.{rank_index, put_by_rank, index_of_number};

use orders::rank::Rank;
use orders::ranked::Ranked;

// The row at a position by rank.
pub(super) fn look_in<T: Copy>(rows: &[T], index: usize) -> Option<T>
    ensures { result ≡ slice_get (reverse rows.now) index }
{
    if index < rows.len() {
        Some(rows[rows.len() - 1 - index])
    } else {
        None
    }
}

// Another row at an index of the slice.
pub(super) fn write_in<T: Copy>(rows: &mut [T], index: usize, row: T)
    requires { index < length rows.old }
    ensures { rows.new ≡ slice_set rows.old index row }
{
    rows[index] = row;
}

// A row goes in among the first `count`, which are in rank order; the row right behind them is
// lost.
pub(super) fn insert_in<T: Ranked + Copy>(rows: &mut [T], count: usize, row: T)
    requires { count < length rows.old }
    ensures { reverse (take (count + 1) rows.new) ≡
        put_by_rank T.Ranked.rank row (reverse (take count rows.old)) }
{
    let index = rank_index(&rows[0..count], row.rank());
    shift_in(&mut rows[count - index..count + 1], row);
}

// The row at a position by rank leaves the first `count`.
pub(super) fn remove_in<T: Copy>(rows: &mut [T], count: usize, index: usize)
    requires there { index < count }
    requires within { count ≤ length rows.old }
    ensures { reverse (take (count - 1) rows.new) ≡ remove (reverse (take count rows.old)) index }
{
    close_up(&mut rows[count - 1 - index..count]);
}

// All rows move on by one, the last one is lost, and another row is first.
fn shift_in<T: Copy>(part: &mut [T], row: T)
    requires { 0 < length part.old }
    ensures { part.new ≡ row ∷ take (length part.old - 1) part.old }
{
    part.rotate_right(1);
    part[0] = row;
}

// All but the first move back by one, and the first becomes the last.
fn close_up<T>(part: &mut [T])
    requires { 0 < length part.old }
    ensures { part.new ≡ drop 1 part.old ++ take 1 part.old }
{
    part.rotate_left(1);
}

// How many rows a rank is not ahead of, from the first in rank on.
fn rank_index<T: Ranked>(rows: &[T], rank: Rank) -> usize
    ensures answer { result ≡ rank_index T.Ranked.rank rank (reverse rows.now) }
    ensures within { result ≤ length rows.now }
{
    rows.iter()
        .rev()
        .take_while(|row| row.rank() <= rank)
        .count()
}

// The position by rank of the first row with a number.
pub(super) fn find_in<T: Ranked>(rows: &[T], number: u32) -> Option<usize>
    ensures { result ≡ index_of_number T.Numbered.number number (reverse rows.now) }
{
    rows.iter().rev().position(|row| row.number() == number)
}
