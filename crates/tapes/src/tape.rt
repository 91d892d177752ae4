// The tape: the list of lines that the steps write (rules 16).
ghost use Rattle.std.specs.Prelude.{◌≡◌, ◌≤◌, ◌+◌, length, vec_len, vec_capacity, vec_items, reverse, IfOk};
ghost use Rattle.tapes.specs.Logs.{line_added, free_lines, empty_log};

use crate::line::Line;
use std::alloc::{AllocError, Global};
use std::marker::Model;

/// The lines written so far, at most `limit`; memory for all of them is there from the start. In a
/// clause a tape is its `Log`.
// Not one type with the list of replies, to which only a slip adds.
#[derive(Drop)]
pub struct Tape {
    lines: Vec<Line>,
    limit: usize,
}

impl Model for Tape {
    ghost use Rattle.std.specs.Prelude.{◌≤◌, vec_len, vec_capacity, vec_items, reverse};
    ghost use Rattle.tapes.specs.Logs.{Log};

    ghost Value = { Log };

    ghost view = { λ t. record { lines = reverse (vec_items t.lines); limit = t.limit } };

    ghost invariant = { λ t. (t.limit ≤ vec_capacity t.lines) × (vec_len t.lines ≤ t.limit) };
}

impl Tape {
    /// An empty tape for `limit` lines. The only error is that memory ran out.
    pub fn new(heap: Global, limit: usize) -> Result<Tape, AllocError>
        ensures { IfOk result (λ t. t ≡ empty_log limit) }
    {
        let lines = Vec::with_capacity(heap, limit)?;
        Ok(Tape { lines, limit })
    }

    /// How many more lines it takes (rules 7). With those that it has they make up its limit, which
    /// they never pass.
    pub fn free_lines(&self) -> usize
        ensures answer { result ≡ free_lines self.now }
        ensures within { length self.now.lines + result ≡ self.now.limit }
    {
        self.limit - self.lines.len()
    }

    /// Writes a line; a full tape drops it.
    pub fn write(&mut self, line: Line)
        ensures { self.new ≡ line_added line self.old }
    {
        if self.lines.len() < self.limit {
            self.lines.push_reserved(line);
        }
    }

    /// Removes every line; the limit stays (rules 6).
    pub fn clear(&mut self)
        ensures { self.new ≡ empty_log self.old.limit }
    {
        self.lines.clear();
    }

    /// The lines, the oldest first; never more than the limit.
    pub fn all(&self) -> &[Line]
        ensures answer { self.now.lines ≡ reverse result.now }
        ensures within { length self.now.lines ≤ self.now.limit }
    {
        self.lines.as_slice()
    }
}
