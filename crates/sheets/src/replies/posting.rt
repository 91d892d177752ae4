// How replies are added, counted and read.
ghost use Rattle.std.specs.Prelude.{◌≡◌, [], IfOk};
ghost use Rattle.sheets.specs.Replies.{posted, with_reply, free_replies};

use super::super::reply::Reply;
use super::Replies;
use std::alloc::{AllocError, Global};

impl Replies {
    /// An empty list with room for `limit` replies.
    pub fn new(heap: Global, limit: usize) -> Result<Replies, AllocError>
        ensures { IfOk result (λ replies. (posted replies ≡ []) × (replies.limit ≡ limit)) }
    {
        let list = Vec::with_capacity(heap, limit)?;
        Ok(Replies { list, limit })
    }

    /// How many more replies the list takes.
    pub fn free(&self) -> usize
        ensures { result ≡ free_replies self.now }
    {
        self.limit - self.list.len()
    }

    /// The replies, the oldest first.
    pub fn all(&self) -> &[Reply]
        ensures { result.now ≡ posted self.now }
    {
        self.list.as_slice()
    }

    // Adds a reply at the end; a full list drops it.
    pub(crate) fn add(&mut self, reply: Reply)
        ensures state { posted self.new ≡ with_reply self.old reply }
        ensures unchanged { self.new.limit ≡ self.old.limit }
    {
        if self.list.len() < self.limit {
            self.list.push_reserved(reply);
        }
    }
}
