// The duty to reply to a row.
ghost use Rattle.std.specs.Prelude.{◌≡◌};
ghost use Rattle.sheets.specs.Replies.{posted, with_reply, reply_of};

use super::replies::Replies;
use super::reply::Reply;
use forms::refusal::Refusal;

/// A slip: the duty to post one reply, which comes with a row that is read. It has no Drop and no
/// Copy, and only the reader of sheets makes one: so each row gets its reply, and only one.
pub struct Slip {
    row: u16,
}

impl Slip {
    pub(crate) fn draw(row: u16) -> Slip
        ensures { result.row ≡ row }
    {
        Slip { row }
    }

    /// Posts the reply to the slip's row at the end of the list, and uses the slip up. Where the
    /// list is full the reply is dropped.
    pub fn post(self, replies: &mut Replies, answer: Result<(), Refusal>)
        ensures state { posted replies.new ≡ with_reply replies.old (reply_of self.row answer) }
        ensures unchanged { replies.new.limit ≡ replies.old.limit }
    {
        let Slip { row } = self;
        replies.add(Reply::to_row(row, answer));
    }
}
