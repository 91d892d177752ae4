// The replies to the rows of sheets.
ghost use Rattle.std.specs.Prelude.{◌≤◌, vec_len, vec_capacity};

use super::reply::Reply;

/// The replies in the order of posting, at most `limit`; memory for all of them is reserved when
/// the list is made. Only a slip adds one.
#[derive(Drop)]
pub struct Replies {
    list: Vec<Reply>,
    limit: usize,
    ghost room: { limit ≤ vec_capacity list },
    ghost within: { vec_len list ≤ limit },
}

mod posting;
