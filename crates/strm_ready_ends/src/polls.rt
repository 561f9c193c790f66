//! A poll of a ready host writer as it is kept. Ours.

use strm_buffers::answers::Answer;

// A poll that produced nothing: its room, whether it was asked to finish, and its answer.
#[derive(Clone, Copy, Debug)]
pub(crate) struct EmptyPoll {
    pub(crate) room: Option<u32>,
    pub(crate) finish: bool,
    pub(crate) answer: Answer,
}

const _: () = prove!(size_of::<EmptyPoll>() <= 12);
