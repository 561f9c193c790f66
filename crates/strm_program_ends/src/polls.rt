//! A poll as a host writer keeps it. Ours.

use strm_buffers::answers::Answer;

// A poll: where its items begin among all that were fed, its room, how many they are, whether it was
// asked to finish, and its answer. In this order it takes the fewest bytes.
#[derive(Clone, Copy, Debug)]
pub(crate) struct Poll {
    pub(crate) start: usize,
    pub(crate) room: Option<u32>,
    pub(crate) count: u32,
    pub(crate) finish: bool,
    pub(crate) answer: Answer,
}

const _: () = prove!(size_of::<Poll>() <= 24);
