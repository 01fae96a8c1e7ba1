// The states of a thread.

// Whether a thread was not yet started, is at work, or has ended and was waited for.
#[derive(Clone, Copy, PartialEq, Eq, Debug)]
pub enum Life {
    Unborn,
    Live,
    Joined,
}
