// The events of a recording.

// One event of a recording. The first number of each is the acting thread.
#[derive(Clone, Copy, PartialEq, Eq, Debug)]
pub enum Event {
    // the thread takes the lock
    Lock(u16, u16),
    // the thread gives the lock up
    Release(u16, u16),
    // the thread starts the second thread
    Start(u16, u16),
    // the thread has waited for the second thread to end
    Join(u16, u16),
}
