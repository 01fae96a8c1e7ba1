// The row of one thread.
ghost use Rattle.std.specs.Prelude.{◌≡◌, false, slice_get};
ghost use Rattle.recording.specs.Ledger.{live, joined};
ghost use Rattle.rules.specs.Rows.{is_live, is_unborn, holds as row_holds, with_locks, taken, given_up, in_segment, in_state};
ghost use Rattle.ledger.specs.Rows.{state_code, thread_row, unstarted};

use crate::index::Index;
use arrayvec::ArrayVec;
use rows::Life;
use std::marker::Model;

mod edges;

// What is kept of a thread. The locks are those that it holds, in the order taken, and none is there twice.
#[derive(Drop)]
pub(crate) struct Row {
    state: Life,
    segment: u16,
    locks: ArrayVec<Index, 64>,
}

impl Model for Row {
    ghost use Rattle.std.specs.Prelude.{◌≡◌, true};
    ghost use Rattle.rules.specs.Rows.{ThreadRow};

    ghost Value = { ThreadRow };

    ghost use Rattle.ledger.specs.Rows.{thread_row, tidy};

    ghost view = { thread_row };

    ghost invariant = { λ r. tidy r.locks.items ≡ true };
}

impl Row {
    // A thread that was not yet started.
    pub(crate) fn unborn() -> Row
        ensures { result ≡ thread_row unstarted }
    {
        Row {
            state: Life::Unborn,
            segment: 0,
            locks: ArrayVec::new(),
        }
    }

    pub(crate) fn state(&self) -> Life
        ensures { result ≡ state_code self.now.state }
    {
        self.state
    }

    pub(crate) fn segment(&self) -> u16
        ensures { result ≡ self.now.segment }
    {
        self.segment
    }

    pub(crate) fn is_live(&self) -> bool
        ensures { result ≡ is_live self.now }
    {
        self.state == Life::Live
    }

    pub(crate) fn is_unborn(&self) -> bool
        ensures { result ≡ is_unborn self.now }
    {
        self.state == Life::Unborn
    }

    // The lock at a place among those that the thread holds.
    pub(crate) fn at(&self, place: usize) -> Option<u8>
        ensures { result ≡ slice_get self.now.locks place }
    {
        Some(self.locks.get(place)?.get())
    }

    // Whether the thread holds the lock. A question may name any number.
    pub(crate) fn holds(&self, lock: u16) -> bool
        ensures { result ≡ row_holds self.now lock }
    {
        self.locks.iter().any(|held| u16::from(held.get()) == lock)
    }

    // Takes the lock. There is a place for it, since the locks are at most 63 and it is not yet held.
    pub(crate) fn push(&mut self, lock: Index)
        requires { row_holds self.old lock ≡ false }
        ensures { self.new ≡ with_locks (taken lock self.old.locks) self.old }
    {
        prove!(lock.get() <= 63);
        self.locks.push(lock);
    }

    // Gives the lock up, and closes the gap that it leaves.
    pub(crate) fn remove(&mut self, lock: Index)
        ensures { self.new ≡ with_locks (given_up lock self.old.locks) self.old }
    {
        self.locks.retain(|held| *held != lock);
    }

    pub(crate) fn go_on(&mut self, segment: u16)
        ensures { self.new ≡ in_segment segment self.old }
    {
        self.segment = segment;
    }

    pub(crate) fn begin(&mut self, segment: u16)
        ensures { self.new ≡ in_state live (in_segment segment self.old) }
    {
        self.state = Life::Live;
        self.segment = segment;
    }

    pub(crate) fn end(&mut self)
        ensures { self.new ≡ in_state joined self.old }
    {
        self.state = Life::Joined;
    }
}
