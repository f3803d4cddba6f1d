ghost use Rattle.std.specs.Prelude.{◌≡◌, ◌≢◌, ◌+◌, ◌<◌, ◌≤◌, nat_lt, length, IfOk};
ghost use Rattle.ordered_monitor.specs.Entries.{entries_of, widened_states, IsInWindow, CanWait, CanEnter, state_at, place, all_idle, widened, with_state, entered, cancelled, left, leading, moved, FinishedFit, IsFirstOpen};

use crate::entry::{Entry, EntryState};
use std::alloc::{AllocError, Global};
use std::collections::VecDeque;
use std::marker::Model;

/// Numbered entries, of which those up to `last_left` are Finished. The window holds the numbers
/// above it, as many as it is long; it may reach past the greatest number there is.
#[derive(Drop)]
pub struct Monitor {
    last_left: u64,
    // The entry above `last_left` comes first.
    window: VecDeque<EntryState>,
}

impl Model for Monitor {
    ghost use Rattle.ordered_monitor.specs.Entries.{Entries, IsKept};

    ghost Value = { Entries };

    ghost view = { λ m. record { last_left = m.last_left; window = m.window.items } };

    ghost invariant = { λ m. IsKept m.last_left m.window.items };
}

impl Monitor {
    /// All numbers up to `at` are left, and those above are Idle.
    pub fn new(alloc: Global, window: usize, at: u64) -> Result<Monitor, AllocError>
        ensures { IfOk result (λ monitor. monitor ≡ all_idle window at) }
    {
        let mut states = VecDeque::new(alloc);
        states.resize(window, EntryState::Idle)?;
        Ok(Monitor {
            last_left: at,
            window: states,
        })
    }

    /// The same entries in a window that is no smaller.
    pub fn wider(of: &Monitor, window: usize) -> Result<Monitor, AllocError>
        requires { length of.now.window ≤ window }
        ensures { IfOk result (λ monitor. monitor ≡ widened of.now window) }
    {
        Ok(Monitor {
            last_left: of.last_left,
            window: copy_of(&of.window, window)?,
        })
    }

    /// The entry waits.
    pub fn wait(&mut self, n: u64)
        requires within { IsInWindow self.old n }
        requires resting { CanWait (state_at self.old n) }
        ensures { self.new ≡ with_state self.old n EntryState.Waiting }
    {
        let at = place_of(self.last_left, n);
        self.window[at] = EntryState::Waiting;
    }

    /// The entry enters, unless it was cancelled or a number up to `after` is not left yet.
    pub fn try_enter(&mut self, n: u64, after: u64) -> Entry
        requires within { IsInWindow self.old n }
        requires asked { CanEnter (state_at self.old n) }
        requires earlier { after < n }
        ensures { (result, self.new) ≡ entered self.old n after }
    {
        let at = place_of(self.last_left, n);
        if self.window[at] == EntryState::Cancelled {
            return Entry::Cancelled;
        }
        if self.last_left < after {
            return Entry::NotYet(self.last_left);
        }
        self.window[at] = EntryState::Entered;
        Entry::Entered
    }

    /// A waiting entry is cancelled. Whether it was waiting.
    pub fn cancel(&mut self, n: u64) -> bool
        requires { IsInWindow self.old n }
        ensures { (result, self.new) ≡ cancelled self.old n }
    {
        let at = place_of(self.last_left, n);
        if self.window[at] != EntryState::Waiting {
            return false;
        }
        self.window[at] = EntryState::Cancelled;
        true
    }

    /// The entry is Finished, and `last_left` moves over all that are.
    pub fn leave(&mut self, n: u64)
        requires within { IsInWindow self.old n }
        requires not_waiting { state_at self.old n ≢ EntryState.Waiting }
        ensures { self.new ≡ left self.old n }
    {
        let at = place_of(self.last_left, n);
        self.window[at] = EntryState::Finished;
        self.last_left = moved_over_finished(self.last_left, &mut self.window);
    }

    /// The greatest number up to which all are Finished.
    pub fn last_left(&self) -> u64
        ensures value { result ≡ self.now.last_left }
        ensures greatest { state_at self.now (result + 1) ≢ EntryState.Finished }
    {
        self.last_left
    }
}

// Where a number above `last_left` stands in the window.
fn place_of(last_left: u64, n: u64) -> usize
    requires { last_left < n }
    ensures { result ≡ place last_left n }
{
    (n - last_left - 1) as usize
}

// The same states in a window that is no smaller, the added ones Idle.
fn copy_of(states: &VecDeque<EntryState>, window: usize) -> Result<VecDeque<EntryState>, AllocError>
    requires { length states.now.items ≤ window }
    ensures { IfOk result (λ copy. copy.items ≡ widened_states states.now.items window) }
{
    let mut copy = VecDeque::with_capacity(*states.allocator(), window)?;
    for at in 0..states.len() {
        copy.push_back(states[at])?;
    }
    copy.resize(window, EntryState::Idle)?;
    Ok(copy)
}

// Moves the window over the Finished numbers that it begins with, and says which was the last.
fn moved_over_finished(mut last_left: u64, window: &mut VecDeque<EntryState>) -> u64
    requires { FinishedFit last_left window.old.items }
    ensures moved { entries_of result window.new.items ≡ moved last_left window.old.items }
    ensures fits { FinishedFit result window.new.items }
    ensures first_open { IsFirstOpen window.new.items }
{
    while begins_finished(window) {
        window[0] = EntryState::Idle;
        window.rotate_left(1);
        last_left += 1;
    }
    last_left
}

fn begins_finished(window: &VecDeque<EntryState>) -> bool
    ensures { result ≡ nat_lt 0 (leading window.now.items) }
{
    match window.front() {
        Some(state) => *state == EntryState::Finished,
        None => false,
    }
}
