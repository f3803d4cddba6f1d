ghost use Rattle.std.specs.Prelude.{◌≡◌, ◌<◌, ◌≤◌, length, take, OnOk, OnErr};
ghost use Rattle.std.specs.List.{find, list_any};
ghost use Rattle.std.specs.Option.{option_copied};
ghost use Rattle.order_event.specs.declared.event.Message.{Message};
ghost use Rattle.node_parts.specs.Kinds.{is_kind, place};
ghost use Rattle.node_parts.specs.Queue.{names_commit};
ghost use Rattle.node_meaning.specs.Steps.{is_write, is_report, is_this_write, without_first};

use bytes::Bytes;
use order_event::Message;
use std::alloc::Global;
use std::collections::VecDeque;
use std::marker::Model;
use write_set::commit_begin;
use wsrep_base::NoMemory;

/// Messages, oldest first.
pub type MessageList = VecDeque<Message>;

/// What a node sent: messages that are ordered and not taken, and behind them those that are not
/// ordered yet.
#[derive(Drop)]
pub struct Queue {
    messages: MessageList,
    ordered: usize,
}

// What a message is: a write set or a report.
#[derive(Clone, Copy, Debug, PartialEq, Eq)]
enum MessageKind {
    Write,
    Report,
}

impl Model for Queue {
    ghost use Rattle.std.specs.Prelude.{◌≤◌, length, take, drop};
    ghost use Rattle.node_parts.specs.Queue.{Queued};

    ghost Value = { Queued };

    ghost view = { λ q.
        record {
          ordered = take q.ordered q.messages.items;
          outbox = drop q.ordered q.messages.items;
        } };

    ghost invariant = { λ q. q.ordered ≤ length q.messages.items };
}

impl Queue {
    ghost use Rattle.node_meaning.specs.Leaving.{is_commit_of};
    ghost use Rattle.node_parts.specs.Queue.{AreOfSets, messages_of, nothing_sent, oldest, queued, without_newest, all_queued, first_kept, moved, taken};

    /// Nothing was sent. It takes no memory.
    pub fn new(alloc: Global) -> Queue
        ensures { result ≡ nothing_sent }
    {
        Queue {
            messages: VecDeque::new(alloc),
            ordered: 0,
        }
    }

    /// One more message waits to be ordered.
    pub fn push(&mut self, message: Message) -> Result<(), NoMemory>
        ensures ok { OnOk result (self.new ≡ queued self.old message) }
        ensures err { OnErr result (self.new ≡ self.old) }
    {
        self.messages.push_back(message)?;
        Ok(())
    }

    /// All these messages wait to be ordered, behind those that do.
    pub fn append(&mut self, messages: MessageList) -> Result<(), NoMemory>
        ensures ok { OnOk result (self.new ≡ all_queued self.old messages.items) }
        ensures err { OnErr result (self.new ≡ self.old) }
    {
        let mut messages = messages;
        self.messages.append(&mut messages)
    }

    /// Of the messages that wait to be ordered only so many stay, the oldest. It takes no memory.
    pub fn keep(&mut self, outbox: u64)
        ensures { self.new ≡ first_kept self.old outbox }
    {
        if outbox < self.outbox_len() {
            self.messages.truncate(self.ordered + outbox as usize);
        }
    }

    /// The newest message that waits to be ordered is taken back. It takes no memory.
    pub fn take_back(&mut self)
        requires { 0 < length self.old.outbox }
        ensures { self.new ≡ without_newest self.old }
    {
        self.messages.pop_back();
    }

    /// The oldest message that waits to be ordered.
    pub fn first_out(&self) -> Option<&Message>
        ensures { option_copied result ≡ oldest self.now.outbox }
    {
        self.messages.get(self.ordered)
    }

    /// The oldest message that waits is ordered from here on.
    pub fn sent_out(&mut self)
        requires { 0 < length self.old.outbox }
        ensures { self.new ≡ moved self.old self.old.outbox }
    {
        self.ordered += 1;
    }

    /// How many messages wait to be ordered.
    pub fn outbox_len(&self) -> u64
        ensures { result ≡ length self.now.outbox }
    {
        (self.messages.len() - self.ordered) as u64
    }

    /// Whether the commit of the transaction with this begin number was sent and is not taken, as
    /// the bytes of the messages say. It takes no memory.
    pub fn has_commit_of(&self, begin: u64) -> bool
        ensures { AreOfSets self.now
            → result ≡ list_any (is_commit_of begin) (messages_of self.now) }
    {
        commit_is_in(&self.messages, begin)
    }

    /// All messages go. It takes no memory.
    pub fn clear(&mut self)
        ensures { self.new ≡ nothing_sent }
    {
        self.messages.truncate(0);
        self.ordered = 0;
    }

    /// Whether these are the bytes of the oldest write set that is ordered and not taken.
    pub fn is_next_write(&self, body: &Bytes) -> bool
        ensures { result ≡ is_this_write body.now (find is_write self.now.ordered) }
    {
        match self.first_write() {
            Some(Message::Write(other)) => body == other,
            Some(Message::Report(_)) | None => false,
        }
    }

    fn first_write(&self) -> Option<&Message>
        ensures { option_copied result ≡ find is_write self.now.ordered }
    {
        match place_of(&self.messages, self.ordered, MessageKind::Write) {
            Some(at) => self.messages.get(at),
            None => None,
        }
    }

    /// The oldest write set that is ordered is taken.
    pub fn take_write(&mut self)
        ensures ordered { self.new.ordered ≡ without_first is_write self.old.ordered }
        ensures outbox { self.new.outbox ≡ self.old.outbox }
    {
        self.take_first(MessageKind::Write);
    }

    /// The oldest report that is ordered is taken.
    pub fn take_report(&mut self)
        ensures ordered { self.new.ordered ≡ without_first is_report self.old.ordered }
        ensures outbox { self.new.outbox ≡ self.old.outbox }
    {
        self.take_first(MessageKind::Report);
    }

    fn take_first(&mut self, kind: MessageKind)
        ensures { self.new ≡ taken (is_kind kind) self.old }
    {
        if let Some(at) = place_of(&self.messages, self.ordered, kind) {
            self.messages.remove(at);
            self.ordered -= 1;
        }
    }
}

// Where the first of the ordered messages of the kind stands.
fn place_of(messages: &VecDeque<Message>, ordered: usize, kind: MessageKind) -> Option<usize>
    requires { ordered ≤ length messages.now.items }
    ensures { result ≡ place (is_kind kind) (take ordered messages.now.items) }
{
    for at in 0..ordered {
        if is_kind(&messages[at], kind) {
            return Some(at);
        }
    }
    None
}

// Whether the message is of the kind.
fn is_kind(message: &Message, kind: MessageKind) -> bool
    ensures { result ≡ is_kind kind message.now }
{
    match kind {
        MessageKind::Write => matches!(message, Message::Write(_)),
        MessageKind::Report => matches!(message, Message::Report(_)),
    }
}

// Whether a message names the transaction with this begin number as the one that it commits.
fn commit_is_in(messages: &VecDeque<Message>, begin: u64) -> bool
    ensures { result ≡ list_any (names_commit begin) messages.now.items }
{
    for at in 0..messages.len() {
        if names_commit(&messages[at], begin) {
            return true;
        }
    }
    false
}

fn names_commit(message: &Message, begin: u64) -> bool
    ensures { result ≡ names_commit begin message.now }
{
    match message {
        Message::Write(body) => match commit_begin(body.as_slice()) {
            Some(named) => named == begin,
            None => false,
        },
        Message::Report(_) => false,
    }
}
