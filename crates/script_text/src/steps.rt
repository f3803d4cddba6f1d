ghost use Rattle.std.specs.Prelude.{◌≡◌, Some, option_map};
ghost use Rattle.script_text.specs.Grammar.{join_of, verb_of, who_of, step_of, call_is_within, act_is_within, step_is_within, judged};
ghost use Rattle.script_text.specs.Written.{step_written};

use crate::calls::call;
use crate::fields::{counting, node, only_node, only_number};
use crate::line::ScriptCause;
use crate::words::{Words, alone, is, place_of};
use order_event::{Act, Step};
use row_model::Call;

// The most sessions of a node.
const SESSIONS_MAX: u8 = 32;

// The most changes after which a fragment is sent.
const STREAM_MAX: u64 = 1_000_000;

// A step as it is written. Its numbers may be too great.
#[derive(Clone, Copy)]
enum WrittenStep {
    Session(u8, u64, Call),
    Node(u8, Act),
}

// A step of one of so many nodes.
pub(crate) fn step(words: &mut Words, nodes: u8) -> Result<Step, ScriptCause>
    ensures { result ≡ judged step_is_within (step_of nodes words.old) }
{
    match written_step(words, nodes) {
        Some(step) => step_within(step),
        None => Err(ScriptCause::Grammar),
    }
}

#[tactic(auto, unfolding(crate::specs::Grammar::step_of, crate::specs::Grammar::act_of))]
fn written_step(words: &mut Words, nodes: u8) -> Option<WrittenStep>
    ensures { option_map step_written result ≡ step_of nodes words.old }
{
    match who(words.next()?, nodes)? {
        (node, Some(session)) => Some(WrittenStep::Session(node, session, call(words)?)),
        (node, None) => Some(WrittenStep::Node(node, verb(words, nodes)?)),
    }
}

// The step, unless it passes a limit.
fn step_within(step: WrittenStep) -> Result<Step, ScriptCause>
    ensures { result ≡ judged step_is_within (Some (step_written step)) }
{
    match step {
        WrittenStep::Session(node, session, call) => match u8::try_from(session) {
            Ok(session) => within(Step {
                node,
                act: Act::Client(session, call),
            }),
            Err(_) => Err(ScriptCause::Limit),
        },
        WrittenStep::Node(node, act) => within(Step { node, act }),
    }
}

fn within(step: Step) -> Result<Step, ScriptCause>
    ensures { result ≡ judged step_is_within (Some step) }
{
    if is_within(&step.act) {
        Ok(step)
    } else {
        Err(ScriptCause::Limit)
    }
}

fn is_within(act: &Act) -> bool
    ensures { result ≡ act_is_within act.now }
{
    match act {
        Act::Client(session, call) => *session <= SESSIONS_MAX && call_is_within(call),
        _ => true,
    }
}

fn call_is_within(call: &Call) -> bool
    ensures { result ≡ call_is_within call.now }
{
    match call {
        Call::Begin(unit) => *unit <= STREAM_MAX,
        _ => true,
    }
}

// A node, and its session where one is named.
#[tactic(auto, unfolding(crate::specs::Grammar::who_of))]
fn who(word: &[u8], nodes: u8) -> Option<(u8, Option<u64>)>
    ensures { result ≡ who_of nodes word.now }
{
    match place_of(word, b'.') {
        Some(at) => Some((node(&word[..at], nodes)?, Some(counting(&word[at + 1..])?))),
        None => Some((node(word, nodes)?, None)),
    }
}

// What a node does by itself, of so many.
#[tactic(auto, unfolding(crate::specs::Grammar::verb_of))]
fn verb(words: &mut Words, nodes: u8) -> Option<Act>
    ensures { result ≡ verb_of nodes words.old }
{
    let verb = words.next()?;
    if is(verb, b"order") {
        alone(Act::Order, words)
    } else if is(verb, b"take") {
        alone(Act::Take, words)
    } else if is(verb, b"certify") {
        alone(Act::Certify, words)
    } else if is(verb, b"start") {
        Some(Act::Start(only_number(words)?))
    } else if is(verb, b"finish") {
        Some(Act::Finish(only_number(words)?))
    } else if is(verb, b"advance") {
        alone(Act::Advance, words)
    } else if is(verb, b"report") {
        alone(Act::Report, words)
    } else if is(verb, b"status") {
        alone(Act::Status, words)
    } else if is(verb, b"drain") {
        alone(Act::Drain, words)
    } else if is(verb, b"leave") {
        alone(Act::Leave, words)
    } else if is(verb, b"join") {
        join(words)
    } else if is(verb, b"transfer") {
        Some(Act::Transfer(only_node(words, nodes)?))
    } else {
        None
    }
}

// A join, which keeps the node's state, or a fresh one.
fn join(words: &mut Words) -> Option<Act>
    ensures { result ≡ join_of words.old }
{
    match words.next() {
        None => Some(Act::Join(false)),
        Some(word) => {
            if is(word, b"fresh") {
                alone(Act::Join(true), words)
            } else {
                None
            }
        }
    }
}
