ghost use Rattle.std.specs.Prelude.{◌≡◌, ◌↔◌, map, string_bytes, IfOk, IfErr, IsTrue};
ghost use Rattle.clap.specs.Words.{app_of, found_of, rows_of};
ghost use Rattle.galera_run.specs.Words.{IsSteps, is_load, load_app, load_asked, numbers_of, option_number, HasCount};

use clap::error::ErrorKind;
use clap::{Arg, ArgMatches, Command};
use script_text::number;
use std::alloc::{AllocError, Global};
use wsrep_base::NoMemory;

// The most transactions of a workload.
const MOST_COUNT: u64 = 30_000;

/// A workload that the words ask for.
#[derive(Clone, Copy, Debug, PartialEq, Eq)]
pub struct Asked {
    pub seed: u64,
    /// How many transactions it has.
    pub count: u64,
}

// Whether the words are the command `steps`.
pub(crate) fn is_steps(words: &[String]) -> bool
    ensures { IsTrue result ↔ IsSteps (map string_bytes words.now) }
{
    match words {
        [word] => word.as_str() == "steps",
        _ => false,
    }
}

/// The workload that the words ask for, where they are the command `load`.
pub(crate) fn load_asked(alloc: Global, words: &[String]) -> Result<Option<Asked>, NoMemory>
    ensures ok { IfOk result (λ asked. asked ≡ load_asked (map string_bytes words.now)) }
    ensures count { IfOk result (λ asked. HasCount asked) }
    // Only words that begin with `load` take memory.
    ensures err { IfErr result (λ _. IsTrue (is_load (map string_bytes words.now))) }
{
    if !is_load(words) {
        return Ok(None);
    }
    let command = load_command(alloc)?;
    match command.try_get_matches_from(words) {
        Ok(matches) => Ok(numbers(&matches)),
        Err(error) if error.kind() == ErrorKind::OutOfMemory => Err(NoMemory),
        Err(_) => Ok(None),
    }
}

fn is_load(words: &[String]) -> bool
    ensures { result ≡ is_load (map string_bytes words.now) }
{
    match words {
        [word, ..] => word.as_str() == "load",
        [] => false,
    }
}

fn load_command<'a>(alloc: Global) -> Result<Command<'a>, AllocError>
    ensures { IfOk result (λ command. app_of command ≡ load_app) }
{
    let seed = Arg::new(alloc, "seed").long("seed").required(true);
    let count = Arg::new(alloc, "count").long("count").required(true);
    Command::new(alloc, "load").arg(seed)?.arg(count)
}

#[tactic(auto, unfolding(crate::specs::Words::numbers_of))]
fn numbers(matches: &ArgMatches) -> Option<Asked>
    ensures numbers { result ≡ numbers_of (rows_of (found_of matches.now)) }
    ensures count { HasCount result }
{
    let seed = option_number(matches, "seed")?;
    let count = option_number(matches, "count")?;
    if count < 1 || count > MOST_COUNT {
        return None;
    }
    Some(Asked { seed, count })
}

// The number that an option is given.
fn option_number(matches: &ArgMatches, name: &str) -> Option<u64>
    ensures { result ≡ option_number name.now (rows_of (found_of matches.now)) }
{
    match matches.get_str(name) {
        Some(text) => number(text.as_bytes()),
        None => None,
    }
}
