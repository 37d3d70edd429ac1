//! Commands.

ghost use Rattle.std.specs.Prelude.{◌≡◌};
ghost use Rattle.ebr_words.specs.Words as spec;

use crate::apart::are_apart;
use ebr_base::{Bytes, rest_from};

/// The most scripts of a command.
const MAX_SCRIPTS: usize = 32;

/// A command.
#[derive(Clone, Copy, Debug, PartialEq, Eq)]
pub enum Command {
    /// `try S`: the script S as one session, whose replies go to the report.
    Try,
    /// `run J S..`: the scripts as sessions in threads of their own over the journal J.
    Run,
    /// `rehearse J ORDER S..`: the scripts as sessions side by side over the journal J, in the order that ORDER writes.
    Rehearse,
    /// `dump J`: a line for each record of the journal J.
    Dump,
}

/// The command of the words, where they are one.
pub fn command_of(words: &[Bytes]) -> Option<Command>
    ensures { result ≡ spec.command_of words.now }
{
    let Some((command, names)) = words.split_first() else {
        return None;
    };
    if command.as_slice() == b"try".as_slice() && is_one_name(names) {
        return Some(Command::Try);
    }
    if command.as_slice() == b"dump".as_slice() && is_one_name(names) {
        return Some(Command::Dump);
    }
    if command.as_slice() == b"rehearse".as_slice() && is_rehearsal(names) {
        return Some(Command::Rehearse);
    }
    if command.as_slice() == b"run".as_slice() && is_run(names) {
        return Some(Command::Run);
    }
    None
}

/// Whether this is one word that isn't empty.
fn is_one_name(names: &[Bytes]) -> bool
    ensures { result ≡ spec.is_one_name names.now }
{
    match names {
        [name] => !name.is_empty(),
        _ => false,
    }
}

/// Whether these are a journal, an order and 1 to 32 scripts, and no two of what they name are one.
fn is_rehearsal(names: &[Bytes]) -> bool
    ensures { result ≡ spec.is_rehearsal names.now }
{
    if names.len() < 3 || names.len() > 2 + MAX_SCRIPTS {
        return false;
    }
    are_named(names) && are_apart(names, rest_from(names, 2))
}

/// Whether these are a journal and 1 to 32 scripts, and no two of what they name are one.
fn is_run(names: &[Bytes]) -> bool
    ensures { result ≡ spec.is_run names.now }
{
    if names.len() < 2 || names.len() > 1 + MAX_SCRIPTS {
        return false;
    }
    are_named(names) && are_apart(names, rest_from(names, 1))
}

/// Whether none of the words is empty.
fn are_named(names: &[Bytes]) -> bool
    ensures { result ≡ spec.are_named names.now }
{
    names.iter().all(|name| !name.is_empty())
}
