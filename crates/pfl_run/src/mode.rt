//! What the program's words ask for.

ghost use Rattle.std.specs.Prelude.{◌≡◌, [], Some, false, codes, map, IfOk, IfErr};
ghost use Rattle.clap.specs.Faults.{fault_of};
ghost use Rattle.clap.specs.Kinds.{HasKind, Kinds};
ghost use Rattle.clap.specs.Simple.{subcommand_of, subcommand_rows_of};
ghost use Rattle.clap.specs.Words.{app_of, first_value, found_of, rule_of};
ghost use Rattle.clap.specs.declared.builder.command.Command.TheViews.{out-Command as fields_of};
ghost use Rattle.pfl_run.specs.Modes.{kind_status, lab_app, mode_word, number_rule, serve_app, subcommand_name, words_status, HasNumbers};
ghost use Rattle.pfl_run.specs.Modes.{IsWordsFault, WritesNumber};
ghost use Rattle.pfl_run.specs.inner.Modes.{HasNumber, IsMet, IsModeOf, IsServeOf};

use crate::version::VERSION;
use clap::builder::ValueParser;
use clap::error::ErrorKind;
use clap::{Arg, ArgMatches, Command, Error};
use std::alloc::{AllocError, Global};
use std::convert::AsStr;

/// What the program does.
#[derive(Clone, Copy, Debug, PartialEq, Eq)]
pub enum Mode {
    /// It sets a pair up and executes commands, all of them lines of standard input.
    Run,
    /// It reads the same lines, executes none, and reports the faulty ones.
    Check,
    /// It serves a pair to several sessions, on a port of this machine.
    Serve {
        /// From 1 on.
        port: u16,
        /// From 1 to 8.
        sessions: u32,
    },
}

/// Why words ask for no mode.
#[derive(Debug, Drop)]
pub enum WordsFault {
    /// The words are faulty, or they call for help.
    Words(Error),
    /// There was no memory.
    NoMemory,
}

/// The exit status for an error of this kind: a call for help or for the version is no fault.
fn kind_status(kind: ErrorKind) -> u8
    ensures { result ≡ kind_status kind }
{
    match kind {
        ErrorKind::DisplayHelp | ErrorKind::DisplayVersion => 0,
        _ => 2,
    }
}

impl WordsFault {
    /// The program's exit status: 0 after a call for help, 3 for want of memory, else 2.
    pub fn status(&self) -> u8
        ensures { result ≡ words_status self.now }
    {
        match self {
            WordsFault::Words(error) => kind_status(error.kind()),
            WordsFault::NoMemory => 3,
        }
    }
}

/// An option of `serve` that is wanted, and whose value is a number from 1 to `most`.
fn number_option<'a>(
    alloc: Global,
    name: &'a str,
    value: &'a str,
    help: &'a str,
    most: u64,
) -> Arg<'a>
    ensures rule { rule_of result ≡ number_rule name.entry.now most }
    ensures local { result.global ≡ false }
{
    Arg::new(alloc, name)
        .long(name)
        .value_name(value)
        .help(help)
        .required(true)
        .value_parser(ValueParser::unsigned(1, most))
}

/// The subcommand `serve`.
fn serve_command<'a>(alloc: Global) -> Result<Command<'a>, AllocError>
    ensures { IfOk result (λ command. (app_of command ≡ serve_app) × ((fields_of command).has_globals ≡ false)) }
{
    let port = number_option(
        alloc,
        "port",
        "PORT",
        "The port to listen at, from 1 to 65535",
        65535,
    );
    let sessions = number_option(
        alloc,
        "sessions",
        "N",
        "How many sessions to serve, from 1 to 8",
        8,
    );
    Command::new(alloc, "serve")
        .about("Serves a pair to sessions, each a connection to the port")
        .arg(port)?
        .arg(sessions)
}

/// The program's command line.
fn command_line<'a>(alloc: Global) -> Result<Command<'a>, AllocError>
    ensures { IfOk result (λ command. app_of command ≡ lab_app) }
{
    let run = Command::new(alloc, "run").about(
        "Executes the lines of standard input: a setup, and then commands",
    );
    let check = Command::new(alloc, "check").about(
        "Reads the same lines, executes none after the setup, and reports those that are faulty",
    );
    let serve = serve_command(alloc)?;
    Command::new(alloc, "pfl_lab")
        .about("A laboratory for a pair of pf firewalls that share states by pfsync")
        .version(VERSION)
        .disable_help_subcommand(true)
        .subcommand_required(true)
        .subcommand(run)?
        .subcommand(check)?
        .subcommand(serve)
}

/// Why words ask for no mode, from `clap`'s error.
fn words_fault(error: Error) -> WordsFault
    ensures { (kinds : Kinds) → HasKind kinds error → IsWordsFault kinds result }
{
    if error.kind() == ErrorKind::OutOfMemory {
        return WordsFault::NoMemory;
    }
    WordsFault::Words(error)
}

/// The number of an option that has one from 1 to `most`.
fn number_met(matches: &ArgMatches, option: &str, most: u32) -> u32
    requires { HasNumber most (first_value (found_of matches.now) option.now) }
    ensures { WritesNumber most (first_value (found_of matches.now) option.now) result }
{
    let Some(text) = matches.get_str(option) else {
        unreachable!()
    };
    match text.parse::<u32>() {
        Ok(number) => number,
        Err(_) => unreachable!(),
    }
}

/// The mode `serve`, by the subcommand's own matches.
fn serve_met(matches: &ArgMatches) -> Mode
    requires port { HasNumber 65535 (first_value (found_of matches.now) (codes "port")) }
    requires sessions { HasNumber 8 (first_value (found_of matches.now) (codes "sessions")) }
    ensures { IsServeOf (found_of matches.now) result }
{
    let port = number_met(matches, "port", 65535);
    Mode::Serve {
        port: port as u16,
        sessions: number_met(matches, "sessions", 8),
    }
}

/// The mode of the subcommand that was met.
fn mode_met(matches: &ArgMatches) -> Mode
    requires { IsMet (subcommand_rows_of matches.now) }
    ensures { IsModeOf (subcommand_rows_of matches.now) result }
{
    if matches.subcommand_matches("check").is_some() {
        return Mode::Check;
    }
    match matches.subcommand_matches("serve") {
        Some(serve) => serve_met(serve),
        None => Mode::Run,
    }
}

/// The mode that the words ask for, of which the first is the program's name.
pub fn mode_of<'a, S: AsStr>(alloc: Global, words: &'a [S]) -> Result<Mode, WordsFault>
    ensures mode { IfOk result (λ mode. subcommand_name (map S.text words.now) ≡ Some (mode_word mode)) }
    ensures numbers { IfOk result (HasNumbers (subcommand_of lab_app (map S.text words.now))) }
    ensures taken { IfOk result (λ _. fault_of lab_app (map S.text words.now) ≡ []) }
    ensures fault { IfErr result (IsWordsFault (fault_of lab_app (map S.text words.now))) }
{
    match command_line(alloc) {
        Ok(command) => match command.try_get_matches_from(words) {
            Ok(matches) => Ok(mode_met(&matches)),
            Err(error) => Err(words_fault(error)),
        },
        Err(_) => Err(WordsFault::NoMemory),
    }
}
