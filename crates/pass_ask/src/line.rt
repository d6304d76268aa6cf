//! The command line of the program.
ghost use Rattle.std.specs.Prelude.{◌≡◌, IfOk, false};
ghost use Rattle.clap.specs.Words.{app_of, rule_of};
ghost use Rattle.pass_ask.specs.Line.{bare_line, command_line, json_rule, replay_rule, long_rule, workers_rule, names_rule, data_rule, plain_rule, telling_line, command_rule, words_rule};

use clap::{Arg, ArgAction, Command};
use std::alloc::{AllocError, Global};

// The flag `--json`.
fn json<'a>(alloc: Global) -> Arg<'a>
    ensures rule { rule_of result ≡ json_rule }
    ensures local { result.global ≡ false }
{
    Arg::new(alloc, "json")
        .long("json")
        .action(ArgAction::SetTrue)
}

// The flag `--replay`.
fn replay<'a>(alloc: Global) -> Arg<'a>
    ensures rule { rule_of result ≡ replay_rule }
    ensures local { result.global ≡ false }
{
    Arg::new(alloc, "replay")
        .long("replay")
        .action(ArgAction::SetTrue)
}

// The flag `--long`.
fn long<'a>(alloc: Global) -> Arg<'a>
    ensures rule { rule_of result ≡ long_rule }
    ensures local { result.global ≡ false }
{
    Arg::new(alloc, "long")
        .long("long")
        .action(ArgAction::SetTrue)
}

// The option `--workers N`.
fn workers<'a>(alloc: Global) -> Arg<'a>
    ensures rule { rule_of result ≡ workers_rule }
    ensures local { result.global ≡ false }
{
    Arg::new(alloc, "workers")
        .long("workers")
        .action(ArgAction::Set)
}

// The flag `--names`.
fn names<'a>(alloc: Global) -> Arg<'a>
    ensures rule { rule_of result ≡ names_rule }
    ensures local { result.global ≡ false }
{
    Arg::new(alloc, "names")
        .long("names")
        .action(ArgAction::SetTrue)
}

// The flag `--data`.
fn data_flag<'a>(alloc: Global) -> Arg<'a>
    ensures rule { rule_of result ≡ data_rule }
    ensures local { result.global ≡ false }
{
    Arg::new(alloc, "data")
        .long("data")
        .action(ArgAction::SetTrue)
}

// The flag `--plain`.
fn plain<'a>(alloc: Global) -> Arg<'a>
    ensures rule { rule_of result ≡ plain_rule }
    ensures local { result.global ≡ false }
{
    Arg::new(alloc, "plain")
        .long("plain")
        .action(ArgAction::SetTrue)
}

// The line with the flags of questions about names.
fn telling<'a>(alloc: Global, line: Command<'a>) -> Result<Command<'a>, AllocError>
    ensures { IfOk result (λ whole. app_of whole ≡ telling_line (app_of line.entry)) }
{
    let named = line.arg(names(alloc))?;
    let flowing = named.arg(data_flag(alloc))?;
    let whole = flowing.arg(plain(alloc))?;
    Ok(whole)
}

// The name of the command.
fn command<'a>(alloc: Global) -> Arg<'a>
    ensures rule { rule_of result ≡ command_rule }
    ensures local { result.global ≡ false }
{
    Arg::new(alloc, "command").required(true)
}

// The words of the command, of which there may be any number.
fn words<'a>(alloc: Global) -> Arg<'a>
    ensures rule { rule_of result ≡ words_rule }
    ensures local { result.global ≡ false }
{
    Arg::new(alloc, "word").action(ArgAction::Append)
}

// A command line that takes nothing.
fn bare_line<'a>(alloc: Global) -> Command<'a>
    ensures { app_of result ≡ bare_line }
{
    Command::new(alloc, "passd")
        .no_binary_name(true)
        .disable_help_flag(true)
        .disable_version_flag(true)
}

/// The command line: `[--json] [--replay] [--long] [--workers N] [--names] [--data] [--plain] COMMAND [WORD]..`.
pub fn command_line<'a>(alloc: Global) -> Result<Command<'a>, AllocError>
    ensures { IfOk result (λ line. app_of line ≡ command_line) }
{
    let flagged = bare_line(alloc).arg(json(alloc))?;
    let ordered = flagged.arg(replay(alloc))?;
    let sized = ordered.arg(long(alloc))?;
    let optional = sized.arg(workers(alloc))?;
    let flags = telling(alloc, optional)?;
    let named = flags.arg(command(alloc))?;
    let whole = named.arg(words(alloc))?;
    Ok(whole)
}
