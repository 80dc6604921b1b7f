//! The command of each verb, as `clap` reads its words.

ghost use Rattle.std.specs.Prelude.{◌≡◌, IfOk, false, [], ◌∷◌, codes};
ghost use Rattle.clap.specs.Words.{app_of, rule_of};
ghost use Rattle.cet.specs.Words.{flag as flag_rule, option as option_rule, limit as limit_rule, required, file as file_rule, files as files_rule, check_app, run_app, link_app, asm_app, dis_app, notes_app, command_with};

use clap::{Arg, ArgAction, Command, value_parser};
use std::alloc::{AllocError, Global};

// `--NAME`.
fn flag<'a>(alloc: Global, name: &'a str) -> Arg<'a>
    ensures rule { rule_of result ≡ flag_rule name.now }
    ensures local { result.global ≡ false }
{
    Arg::new(alloc, name).long(name).action(ArgAction::SetTrue)
}

// `--NAME VALUE`.
fn option<'a>(alloc: Global, name: &'a str) -> Arg<'a>
    ensures rule { rule_of result ≡ option_rule name.now }
    ensures local { result.global ≡ false }
{
    Arg::new(alloc, name).long(name).action(ArgAction::Set)
}

// `--limit N`.
fn limit<'a>(alloc: Global) -> Arg<'a>
    ensures rule { rule_of result ≡ limit_rule }
    ensures local { result.global ≡ false }
{
    option(alloc, "limit")
        .value_parser(value_parser!(u32).range(1..=1_000_000))
        .default_value("1000000")
}

// `FILE`.
fn file<'a>(alloc: Global) -> Arg<'a>
    ensures rule { rule_of result ≡ file_rule }
    ensures local { result.global ≡ false }
{
    Arg::new(alloc, "file")
        .required(true)
        .action(ArgAction::Set)
}

// `FILE...`.
fn files<'a>(alloc: Global) -> Arg<'a>
    ensures rule { rule_of result ≡ files_rule }
    ensures local { result.global ≡ false }
{
    Arg::new(alloc, "files")
        .required(true)
        .action(ArgAction::Append)
}

// A command with no argument, and no flag for help or the version.
fn bare<'a>(alloc: Global, name: &'a str) -> Command<'a>
    ensures { app_of result ≡ command_with name.now [] }
{
    Command::new(alloc, name)
        .disable_help_flag(true)
        .disable_version_flag(true)
}

/// `check [--raw] FILE`.
pub fn check_command<'a>(alloc: Global) -> Result<Command<'a>, AllocError>
    ensures { IfOk result (λ command. app_of command ≡ check_app) }
{
    bare(alloc, "check")
        .arg(flag(alloc, "raw"))?
        .arg(file(alloc))
}

// `run` with the options that are not a number.
fn run_options<'a>(alloc: Global) -> Result<Command<'a>, AllocError>
    ensures { IfOk result (λ command. app_of command ≡ command_with (codes "run") (flag_rule (codes "raw") ∷ option_rule (codes "schedule") ∷ option_rule (codes "input") ∷ [])) }
{
    bare(alloc, "run")
        .arg(flag(alloc, "raw"))?
        .arg(option(alloc, "schedule"))?
        .arg(option(alloc, "input"))
}

/// `run [--raw] [--schedule FILE] [--input FILE] [--limit N] FILE`.
pub fn run_command<'a>(alloc: Global) -> Result<Command<'a>, AllocError>
    ensures { IfOk result (λ command. app_of command ≡ run_app) }
{
    run_options(alloc)?.arg(limit(alloc))?.arg(file(alloc))
}

/// `link --out FILE [--entry NAME] FILE...`.
pub fn link_command<'a>(alloc: Global) -> Result<Command<'a>, AllocError>
    ensures { IfOk result (λ command. app_of command ≡ link_app) }
{
    bare(alloc, "link")
        .arg(option(alloc, "out").required(true))?
        .arg(option(alloc, "entry").default_value("_start"))?
        .arg(files(alloc))
}

/// `asm --out FILE FILE`.
pub fn asm_command<'a>(alloc: Global) -> Result<Command<'a>, AllocError>
    ensures { IfOk result (λ command. app_of command ≡ asm_app) }
{
    bare(alloc, "asm")
        .arg(option(alloc, "out").required(true))?
        .arg(file(alloc))
}

/// `dis FILE`.
pub fn dis_command<'a>(alloc: Global) -> Result<Command<'a>, AllocError>
    ensures { IfOk result (λ command. app_of command ≡ dis_app) }
{
    bare(alloc, "dis").arg(file(alloc))
}

/// `notes FILE...`.
pub fn notes_command<'a>(alloc: Global) -> Result<Command<'a>, AllocError>
    ensures { IfOk result (λ command. app_of command ≡ notes_app) }
{
    bare(alloc, "notes").arg(files(alloc))
}
