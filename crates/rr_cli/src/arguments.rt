//! What `clap` makes of the words.
ghost use Rattle.std.specs.Prelude.{◌≡◌, ◌⊎◌, IfErr, IfOk, Some, codes, false, string_bytes};
ghost use Rattle.clap.specs.Walk.{texts};
ghost use Rattle.clap.specs.Words.{app_of, first_of, found_of, kind_of, rows_of, rule_of};
ghost use Rattle.clap.specs.Words.{subcommand_rows_of, with_rule};
ghost use Rattle.clap.specs.declared.builder.command.Command.TheViews.{out-Command as fields_of};
ghost use Rattle.rr_cli.specs.CommandLine.{check_command, file_argument, file_option, format_command};
ghost use Rattle.rr_cli.specs.CommandLine.{moderate, moderate_alone, serve_command};
ghost use Rattle.rr_cli.specs.Plan.{AreRefused, HasKitFiles, IsGiven, IsPlanOf, IsPlannable, PlanAt};

use crate::{Fault, Plan};
use clap::error::ErrorKind;
use clap::{Arg, ArgMatches, Command, Error};
use std::alloc::{AllocError, Global};

// The positional argument that names the store.
fn store_argument<'a>(alloc: Global) -> Arg<'a>
    ensures rule { rule_of result ≡ file_argument }
    ensures local { result.global ≡ false }
{
    Arg::new(alloc, "file")
        .required(true)
        .value_name("FILE")
        .help("The file that holds the tables")
}

// A required option `--name` that names a file of the kit.
fn kit_option<'a>(alloc: Global, name: &'a str, help: &'a str) -> Arg<'a>
    ensures rule { rule_of result ≡ file_option name.entry.now }
    ensures local { result.global ≡ false }
{
    Arg::new(alloc, name)
        .long(name)
        .required(true)
        .value_name("FILE")
        .help(help)
}

// Adds the option `--name` to a subcommand.
fn with_kit_option<'a>(
    alloc: Global,
    command: Command<'a>,
    name: &'a str,
    help: &'a str,
) -> Result<Command<'a>, AllocError>
    requires { (fields_of command).has_globals ≡ false }
    ensures app { IfOk result (λ c.
        app_of c ≡ with_rule (app_of command.entry) (file_option name.entry.now)) }
    ensures local { IfOk result (λ c. (fields_of c).has_globals ≡ false) }
{
    let option = kit_option(alloc, name, help);
    let command = command.arg(option)?;
    Ok(command)
}

fn format_subcommand<'a>(alloc: Global) -> Result<Command<'a>, AllocError>
    ensures app { IfOk result (λ c. app_of c ≡ format_command) }
    ensures local { IfOk result (λ c. (fields_of c).has_globals ≡ false) }
{
    let command = Command::new(alloc, "format")
        .about("Makes a new store from the texts of a game kit")
        .arg(store_argument(alloc))?;
    let command = with_kit_option(alloc, command, "chart", "The stock market")?;
    let command = with_kit_option(
        alloc,
        command,
        "roster",
        "The corporations, private companies and trains",
    )?;
    let command = with_kit_option(alloc, command, "tiles", "The track tiles")?;
    let command = with_kit_option(alloc, command, "board", "The hexes of the map")?;
    Ok(command)
}

fn serve_subcommand<'a>(alloc: Global) -> Result<Command<'a>, AllocError>
    ensures app { IfOk result (λ c. app_of c ≡ serve_command) }
    ensures local { IfOk result (λ c. (fields_of c).has_globals ≡ false) }
{
    Command::new(alloc, "serve")
        .about("Answers the lines of standard input")
        .arg(store_argument(alloc))
}

fn check_subcommand<'a>(alloc: Global) -> Result<Command<'a>, AllocError>
    ensures app { IfOk result (λ c. app_of c ≡ check_command) }
    ensures local { IfOk result (λ c. (fields_of c).has_globals ≡ false) }
{
    Command::new(alloc, "check")
        .about("Checks a file, and tells how much it holds")
        .arg(store_argument(alloc))
}

// The program without its subcommands. Its name is none of the words, so usage lines take it from
// `bin_name`.
fn program_alone<'a>(alloc: Global) -> Result<Command<'a>, AllocError>
    ensures { IfOk result (λ c. app_of c ≡ moderate_alone) }
{
    Command::new(alloc, "moderate")
        .about("Keeps tables of the board game 1830")
        .no_binary_name(true)
        .disable_help_subcommand(true)
        .subcommand_required(true)
        .bin_name("moderate")
}

fn program<'a>(alloc: Global) -> Result<Command<'a>, AllocError>
    ensures { IfOk result (λ c. app_of c ≡ moderate) }
{
    program_alone(alloc)?
        .subcommand(format_subcommand(alloc)?)?
        .subcommand(serve_subcommand(alloc)?)?
        .subcommand(check_subcommand(alloc)?)
}

// The text of a parse's error, or that memory ran out.
fn refusal(alloc: Global, error: &Error) -> Fault
    ensures { kind_of error.now ≡ ErrorKind.OutOfMemory → result ≡ Fault.OutOfMemory }
{
    if error.kind() == ErrorKind::OutOfMemory {
        return Fault::OutOfMemory;
    }
    match format!(in alloc; "{error}") {
        Ok(text) => Fault::Words(text),
        Err(_) => Fault::OutOfMemory,
    }
}

// The value of the argument `name`.
fn value_of(alloc: Global, matches: &ArgMatches<'_>, name: &str) -> Result<String, AllocError>
    requires { IsGiven (rows_of (found_of matches.now)) name.now }
    ensures { IfOk result (λ text.
        first_of name.now (rows_of (found_of matches.now)) ≡ Some (string_bytes text)) }
{
    let text = matches.get_str(name).unwrap();
    String::from_str(alloc, text)
}

fn format_plan(alloc: Global, matches: &ArgMatches<'_>) -> Result<Plan, AllocError>
    requires { HasKitFiles (rows_of (found_of matches.now)) }
    ensures { IfOk result (λ plan.
        PlanAt plan (Some (codes "format", rows_of (found_of matches.now)))) }
{
    let file = value_of(alloc, matches, "file")?;
    let chart = value_of(alloc, matches, "chart")?;
    let roster = value_of(alloc, matches, "roster")?;
    let tiles = value_of(alloc, matches, "tiles")?;
    let board = value_of(alloc, matches, "board")?;
    Ok(Plan::Format {
        file,
        chart,
        roster,
        tiles,
        board,
    })
}

fn serve_plan(alloc: Global, matches: &ArgMatches<'_>) -> Result<Plan, AllocError>
    requires { IsGiven (rows_of (found_of matches.now)) (codes "file") }
    ensures { IfOk result (λ plan.
        PlanAt plan (Some (codes "serve", rows_of (found_of matches.now)))) }
{
    let file = value_of(alloc, matches, "file")?;
    Ok(Plan::Serve { file })
}

fn check_plan(alloc: Global, matches: &ArgMatches<'_>) -> Result<Plan, AllocError>
    requires { IsGiven (rows_of (found_of matches.now)) (codes "file") }
    ensures { IfOk result (λ plan.
        PlanAt plan (Some (codes "check", rows_of (found_of matches.now)))) }
{
    let file = value_of(alloc, matches, "file")?;
    Ok(Plan::Check { file })
}

fn plan_of(alloc: Global, matches: &ArgMatches<'_>) -> Result<Plan, AllocError>
    requires { IsPlannable (subcommand_rows_of matches.now) }
    ensures { IfOk result (λ plan. PlanAt plan (subcommand_rows_of matches.now)) }
{
    match matches.subcommand() {
        Some(("format", inner)) => format_plan(alloc, inner),
        Some(("serve", inner)) => serve_plan(alloc, inner),
        Some(("check", inner)) => check_plan(alloc, inner),
        _ => unreachable!(),
    }
}

/// What the words behind the program's name ask for.
///
/// # Errors
///
/// [`Fault::Words`] where `clap` refuses the words or they ask for help, with the text that `clap`
/// gives, and [`Fault::OutOfMemory`].
pub fn plan<'a>(alloc: Global, words: &'a [&'a str]) -> Result<Plan, Fault>
    ensures planned { IfOk result (IsPlanOf (texts words.entry.now)) }
    ensures refused { IfErr result (λ fault.
        (fault ≡ Fault.OutOfMemory) ⊎ AreRefused (texts words.entry.now)) }
{
    let command = program(alloc)?;
    match command.try_get_matches_from(words) {
        Ok(matches) => Ok(plan_of(alloc, &matches)?),
        Err(error) => Err(refusal(alloc, &error)),
    }
}
