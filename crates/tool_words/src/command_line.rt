// The words that the program takes.

ghost use Rattle.std.specs.Prelude.{◌≡◌, ◌≤◌, ◌↔◌, ℕ, List, ◌∷◌, [], Option, Some, None, false, IfOk, IfSome, MatchResult, codes, map, option_map};
ghost use Rattle.clap.specs.Walk.{Text, Row, one_of, rule_of, rows_of};
ghost use Rattle.clap.specs.Matches.{found_of};
ghost use Rattle.clap.specs.Values.{kind_of};
ghost use Rattle.clap.specs.Simple.{app_of, subcommand_rows_of};
ghost use Rattle.clap.specs.declared.builder.command.Command.TheViews.{out-Command as fields_of};
ghost use Rattle.tool_words.specs.declared.words.Command.{Command as Kind};
ghost use Rattle.tool_words.specs.declared.words.Options.{Options as Numbers};
ghost use Rattle.tool_words.specs.declared.words.Draw.{Draw as Drawn};
ghost use Rattle.tool_words.specs.Words.{proof_argument, script_argument, seed_argument, size_argument, number_argument, number_option, with_options, leaf_app, app_for, shape_for, bare_program, program_with, program, number_or, options_in, draw_in, AreOptions, IsWithin, AreWithin, Names, name_of, Asks, AreTaken};

use crate::words::{Command, Draw, Options, Plan, Unplanned};
use clap::builder::ValueParser;
use clap::error::ErrorKind;
use clap::{Arg, ArgMatches, Command as CommandLine, Error};
use std::alloc::{AllocError, Global};

/// The most workers that may search a check.
const MOST_WORKERS: u64 = 64;

/// The most variables that may split a check.
const MOST_CUBES: u64 = 10;

/// The greatest budget of a search.
const MOST_BUDGET: u64 = 1_000_000_000;

/// The most words of a script that is drawn.
const MOST_SIZE: u64 = 1000;

/// A command with the name of a proof file, and perhaps that of a script or of clauses.
fn command_of<'a>(alloc: Global, name: &'a str) -> Result<CommandLine<'a>, AllocError>
    ensures app { IfOk result (λ c. app_of c
        ≡ leaf_app name.entry.now (proof_argument ∷ script_argument ∷ [])) }
    ensures local { IfOk result (λ c. (fields_of c).has_globals ≡ false) }
{
    let proof = Arg::new(alloc, "PROOF").required(true);
    let script = Arg::new(alloc, "SCRIPT");
    CommandLine::new(alloc, name).arg(proof)?.arg(script)
}

/// A whole number that has to be there, at least `least` and at most `most`.
fn number_argument<'a>(alloc: Global, name: &'a str, least: u64, most: u64) -> Arg<'a>
    ensures rule { rule_of result ≡ number_argument name.entry.now least most }
    ensures local { result.global ≡ false }
{
    Arg::new(alloc, name)
        .required(true)
        .value_parser(ValueParser::unsigned(least, most))
}

/// An option `--NAME N` with a whole number, which is at least `least` and at most `most`.
fn number_option<'a>(alloc: Global, name: &'a str, least: u64, most: u64) -> Arg<'a>
    ensures rule { rule_of result ≡ number_option name.entry.now least most }
    ensures local { result.global ≡ false }
{
    Arg::new(alloc, name)
        .long(name)
        .value_parser(ValueParser::unsigned(least, most))
}

/// The command with the number of workers and the limits of their search.
fn with_options<'a>(alloc: Global, command: CommandLine<'a>) -> Result<CommandLine<'a>, AllocError>
    requires local { (fields_of command).has_globals ≡ false }
    ensures app { IfOk result (λ c. app_of c ≡ with_options (app_of command.entry)) }
    ensures local { IfOk result (λ c. (fields_of c).has_globals ≡ false) }
{
    let workers = number_option(alloc, "workers", 1, MOST_WORKERS);
    let cubes = number_option(alloc, "cubes", 0, MOST_CUBES);
    let budget = number_option(alloc, "budget", 0, MOST_BUDGET);
    command.arg(workers)?.arg(cubes)?.arg(budget)
}

/// The command that answers a script, with the number of workers and the limits of their search.
fn solve_command<'a>(alloc: Global) -> Result<CommandLine<'a>, AllocError>
    ensures app { IfOk result (λ c. app_of c ≡ app_for Kind.Solve) }
    ensures local { IfOk result (λ c. (fields_of c).has_globals ≡ false) }
{
    let command = command_of(alloc, "solve")?;
    with_options(alloc, command)
}

/// The command that answers a script that is drawn, without its options.
fn draw_command<'a>(alloc: Global) -> Result<CommandLine<'a>, AllocError>
    ensures app { IfOk result (λ c. app_of c
        ≡ leaf_app (codes "drill") (seed_argument ∷ size_argument ∷ proof_argument ∷ [])) }
    ensures local { IfOk result (λ c. (fields_of c).has_globals ≡ false) }
{
    let seed = number_argument(alloc, "SEED", 0, u64::MAX);
    let size = number_argument(alloc, "SIZE", 1, MOST_SIZE);
    let proof = Arg::new(alloc, "PROOF").required(true);
    CommandLine::new(alloc, "drill")
        .arg(seed)?
        .arg(size)?
        .arg(proof)
}

/// The command that answers a script that is drawn, with the number of workers and the limits of their search.
fn drill_command<'a>(alloc: Global) -> Result<CommandLine<'a>, AllocError>
    ensures app { IfOk result (λ c. app_of c ≡ app_for Kind.Drill) }
    ensures local { IfOk result (λ c. (fields_of c).has_globals ≡ false) }
{
    let command = draw_command(alloc)?;
    with_options(alloc, command)
}

/// The command that converts a proof, with the names of both files.
fn convert_command<'a>(alloc: Global) -> Result<CommandLine<'a>, AllocError>
    ensures app { IfOk result (λ c. app_of c ≡ app_for Kind.Convert) }
    ensures local { IfOk result (λ c. (fields_of c).has_globals ≡ false) }
{
    let proof = Arg::new(alloc, "PROOF").required(true);
    let out = Arg::new(alloc, "OUT").required(true);
    CommandLine::new(alloc, "convert").arg(proof)?.arg(out)
}

/// The program without its commands.
fn bare<'a>(alloc: Global) -> CommandLine<'a>
    ensures { app_of result ≡ bare_program }
{
    CommandLine::new(alloc, "smt_tool")
        .no_binary_name(true)
        .disable_help_flag(true)
        .disable_help_subcommand(true)
        .disable_version_flag(true)
        .subcommand_required(true)
}

/// The program with its commands on scripts.
fn with_scripts<'a>(alloc: Global) -> Result<CommandLine<'a>, AllocError>
    ensures { IfOk result (λ c. app_of c
        ≡ program_with (shape_for Kind.Solve ∷ shape_for Kind.Check ∷ [])) }
{
    let solve = solve_command(alloc)?;
    let check = command_of(alloc, "check")?;
    bare(alloc).subcommand(solve)?.subcommand(check)
}

/// The program with its commands on scripts and on clauses.
fn with_clauses<'a>(alloc: Global) -> Result<CommandLine<'a>, AllocError>
    ensures { IfOk result (λ c. app_of c
        ≡ program_with (shape_for Kind.Solve ∷ shape_for Kind.Check ∷ shape_for Kind.Lrat
        ∷ shape_for Kind.Cnf ∷ [])) }
{
    let lrat = command_of(alloc, "lrat")?;
    let cnf = command_of(alloc, "cnf")?;
    with_scripts(alloc)?.subcommand(lrat)?.subcommand(cnf)
}

/// The program's command line.
fn command_line<'a>(alloc: Global) -> Result<CommandLine<'a>, AllocError>
    ensures { IfOk result (λ c. app_of c ≡ program) }
{
    let convert = convert_command(alloc)?;
    let drill = drill_command(alloc)?;
    with_clauses(alloc)?.subcommand(convert)?.subcommand(drill)
}

/// The command of this name.
fn command_named(name: &str) -> Option<Command>
    ensures { (command : Kind) → (result ≡ Some command) ↔ (name.now ≡ name_of command) }
{
    match name {
        "solve" => Some(Command::Solve),
        "check" => Some(Command::Check),
        "lrat" => Some(Command::Lrat),
        "cnf" => Some(Command::Cnf),
        "convert" => Some(Command::Convert),
        "drill" => Some(Command::Drill),
        _ => None,
    }
}

/// The number that was given to an option, or the usual one.
fn number_or<'a>(found: &ArgMatches<'a>, option: &str, usual: u32) -> u32
    requires { IsWithin 0 4294967295 (one_of option.now (rows_of (found_of found.now))) }
    ensures { result ≡ number_or usual (one_of option.now (rows_of (found_of found.now))) }
{
    found.get_one(option).unwrap_or(usual)
}

/// The number of workers and the limits of their search that were given, or the usual ones.
fn options_of<'a>(found: &ArgMatches<'a>) -> Options
    requires { AreWithin (rows_of (found_of found.now)) }
    ensures { result ≡ options_in (rows_of (found_of found.now)) }
{
    Options {
        workers: number_or(found, "workers", Options::USUAL.workers),
        cubes: number_or(found, "cubes", Options::USUAL.cubes),
        budget: number_or(found, "budget", Options::USUAL.budget),
    }
}

/// The seed that was given, or 0.
fn seed_of<'a>(found: &ArgMatches<'a>) -> u64
    requires { IsWithin 0 18446744073709551615
        (one_of (codes "SEED") (rows_of (found_of found.now))) }
    ensures { result ≡ number_or 0 (one_of (codes "SEED") (rows_of (found_of found.now))) }
{
    found.get_one("SEED").unwrap_or(0)
}

/// The script that is to be drawn, or where none is, seed 0 and size 0.
fn draw_of<'a>(found: &ArgMatches<'a>) -> Draw
    requires { AreWithin (rows_of (found_of found.now)) }
    ensures { result ≡ draw_in (rows_of (found_of found.now)) }
{
    Draw {
        seed: seed_of(found),
        size: number_or(found, "SIZE", 0),
    }
}

/// The command that was found, with its files and numbers.
fn plan_of<'a>(found: &ArgMatches<'a>) -> Option<Plan<'a>>
    requires { (name : Text) (rows : List Row) → subcommand_rows_of found.now ≡ Some (name, rows)
        → AreWithin rows }
    ensures some { IfSome result
        (λ plan. Names (subcommand_rows_of found.now) (name_of plan.command) plan.proof.now
        plan.out.now (option_map (λ s. s.now) plan.script) plan.options plan.draw) }
    ensures none { result ≡ None
        → (command : Kind) (proof out : List ℕ) (script : Option (List ℕ))
        (options : Numbers) (draw : Drawn)
        → ¬ (Names (subcommand_rows_of found.now) (name_of command) proof out script options
        draw) }
{
    let (name, inner) = found.subcommand()?;
    let command = command_named(name)?;
    let proof = inner.get_str("PROOF")?;
    Some(Plan {
        command,
        proof,
        out: inner.get_str("OUT").unwrap_or(proof),
        script: inner.get_str("SCRIPT"),
        options: options_of(inner),
        draw: draw_of(inner),
    })
}

/// Why a command line is refused.
fn refusal(error: &Error) -> Unplanned
    ensures { (result ≡ Unplanned.NoMemory) ↔ (kind_of error.now ≡ ErrorKind.OutOfMemory) }
{
    match error.kind() {
        ErrorKind::OutOfMemory => Unplanned::NoMemory,
        _ => Unplanned::Usage,
    }
}

/// The plan of the words after the program's name: `solve` with the name of a proof file, perhaps that of a script, and
/// perhaps how many workers search and within which limits; `check` with both files; `lrat` or `cnf` with the name of a refutation and perhaps that of
/// the clauses; `convert` with the names of a proof file and of the file that it is written into; `drill` with a seed, a size and
/// the name of a proof file, and perhaps what `solve` may have. `clap` reads them.
pub fn plan<'a>(alloc: Global, words: &'a [&'a str]) -> Result<Plan<'a>, Unplanned>
    ensures asked { MatchResult result
        (λ plan. Asks plan.command (map (λ w. w.now) words.now) plan.proof.now plan.out.now
        (option_map (λ s. s.now) plan.script) plan.options plan.draw)
        (λ e. e ≡ Unplanned.Usage → ¬ (AreTaken (map (λ w. w.now) words.now))) }
    ensures options { IfOk result (λ plan. AreOptions plan.options) }
    ensures draw { IfOk result (λ plan. plan.draw.size ≤ 1000) }
{
    match command_line(alloc)?.try_get_matches_from(words) {
        Ok(found) => match plan_of(&found) {
            Some(plan) => Ok(plan),
            None => Err(Unplanned::Usage),
        },
        Err(error) => Err(refusal(&error)),
    }
}
