//! The command line: the request that its words make.
ghost use Rattle.std.specs.Prelude.{◌≡◌, ◌≤◌, ◌∷◌, [], codes, length, map, None, Some, IfOk, IsOk, option_map, false, true};
ghost use Rattle.std.specs.Prelude.{Bool};
ghost use Rattle.clap.specs.Words.{App, FailsBy, app_of, found_of, new_app, rows_of, rule_of, with_rule};
ghost use Rattle.arena.specs.Words.{alone_app, alone_asked, arena_app, asked_of, blocks_at, blocks_rule, file_rule, game_rule, live_app, serve_app, serve_asked, stay_rule, workers_rule, workers_at, stay_at, text_at, top_app, command_in, mistakes_in, asked_in};
ghost use Rattle.arena.specs.inner.Words.{IsArgOf, IsCommandOf};
ghost use Rattle.bs_program.specs.Asked.{asked_for};
ghost use Rattle.clap.specs.Words.{subcommand_rows_of};

use bs_program::{Request, STANDARD_INPUT, Serving, Solo};
use clap::{Arg, ArgAction, ArgMatches, Command, Error, value_parser};
use std::alloc::{AllocError, Global};

const DEFAULT_BLOCKS: u16 = 64;

const DEFAULT_WORKERS: u16 = 2;

const FIRST_STAY: u32 = 1;

const VERSION: &str = "1.1.0";

/// The end of `arena --help`.
const HELP_END: &str = "\
Without a word it serves the standard input, as 'arena serve -' does, and waits for its end.

If it says 'cannot read the file' or 'plan P1' to 'plan P4', or refuses lines of a file, then
'arena-check FILE' says why, in which line, and how many --blocks to give (checker/arena-check
of the repository):
  P1  the first line is no plan
  P2  a row of the plan is wrong, or a name comes twice
  P3  more than 64 games at once
  P4  more blocks are needed: six for each game of a quota up to 1835007

Example: arena serve examples/first_file.jsonl";

const SERVE_ABOUT: &str = "Plays the games of a command file and writes their transcript";

const SERVE_END: &str = "\
'arena-check FILE' says what is refused in a file, and how many --blocks it needs.

Example: arena serve games.jsonl --blocks 168 > games.transcript";

const ALONE_ABOUT: &str = "Plays one game of a command file by its own lines alone, on one worker";

const ALONE_END: &str = "Example: arena alone games.jsonl --game a > a.transcript";

const LIVE_ABOUT: &str = "Answers the lines of the standard input as they come";

const LIVE_END: &str = "Example: arena live --blocks 384 < games.jsonl";

fn file_word<'a>(alloc: Global) -> Arg<'a>
    ensures { IsArgOf file_rule result }
{
    Arg::new(alloc, "FILE")
        .required(true)
        .action(ArgAction::Set)
        .help("The command file, or - for the standard input")
}

fn blocks_option<'a>(alloc: Global) -> Arg<'a>
    ensures { IsArgOf blocks_rule result }
{
    Arg::new(alloc, "blocks")
        .long("blocks")
        .value_name("N")
        .action(ArgAction::Set)
        .value_parser(value_parser!(u16).range(1..=4096))
        .default_value("64")
        .help("Blocks of 2 MiB that the games may reserve, 1 to 4096")
}

fn workers_option<'a>(alloc: Global) -> Arg<'a>
    ensures { IsArgOf workers_rule result }
{
    Arg::new(alloc, "workers")
        .long("workers")
        .value_name("N")
        .action(ArgAction::Set)
        .value_parser(value_parser!(u16).range(1..=4))
        .default_value("2")
        .help("Workers that play the games, 1 to 4")
}

fn game_option<'a>(alloc: Global) -> Arg<'a>
    ensures { IsArgOf game_rule result }
{
    Arg::new(alloc, "game")
        .long("game")
        .value_name("NAME")
        .required(true)
        .action(ArgAction::Set)
        .help("The game to play")
}

fn stay_option<'a>(alloc: Global) -> Arg<'a>
    ensures { IsArgOf stay_rule result }
{
    Arg::new(alloc, "stay")
        .long("stay")
        .value_name("N")
        .action(ArgAction::Set)
        .value_parser(value_parser!(u32).range(1..))
        .default_value("1")
        .help("Which stay of that game to play, from 1 on")
}

/// A command with the first and the last text of its help, and no argument yet.
fn described<'a>(alloc: Global, name: &'a str, about: &'a str, end: &'a str) -> Command<'a>
    ensures { IsCommandOf (new_app name.now) result }
{
    Command::new(alloc, name).about(about).after_help(end)
}

#[tactic(auto, using(crate::proofs::Commands::adds_arg))]
fn serve_command<'a>(alloc: Global) -> Result<Command<'a>, AllocError>
    ensures { IfOk result (IsCommandOf serve_app) }
{
    described(alloc, "serve", SERVE_ABOUT, SERVE_END)
        .arg(file_word(alloc))?
        .arg(blocks_option(alloc))?
        .arg(workers_option(alloc))
}

#[tactic(auto, using(crate::proofs::Commands::adds_arg))]
fn alone_command<'a>(alloc: Global) -> Result<Command<'a>, AllocError>
    ensures { IfOk result (IsCommandOf alone_app) }
{
    described(alloc, "alone", ALONE_ABOUT, ALONE_END)
        .arg(file_word(alloc))?
        .arg(game_option(alloc))?
        .arg(stay_option(alloc))?
        .arg(blocks_option(alloc))
}

#[tactic(auto, using(crate::proofs::Commands::adds_arg))]
fn live_command<'a>(alloc: Global) -> Result<Command<'a>, AllocError>
    ensures { IfOk result (IsCommandOf live_app) }
{
    described(alloc, "live", LIVE_ABOUT, LIVE_END).arg(blocks_option(alloc))
}

/// The program's own name and version, with no command yet.
fn top_command<'a>(alloc: Global) -> Command<'a>
    ensures { IsCommandOf top_app result }
{
    Command::new(alloc, "arena")
        .about("A host for many Battlesnake games")
        .after_help(HELP_END)
        .version(VERSION)
        .subcommand_required(true)
}

#[tactic(auto, using(crate::proofs::Commands::adds_subcommand), unfolding(crate::specs::Words::arena_app))]
fn arena_command<'a>(alloc: Global) -> Result<Command<'a>, AllocError>
    ensures { IfOk result (IsCommandOf arena_app) }
{
    top_command(alloc)
        .subcommand(serve_command(alloc)?)?
        .subcommand(alone_command(alloc)?)?
        .subcommand(live_command(alloc)?)
}

/// The value of `--blocks`.
fn blocks_of(matches: &ArgMatches<'_>) -> u16
    ensures { result ≡ blocks_at (rows_of (found_of matches.now)) }
{
    matches.get_one::<u16>("blocks").unwrap_or(DEFAULT_BLOCKS)
}

/// The value of `--workers`.
fn workers_of(matches: &ArgMatches<'_>) -> u16
    ensures { result ≡ workers_at (rows_of (found_of matches.now)) }
{
    matches.get_one::<u16>("workers").unwrap_or(DEFAULT_WORKERS)
}

/// The value of `--stay`.
fn stay_of(matches: &ArgMatches<'_>) -> u32
    ensures { result ≡ stay_at (rows_of (found_of matches.now)) }
{
    matches.get_one::<u32>("stay").unwrap_or(FIRST_STAY)
}

/// The value of that argument, or `otherwise` if it is not given.
#[tactic(auto, using(crate::proofs::Numbers::text_read))]
fn text_of<'a>(matches: &ArgMatches<'a>, name: &str, otherwise: &'a str) -> &'a str
    ensures { result.now ≡ text_at name.now otherwise.now (rows_of (found_of matches.now)) }
{
    matches.get_str(name).unwrap_or(otherwise)
}

fn serve_request<'a>(matches: &ArgMatches<'a>) -> Request<'a>
    ensures { asked_for result ≡ serve_asked (rows_of (found_of matches.now)) }
{
    Request::Serve(Serving {
        file: text_of(matches, "FILE", STANDARD_INPUT),
        blocks: blocks_of(matches),
        workers: workers_of(matches),
    })
}

fn alone_request<'a>(matches: &ArgMatches<'a>) -> Request<'a>
    ensures { asked_for result ≡ alone_asked (rows_of (found_of matches.now)) }
{
    Request::Alone(Solo {
        file: text_of(matches, "FILE", STANDARD_INPUT),
        game: text_of(matches, "game", ""),
        stay: stay_of(matches),
        blocks: blocks_of(matches),
    })
}

/// The request of a command line without a command: it serves the standard input.
fn default_request<'a>() -> Request<'a>
    ensures { asked_for result ≡ serve_asked [] }
{
    Request::Serve(Serving {
        file: STANDARD_INPUT,
        blocks: DEFAULT_BLOCKS,
        workers: DEFAULT_WORKERS,
    })
}

fn request_of<'a>(matches: &ArgMatches<'a>) -> Request<'a>
    ensures { asked_for result ≡ asked_in (subcommand_rows_of matches.now) }
{
    match matches.subcommand() {
        Some(("alone", alone)) => alone_request(alone),
        Some(("live", live)) => Request::Live(blocks_of(live)),
        Some((_, serve)) => serve_request(serve),
        None => default_request(),
    }
}

fn match_words<'a>(alloc: Global, words: &'a [&'a str]) -> Result<ArgMatches<'a>, Error>
    ensures rows { IfOk result (λ matches. subcommand_rows_of matches ≡ command_in (map (λ word. word.now) words.now)) }
    ensures refused { FailsBy (mistakes_in (map (λ word. word.now) words.now)) result }
{
    let command = arena_command(alloc)?;
    command.try_get_matches_from(words)
}

/// Reads the words of a command line, the program's name first. If there is no other word, the
/// standard input is served.
#[tactic(auto, using(crate::proofs::Requests::few_words, crate::proofs::Requests::more_words))]
pub fn read_words<'a>(alloc: Global, words: &'a [&'a str]) -> Result<Request<'a>, Error>
    ensures asked { IfOk result (λ request. asked_for request ≡ asked_of (map (λ word. word.now) words.now)) }
    ensures refused { 2 ≤ length words.now → FailsBy (mistakes_in (map (λ word. word.now) words.now)) result }
    ensures few { length words.now ≤ 1 → IsOk result }
{
    if words.len() <= 1 {
        return Ok(default_request());
    }
    match match_words(alloc, words) {
        Ok(matches) => Ok(request_of(&matches)),
        Err(error) => Err(error),
    }
}
