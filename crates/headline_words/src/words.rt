// The words of a command.
#![tactic(auto)]

ghost use Rattle.std.specs.Prelude.{◌≡◌, ◌∷◌, true, List, ℕ, Some, None, IfOk, IfErr, map, option_map, string_bytes};
ghost use Rattle.clap.specs.Words.{app_of, kind_of};
ghost use Rattle.clap.specs.declared.error.kind.ErrorKind.TheVariants as kinds;
ghost use Rattle.headline_words.specs.Command.{Part, are_apart, asked_by, command_of, number_or as number_if_there, parts_of, texts};
ghost use Rattle.headline_words.specs.Told.{asked_for};
ghost use Rattle.headline_words.specs.Parser.{analyze_app, Finds, Reads, ReadsNone};

use crate::numbers::number;
use crate::ramps::ramp_or;
use clap::error::ErrorKind;
use clap::{Arg, ArgAction, ArgMatches, Command as Parser, Error};
use ramp_constants::RampKind;
use std::alloc::{AllocError, Global};

/// What a command asks for.
#[derive(Clone, Copy)]
pub struct Asked<'w> {
    /// The name of the file.
    pub file: &'w str,
    /// So many turns of a loop are walked one by one; at most 10,000.
    pub unroll: u32,
    /// So many steps of narrowing at most; at most 8.
    pub narrow: u32,
    /// The numbers at which widening stops.
    pub ramp: RampKind,
    /// Whether facts are told beside each alarm.
    pub state: bool,
}

/// Why there is nothing that words ask for.
#[derive(Clone, Copy, PartialEq, Eq, Debug)]
pub enum WordsError {
    /// They are no command.
    Usage,
    NoMemory,
}

/// So many turns of a loop are walked one by one where the words do not say.
pub const UNROLLED: u32 = 3;

/// So many steps of narrowing follow at most where the words do not say.
pub const NARROWED: u32 = 2;

/// Widening stops at these numbers where the words do not say.
pub const RAMP: RampKind = RampKind::Constants;

// The most that the words may ask for.
const MOST_UNROLLED: u32 = 10_000;

const MOST_NARROWED: u32 = 8;

/// What the words ask for. Usage comes exactly where they are no command, memory aside.
pub fn command(alloc: Global, words: &Vec<String>) -> Result<Asked<'_>, WordsError>
    ensures found { IfOk result (λ a. command_of (texts words.now.items) ≡ Some (asked_for a)) }
    ensures usage { IfErr result (λ e. e ≡ WordsError.Usage → command_of (texts words.now.items) ≡ None) }
{
    let [_program, word, ..] = words.as_slice() else {
        return Err(WordsError::Usage);
    };
    if word.as_str() != "analyze" {
        return Err(WordsError::Usage);
    }
    match matches_of(alloc, &words.as_slice()[1..]) {
        Ok(matches) => asked_of(&matches),
        Err(error) => Err(error),
    }
}

fn matches_of(alloc: Global, words: &[String]) -> Result<ArgMatches<'_>, WordsError>
    ensures read { IfOk result (λ m. (first : List ℕ) (rest : List (List ℕ)) → map string_bytes words.now ≡ first ∷ rest → Reads (parts_of None rest) m) }
    ensures usage { IfErr result (λ e. e ≡ WordsError.Usage → (first : List ℕ) (rest : List (List ℕ)) → map string_bytes words.now ≡ first ∷ rest
        → ReadsNone (parts_of None rest)) }
{
    let Ok(analyze) = analyze_command(alloc) else {
        return Err(WordsError::NoMemory);
    };
    match analyze.try_get_matches_from(words) {
        Ok(matches) => Ok(matches),
        Err(error) => Err(refusal(&error)),
    }
}

fn refusal(error: &Error) -> WordsError
    ensures { result ≡ WordsError.Usage → kind_of error.now ≡ kinds.OutOfMemory → ⊥ }
{
    match error.kind() {
        ErrorKind::OutOfMemory => WordsError::NoMemory,
        _ => WordsError::Usage,
    }
}

// The options and the file, without help and version.
fn analyze_command<'w>(alloc: Global) -> Result<Parser<'w>, AllocError>
    ensures { IfOk result (λ c. app_of c ≡ analyze_app) }
{
    let unroll = Arg::new(alloc, "unroll").long("unroll");
    let narrow = Arg::new(alloc, "narrow").long("narrow");
    let ramp = Arg::new(alloc, "ramp").long("ramp");
    let state = Arg::new(alloc, "state")
        .long("state")
        .action(ArgAction::SetTrue);
    let file = Arg::new(alloc, "file");
    let plain = Parser::new(alloc, "analyze")
        .disable_help_flag(true)
        .disable_version_flag(true);
    plain
        .arg(unroll)?
        .arg(narrow)?
        .arg(ramp)?
        .arg(state)?
        .arg(file)
}

fn asked_of<'w>(matches: &ArgMatches<'w>) -> Result<Asked<'w>, WordsError>
    ensures found { IfOk result (λ a. (ps : List Part) → are_apart ps ≡ true → Finds ps matches.now
        → asked_by ps ≡ Some (asked_for a)) }
    ensures usage { IfErr result (λ e. (ps : List Part) → are_apart ps ≡ true → Finds ps matches.now → asked_by ps ≡ None) }
{
    let Some(file) = matches.get_str("file") else {
        return Err(WordsError::Usage);
    };
    let unroll = number_or(matches.get_str("unroll"), MOST_UNROLLED, UNROLLED);
    let narrow = number_or(matches.get_str("narrow"), MOST_NARROWED, NARROWED);
    let ramp = ramp_or(matches.get_str("ramp"));
    let (Some(unroll), Some(narrow), Some(ramp)) = (unroll, narrow, ramp) else {
        return Err(WordsError::Usage);
    };
    if file.is_empty() {
        return Err(WordsError::Usage);
    }
    Ok(Asked {
        file,
        unroll,
        narrow,
        ramp,
        state: matches.get_flag("state"),
    })
}

// The number of an option, or what holds where it is not there.
fn number_or(text: Option<&str>, most: u32, usual: u32) -> Option<u32>
    ensures { result ≡ number_if_there most usual (option_map (λ s. s.now) text.entry) }
{
    match text {
        None => Some(usual),
        Some(text) => number(text, most),
    }
}
