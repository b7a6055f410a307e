//! The words after the program's name.
ghost use Rattle.std.specs.Prelude.{◌≡◌, IfSome};
ghost use Rattle.std.specs.Option.{option_map};
ghost use Rattle.top_call.specs.Row.{row_of, check_row, print_row, run_row, opt_row, profile_of, report_row, self_row, texts};
ghost use Rattle.top_call.specs.Command.{row_of_command, IsAllowed};

use crate::limit::{limit_of, size_of};

/// A command with its file names.
#[derive(Clone, Copy, Debug, PartialEq, Eq)]
pub(crate) enum Command<'a> {
    /// Writes the canonical text of one file to another.
    Print {
        /// The file that is read.
        input: &'a str,
        /// The file that is written.
        output: &'a str,
    },
    /// Runs `main` of a file.
    Run(Asked<'a>),
    /// Optimises a module by its profile.
    Opt(OptNames<'a>),
    /// Checks what was written for a module and its profile.
    Check(OptNames<'a>),
    /// Reports what the optimiser does to a module.
    Report(ReportNames<'a>),
    /// Optimises a made module of so many diamonds: from 1 to 10000.
    Itself(u32),
}

/// What is asked of a run.
#[derive(Clone, Copy, Debug, PartialEq, Eq)]
pub(crate) struct Asked<'a> {
    /// How many steps are made at most: from 1 to 2^62 - 1.
    pub(crate) limit: u64,
    /// The file that is read.
    pub(crate) input: &'a str,
    /// The file that the profile is written to, if one is asked for.
    pub(crate) profile: Option<&'a str>,
}

/// The files of `opt` and `check`. The two that `opt` writes differ.
#[derive(Clone, Copy, Debug, PartialEq, Eq)]
pub(crate) struct OptNames<'a> {
    /// The file of the module.
    pub(crate) input: &'a str,
    /// The file of its profile.
    pub(crate) profile: &'a str,
    /// The file of the optimised module.
    pub(crate) output: &'a str,
    /// The file of its certificate.
    pub(crate) certificate: &'a str,
}

/// The files of `report`.
#[derive(Clone, Copy, Debug, PartialEq, Eq)]
pub(crate) struct ReportNames<'a> {
    /// The file of the module.
    pub(crate) input: &'a str,
    /// The file of its profile.
    pub(crate) profile: &'a str,
}

fn print_command(words: &[String]) -> Option<Command<'_>>
    ensures { option_map row_of_command result ≡ print_row (texts words.now) }
{
    match words {
        [input, output] => Some(Command::Print { input, output }),
        _ => None,
    }
}

/// The file for the profile; `-` asks for none.
fn profile_of(word: &str) -> Option<&str>
    ensures { option_map (λ name. name.now) result ≡ profile_of word.now }
{
    if word == "-" { None } else { Some(word) }
}

fn run_command(words: &[String]) -> Option<Command<'_>>
    ensures row { option_map row_of_command result ≡ run_row (texts words.now) }
    ensures allowed { IfSome result IsAllowed }
{
    match words {
        [limit, input, profile] => Some(Command::Run(Asked {
            limit: limit_of(limit)?,
            input,
            profile: profile_of(profile),
        })),
        _ => None,
    }
}

fn opt_command(words: &[String]) -> Option<Command<'_>>
    ensures row { option_map row_of_command result ≡ opt_row (texts words.now) }
    ensures allowed { IfSome result IsAllowed }
{
    match words {
        [input, profile, output, certificate] if output != certificate => {
            Some(Command::Opt(OptNames {
                input,
                profile,
                output,
                certificate,
            }))
        }
        _ => None,
    }
}

fn check_command(words: &[String]) -> Option<Command<'_>>
    ensures row { option_map row_of_command result ≡ check_row (texts words.now) }
    ensures allowed { IfSome result IsAllowed }
{
    match words {
        [input, profile, output, certificate] => Some(Command::Check(OptNames {
            input,
            profile,
            output,
            certificate,
        })),
        _ => None,
    }
}

fn report_command(words: &[String]) -> Option<Command<'_>>
    ensures row { option_map row_of_command result ≡ report_row (texts words.now) }
    ensures allowed { IfSome result IsAllowed }
{
    match words {
        [input, profile] => Some(Command::Report(ReportNames { input, profile })),
        _ => None,
    }
}

fn self_command(words: &[String]) -> Option<Command<'_>>
    ensures row { option_map row_of_command result ≡ self_row (texts words.now) }
    ensures allowed { IfSome result IsAllowed }
{
    match words {
        [number] => Some(Command::Itself(size_of(number)?)),
        _ => None,
    }
}

/// The command that the words fit, if any.
pub(crate) fn command_of(words: &[String]) -> Option<Command<'_>>
    ensures row { option_map row_of_command result ≡ row_of (texts words.now) }
    ensures allowed { IfSome result IsAllowed }
{
    let (command, words) = words.split_first()?;
    match command.as_str() {
        "print" => print_command(words),
        "run" => run_command(words),
        "opt" => opt_command(words),
        "check" => check_command(words),
        "report" => report_command(words),
        "self" => self_command(words),
        _ => None,
    }
}
