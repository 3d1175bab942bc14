//! The words of the command line.
ghost use Rattle.std.specs.Prelude.{◌≡◌, ◌∷◌, [], option_map, map, string_bytes, IfSome};
ghost use Rattle.basin_cli.specs.Command.{IsInForm, command_named, command_of, named, series_named, trial_of, why_of};
ghost use Rattle.water_text.specs.Amounts.{read_amount};
ghost use Rattle.water_text.specs.Months.{read_month};

use crate::actions::RunText;
use crate::checking::Question;
use crate::explaining::Account;
use water_text::amount::read_amount;
use water_text::month::Month;
use water_text::name::is_name;

/// The names of BASIN and SERIES. Without SERIES the table of gauged inflows is its header alone.
#[derive(Clone, Copy)]
pub struct Inputs<'a> {
    pub basin: &'a str,
    pub series: Option<&'a str>,
}

/// A command with what its words name.
#[derive(Clone, Copy)]
pub enum Words<'a> {
    /// Solve the months and write a text of them.
    Text(RunText, Inputs<'a>),
    /// Check or audit the result in a file.
    Check {
        question: Question,
        inputs: Inputs<'a>,
        result: &'a str,
    },
    /// Solve the record begun in each of its years, and sum the years up.
    Ensemble(Inputs<'a>),
    /// Make a basin from a number and a size, solve its months and sum them up.
    Trial {
        number: u32,
        size: u32,
    },
    /// Solve the months of two basins and list who is delivered less in the second.
    Compare {
        inputs: Inputs<'a>,
        second: &'a str,
    },
    /// Change numbers of the series, and show months as they are then.
    Edit {
        inputs: Inputs<'a>,
        script: &'a str,
    },
    /// Say why the right of this name got no more in a month, or where one more unit of water would help it.
    Why {
        account: Account,
        inputs: Inputs<'a>,
        month: Month,
        right: &'a str,
    },
    /// Write the basin of a file in format 2.
    Upgrade(&'a str),
}

/// The name of SERIES, unless the word is `-`.
fn series_name(word: &str) -> Option<&str>
    ensures { option_map (λ name. name.now) result ≡ series_named word.now }
{
    if word == "-" { None } else { Some(word) }
}

/// The names of a basin file and a series file.
fn files_named<'a>(basin: &'a str, series: &'a str) -> Inputs<'a>
    ensures basin { result.basin.now ≡ basin.entry.now }
    ensures series { option_map (λ name. name.now) result.series ≡ series_named series.entry.now }
{
    Inputs {
        basin,
        series: series_name(series),
    }
}

/// A trial, where the words are a number of 32 bits and a size from 2 to 2,000.
fn trial_words<'a>(number: &str, size: &str) -> Option<Words<'a>>
    ensures words { option_map command_named result ≡ trial_of (read_amount number.now 4294967295)
        (read_amount size.now 2000) }
    ensures form { IfSome result IsInForm }
{
    let number = read_amount(number.as_bytes(), 4_294_967_295)?;
    let size = read_amount(size.as_bytes(), 2_000)?;
    if size >= 2 {
        Some(Words::Trial {
            number: number as u32,
            size: size as u32,
        })
    } else {
        None
    }
}

/// A question for an account of a right, where the words are a month and a name.
fn why_words<'a>(
    account: Account,
    inputs: Inputs<'a>,
    month: &str,
    right: &'a str,
) -> Option<Words<'a>>
    ensures words { option_map command_named result ≡ why_of account (named inputs.entry) (read_month month.now)
        right.entry.now }
    ensures form { IfSome result IsInForm }
{
    let month = Month::read(month.as_bytes())?;
    if is_name(right.as_bytes()) {
        Some(Words::Why {
            account,
            inputs,
            month,
            right,
        })
    } else {
        None
    }
}

/// The command of two words.
fn of_two<'a>(word: &'a str, basin: &'a str) -> Option<Words<'a>>
    ensures words { option_map command_named result
        ≡ command_of (word.entry.now ∷ basin.entry.now ∷ []) }
    ensures form { IfSome result IsInForm }
{
    if word == "run" {
        let inputs = Inputs {
            basin,
            series: None,
        };
        Some(Words::Text(RunText::Result, inputs))
    } else if word == "upgrade" {
        Some(Words::Upgrade(basin))
    } else {
        None
    }
}

/// The command of three words.
fn of_three<'a>(word: &'a str, one: &'a str, other: &'a str) -> Option<Words<'a>>
    ensures words { option_map command_named result
        ≡ command_of (word.entry.now ∷ one.entry.now ∷ other.entry.now ∷ []) }
    ensures form { IfSome result IsInForm }
{
    if word == "run" {
        Some(Words::Text(RunText::Result, files_named(one, other)))
    } else if word == "report" {
        Some(Words::Text(RunText::Report, files_named(one, other)))
    } else if word == "calls" {
        Some(Words::Text(RunText::Calls, files_named(one, other)))
    } else if word == "ensemble" {
        Some(Words::Ensemble(files_named(one, other)))
    } else if word == "trial" {
        trial_words(one, other)
    } else {
        None
    }
}

/// The command of four words.
fn of_four<'a>(word: &'a str, basin: &'a str, one: &'a str, other: &'a str) -> Option<Words<'a>>
    ensures words { option_map command_named result
        ≡ command_of (word.entry.now ∷ basin.entry.now ∷ one.entry.now ∷ other.entry.now ∷ []) }
    ensures form { IfSome result IsInForm }
{
    if word == "check" {
        Some(Words::Check {
            question: Question::Check,
            inputs: files_named(basin, one),
            result: other,
        })
    } else if word == "audit" {
        Some(Words::Check {
            question: Question::Audit,
            inputs: files_named(basin, one),
            result: other,
        })
    } else if word == "edit" {
        Some(Words::Edit {
            inputs: files_named(basin, one),
            script: other,
        })
    } else if word == "compare" {
        Some(Words::Compare {
            inputs: files_named(basin, other),
            second: one,
        })
    } else {
        None
    }
}

/// The command of five words.
fn of_five<'a>(
    word: &'a str,
    basin: &'a str,
    series: &'a str,
    month: &'a str,
    right: &'a str,
) -> Option<Words<'a>>
    ensures words { option_map command_named result
        ≡ command_of (word.entry.now ∷ basin.entry.now ∷ series.entry.now ∷ month.entry.now
        ∷ right.entry.now ∷ []) }
    ensures form { IfSome result IsInForm }
{
    if word == "why" {
        why_words(Account::Reach, files_named(basin, series), month, right)
    } else if word == "where" {
        why_words(Account::Core, files_named(basin, series), month, right)
    } else {
        None
    }
}

/// The command that the words are.
pub fn command(words: &[String]) -> Option<Words<'_>>
    ensures words { option_map command_named result ≡ command_of (map string_bytes words.now) }
    ensures form { IfSome result IsInForm }
{
    match words {
        [word, basin] => of_two(word.as_str(), basin.as_str()),
        [word, one, other] => of_three(word.as_str(), one.as_str(), other.as_str()),
        [word, basin, one, other] => {
            of_four(word.as_str(), basin.as_str(), one.as_str(), other.as_str())
        }
        [word, basin, series, month, right] => of_five(
            word.as_str(),
            basin.as_str(),
            series.as_str(),
            month.as_str(),
            right.as_str(),
        ),
        _ => None,
    }
}
