//! The words of a command.
ghost use Rattle.std.specs.Prelude.{◌≡◌, ◌++◌, OnOk, IfOk, map, option_map, string_bytes};
ghost use Rattle.std.specs.List.{flat_map};
ghost use Rattle.joana_top.specs.Words.{kind_in, command_words, with_names, command_in, as_command};
ghost use Rattle.joana_top.specs.Help.{command_line, help_text};

use joana_base::ProgramNames;
use std::alloc::{AllocError as Memory, Global};

/// The commands, without their files.
#[derive(Clone, Copy)]
enum Kind {
    Check,
    Run,
    Asm,
    Dis,
    Help,
}

/// The first words, the names of files that stand behind them, and the commands that they mean.
#[rattlefmt::skip]
const COMMANDS: [(&str, &str, Kind); 5] = [
    ("check", " CLASSES POLICY", Kind::Check),
    ("run", " CLASSES POLICY RUNFILE", Kind::Run),
    ("asm", " FILE", Kind::Asm),
    ("dis", " FILE", Kind::Dis),
    ("help", "", Kind::Help),
];

/// A command with the names of its files.
#[derive(Clone, Copy)]
pub enum Command<'a> {
    /// `check CLASSES POLICY`.
    Check(ProgramNames<'a>),
    /// `run CLASSES POLICY RUNFILE`.
    Run(ProgramNames<'a>),
    /// `asm FILE`.
    Asm(&'a str),
    /// `dis FILE`.
    Dis(&'a str),
    /// `help`.
    Help,
}

/// What a word means in a table.
fn kind_in(table: &[(&str, &str, Kind)], word: &str) -> Option<Kind>
    ensures { result ≡ kind_in (map (λ row. (row.0.now, row.1.now, row.2)) table.now) word.now }
{
    for row in table {
        if row.0 == word {
            return Some(row.2);
        }
    }
    None
}

fn kind_of(word: &str) -> Option<Kind>
    ensures { result ≡ kind_in command_words word.now }
{
    kind_in(&COMMANDS, word)
}

/// The command with these names of files, where it takes so many.
fn with_names(kind: Kind, names: &[String]) -> Option<Command<'_>>
    ensures { option_map as_command result ≡ with_names kind (map string_bytes names.now) }
{
    match kind {
        Kind::Check => match names {
            [classes, policy] => Some(Command::Check(ProgramNames {
                classes: classes.as_str(),
                policy: policy.as_str(),
                third: None,
            })),
            _ => None,
        },
        Kind::Run => match names {
            [classes, policy, file] => Some(Command::Run(ProgramNames {
                classes: classes.as_str(),
                policy: policy.as_str(),
                third: Some(file.as_str()),
            })),
            _ => None,
        },
        Kind::Asm => match names {
            [file] => Some(Command::Asm(file.as_str())),
            _ => None,
        },
        Kind::Dis => match names {
            [file] => Some(Command::Dis(file.as_str())),
            _ => None,
        },
        Kind::Help => match names {
            [] => Some(Command::Help),
            _ => None,
        },
    }
}

/// The command, where the words are exactly of one of these forms.
pub fn command_of(words: &[String]) -> Option<Command<'_>>
    ensures { option_map as_command result ≡ command_in words.now }
{
    let [word, names @ ..] = words else {
        return None;
    };
    match kind_of(word.as_str()) {
        Some(kind) => with_names(kind, names),
        None => None,
    }
}

/// Adds the line of a command with this first word and these names of files.
fn push_line(out: &mut Vec<u8>, word: &str, names: &str) -> Result<(), Memory>
    ensures { OnOk result (out.new.items ≡ out.old.items ++ command_line word.now names.now) }
{
    out.extend_from_slice(b"joana ")?;
    out.extend_from_slice(word.as_bytes())?;
    out.extend_from_slice(names.as_bytes())?;
    out.push(b'\n')?;
    Ok(())
}

/// Adds the line of each command of a table.
fn push_lines(out: &mut Vec<u8>, table: &[(&str, &str, Kind)]) -> Result<(), Memory>
    ensures { OnOk result (out.new.items ≡ out.old.items
        ++ flat_map (λ row. command_line row.0.now row.1.now) table.now) }
{
    for row in table {
        push_line(out, row.0, row.1)?;
    }
    Ok(())
}

/// The lines of all commands.
pub fn command_lines(alloc: Global) -> Result<Vec<u8>, Memory>
    ensures { IfOk result (λ text. text.items ≡ help_text) }
{
    let mut text = Vec::new(alloc);
    push_lines(&mut text, &COMMANDS)?;
    Ok(text)
}
