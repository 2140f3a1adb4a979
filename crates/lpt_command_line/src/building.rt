//! The program as clap reads it, from the rows of its commands.

use crate::asking::{CHECKSUM, COMPARE, REQUEST_CHECK, REQUEST_DUMP, REQUEST_LOAD, VERIFY};
use crate::commands::{DECODE, EXTRACT, JOIN, LIST, RUN, SPLIT, TEXT, THREADS};
use crate::grounds::{
    GROUND_CHECK, GROUND_DUMP, GROUND_LOAD, GROUND_PATCH, GROUND_WORDS, PASS_CHECK, PASS_DUMP,
    PASS_LOAD, PASS_PATCH, PASS_WORDS,
};
use crate::passes::{LINK, SPACECRAFT};
use crate::patch_words::PATCH;
use crate::row::{CommandRow, Configured, Family, Named, Word};
use crate::setting_words::{PASS_SETTINGS, REQUEST_SETTINGS, SETTINGS};
use crate::words::STANDARD;
use clap::builder::ValueParser;
use clap::{Arg, ArgAction, Command};
use std::alloc::{AllocError, Global};

/// What stands below the help of the program.
const MORE: &str = "\
Examples:
  lpt run examples/first_path.script    run the script of that file
  lpt run - --config settings.toml      run the script on standard input, line by line
  lpt threads examples/threads.script   run this script, and then ten threads
  lpt decode 07ffc000000000             decode this packet
  lpt list packets                      list the packets of this file
  lpt request load 1 0 image            write the telecommand that loads this file
  lpt ground load 1 0 image --source 7  load this file, and end once it has arrived
  lpt split up 7 load                   write the packets of this message
  lpt join up --id 7 packets            write the message that they carry
  lpt link --lose 5% packets            lose one in twenty of these packets
  lpt extract dumps                     write the octets of these dump reports
  lpt compare 1 0 image checks          compare this file with these check reports

Statuses:
  0  everything was done
  1  something was refused, failed, differs, is open or isn't whole, nothing was found,
     or octets are no packet (in some of these cases a command that only shows, joins or
     carries packets ends with 0: its section of docs/FILES.md says when)
  2  the command line, a line of the script, HEX, the configuration, a layout or
     a list of patches can't be read
  3  a file can't be read or written, or is in use or of another job, memory ran out,
     or threads failed

docs/FILES.md has commands by task, docs/SCRIPT.md scripts and configuration.
man/lpt.1 is the manual page.";

/// The program and its commands, or that one alone whose name is asked for, if there is one. The
/// only error is out of memory.
pub(crate) fn program<'a>(alloc: Global, asked: Option<&str>) -> Result<Command<'a>, AllocError> {
    let mut commands = Vec::new(alloc);
    add_meant(alloc, asked, &mut commands)?;
    if commands.is_empty() {
        add_meant(alloc, None, &mut commands)?;
    }
    Command::new(alloc, "lpt")
        .version("0.1.0")
        .about("Large packet transfer: two nodes and the link between them")
        .after_help(MORE)
        .propagate_version(true)
        .arg_required_else_help(true)
        .subcommand_required(true)
        .subcommands(commands)
}

// Adds the commands of the program of this name, or all.
fn add_meant<'a>(
    alloc: Global,
    asked: Option<&str>,
    commands: &mut Vec<Command<'a>>,
) -> Result<(), AllocError> {
    let scripts = [&RUN, &THREADS];
    add_commands(alloc, asked, commands, &scripts, &[])?;
    let packets = [&DECODE, &LIST, &SPLIT, &JOIN, &EXTRACT];
    add_commands(alloc, asked, commands, &packets, &[])?;
    let passes = [&SPACECRAFT, &LINK, &VERIFY, &COMPARE, &CHECKSUM, &PATCH];
    add_commands(alloc, asked, commands, &passes, &[])?;
    add_families(alloc, asked, commands)
}

// Adds the commands with others below them, of this name, or all.
fn add_families<'a>(
    alloc: Global,
    asked: Option<&str>,
    commands: &mut Vec<Command<'a>>,
) -> Result<(), AllocError> {
    let ground = Family {
        name: "ground",
        about: "Send requests to a memory until reports settle them",
        below: &[&GROUND_LOAD, &GROUND_DUMP, &GROUND_CHECK, &GROUND_PATCH],
        shared: &GROUND_WORDS,
    };
    let pass = Family {
        name: "pass",
        about: "Carry requests to a spacecraft over links that lose, all in one process",
        below: &[&PASS_LOAD, &PASS_DUMP, &PASS_CHECK, &PASS_PATCH],
        shared: &PASS_WORDS,
    };
    let request = Family {
        name: "request",
        about: "Write telecommands that load, dump or check a memory",
        below: &[&REQUEST_LOAD, &REQUEST_DUMP, &REQUEST_CHECK],
        shared: &[],
    };
    for family in [ground, pass, request] {
        if is_meant(asked, family.name) {
            commands.push(family_of(alloc, family)?)?;
        }
    }
    Ok(())
}

// Whether a command of this name is that which is asked for, or one of all.
fn is_meant(asked: Option<&str>, name: &str) -> bool {
    match asked {
        Some(asked) => asked == name,
        None => true,
    }
}

// A command with those below it.
fn family_of<'a>(alloc: Global, family: Family<'_>) -> Result<Command<'a>, AllocError> {
    let mut below = Vec::new(alloc);
    add_commands(alloc, None, &mut below, family.below, family.shared)?;
    Command::new(alloc, family.name)
        .about(family.about)
        .arg_required_else_help(true)
        .subcommand_required(true)
        .subcommands(below)
}

// Adds the commands of these rows of this name, or all, each with these words after its own.
fn add_commands<'a>(
    alloc: Global,
    name: Option<&str>,
    commands: &mut Vec<Command<'a>>,
    rows: &[&'a CommandRow],
    shared: &'a [Named],
) -> Result<(), AllocError> {
    for row in rows {
        if is_meant(name, row.name) {
            commands.push(command_of(alloc, row, shared)?)?;
        }
    }
    Ok(())
}

// A command with its words, and with these after its own.
fn command_of<'a>(
    alloc: Global,
    row: &'a CommandRow,
    shared: &'a [Named],
) -> Result<Command<'a>, AllocError> {
    let mut words = Vec::new(alloc);
    for word in row.words {
        words.push(word_of(alloc, word))?;
    }
    add_named(alloc, &mut words, row.named)?;
    add_named(alloc, &mut words, shared)?;
    add_named(alloc, &mut words, settings_of(row.configured))?;
    Command::new(alloc, row.name).about(row.about).args(words)
}

// Adds the words that are given behind these names.
fn add_named<'a>(
    alloc: Global,
    words: &mut Vec<Arg<'a>>,
    list: &'a [Named],
) -> Result<(), AllocError> {
    for named in list {
        words.push(named_of(alloc, named))?;
    }
    Ok(())
}

// The words of a configuration that a command takes.
fn settings_of(configured: Configured) -> &'static [Named] {
    match configured {
        Configured::No => &[],
        // All but the last, `mode`.
        Configured::Packets => &SETTINGS[..4],
        Configured::Requests => &REQUEST_SETTINGS,
        Configured::Pass => &PASS_SETTINGS,
        Configured::Nodes => &SETTINGS,
    }
}

// A word that is given by its place.
fn word_of<'a>(alloc: Global, word: &'a Word) -> Arg<'a> {
    match *word {
        Word::One(name, value, help) => any_word(alloc, name, value, help).required(true),
        Word::May(name, help) => any_word(alloc, name, TEXT, help),
        Word::File(name, help) => any_word(alloc, name, TEXT, help).default_value(STANDARD),
        Word::Files(name, help) => {
            any_word(alloc, name, TEXT, help)
                .num_args(1..=usize::MAX)
                .default_value(STANDARD)
        }
        Word::Several(name, names, help) => any_word(alloc, name, TEXT, help)
            .required(true)
            .num_args(names.len()..=usize::MAX)
            .value_names(names),
    }
}

// A word that is given behind its name.
fn named_of<'a>(alloc: Global, named: &'a Named) -> Arg<'a> {
    match *named {
        Named::Flag(name, help) => {
            option(alloc, name, ValueParser::Bool, help).action(ArgAction::SetTrue)
        }
        Named::File(name, help) => option(alloc, name, TEXT, help).value_name("FILE"),
        Named::Odds(name, help) => {
            option(alloc, name, TEXT, help)
                .value_name("P")
                .default_value("0%")
        }
        Named::Text(name, behind, help) => option(alloc, name, TEXT, help).value_name(behind),
        Named::One(name, behind, value, help) => option(alloc, name, value, help).value_name(
            behind,
        ),
        Named::Else(name, behind, (value, other), help) => {
            option(alloc, name, value, help)
                .value_name(behind)
                .default_value(other)
        }
        Named::Many(name, behind, other, help) => option(alloc, name, TEXT, help)
            .action(ArgAction::Append)
            .value_names(behind)
            .default_values(other),
    }
}

// A word behind a name, which comes once.
fn option<'a>(alloc: Global, name: &'a str, value: ValueParser<'a>, help: &'a str) -> Arg<'a> {
    any_word(alloc, name, value, help)
        .long(name)
        .action(ArgAction::Set)
}

// A word of this name.
fn any_word<'a>(alloc: Global, name: &'a str, value: ValueParser<'a>, help: &'a str) -> Arg<'a> {
    Arg::new(alloc, name).value_parser(value).help(help)
}
