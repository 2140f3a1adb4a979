//! What the words of the command line ask for.

use crate::building::program;
use crate::compare_words::{
    ChecksumWords, CompareWords, VerifyWords, checksum_command, compare_command, verify_command,
};
use crate::file_words::{
    ExtractWords, JoinWords, ListWords, extract_command, join_command, list_command,
};
use crate::ground_words::{GroundWords, PassWords, ground_words, pass_command};
use crate::link_words::{LinkWords, link_command};
use crate::patch_words::{PatchWords, patch_command};
use crate::request_words::{RequestWords, request_command};
use crate::setting_words::{SettingWords, setting_words};
use crate::spacecraft_words::{SpacecraftWords, spacecraft_command};
use crate::split_words::{SplitEachWords, SplitOneWords, split_command};
use crate::word_fault::{MISSING, WordFault, no_path};
use crate::words::{STANDARD, Words};
use clap::{ArgMatches, Error};
use std::alloc::{AllocError, Global};

/// The options that name a file or a folder, and what help calls them.
const PATHS: [(&str, &str); 8] = [
    ("config", "--config <FILE>"),
    ("layout", "--layout <FILE>"),
    ("to", "--to <FILE>"),
    ("each", "--each <DIR>"),
    ("up", "--up <FIFO>"),
    ("job", "--job <FILE>"),
    ("passes", "--passes <FILE>"),
    ("state", "--state <FILE>"),
];

/// What the words ask for.
#[derive(Drop)]
pub struct CommandLine<'a> {
    /// What is to be done.
    pub command: Command<'a>,
    /// What is given of the configuration.
    pub settings: SettingWords<'a>,
    /// Whether standard error is told nothing but what is wrong.
    pub quiet: bool,
}

/// A command of the program.
#[derive(Drop)]
pub enum Command<'a> {
    /// `run SCRIPT`.
    Run(RunWords<'a>),
    /// `threads SCRIPT`: the script's path, or `-` for standard input.
    Threads(&'a str),
    /// `decode HEX`.
    Decode(DecodeWords<'a>),
    /// `list [FILE]..`.
    List(ListWords<'a>),
    /// `split up|down ID [FILE]`.
    Split(SplitOneWords<'a>),
    /// `split up|down ID [FILE] --each`.
    SplitEach(SplitEachWords<'a>),
    /// `join up|down [FILE]..`.
    Join(JoinWords<'a>),
    /// `link [FILE]..`.
    Link(LinkWords<'a>),
    /// `extract [FILE]..`.
    Extract(ExtractWords<'a>),
    /// `request load|dump|check MEMORY ..`.
    Request(RequestWords<'a>),
    /// `ground load|dump|check MEMORY ADDRESS ..`, `ground patch LIST`.
    Ground(GroundWords<'a>),
    /// `pass load|dump|check MEMORY ADDRESS ..`, `pass patch LIST`.
    Pass(PassWords<'a>),
    /// `spacecraft`.
    Spacecraft(SpacecraftWords<'a>),
    /// `verify REQUESTS [REPORTS]..`.
    Verify(VerifyWords<'a>),
    /// `compare MEMORY ADDRESS FILE [REPORTS]..`.
    Compare(CompareWords<'a>),
    /// `checksum [FILE]`.
    Checksum(ChecksumWords<'a>),
    /// `patch OLD NEW MEMORY ADDRESS DIR`.
    Patch(PatchWords<'a>),
}

/// What `run` asks for.
#[derive(Clone, Copy)]
pub struct RunWords<'a> {
    /// The path of the script, or `-` for standard input.
    pub script: &'a str,
    /// Whether its lines may ask for what both nodes have now.
    pub views: bool,
}

/// What `decode` asks for.
#[derive(Clone, Copy)]
pub struct DecodeWords<'a> {
    /// Octets as hexadecimal digits, or `-` for none; without a word standard input has the digits.
    pub hex: Option<&'a str>,
    /// Whether areas and segments are said.
    pub more: bool,
    /// The path of the layouts, if one is given.
    pub layout: Option<&'a str>,
}

/// Why the words ask for nothing that is to be done.
#[derive(Drop)]
pub enum NoCommand<'a> {
    /// They are a mistake, or ask for the help or the version: what is to be printed.
    Said(Error),
    /// What is wrong with them.
    Fault(WordFault<'a>),
}

impl From<AllocError> for NoCommand<'_> {
    fn from(_: AllocError) -> Self {
        NoCommand::Fault(WordFault::Memory)
    }
}

/// Reads the words of the command line, the program's name first.
///
/// Errors: why they ask for nothing that is to be done, and out of memory.
pub fn read_words<'a>(
    alloc: Global,
    words: &'a [String],
) -> Result<CommandLine<'a>, NoCommand<'a>> {
    let asked = words.get(1).map(|word| word.as_str());
    match program(alloc, asked)?.try_get_matches_from(words) {
        Ok(matches) => asked_by(alloc, matches),
        Err(error) => Err(NoCommand::Said(error)),
    }
}

// What the words that were read ask for.
fn asked_by<'a>(alloc: Global, matches: ArgMatches<'a>) -> Result<CommandLine<'a>, NoCommand<'a>> {
    let asked = words_meant(alloc, &matches);
    drop(matches);
    match asked {
        Ok(asked) => Ok(asked),
        Err(fault) => Err(NoCommand::Fault(fault)),
    }
}

fn words_meant<'a>(
    alloc: Global,
    matches: &ArgMatches<'a>,
) -> Result<CommandLine<'a>, WordFault<'a>> {
    let Some((name, inner)) = matches.subcommand() else {
        return Err(WordFault::Said(MISSING));
    };
    let (below, inner) = inner.subcommand().unwrap_or(("", inner));
    let mut words = Words::new(inner);
    check_paths(&mut words);
    let asked = CommandLine {
        command: command_of(alloc, name, below, &mut words),
        settings: setting_words(&words),
        quiet: words.flag("quiet"),
    };
    match words.fault() {
        None => Ok(asked),
        Some(fault) => {
            drop(asked);
            Err(fault)
        }
    }
}

// Refuses `-` behind the options that name a file or a folder.
fn check_paths(words: &mut Words<'_, '_>) {
    for (option, place) in PATHS {
        if words.find(option) == Some(STANDARD) {
            words.refuse(no_path(place));
        }
    }
}

// What the words of a command of this name ask for, and of one below it.
fn command_of<'a>(
    alloc: Global,
    name: &str,
    below: &str,
    words: &mut Words<'_, 'a>,
) -> Command<'a> {
    match name {
        "run" => Command::Run(RunWords {
            script: words.text("SCRIPT"),
            views: words.flag("views"),
        }),
        "threads" => Command::Threads(words.text("SCRIPT")),
        "list" => list_command(alloc, words),
        "split" => split_command(alloc, words),
        "join" => join_command(alloc, words),
        "link" => link_command(alloc, words),
        "extract" => extract_command(alloc, words),
        "verify" => verify_command(alloc, words),
        "compare" => compare_command(alloc, words),
        "checksum" => checksum_command(words),
        "patch" => patch_command(words),
        "spacecraft" => spacecraft_command(alloc, words),
        "ground" => Command::Ground(ground_words(alloc, below, words)),
        "pass" => pass_command(alloc, below, words),
        "request" => request_command(alloc, below, words),
        _ => Command::Decode(DecodeWords {
            hex: words.find("HEX"),
            more: words.flag("more"),
            layout: words.find("layout"),
        }),
    }
}
