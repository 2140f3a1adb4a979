//! What is said of a command and of its words, by which clap reads them.

use clap::builder::ValueParser;

/// A command.
pub(crate) struct CommandRow {
    /// Its name.
    pub(crate) name: &'static str,
    /// What it does.
    pub(crate) about: &'static str,
    /// The words that are given by their place.
    pub(crate) words: &'static [Word],
    /// The words that are given behind a name.
    pub(crate) named: &'static [Named],
    /// Which words of a configuration it takes.
    pub(crate) configured: Configured,
}

/// Which words of a configuration a command takes.
#[derive(Clone, Copy)]
pub(crate) enum Configured {
    /// None.
    No,
    /// Those of packets: all but in which order a node takes parts.
    Packets,
    /// The same, and the source of telecommands.
    Requests,
    /// The same, and a source that is the pass's own.
    Pass,
    /// Those of packets and of nodes: all.
    Nodes,
}

/// A command with commands below it, and without words of its own.
#[derive(Clone, Copy)]
pub(crate) struct Family<'f> {
    /// Its name.
    pub(crate) name: &'static str,
    /// What the commands below it do.
    pub(crate) about: &'static str,
    /// The commands below it.
    pub(crate) below: &'f [&'static CommandRow],
    /// The words that each of these takes behind a name, after its own.
    pub(crate) shared: &'static [Named],
}

/// A word that is given by its place: first the name by which it is read, and by which help calls
/// it, and last what it is.
#[derive(Clone, Copy)]
pub(crate) enum Word {
    /// One that must be there, and what it has to be.
    One(&'static str, ValueParser<'static>, &'static str),
    /// A text that needn't be there.
    May(&'static str, &'static str),
    /// A file, and standard input if it isn't there.
    File(&'static str, &'static str),
    /// As many files as one likes, and standard input if there is none.
    Files(&'static str, &'static str),
    /// Texts, at least as many as these names by which help calls them in turn.
    Several(&'static str, &'static [&'static str], &'static str),
}

/// A word that is given behind a name: first that, without its hyphens, then what help calls what
/// stands behind it, and last what it is.
#[derive(Clone, Copy)]
pub(crate) enum Named {
    /// A flag, behind which nothing stands.
    Flag(&'static str, &'static str),
    /// The path of a file, which help calls so.
    File(&'static str, &'static str),
    /// A share of packets, which is none if it isn't given.
    Odds(&'static str, &'static str),
    /// A text.
    Text(&'static str, &'static str, &'static str),
    /// A number, or a word, of these.
    One(&'static str, &'static str, ValueParser<'static>, &'static str),
    /// The same, and what it is if it isn't given.
    Else(&'static str, &'static str, (ValueParser<'static>, &'static str), &'static str),
    /// Texts, which may come again; and what they are if they aren't given, if there is such.
    Many(&'static str, &'static [&'static str], &'static [&'static str], &'static str),
}
