//! `lpt`: runs scripts of large packet transfer, splits messages into packets and joins them,
//! writes requests to a memory, and says what octets and streams are as packets.
//!
//! The commands stand in the crates below, and take the handles that they use.
#![tactic(auto)]

ghost use Rattle.lpt_events.specs.Configs.{IsConfig};

use lpt_command_line::{Command, CommandLine, read_words};
use lpt_end_commands::{EndMachine, ground, pass, spacecraft};
use lpt_events::Config;
use lpt_io::{
    Failure, Fault, Machine, Status, Terminals, Voice, config_of, explain_words, tell_end,
};
use lpt_message_commands::{extract, join, split, split_all};
use lpt_packet_commands::{checksum, compare, decode, link, list, patch, request, verify};
use lpt_simulator_commands::{RunKind, run};
use std::io::IsTerminal;
use std::process::{self, ExitCode};
use std::rt::Env;
use std::sync::Wait;
use std::thread::Threads;
use std::time::Clock;
use std::{env, io};

fn main(rt: HostRuntime) -> ExitCode {
    let terminals = Terminals {
        input: rt.stdin().is_terminal(),
        output: rt.stdout().is_terminal(),
        errors: rt.stderr().is_terminal(),
    };
    let process = process::id(rt.process());
    let status = match given_words(&rt) {
        Ok(words) => serve(&rt, &rt, terminals, process, words.as_slice()),
        Err(status) => status,
    };
    ExitCode::from(status as u8)
}

// Gives the words of the command line, the program's name first.
//
// Errors: the status by which the program ends, if a word isn't text or memory runs out.
fn given_words(rt: &(impl Env + Eprint + AllocGlobal)) -> Result<Vec<String>, Status> {
    let words = match env::args(rt) {
        Ok(words) => words,
        Err(error) if error.kind() == io::ErrorKind::OutOfMemory => {
            return Err(tell_end(rt, Err(Failure::from(Fault::Memory))));
        }
        Err(_) => {
            let _ = rt.eprintln("error: a word of the command line isn't UTF-8");
            return Err(Status::Unreadable);
        }
    };
    match words.collect(rt.alloc()) {
        Ok(words) => Ok(words),
        Err(_) => Err(tell_end(rt, Err(Failure::from(Fault::Memory)))),
    }
}

// Does what the words ask for, as the process of this number.
fn serve<R, T>(rt: &R, threads: &T, terminals: Terminals, process: u32, words: &[String]) -> Status
where
    R: EndMachine + Sync,
    T: Threads + Wait + Clock + Copy + Drop + Send + Sync + 'static,
{
    match read_words(rt.alloc(), words) {
        Ok(asked) => {
            let voice = Voice::new(terminals, asked.quiet);
            let ended = do_command(rt, threads, process, voice, &asked);
            if ended.is_err() {
                voice.clear(rt);
            }
            tell_end(rt, ended)
        }
        Err(unasked) => explain_words(rt, rt.alloc(), &unasked),
    }
}

// Does the command, under its configuration if it has one.
fn do_command<R, T>(
    rt: &R,
    threads: &T,
    process: u32,
    voice: Voice,
    asked: &CommandLine<'_>,
) -> Result<Status, Failure>
where
    R: EndMachine + Sync,
    T: Threads + Wait + Clock + Copy + Drop + Send + Sync + 'static,
{
    let settings = &asked.settings;
    match &asked.command {
        Command::Run(words) => {
            let way = if words.views {
                RunKind::Views
            } else {
                RunKind::Run
            };
            run(rt, threads, settings, way, words.script)
        }
        Command::Threads(script) => run(rt, threads, settings, RunKind::Threads, script),
        Command::Link(words) => link(rt, voice, words),
        Command::Ground(words) => ground(rt, threads, process, voice, settings, words),
        Command::Pass(words) => pass(rt, threads, process, voice, settings, words),
        Command::Spacecraft(words) => spacecraft(rt, threads, process, settings, words),
        Command::Verify(words) => verify(rt, voice, words),
        Command::Checksum(words) => checksum(rt, words),
        command => do_on_packets(rt, voice, &config_of(rt, settings)?, command),
    }
}

// Does a command on packets under their configuration.
fn do_on_packets<R: Machine>(
    rt: &R,
    voice: Voice,
    config: &Config,
    command: &Command<'_>,
) -> Result<Status, Failure>
    requires { IsConfig config.now }
{
    match command {
        Command::Decode(words) => decode(rt, *config, words),
        Command::List(words) => list(rt, voice, config, words),
        Command::Split(words) => split(rt, config, words),
        Command::SplitEach(words) => split_all(rt, config, words),
        Command::Join(words) => join(rt, voice, config, words),
        Command::Extract(words) => extract(rt, voice, config, words),
        Command::Request(words) => request(rt, config, words),
        Command::Compare(words) => compare(rt, voice, config, words),
        Command::Patch(words) => patch(rt, config, words),
        // The others have none.
        _ => Ok(Status::Refused),
    }
}
