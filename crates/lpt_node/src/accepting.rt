//! Receiving packets.

ghost use Rattle.std.specs.Prelude.{◌≡◌, ◌+◌, ◌<◌, ◌^◌, length, true, IfOk, IfErr, OnOk, OnErr};
ghost use Rattle.std.specs.Option.{option_map};
ghost use Rattle.lpt_jobs.specs.Jobs.{jobs_numbered};
ghost use Rattle.lpt_part.specs.Parts.{piece};
ghost use Rattle.lpt_events.specs.NamedParts.{part_named};
ghost use Rattle.lpt_node.specs.Accepting.{packet_accepted, grows, IsFor};
ghost use Rattle.lpt_node.specs.Layouts.{arrival_shown, IsShown};
ghost use Rattle.lpt_node.specs.ParsedViews.{arrival_at, arrival_from};
ghost use Rattle.lpt_node.specs.Receiving.{packet_ignored, outcome_noted, part_accepted, plain_released, with_job, with_report};

use crate::arrival::Arrival;
use crate::parsed::arrival_in;
use crate::receipt::Receipt;
use crate::{Accepted, Node, Parsed};
use lpt_events::{Outcome, Side, TelemetryKind, Why};
use lpt_packet::{Name, Octets};
use lpt_part::Part;
use std::alloc::AllocError;

impl Node {
    /// Takes a packet that was delivered to this end, and answers what became of it.
    ///
    /// A part is kept until all parts of its message are there; then the message is released. The
    /// octets of a plain request are released as they are. At the spacecraft a message that is
    /// released becomes a job.
    ///
    /// The only error is out of memory. The packet is handed back then, and nothing has changed.
    pub fn accept(&mut self, parsed: Parsed) -> Result<Accepted, Parsed>
        requires { IsFor self.old parsed }
        ensures ok { IfOk result (λ r. (self.new.at, r)
            ≡ packet_accepted self.old.side self.old.config self.old.at (arrival_from parsed)) }

        ensures side { self.new.side ≡ self.old.side }
        ensures config { self.new.config ≡ self.old.config }

        // Memory runs out only if a part is kept, a message released or a reception broken off.
        ensures memory { OnErr result
            (grows (packet_accepted self.old.side self.old.config self.old.at
            (arrival_from parsed)).1 ≡ true) }
        ensures back { IfErr result (λ p. p ≡ parsed) }
        ensures err { OnErr result (self.new.at ≡ self.old.at) }
    {
        match parsed.arrival() {
            Arrival::Request => match self.add_plain(parsed.octets()) {
                Ok(()) => Ok(plain_released(parsed.into_octets())),
                Err(AllocError) => Err(parsed),
            },
            arrival => match self.accept_shown(&arrival) {
                Ok(accepted) => Ok(accepted),
                Err(AllocError) => Err(parsed),
            },
        }
    }

    /// Takes the octets of a packet that was delivered to this end, and answers what became of it.
    ///
    /// As [`Node::accept`], but the octets are borrowed: they are copied only if they are
    /// released as a plain request. The only error is an allocation that fails; then nothing has
    /// changed.
    #[inline(always)]
    pub fn accept_octets(&mut self, octets: &[u8]) -> Result<Accepted, AllocError>
        requires { jobs_numbered self.old.at.jobs + 1 < 2 ^ 64 }
        ensures ok { IfOk result (λ r. (self.new.at, r)
            ≡ packet_accepted self.old.side self.old.config self.old.at
            (arrival_at self.old octets.now)) }

        ensures side { self.new.side ≡ self.old.side }
        ensures config { self.new.config ≡ self.old.config }

        // Memory runs out only if a part is kept, a message released or a reception broken off.
        ensures memory { OnErr result
            (grows (packet_accepted self.old.side self.old.config self.old.at
            (arrival_at self.old octets.now)).1 ≡ true) }
        ensures err { OnErr result (self.new.at ≡ self.old.at) }
    {
        match arrival_in(octets, self.side, self.config.apid, self.config.part_size) {
            Arrival::Request => {
                let request = Octets::from_vec(Vec::from_slice(self.alloc, octets)?);
                self.add_plain(&request)?;
                Ok(plain_released(request))
            }
            arrival => self.accept_shown(&arrival),
        }
    }

    // Takes what a packet shows that isn't a plain request.
    #[inline(always)]
    fn accept_shown(&mut self, arrival: &Arrival<'_>) -> Result<Accepted, AllocError>
        requires shown { IsShown self.old.config.part_size arrival.now }
        requires numbers { jobs_numbered self.old.at.jobs + 1 < 2 ^ 64 }
        ensures ok { IfOk result (λ r. (self.new.at, r)
            ≡ packet_accepted self.old.side self.old.config self.old.at (arrival_shown arrival.now)) }

        ensures side { self.new.side ≡ self.old.side }
        ensures config { self.new.config ≡ self.old.config }

        ensures memory { OnErr result
            (grows (packet_accepted self.old.side self.old.config self.old.at
            (arrival_shown arrival.now)).1 ≡ true) }
        ensures err { OnErr result (self.new.at ≡ self.old.at) }
    {
        match arrival {
            Arrival::Unreadable => Ok(packet_ignored(Why::Unreadable)),
            Arrival::Idle => Ok(packet_ignored(Why::Idle)),
            Arrival::Foreign => Ok(packet_ignored(Why::ForeignApid)),
            Arrival::Request => unreachable!(),
            Arrival::Report(service, subtype) => Ok(outcome_noted(Outcome::ReportNoted(
                *service, *subtype,
            ))),
            Arrival::BadPart => Ok(packet_ignored(Why::BadPart)),
            Arrival::Part(source, part) => self.accept_part(*source, part),
            Arrival::Abort(name, reason) => {
                self.close(*name);
                Ok(outcome_noted(Outcome::AbortNoted(*name, *reason)))
            }
        }
    }

    // Makes a job of a plain request, at the spacecraft alone.
    fn add_plain(&mut self, octets: &Octets) -> Result<(), AllocError>
        requires { jobs_numbered self.old.at.jobs + 1 < 2 ^ 64 }
        ensures ok { OnOk result (self.new.at ≡ with_job self.old.side self.old.at octets.now) }

        ensures side { self.new.side ≡ self.old.side }
        ensures config { self.new.config ≡ self.old.config }

        ensures err { OnErr result (self.new.at ≡ self.old.at) }
    {
        match self.side {
            Side::Ground => Ok(()),
            Side::Craft => match self.jobs.push(octets.copy()?) {
                Ok(()) => Ok(()),
                Err(_) => Err(AllocError),
            },
        }
    }

    // Takes a part that came from this source, or to it.
    #[inline(always)]
    fn accept_part(&mut self, source: u16, part: &Part<'_>) -> Result<Accepted, AllocError>
        requires p { part.now.p ≡ self.old.config.part_size }
        requires numbers { jobs_numbered self.old.at.jobs + 1 < 2 ^ 64 }
        ensures ok { IfOk result
            (λ r. (self.new.at, r) ≡ part_accepted self.old.side self.old.config self.old.at
            (part_named source (piece part.now))) }

        ensures side { self.new.side ≡ self.old.side }
        ensures config { self.new.config ≡ self.old.config }

        ensures memory { OnErr result
            (grows (part_accepted self.old.side self.old.config self.old.at
            (part_named source (piece part.now))).1 ≡ true) }
        ensures err { OnErr result (self.new.at ≡ self.old.at) }
    {
        let name = Name {
            source,
            id: part.id,
        };
        let head = self.abort_head(&self.counts, source);
        let (side, clock) = (self.side, self.clock);
        match self
            .receiver
            .accept(side, &mut self.jobs, head, source, part, clock)?
        {
            Receipt::Closed => Ok(packet_ignored(Why::Closed)),
            Receipt::Kept => Ok(outcome_noted(Outcome::Kept(name, part.number))),
            Receipt::Again => Ok(outcome_noted(Outcome::Again(name, part.number))),
            Receipt::NoRoom => Ok(packet_ignored(Why::NoRoom)),
            Receipt::Whole(message) => Ok(Accepted {
                outcome: Outcome::Released(name, message.as_slice().len() as u32),
                packet: None,
                released: Some(message),
            }),
            Receipt::Conflict(reason, packet) => {
                self.count_abort(packet.as_ref());
                Ok(Accepted {
                    outcome: Outcome::Broken(name, reason),
                    packet,
                    released: None,
                })
            }
        }
    }

    // Counts the report of an abortion, if one was made.
    fn count_abort(&mut self, report: Option<&Octets>)
        ensures at { self.new.at ≡ with_report self.old.at (option_map (λ o. o.now) report.entry) }

        ensures side { self.new.side ≡ self.old.side }
        ensures config { self.new.config ≡ self.old.config }
    {
        match report {
            Some(_) => self.counts.step_kind(TelemetryKind::Abort),
            None => {}
        }
    }
}

// A plain request is released.
fn plain_released(octets: Octets) -> Accepted
    requires { length octets < 4294967296 }
    ensures { result ≡ plain_released octets }
{
    Accepted {
        outcome: Outcome::PlainReleased(octets.as_slice().len() as u32),
        packet: None,
        released: Some(octets),
    }
}

// The answer of an outcome alone.
fn outcome_noted(outcome: Outcome) -> Accepted
    ensures { result ≡ outcome_noted outcome }
{
    Accepted {
        outcome,
        packet: None,
        released: None,
    }
}

// Nothing was made of a packet.
fn packet_ignored(why: Why) -> Accepted
    ensures { result ≡ packet_ignored why }
{
    outcome_noted(Outcome::Ignored(why))
}
