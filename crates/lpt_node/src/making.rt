//! The packets that a node makes, from a copy of its counts that it stores at the end of a call.

ghost use Rattle.std.specs.Prelude.{◌≡◌, ◌+◌, length, [], true, is_some, IfOk, OnOk, OnErr};
ghost use Rattle.std.specs.Option.{option_map};
ghost use Rattle.lpt_part.specs.Parts.{piece};
ghost use Rattle.lpt_pus.specs.Telemetry.{telemetry, as_written};
ghost use Rattle.lpt_packet.specs.declared.direction.Direction.TheVariants.{Up};
ghost use Rattle.lpt_events.specs.Arrivals.{part_subtype};
ghost use Rattle.lpt_events.specs.TelemetryKinds.{service_of, subtype_of};
ghost use Rattle.lpt_node.specs.Counting.{counter_of, next_count};
ghost use Rattle.lpt_events.specs.MadePackets.{telemetry_made};
ghost use Rattle.lpt_execution.specs.Ranges.{ReportFits};
ghost use Rattle.lpt_node.specs.Executions.{with_counts};
ghost use Rattle.lpt_node.specs.Jobs.{report_packet};
ghost use Rattle.lpt_node.specs.Sending.{counted_kind, part_packet_at, part_telemetry, part_types};
ghost use Rattle.lpt_node.specs.Receivers.{abort_report};
ghost use Rattle.lpt_node.specs.Receiving.{abort_head_at};

use crate::Node;
use crate::counts::Counts;
use lpt_events::{Side, TelemetryKind};
use lpt_execution::Report;
use lpt_packet::{Name, Octets};
use lpt_part::{Kind, Part, Reason, TRANSFER, abort_octets};
use lpt_pus::laws::lengths_add_up;
use lpt_pus::{TcHead, TmHead, tc_pieces, tm_octets, tm_pieces};
use std::alloc::{AllocError, Global};

impl Node {
    // The head of the next telemetry of a kind to this destination, by these counts.
    fn head(&self, counts: &Counts, peer: u16, kind: TelemetryKind) -> TmHead
        ensures { telemetry result []
            ≡ telemetry_made self.now.config peer counts.now.count
            (counter_of counts.now.types kind) self.now.at.clock
            (service_of kind) (subtype_of kind) [] }
    {
        TmHead {
            apid: self.config.apid,
            count: counts.count,
            status: 0,
            service: kind.service(),
            subtype: kind.subtype(),
            counter: counts.counter(kind),
            destination: peer,
            time: self.clock,
        }
    }

    // The head of the next report of an abortion to this destination, by these counts: the spacecraft
    // alone makes it.
    pub(crate) fn abort_head(&self, counts: &Counts, peer: u16) -> Option<TmHead>
        ensures { option_map (λ h. as_written (telemetry h [])) result
            ≡ abort_head_at self.now.side self.now.config peer counts.now.count counts.now.types self.now.at.clock }
    {
        match self.side {
            Side::Ground => None,
            Side::Craft => Some(self.head(counts, peer, TelemetryKind::Abort)),
        }
    }

    // Makes the packet of a report to this destination, and counts it. The only error is out of
    // memory.
    pub(crate) fn report_packet(
        &self,
        counts: &mut Counts,
        peer: u16,
        report: &Report,
    ) -> Result<Octets, AllocError>
        requires { ReportFits report.now }
        ensures packet { IfOk result (λ o. o ≡ report_packet self.now.config peer
            (with_counts self.now.at.sending counts.old) self.now.at.clock report.now) }
        ensures length { IfOk result (λ o. length o ≡ length report.now.body + 19) }
        ensures counts { OnOk result (with_counts self.now.at.sending counts.new
            ≡ counted_kind (with_counts self.now.at.sending counts.old) report.now.kind) }
    {
        lengths_add_up();
        let head = self.head(counts, peer, report.kind);
        let packet = tm_octets(self.alloc, &head, report.body.as_slice())?;
        counts.step_kind(report.kind);
        Ok(packet)
    }

    // Makes the packet that carries a part, of this source or to it, and counts it. The only error is
    // out of memory.
    pub(crate) fn part_packet(
        &self,
        counts: &mut Counts,
        peer: u16,
        part: &Part<'_>,
    ) -> Result<Octets, AllocError>
        ensures packet { IfOk result (λ o. o ≡ part_packet_at self.now.side self.now.config
            peer counts.old.count counts.old.types self.now.at.clock (piece part.now)) }
        ensures count { OnOk result (counts.new.count ≡ next_count counts.old.count) }
        ensures types { OnOk result (counts.new.types
            ≡ part_types self.now.side counts.old.types part.now.kind) }
    {
        let header = part.header();
        match self.side {
            Side::Ground => {
                let head = TcHead {
                    apid: self.config.apid,
                    count: counts.count,
                    flags: 0,
                    service: TRANSFER,
                    subtype: subtype_of_part(part.kind),
                    source: peer,
                };
                let packet = tc_pieces(self.alloc, &head, &header, part.octets)?;
                counts.step();
                Ok(packet)
            }
            Side::Craft => {
                let kind = telemetry_of(part.kind);
                let head = self.head(counts, peer, kind);
                let packet = tm_pieces(self.alloc, &head, &header, part.octets)?;
                counts.step_kind(kind);
                Ok(packet)
            }
        }
    }
}

// The subtype of the telecommand that carries a part of this kind.
fn subtype_of_part(kind: Kind) -> u8
    ensures { result ≡ part_subtype Up kind }
{
    match kind {
        Kind::First => 9,
        Kind::Middle => 10,
        Kind::Last => 11,
    }
}

// The telemetry that carries a part of this kind.
fn telemetry_of(kind: Kind) -> TelemetryKind
    ensures { result ≡ part_telemetry kind }
{
    match kind {
        Kind::First => TelemetryKind::FirstPart,
        Kind::Middle => TelemetryKind::MiddlePart,
        Kind::Last => TelemetryKind::LastPart,
    }
}

// The report that a reception was broken off, if reports have a head.
pub(crate) fn abort_report(
    alloc: Global,
    head: Option<TmHead>,
    name: Name,
    reason: Reason,
) -> Result<Option<Octets>, AllocError>
    ensures report { IfOk result (λ o. o ≡ abort_report (option_map (λ h. as_written (telemetry h [])) head) name reason) }

    // Memory is taken for a report alone.
    ensures memory { OnErr result (is_some (abort_report (option_map (λ h. as_written (telemetry h [])) head) name reason) ≡ true) }
{
    match head {
        None => Ok(None),
        Some(head) => {
            let body = abort_octets(name.id, reason);
            Ok(Some(tm_octets(alloc, &head, &body)?))
        }
    }
}
