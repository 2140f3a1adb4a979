//! What is made for an execution before anything is changed.

ghost use Rattle.std.specs.Prelude.{◌≡◌, ◌≢◌, [], ◌∷◌, ◌++◌, nat_lt, length, IfOk, IfSome, OnOk, OnErr, All, None};
ghost use Rattle.std.specs.FinMap as map;
ghost use Rattle.lpt_ledger.specs.LeastFree.{least_free_in};
ghost use Rattle.lpt_ledger.specs.States.{state_at};
ghost use Rattle.lpt_memory.specs.Given.{read_length};
ghost use Rattle.lpt_memory.specs.Memories.{sizes_of};
ghost use Rattle.lpt_memory.specs.Readings.{source_meaning};
ghost use Rattle.lpt_execution.specs.Ranges.{EndingFits, ReportFits};
ghost use Rattle.lpt_execution.specs.Reporting.{applied_of, large_packets, link_packets, opened_of, request_source};
ghost use Rattle.lpt_node.specs.Executions.{made_of, reports_of, with_counts};
ghost use Rattle.lpt_node.specs.Jobs.{ending_at, ending_given, report_packets, reports_made, with_opened};
ghost use Rattle.lpt_node.specs.Nodes.{MessageFits};
ghost use Rattle.lpt_node.specs.Sending.{counted_kind};

use crate::Node;
use crate::counts::Counts;
use crate::sending::begin;
use lpt_events::Applied;
use lpt_execution::{Ending, Report, ending_given, ending_of, is_small, reports, request_source};
use lpt_ledger::State;
use lpt_memory::{Memories, Reading};
use lpt_packet::{Name, Octets};
use std::alloc::AllocError;

/// The packets of an execution's reports, and the counts after them.
#[derive(Drop)]
pub(crate) struct Made {
    pub(crate) counts: Counts,
    // Those that go on the link.
    pub(crate) packets: Vec<Octets>,
    // Those that are too long for it; there is one at most.
    pub(crate) large: Vec<Octets>,
}

impl Node {
    // The least free name of the source of a reading's request, under which a reply would be opened.
    pub(crate) fn reply_name(&self, reading: &Reading) -> Option<Name>
        ensures value { result ≡ least_free_in self.now.at.sending.ledger
            (request_source reading.now.apid reading.now.message) }
        ensures free { IfSome result (λ n. state_at self.now.at.sending.ledger n ≡ State.Free) }
    {
        self.senders.least_free(request_source(reading))
    }

    // Whether there is room for one open message more.
    fn has_room(&self) -> bool
        ensures { result ≡ nat_lt (map.len self.now.at.sending.messages) self.now.at.outgoing }
    {
        self.outgoing.len() < self.config.outgoing as usize
    }

    // How the execution of a reading ends, over these memories, if a reply has this name. A load
    // isn't done yet.
    pub(crate) fn ending(
        &self,
        name: Option<Name>,
        memories: &Memories,
        reading: &Reading,
    ) -> Result<Ending, AllocError>
        requires sizes { reading.now.sizes ≡ sizes_of memories.now }
        requires name { name ≡ least_free_in self.now.at.sending.ledger
            (request_source reading.now.apid reading.now.message) }
        ensures ending { IfOk result (λ e.
            e ≡ ending_at self.now.config self.now.at memories.now reading.now) }
        ensures fits { IfOk result EndingFits }

        // Memory runs out only if there is a report.
        ensures memory { OnErr result (reports_of reading.now
            (ending_at self.now.config self.now.at memories.now reading.now) ≢ []) }
    {
        let (p, room) = (self.config.part_size, self.has_room());
        let ending = ending_of(p, name.is_some(), room, memories, reading)?;
        Ok(ending)
    }

    // The same by the octets that it reads of memories.
    pub(crate) fn ending_given(
        &self,
        name: Option<Name>,
        octets: &[u8],
        reading: &Reading,
    ) -> Result<Ending, AllocError>
        requires reads { length octets.now ≡ read_length (source_meaning reading.now) }
        requires name { name ≡ least_free_in self.now.at.sending.ledger
            (request_source reading.now.apid reading.now.message) }
        ensures ending { IfOk result (λ e.
            e ≡ ending_given self.now.config self.now.at octets.now reading.now) }
        ensures fits { IfOk result EndingFits }
        ensures memory { OnErr result (reports_of reading.now
            (ending_given self.now.config self.now.at octets.now reading.now) ≢ []) }
    {
        let (p, room) = (self.config.part_size, self.has_room());
        let ending = ending_given(self.alloc, p, name.is_some(), room, octets, reading)?;
        Ok(ending)
    }

    // What the execution of a reading answers that ends so, if it opens no message, and the
    // packets of its reports, which go to the request's own source.
    pub(crate) fn execution(
        &self,
        reading: &Reading,
        ending: Ending,
    ) -> Result<(Applied, Made), AllocError>
        requires { EndingFits ending }
        ensures applied { IfOk result (λ x. x.0 ≡ applied_of ending None) }
        ensures packets { IfOk result (λ x. x.1.packets.items
            ≡ link_packets self.now.config.part_size
            (made_of self.now.config self.now.at reading.now ending)) }
        ensures large { IfOk result (λ x. x.1.large.items
            ≡ large_packets self.now.config.part_size
            (made_of self.now.config self.now.at reading.now ending)) }
        ensures counts { IfOk result (λ x. with_counts self.now.at.sending x.1.counts
            ≡ reports_made self.now.at.sending (reports_of reading.now ending)) }
        ensures fits { IfOk result (λ x.
            All (λ m. MessageFits self.now.config.part_size (length m)) x.1.large.items) }

        // Memory runs out only if there is a report.
        ensures memory { OnErr result (reports_of reading.now ending ≢ []) }
    {
        let peer = request_source(reading);
        let applied = ending.answer_alone();
        let reports = reports(self.alloc, reading, ending)?;
        Ok((applied, self.report_packets(peer, reports)?))
    }

    // Makes the packets of reports to this destination in their order, by a copy of the counts.
    fn report_packets(&self, peer: u16, reports: Vec<Report>) -> Result<Made, AllocError>
        requires { All ReportFits reports.items }
        ensures packets { IfOk result (λ m. m.packets.items
            ≡ link_packets self.now.config.part_size
            (report_packets self.now.config peer self.now.at.sending self.now.at.clock reports.items)) }
        ensures large { IfOk result (λ m. m.large.items
            ≡ large_packets self.now.config.part_size
            (report_packets self.now.config peer self.now.at.sending self.now.at.clock reports.items)) }
        ensures counts { IfOk result (λ m. with_counts self.now.at.sending m.counts
            ≡ reports_made self.now.at.sending reports.items) }
        ensures fits { IfOk result (λ m.
            All (λ b. MessageFits self.now.config.part_size (length b)) m.large.items) }
        ensures memory { OnErr result (reports.items ≢ []) }
    {
        let mut made = Made {
            counts: self.counts,
            packets: Vec::new(self.alloc),
            large: Vec::new(self.alloc),
        };
        for report in reports {
            self.add_report(&mut made, peer, &report)?;
        }
        Ok(made)
    }

    // Makes the packet of a report to this destination, and adds it to those of its length.
    fn add_report(&self, made: &mut Made, peer: u16, report: &Report) -> Result<(), AllocError>
        requires { ReportFits report.now }
        ensures packets { OnOk result (made.new.packets.items
            ≡ made.old.packets.items ++ link_packets self.now.config.part_size
            (report_packets self.now.config peer
            (with_counts self.now.at.sending made.old.counts)
            self.now.at.clock (report.now ∷ []))) }
        ensures large { OnOk result (made.new.large.items
            ≡ made.old.large.items ++ large_packets self.now.config.part_size
            (report_packets self.now.config peer
            (with_counts self.now.at.sending made.old.counts)
            self.now.at.clock (report.now ∷ []))) }
        ensures counts { OnOk result (with_counts self.now.at.sending made.new.counts
            ≡ counted_kind (with_counts self.now.at.sending made.old.counts) report.now.kind) }
        ensures fits { All (λ b. MessageFits self.now.config.part_size (length b)) made.old.large.items
            → OnOk result
            (All (λ b. MessageFits self.now.config.part_size (length b)) made.new.large.items) }
    {
        let packet = self.report_packet(&mut made.counts, peer, report)?;
        if is_small(self.config.part_size, report.body.as_slice().len()) {
            made.packets.push(packet)?;
        } else {
            made.large.push(packet)?;
        }
        Ok(())
    }

    // Opens the first of these messages under this free name, and answers what was opened.
    pub(crate) fn open_first(
        &mut self,
        name: Option<Name>,
        messages: Vec<Octets>,
    ) -> Result<Option<(Name, Octets)>, AllocError>
        requires fits { All (λ m. MessageFits self.old.config.part_size (length m)) messages.items }
        requires free { IfSome name (λ n. state_at self.old.at.sending.ledger n ≡ State.Free) }
        ensures at { IfOk result (λ x. self.new.at ≡ with_opened self.old.at x) }
        ensures opened { IfOk result (λ x.
            x ≡ opened_of name messages.items) }

        ensures side { self.new.side ≡ self.old.side }
        ensures config { self.new.config ≡ self.old.config }
        ensures jobs { self.new.at.jobs ≡ self.old.at.jobs }

        ensures err { OnErr result (self.new.at ≡ self.old.at) }
        ensures memory { OnErr result (messages.items ≢ []) }
    {
        let Some(message) = messages.into_iter().next() else {
            return Ok(None);
        };
        let Some(name) = name else {
            return Ok(None);
        };
        let copy = message.copy()?;
        match begin(&mut self.senders, &mut self.outgoing, name, message) {
            Ok(()) => {}
            Err(_) => return Err(AllocError),
        }
        Ok(Some((name, copy)))
    }
}
