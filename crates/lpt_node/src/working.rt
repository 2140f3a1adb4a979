//! Jobs: the requests that were released, claimed by workers, and executed in order of release.

ghost use Rattle.std.specs.Prelude.{◌≡◌, ◌≢◌, ◌-◌, [], length, IsTrue, None, Some, IfOk, IfErr, IfSome, OnOk, OnErr};
ghost use Rattle.std.specs.Option.{option_map};
ghost use Rattle.lpt_jobs.specs.Jobs.{Ready, claimed_in, head_of, is_claimed, is_ready, jobs_numbered, oldest_unclaimed, without_front};
ghost use Rattle.lpt_ledger.specs.LeastFree.{least_free_in};
ghost use Rattle.lpt_ledger.specs.States.{state_at};
ghost use Rattle.lpt_memory.specs.Memories.{Contents};
ghost use Rattle.lpt_memory.specs.Readings.{Source};
ghost use Rattle.lpt_execution.specs.Ranges.{EndingFits};
ghost use Rattle.lpt_execution.specs.Reporting.{request_source};
ghost use Rattle.lpt_node.specs.Executions.{front_reports, reports_given, reports_of, reports_refused};
ghost use Rattle.lpt_node.specs.Jobs.{refusal_claim, job_claimed, job_committed, refusal_apply, job_executed, executed_given, executed_so, execution, front_reading, refused_front, FrontHolds, FrontReads, IsReadFor};
ghost use Rattle.lpt_node.specs.Sending.{RefusedBy};

use crate::executing::Made;
use crate::{Executed, Node, NodeFault};
use lpt_execution::{Ending, applied_with};
use lpt_jobs::Front;
use lpt_ledger::State;
use lpt_memory::{Memories, Reading, Ticket};
use lpt_packet::{Name, Octets};
use lpt_pus::FailureCode;
use std::alloc::AllocError;

impl Node {
    /// The number of this boot: how many times the node was restarted.
    pub fn boot(&self) -> u64
        ensures { result ≡ self.now.at.boot }
    {
        self.boot
    }

    /// How many jobs have got a number in this boot, executed ones among them.
    pub fn jobs(&self) -> u64
        ensures { result ≡ jobs_numbered self.now.at.jobs }
    {
        self.jobs.jobs_numbered()
    }

    /// How many jobs aren't executed yet.
    pub fn jobs_queued(&self) -> u64
        ensures { result ≡ length self.now.at.jobs.jobs }
    {
        self.jobs.len() as u64
    }

    /// How many jobs wait: no worker has claimed them.
    pub fn waiting(&self) -> u64
        ensures { result ≡ length self.now.at.jobs.jobs - claimed_in self.now.at.jobs.jobs }
    {
        self.jobs.waiting() as u64
    }

    /// The number and the message of the oldest job that waits. `None` if none does.
    pub fn oldest_unclaimed(&self) -> Option<(u64, &Octets)>
        ensures { option_map (λ x. (x.0, x.1.now)) result ≡ oldest_unclaimed self.now.at.jobs }
    {
        self.jobs.oldest_unclaimed()
    }

    /// Gives the oldest job that waits to a worker, with its message. It takes no memory.
    ///
    /// Errors: `NoJob` if none waits. Nothing has changed then.
    pub fn claim(&mut self) -> Result<Ticket, NodeFault>
        ensures enabled { OnOk result (refusal_claim self.old.at ≡ None) }
        ensures ok { IfOk result (λ t. (self.new.at, t) ≡ job_claimed self.old.at) }

        // A reading of it may be handed in.
        ensures out { IfOk result (λ t. IsTrue (is_claimed self.new.at.jobs t.job)) }

        ensures side { self.new.side ≡ self.old.side }
        ensures config { self.new.config ≡ self.old.config }

        ensures refused { IfErr result (λ e. refusal_claim self.old.at ≡ Some e) }
        ensures err { OnErr result (self.new.at ≡ self.old.at) }
    {
        if let Some(fault) = self.refusal_claim() {
            return Err(fault);
        }
        let (number, message) = self.jobs.claim();
        Ok(Ticket::new(self.boot, number, message))
    }

    /// Takes the reading of a job of this boot and number, and answers whether it counts: it does in
    /// the job's own boot alone. A job of this boot must be claimed, and no reading of it handed in.
    pub fn commit(&mut self, boot: u64, job: u64, reading: Reading) -> bool
        requires { boot ≡ self.old.at.boot → IsTrue (is_claimed self.old.at.jobs job) }
        ensures committed { (self.new.at, result) ≡ job_committed self.old.at boot job reading }

        ensures side { self.new.side ≡ self.old.side }
        ensures config { self.new.config ≡ self.old.config }
    {
        if boot != self.boot {
            return false;
        }
        self.jobs.commit(job, reading);
        true
    }

    /// The reading of the oldest job. `None` if there is no job, or it wasn't handed in.
    pub fn front(&self) -> Option<&Reading>
        ensures { option_map (λ x. x.now) result
            ≡ front_reading (head_of self.now.at.jobs.jobs) }
    {
        match self.jobs.front() {
            Front::Empty => None,
            Front::NotReady => None,
            Front::Ready(reading) => Some(reading),
        }
    }

    /// Executes the oldest job, whose reading must be for these memories and the node's APID: does
    /// what it asks of them, makes its reports, and lets the job go. The reports go to the source in
    /// the request's own header. A report of data that is too long for a packet on the link is opened
    /// under the least free name of that source.
    ///
    /// Errors, with node and memories unchanged, the first that applies: `NoJob`, there is none;
    /// `NotReady`, no reading of the oldest was handed in; `Memory`, if there is a report.
    pub fn apply_front(&mut self, memories: &mut Memories) -> Result<Executed, NodeFault>
        requires { IsReadFor self.old memories.old }
        ensures enabled { OnOk result (refusal_apply self.old.at ≡ None) }
        ensures ok { IfOk result (λ r. ((self.new.at, execution r), memories.new)
            ≡ job_executed self.old.config self.old.at memories.old) }

        ensures side { self.new.side ≡ self.old.side }
        ensures config { self.new.config ≡ self.old.config }

        ensures refused { IfErr result (λ e. RefusedBy (refusal_apply self.old.at) e) }
        ensures err { OnErr result (self.new.at ≡ self.old.at) }
        ensures kept { OnErr result (memories.new ≡ memories.old) }

        // Memory runs out only if there is a report.
        ensures memory { OnErr result (refusal_apply self.old.at ≡ None
            → front_reports self.old.config self.old.at memories.old (head_of self.old.at.jobs.jobs)
            ≢ []) }
    {
        if let Some(fault) = self.refusal_apply() {
            return Err(fault);
        }
        let Front::Ready(reading) = self.jobs.front() else {
            unreachable!()
        };
        let name = self.reply_name(reading);
        let Ok(ending) = self.ending(name, memories, reading) else {
            return Err(NodeFault::Memory);
        };
        let Ok((executed, reading)) = self.end_front(name, ending) else {
            return Err(NodeFault::Memory);
        };
        memories.load(&reading);
        Ok(executed)
    }

    /// Executes the oldest job if the memories are elsewhere, by the octets that it reads of
    /// them, one area behind the other: makes its reports and lets the job go. What a load writes is
    /// the caller's to do.
    ///
    /// Errors, with nothing changed: as those of `apply_front`.
    pub fn apply_given(&mut self, octets: &[u8]) -> Result<Executed, NodeFault>
        requires { FrontReads (head_of self.old.at.jobs.jobs) octets.now }
        ensures enabled { OnOk result (refusal_apply self.old.at ≡ None) }
        ensures ok { IfOk result (λ r. (self.new.at, execution r)
            ≡ executed_given self.old.config self.old.at octets.now) }

        // It is what is executed over any memories that have these octets there.
        ensures over { (ms : Contents) → IsReadFor self.old ms
            → FrontHolds (head_of self.old.at.jobs.jobs) ms octets.now
            → IfOk result (λ r. (self.new.at, execution r)
            ≡ (job_executed self.old.config self.old.at ms).0) }

        ensures side { self.new.side ≡ self.old.side }
        ensures config { self.new.config ≡ self.old.config }

        ensures refused { IfErr result (λ e. RefusedBy (refusal_apply self.old.at) e) }
        ensures err { OnErr result (self.new.at ≡ self.old.at) }

        // Memory runs out only if there is a report.
        ensures memory { OnErr result (refusal_apply self.old.at ≡ None
            → reports_given self.old.config self.old.at octets.now (head_of self.old.at.jobs.jobs)
            ≢ []) }
    {
        if let Some(fault) = self.refusal_apply() {
            return Err(fault);
        }
        let Front::Ready(reading) = self.jobs.front() else {
            unreachable!()
        };
        let name = self.reply_name(reading);
        let Ok(ending) = self.ending_given(name, octets, reading) else {
            return Err(NodeFault::Memory);
        };
        let Ok((executed, _)) = self.end_front(name, ending) else {
            return Err(NodeFault::Memory);
        };
        Ok(executed)
    }

    /// Lets the oldest job go, whose reading was handed in, without executing it: nothing is done and
    /// nothing is reported. It takes no memory.
    ///
    /// Errors, with nothing changed: `NoJob`, there is none; `NotReady`, no reading of the oldest was
    /// handed in.
    pub fn drop_front(&mut self) -> Result<(), NodeFault>
        ensures enabled { OnOk result (refusal_apply self.old.at ≡ None) }
        ensures ok { OnOk result (self.new.at
            ≡ record self.old.at { jobs = without_front self.old.at.jobs }) }

        ensures side { self.new.side ≡ self.old.side }
        ensures config { self.new.config ≡ self.old.config }

        ensures refused { IfErr result (λ e. refusal_apply self.old.at ≡ Some e) }
        ensures err { OnErr result (self.new.at ≡ self.old.at) }
    {
        if let Some(fault) = self.refusal_apply() {
            return Err(fault);
        }
        let _ = self.jobs.pop_front();
        Ok(())
    }

    /// Refuses the oldest job, whose reading was handed in, with this failure code, and lets it go:
    /// nothing that it asks is done, and a report says so, to the source in the request's own header.
    /// What is no telecommand with the node's APID has no report.
    ///
    /// Errors, with nothing changed: as those of `apply_front`.
    pub fn refuse_front(&mut self, code: FailureCode) -> Result<Executed, NodeFault>
        ensures enabled { OnOk result (refusal_apply self.old.at ≡ None) }
        ensures ok { IfOk result (λ r. (self.new.at, execution r)
            ≡ refused_front self.old.config self.old.at code) }

        ensures side { self.new.side ≡ self.old.side }
        ensures config { self.new.config ≡ self.old.config }

        ensures refused { IfErr result (λ e. RefusedBy (refusal_apply self.old.at) e) }
        ensures err { OnErr result (self.new.at ≡ self.old.at) }

        // Memory runs out only if there is a report.
        ensures memory { OnErr result (refusal_apply self.old.at ≡ None
            → reports_refused code (head_of self.old.at.jobs.jobs) ≢ []) }
    {
        if let Some(fault) = self.refusal_apply() {
            return Err(fault);
        }
        let Front::Ready(reading) = self.jobs.front() else {
            unreachable!()
        };
        let name = self.reply_name(reading);
        let Ok((executed, _)) = self.end_front(name, Ending::Refused(code)) else {
            return Err(NodeFault::Memory);
        };
        Ok(executed)
    }

    // Ends the execution of the oldest job, which is ready: makes its reports, opens the one that is
    // too long under the least free name of the request's source, and lets the job go, with its
    // reading. The only error is out of memory, with nothing changed.
    fn end_front(
        &mut self,
        name: Option<Name>,
        ending: Ending,
    ) -> Result<(Executed, Reading), AllocError>
        requires ready { IsTrue (is_ready (head_of self.old.at.jobs.jobs)) }
        requires name { (r : Source) → head_of self.old.at.jobs.jobs ≡ Ready r
            → name ≡ least_free_in self.old.at.sending.ledger (request_source r.apid r.message) }
        requires free { IfSome name (λ n. state_at self.old.at.sending.ledger n ≡ State.Free) }
        requires fits { EndingFits ending }
        ensures ok { IfOk result (λ x. (self.new.at, execution x.0)
            ≡ executed_so self.old.config self.old.at (λ r. ending) (head_of self.old.at.jobs.jobs)) }
        ensures reading { IfOk result (λ x. head_of self.old.at.jobs.jobs ≡ Ready x.1) }
        ensures side { self.new.side ≡ self.old.side }
        ensures config { self.new.config ≡ self.old.config }
        ensures err { OnErr result (self.new.at ≡ self.old.at) }
        ensures memory { (r : Source) → head_of self.old.at.jobs.jobs ≡ Ready r
            → OnErr result (reports_of r ending ≢ []) }
    {
        let Front::Ready(reading) = self.jobs.front() else {
            unreachable!()
        };
        // All that takes memory comes first, and the new message last of it.
        let (applied, made) = self.execution(reading, ending)?;
        let Made {
            counts,
            packets,
            large,
        } = made;
        let opened = self.open_first(name, large)?;
        self.counts = counts;
        let reading = self.jobs.pop_front();
        let executed = Executed {
            applied: applied_with(applied, &opened),
            packets,
            opened,
        };
        Ok((executed, reading))
    }
}
