//! How a reception ends. What takes memory comes first: the report or the job, and then the place of
//! its name in the ledger. So a reception is put back as it was if memory runs out.

ghost use Rattle.std.specs.Prelude.{◌≡◌, ◌+◌, ◌<◌, ◌^◌, [], None, IsSomeAnd, IfOk, OnOk, OnErr};
ghost use Rattle.std.specs.FinMap as map;
ghost use Rattle.std.specs.Option.{option_map};
ghost use Rattle.lpt_part.specs.declared.reason.Reason.TheVariants as why;
ghost use Rattle.lpt_pus.specs.Telemetry.{telemetry, as_written};
ghost use Rattle.lpt_ledger.specs.Marks.{Shut};
ghost use Rattle.lpt_ledger.specs.States.{state_at};
ghost use Rattle.lpt_reception.specs.Received.{spelled, all_of};
ghost use Rattle.lpt_table.specs.Offering.{put_back};
ghost use Rattle.lpt_jobs.specs.Jobs.{after_push, jobs_numbered};
ghost use Rattle.lpt_node.specs.declared.receipt.Receipt.TheVariants as receipt;
ghost use Rattle.lpt_node.specs.Receivers.{abort_report, IsShort};
ghost use Rattle.lpt_node.specs.Receiving.{jobs_with};

use crate::making::abort_report;
use crate::receipt::Receipt;
use lpt_events::Side;
use lpt_jobs::JobQueue;
use lpt_ledger::{Ledger, State};
use lpt_packet::{Name, Octets};
use lpt_part::Reason;
use lpt_pus::TmHead;
use lpt_reception::{Broken, Whole};
use lpt_table::Table;
use std::alloc::{AllocError, Global};

// Ends a reception of which all parts are there, with its message, which becomes a job at the
// spacecraft. It is put back if there is no memory for that.
pub(crate) fn release(
    side: Side,
    jobs: &mut JobQueue,
    ledger: &mut Ledger,
    table: &mut Table,
    name: Name,
    whole: Whole,
) -> Result<Receipt, AllocError>
    requires free { state_at ledger.old name ≡ State.Free }
    requires out { IsSomeAnd table.old.out (λ o. o.0 ≡ name) }
    requires id { whole.before.id ≡ name.id }
    requires p { whole.before.p ≡ table.old.p }
    requires numbers { jobs_numbered jobs.old + 1 < 2 ^ 64 }
    ensures ok { IfOk result (λ t. t ≡ receipt.Whole (spelled (all_of whole))) }
    ensures jobs { OnOk result (jobs.new ≡ jobs_with side jobs.old (spelled (all_of whole))) }
    ensures shut { OnOk result (ledger.new ≡ map.insert ledger.old name Shut) }
    ensures settled { OnOk result (table.new ≡ record table.old { out = None }) }
    ensures short { IfOk result IsShort }

    ensures unshut { OnErr result (ledger.new ≡ ledger.old) }
    ensures back { OnErr result (table.new ≡ put_back table.old name whole.before.parts) }
    ensures no_job { OnErr result (jobs.new ≡ jobs.old) }
{
    if close_whole(side, jobs, ledger, name, &whole).is_err() {
        table.put_back(name, whole.back());
        return Err(AllocError);
    }
    match whole.release() {
        Ok(message) => {
            table.settle(name);
            Ok(Receipt::Whole(message))
        }
        Err(_) => unreachable!(),
    }
}

// Closes the name of a reception of which all parts are there, whose message becomes a job at the
// spacecraft. The only error is out of memory, and then nothing has changed.
fn close_whole(
    side: Side,
    jobs: &mut JobQueue,
    ledger: &mut Ledger,
    name: Name,
    whole: &Whole,
) -> Result<(), AllocError>
    requires free { state_at ledger.old name ≡ State.Free }
    requires numbers { jobs_numbered jobs.old + 1 < 2 ^ 64 }
    ensures jobs { OnOk result (jobs.new ≡ jobs_with side jobs.old (spelled (all_of whole.now))) }
    ensures shut { OnOk result (ledger.new ≡ map.insert ledger.old name Shut) }

    ensures no_job { OnErr result (jobs.new ≡ jobs.old) }
    ensures unshut { OnErr result (ledger.new ≡ ledger.old) }
{
    match side {
        Side::Ground => shut(ledger, name),
        Side::Craft => {
            add_whole(jobs, whole)?;
            match shut(ledger, name) {
                Ok(()) => Ok(()),
                Err(AllocError) => {
                    drop(jobs.pop_back());
                    Err(AllocError)
                }
            }
        }
    }
}

// Makes a job of a whole message. The only error is out of memory.
fn add_whole(jobs: &mut JobQueue, whole: &Whole) -> Result<(), AllocError>
    requires { jobs_numbered jobs.old + 1 < 2 ^ 64 }
    ensures ok { OnOk result (jobs.new ≡ after_push jobs.old (spelled (all_of whole.now))) }
    ensures err { OnErr result (jobs.new ≡ jobs.old) }
{
    match jobs.push(whole.joined()?) {
        Ok(()) => Ok(()),
        Err(_) => Err(AllocError),
    }
}

// Ends a reception that is broken off, with a report of it. It is put back if there is no memory
// for that.
pub(crate) fn abort(
    alloc: Global,
    ledger: &mut Ledger,
    table: &mut Table,
    head: Option<TmHead>,
    name: Name,
    broken: Broken,
) -> Result<Receipt, AllocError>
    requires free { state_at ledger.old name ≡ State.Free }
    requires out { IsSomeAnd table.old.out (λ o. o.0 ≡ name) }
    requires id { broken.before.id ≡ name.id }
    requires p { broken.before.p ≡ table.old.p }
    ensures ok { IfOk result (λ t. t ≡ receipt.Conflict broken.reason
        (abort_report (option_map (λ h. as_written (telemetry h [])) head) name broken.reason)) }
    ensures shut { OnOk result (ledger.new ≡ map.insert ledger.old name Shut) }
    ensures settled { OnOk result (table.new ≡ record table.old { out = None }) }

    ensures unshut { OnErr result (ledger.new ≡ ledger.old) }
    ensures back { OnErr result (table.new ≡ put_back table.old name broken.before.parts) }
{
    match close_reported(alloc, ledger, head, name, broken.reason()) {
        Ok(report) => {
            let reason = broken.abort();
            table.settle(name);
            Ok(Receipt::Conflict(reason, report))
        }
        Err(AllocError) => {
            table.put_back(name, broken.back());
            Err(AllocError)
        }
    }
}

// Closes the name of a reception that a gap has broken off before it was open, with a report of it.
// The only error is out of memory, and then nothing has changed.
pub(crate) fn break_off(
    alloc: Global,
    ledger: &mut Ledger,
    head: Option<TmHead>,
    name: Name,
) -> Result<Receipt, AllocError>
    requires free { state_at ledger.old name ≡ State.Free }
    ensures ok { IfOk result (λ t. t ≡ receipt.Conflict why.Discontinuity
        (abort_report (option_map (λ h. as_written (telemetry h [])) head) name
        why.Discontinuity)) }
    ensures shut { OnOk result (ledger.new ≡ map.insert ledger.old name Shut) }
    ensures short { IfOk result IsShort }

    ensures unshut { OnErr result (ledger.new ≡ ledger.old) }
{
    let report = close_reported(alloc, ledger, head, name, Reason::Discontinuity)?;
    Ok(Receipt::Conflict(Reason::Discontinuity, report))
}

// Closes the name of a reception that ends without its message, with a report of it, if reports
// have a head. The only error is out of memory, and then nothing has changed.
pub(crate) fn close_reported(
    alloc: Global,
    ledger: &mut Ledger,
    head: Option<TmHead>,
    name: Name,
    reason: Reason,
) -> Result<Option<Octets>, AllocError>
    requires free { state_at ledger.old name ≡ State.Free }
    ensures report { IfOk result (λ o. o
        ≡ abort_report (option_map (λ h. as_written (telemetry h [])) head) name reason) }
    ensures shut { OnOk result (ledger.new ≡ map.insert ledger.old name Shut) }

    ensures unshut { OnErr result (ledger.new ≡ ledger.old) }
{
    let report = abort_report(alloc, head, name, reason)?;
    shut(ledger, name)?;
    Ok(report)
}

// Closes a free name. The only error is out of memory.
fn shut(ledger: &mut Ledger, name: Name) -> Result<(), AllocError>
    requires { state_at ledger.old name ≡ State.Free }
    ensures ok { OnOk result (ledger.new ≡ map.insert ledger.old name Shut) }
    ensures err { OnErr result (ledger.new ≡ ledger.old) }
{
    match ledger.shut(name) {
        Ok(()) => Ok(()),
        Err(_) => Err(AllocError),
    }
}
