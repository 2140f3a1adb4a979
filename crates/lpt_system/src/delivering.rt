//! Deliveries: what is in a lane's hand is given to the node that receives it.

ghost use Rattle.std.specs.Prelude.{◌≡◌, ◌+◌, ◌<◌, ◌↔◌, ◌^◌, IfOk, IfErr, IsTrue, OnErr, length, vec_len, None, Some};
ghost use Rattle.std.specs.Vec.{vec_capacity};
ghost use Rattle.lpt_events.specs.Lanes.{lane_direction};
ghost use Rattle.lpt_events.specs.Sides.{receiver_side};
ghost use Rattle.lpt_jobs.specs.Jobs.{jobs_numbered};
ghost use Rattle.lpt_node.specs.Accepting.{packet_accepted};
ghost use Rattle.lpt_node.specs.ParsedViews.{arrival_from};
ghost use Rattle.lpt_link.specs.Links.{after_drop, packet_in_hand, refusal_drop};
ghost use Rattle.lpt_model.specs.Events.{refusal_of, after};
ghost use Rattle.lpt_model.specs.State.{end_of, arrival_held, as_list, put_report, put_some, released_of, add_release, IsAccepted};
ghost use Rattle.lpt_events.specs.declared.reply.Answer.{Answer};
ghost use Rattle.lpt_system.specs.Outside.{octets_held, IsReadOf};

use crate::system::System;
use lpt_events::{Answer, Event, Lane, Outcome, Release, Reply};
use lpt_link::Link;
use lpt_node::{Accepted, Parsed};
use lpt_packet::{Direction, Name, Octets};
use std::alloc::AllocError;

impl System {
    ghost use Rattle.lpt_system.specs.SystemInside.{state_of};

    // Delivers what is in a lane's hand.
    #[inline(always)]
    pub(crate) fn deliver(&mut self, place: u64, lane: Lane) -> Result<Reply, AllocError>
        requires free { refusal_of self.old.config (state_of self.old) (Event.Deliver lane) ≡ None }
        requires numbers { jobs_numbered self.old.on_craft.at.jobs + 1 < 2 ^ 64 }
        ensures ok { IfOk result (λ r. (state_of self.new, r)
            ≡ after self.old.config place (state_of self.old) (Event.Deliver lane)) }
        ensures err { OnErr result (state_of self.new ≡ state_of self.old) }
        ensures config { self.new.config ≡ self.old.config }
    {
        self.released.reserve(1)?;
        self.link.reserve(1, None)?;
        let accepted = self.receive_held(lane)?;
        Ok(self.packet_delivered(place, lane, accepted))
    }

    /// Delivers what is in a lane's hand, which was read before. The only error is out of memory;
    /// then what was read is handed back, and nothing has changed.
    pub fn deliver_read(&mut self, place: u64, lane: Lane, parsed: Parsed) -> Result<Reply, Parsed>
        requires full { refusal_of self.old.config (state_of self.old) (Event.Deliver lane) ≡ None }
        requires read { IsReadOf self.old.config (octets_held self.old.link.at lane) lane parsed }
        requires numbers { jobs_numbered self.old.on_craft.at.jobs + 1 < 2 ^ 64 }
        ensures ok { IfOk result (λ r. (state_of self.new, r)
            ≡ after self.old.config place (state_of self.old) (Event.Deliver lane)) }
        ensures back { IfErr result (λ p. p ≡ parsed) }
        ensures err { OnErr result (state_of self.new ≡ state_of self.old) }
        ensures config { self.new.config ≡ self.old.config }
    {
        if self.released.reserve(1).is_err() || self.link.reserve(1, None).is_err() {
            return Err(parsed);
        }
        let accepted = self.receive(lane, parsed)?;
        Ok(self.packet_delivered(place, lane, accepted))
    }

    // Notes what a receiver made of the packet in a lane's hand, which is empty then.
    #[inline(always)]
    fn packet_delivered(&mut self, place: u64, lane: Lane, accepted: Accepted) -> Reply
        requires room { vec_len self.old.released < vec_capacity self.old.released }
        requires spare { 0 < self.old.link.spare }
        requires full { refusal_drop self.old.link.at lane ≡ None }
        ensures state { state_of self.new ≡ record (state_of self.old) {
          link = put_report (after_drop self.old.link.at lane) accepted.packet;
          released = add_release self.old.released.items place (lane_direction lane) accepted.outcome accepted.released;
        } }
        ensures reply { result ≡ put_some (length self.old.link.at.packets) (Answer.Delivered accepted.outcome) (as_list accepted.packet) }
        ensures config { self.new.config ≡ self.old.config }
    {
        let Accepted {
            outcome,
            packet,
            released,
        } = accepted;
        let _ = self.link.drop_hand(lane);
        self.note_release(place, lane.direction(), outcome, released);
        self.report(Answer::Delivered(outcome), packet)
    }

    // Gives the receiver of a lane what is in its hand.
    #[inline(always)]
    fn receive_held(&mut self, lane: Lane) -> Result<Accepted, AllocError>
        requires full { refusal_of self.old.config (state_of self.old) (Event.Deliver lane) ≡ None }
        requires numbers { jobs_numbered self.old.on_craft.at.jobs + 1 < 2 ^ 64 }
        ensures ok { IfOk result (λ r. IsAccepted (state_of self.old) lane (state_of self.new) r
            (packet_accepted (receiver_side (lane_direction lane)) self.old.config
            (end_of (state_of self.old) (receiver_side (lane_direction lane)))
            (arrival_held self.old.config (lane_direction lane) (packet_in_hand self.old.link.at lane)))) }
        ensures err { OnErr result (state_of self.new ≡ state_of self.old) }
        ensures config { self.new.config ≡ self.old.config }
        ensures link { self.new.link ≡ self.old.link }
        ensures released { self.new.released ≡ self.old.released }
    {
        let octets = held_in(&self.link, lane);
        match lane.direction() {
            Direction::Up => self.on_craft.accept_octets(octets),
            Direction::Down => self.on_ground.accept_octets(octets),
        }
    }

    // Gives the receiver of a lane what was in its hand.
    fn receive(&mut self, lane: Lane, parsed: Parsed) -> Result<Accepted, Parsed>
        requires side { parsed.side ≡ receiver_side (lane_direction lane) }
        requires apid { parsed.apid ≡ self.old.config.apid }
        requires part_size { parsed.p ≡ self.old.config.part_size }
        requires numbers { jobs_numbered self.old.on_craft.at.jobs + 1 < 2 ^ 64 }
        ensures ok { IfOk result (λ r. IsAccepted (state_of self.old) lane (state_of self.new) r
            (packet_accepted (receiver_side (lane_direction lane)) self.old.config
            (end_of (state_of self.old) (receiver_side (lane_direction lane))) (arrival_from parsed))) }
        ensures back { IfErr result (λ p. p ≡ parsed) }
        ensures err { OnErr result (state_of self.new ≡ state_of self.old) }
        ensures config { self.new.config ≡ self.old.config }
        ensures link { self.new.link ≡ self.old.link }
        ensures released { self.new.released ≡ self.old.released }
    {
        match lane.direction() {
            Direction::Up => self.on_craft.accept(parsed),
            Direction::Down => self.on_ground.accept(parsed),
        }
    }

    // Notes a message that was released, if one was.
    fn note_release(
        &mut self,
        place: u64,
        direction: Direction,
        outcome: Outcome,
        released: Option<Octets>,
    )
        requires { vec_len self.old.released < vec_capacity self.old.released }
        ensures state { state_of self.new ≡ record (state_of self.old) {
          released = add_release self.old.released.items place direction outcome released;
        } }
        ensures config { self.new.config ≡ self.old.config }
        ensures link { self.new.link ≡ self.old.link }
    {
        match released {
            Some(message) => {
                let of = transaction(direction, outcome);
                self.released.push_reserved(Release { place, of, message });
            }
            None => {}
        }
    }

    /// Whether this was read of what is in a lane's hand, for its receiver.
    pub fn is_read_of(&self, lane: Lane, parsed: &Parsed) -> bool
        requires { refusal_of self.now.config (state_of self.now) (Event.Deliver lane) ≡ None }
        ensures { IsTrue result ↔ IsReadOf self.now.config (octets_held self.now.link.at lane) lane parsed.now }
    {
        let octets = held_in(&self.link, lane);
        parsed.is_of(
            octets,
            lane.receiver(),
            self.config.apid,
            self.config.part_size,
        )
    }
}

// The octets of the packet in a lane's hand.
fn held_in(link: &Link, lane: Lane) -> &[u8]
    requires { refusal_drop link.now.at lane ≡ None }
    ensures { octets_held link.now.at lane ≡ Some result.now }
{
    let Some(n) = link.hand(lane) else {
        unreachable!()
    };
    let Some(octets) = link.packet(n) else {
        unreachable!()
    };
    octets
}

// The transaction of a released message, by the outcome of its delivery.
fn transaction(direction: Direction, outcome: Outcome) -> Option<(Direction, Name)>
    ensures { result ≡ released_of direction outcome }
{
    match outcome {
        Outcome::Released(name, _) => Some((direction, name)),
        _ => None,
    }
}
