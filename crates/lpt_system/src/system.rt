//! Both ends, the link between them, the tickets, the memories, and what was opened and released:
//! all that an event changes.

ghost use Rattle.std.specs.Prelude.{◌≡◌, ◌+◌, ◌<◌, ◌≤◌, ◌^◌, IfOk, IfSome, OnErr, None, Some, length};
ghost use Rattle.std.specs.Option.{option_map};
ghost use Rattle.lpt_jobs.specs.Jobs.{jobs_numbered};
ghost use Rattle.lpt_link.specs.Counts.{HasPlace};
ghost use Rattle.lpt_link.specs.Links.{after_put};
ghost use Rattle.lpt_node.specs.Asking.{refusal_of as node_refusal};
ghost use Rattle.lpt_node.specs.Faults.{node_fault};
ghost use Rattle.lpt_node.specs.Nodes.{new_node};
ghost use Rattle.lpt_system.specs.SystemSound.{IsSound};
ghost use Rattle.lpt_events.specs.Configs.{IsConfig};
ghost use Rattle.lpt_model.specs.Events.{refusal_of, after, IsReady};
ghost use Rattle.lpt_model.specs.State.{no_state, end_of, as_list, put_report, put_some, quiet as quiet_reply, put_one as put_one_reply};

use crate::faults::of_link;
use crate::tickets::Tickets;
use lpt_events::{Answer, Config, Event, Lane, Opening, Puts, Release, Reply, Side, StepFault};
use lpt_link::Link;
use lpt_memory::Memories;
use lpt_node::{Ask, Node, NodeFault};
use lpt_packet::{Direction, Name, Octets};
use lpt_part::count;
use std::alloc::{AllocError, Global};

/// Both ends, the link, the workers' tickets and the memories. It knows nothing of a journal.
#[derive(Drop)]
pub struct System {
    pub alloc: Global,
    pub config: Config,
    pub on_ground: Node,
    pub on_craft: Node,
    pub link: Link,
    pub tickets: Tickets,
    pub memories: Memories,
    pub opened: Vec<Opening>,
    pub released: Vec<Release>,
    ghost sound: { IsSound config on_ground on_craft },
}

impl System {
    ghost use Rattle.lpt_system.specs.SystemInside.{state_of};

    /// A system in which nothing has happened.
    pub fn new(alloc: Global, config: Config, memories: Memories) -> Result<System, AllocError>
        requires { IsConfig config }
        ensures { IfOk result (λ e. (e.config ≡ config) × (state_of e ≡ no_state config memories)) }
    {
        let link = Link::new(alloc)?;
        let (on_ground, on_craft) = both_nodes(alloc, &config)?;
        Ok(System {
            alloc,
            config,
            on_ground,
            on_craft,
            link,
            tickets: Tickets::new(),
            memories,
            opened: Vec::new(alloc),
            released: Vec::new(alloc),
        })
    }

    /// Why an event would be refused now, out of memory aside.
    pub fn refusal(&self, event: &Event) -> Option<StepFault>
        ensures { result ≡ refusal_of self.now.config (state_of self.now) event.now }
    {
        match event {
            Event::Open(direction, name, message) => {
                let ask = Ask::Open(*name, message.as_slice().len());
                self.ask(Side::sender(*direction), ask)
            }
            Event::Send(direction, name, k) => self.ask(
                Side::sender(*direction),
                Ask::Send(*name, *k),
            ),
            Event::Plain(_, _, service, subtype, body) => {
                let ask = Ask::Plain(*service, *subtype, body.as_slice().len());
                self.ask(Side::Ground, ask)
            }
            Event::Finish(direction, name) => self.ask(
                Side::sender(*direction),
                Ask::Finish(*name),
            ),
            Event::Lose(n) => self.refusal_lose(*n),
            Event::Damage(direction, octets) => self.refusal_damage(*direction, octets),
            Event::Take(lane, n) => self.link.refusal_take(*lane, *n).map(of_link),
            Event::Deliver(lane) => self.link.refusal_drop(*lane).map(of_link),
            Event::Tick(side) => self.ask(*side, Ask::Tick),
            Event::Expire(side) => self.ask(*side, Ask::Expire),
            Event::Claim(worker) => self.refusal_claim(*worker),
            Event::Commit(worker) => self.refusal_commit(*worker),
            Event::Apply => self.ask(Side::Craft, Ask::Apply),
            Event::Retire(direction, name) => self.refusal_retire(*direction, *name),
            Event::Restart(_) => None,
        }
    }

    // Why the node on a side would refuse a call.
    pub(crate) fn ask(&self, side: Side, ask: Ask) -> Option<StepFault>
        ensures { result ≡ option_map node_fault
            (node_refusal self.now.config (end_of (state_of self.now) side) ask) }
    {
        match side {
            Side::Ground => self.on_ground.refusal(&ask).map(NodeFault::in_step),
            Side::Craft => self.on_craft.refusal(&ask).map(NodeFault::in_step),
        }
    }

    /// Does an event that isn't refused, whole. The only error is out of memory, and then nothing has
    /// changed.
    pub fn apply(&mut self, place: u64, event: &Event) -> Result<Reply, AllocError>
        requires free { refusal_of self.old.config (state_of self.old) event.now ≡ None }
        requires ready { IsReady self.old.config (state_of self.old) event.now }
        requires numbers { jobs_numbered self.old.on_craft.at.jobs + 1 < 2 ^ 64 }
        requires boots { (side : Side) → (end_of (state_of self.old) side).boot + 1 < 2 ^ 64 }
        ensures ok { IfOk result (λ r. (state_of self.new, r) ≡ after self.old.config place (state_of self.old) event.now) }
        ensures err { OnErr result (state_of self.new ≡ state_of self.old) }
        ensures config { self.new.config ≡ self.old.config }
    {
        match event {
            Event::Open(direction, name, message) => self.open(place, *direction, *name, message),
            Event::Send(direction, name, k) => self.send(*direction, *name, *k),
            Event::Plain(source, flags, service, subtype, body) => {
                self.plain(*source, *flags, *service, *subtype, body)
            }
            Event::Finish(direction, name) => Ok(self.finish(*direction, *name)),
            Event::Lose(n) => Ok(self.lose(*n)),
            Event::Damage(direction, octets) => self.damage(*direction, octets),
            Event::Take(lane, n) => Ok(self.take(*lane, *n)),
            Event::Deliver(lane) => self.deliver(place, *lane),
            Event::Tick(side) => Ok(self.tick(*side)),
            Event::Expire(side) => self.expire(*side),
            Event::Claim(worker) => Ok(self.claim(*worker)),
            Event::Commit(worker) => self.commit(*worker),
            Event::Apply => self.execute(place),
            Event::Retire(direction, name) => Ok(self.retire(*direction, *name)),
            Event::Restart(side) => Ok(self.restart(*side)),
        }
    }

    // Hands a message to its sender.
    fn open(
        &mut self,
        place: u64,
        direction: Direction,
        name: Name,
        message: &Octets,
    ) -> Result<Reply, AllocError>
        requires { refusal_of self.old.config (state_of self.old) (Event.Open direction name message.now) ≡ None }
        ensures ok { IfOk result (λ r. (state_of self.new, r)
            ≡ after self.old.config place (state_of self.old) (Event.Open direction name message.now)) }
        ensures err { OnErr result (state_of self.new ≡ state_of self.old) }
        ensures config { self.new.config ≡ self.old.config }
    {
        let parts = count(message.as_slice().len() as u32, self.config.part_size);
        self.opened.reserve(1)?;
        let opening = Opening {
            place,
            direction,
            name,
            message: message.copy()?,
        };
        let sent = message.copy()?;
        let taken = match direction {
            Direction::Up => self.on_ground.open(name, sent),
            Direction::Down => self.on_craft.open(name, sent),
        };
        match taken {
            Ok(()) => {
                self.opened.push_reserved(opening);
                Ok(quiet(Answer::Opened(parts as u16)))
            }
            Err(_) => Err(AllocError),
        }
    }

    // Puts a part on the link.
    fn send(&mut self, direction: Direction, name: Name, k: u16) -> Result<Reply, AllocError>
        requires { refusal_of self.old.config (state_of self.old) (Event.Send direction name k) ≡ None }
        ensures ok { IfOk result (λ r. (state_of self.new, r)
            ≡ after self.old.config 0 (state_of self.old) (Event.Send direction name k)) }
        ensures err { OnErr result (state_of self.new ≡ state_of self.old) }
        ensures config { self.new.config ≡ self.old.config }
    {
        self.link.reserve(1, Some((direction, name)))?;
        let sent = match direction {
            Direction::Up => self.on_ground.send_part(name, k),
            Direction::Down => self.on_craft.send_part(name, k),
        };
        match sent {
            Ok(octets) => {
                let n = put_reserved(&mut self.link, direction, Some(name), octets);
                Ok(put_one(n, Answer::Put(n)))
            }
            Err(_) => Err(AllocError),
        }
    }

    // Closes an open sender.
    fn finish(&mut self, direction: Direction, name: Name) -> Reply
        requires { refusal_of self.old.config (state_of self.old) (Event.Finish direction name)
            ≡ None }
        ensures ok { (state_of self.new, result)
            ≡ after self.old.config 0 (state_of self.old) (Event.Finish direction name) }
        ensures config { self.new.config ≡ self.old.config }
    {
        let finished = match direction {
            Direction::Up => self.on_ground.finish(name),
            Direction::Down => self.on_craft.finish(name),
        };
        match finished {
            Ok(()) => quiet(Answer::Finished),
            Err(_) => unreachable!(),
        }
    }

    // Why the link would not lose a packet.
    fn refusal_lose(&self, n: u64) -> Option<StepFault>
        ensures { result ≡ refusal_of self.now.config (state_of self.now) (Event.Lose n) }
    {
        if self.link.is_held(n) {
            None
        } else {
            Some(StepFault::NotHeld)
        }
    }

    // Loses a held packet.
    fn lose(&mut self, n: u64) -> Reply
        requires { refusal_of self.old.config (state_of self.old) (Event.Lose n) ≡ None }
        ensures ok { (state_of self.new, result) ≡ after self.old.config 0 (state_of self.old) (Event.Lose n) }
        ensures config { self.new.config ≡ self.old.config }
    {
        match self.link.lose(n) {
            Ok(()) => quiet(Answer::Lost),
            Err(_) => unreachable!(),
        }
    }

    // Takes a held packet into a lane's hand.
    fn take(&mut self, lane: Lane, n: u64) -> Reply
        requires { refusal_of self.old.config (state_of self.old) (Event.Take lane n) ≡ None }
        ensures ok { (state_of self.new, result) ≡ after self.old.config 0 (state_of self.old) (Event.Take lane n) }
        ensures config { self.new.config ≡ self.old.config }
    {
        match self.link.take(lane, n) {
            Ok(()) => quiet(Answer::Took(n)),
            Err(_) => unreachable!(),
        }
    }

    // Puts a node's report on the link, if it made one, and answers.
    pub(crate) fn report(&mut self, answer: Answer, packet: Option<Octets>) -> Reply
        requires { 0 < self.old.link.spare }
        ensures state { state_of self.new ≡ record (state_of self.old) { link = put_report self.old.link.at packet } }
        ensures reply { result ≡ put_some (length self.old.link.at.packets) answer (as_list packet) }
        ensures config { self.new.config ≡ self.old.config }
    {
        match packet {
            Some(octets) => {
                let n = put_reserved(&mut self.link, Direction::Down, None, octets);
                put_one(n, answer)
            }
            None => quiet(answer),
        }
    }
}

// The two nodes, at which nothing has happened.
fn both_nodes(alloc: Global, config: &Config) -> Result<(Node, Node), AllocError>
    requires { IsConfig config.now }
    ensures { IfOk result (λ n. (n.0 ≡ new_node Side.Ground config.now) × (n.1 ≡ new_node Side.Craft config.now)) }
{
    let on_ground = Node::new(alloc, Side::Ground, config)?;
    match Node::new(alloc, Side::Craft, config) {
        Ok(on_craft) => Ok((on_ground, on_craft)),
        Err(error) => {
            drop(on_ground);
            Err(error)
        }
    }
}

// The reply of an event that put nothing on the link.
pub(crate) fn quiet(answer: Answer) -> Reply
    ensures { result ≡ quiet_reply answer }
{
    Reply { answer, puts: None }
}

// The reply of an event that put one packet, which got this number.
pub(crate) fn put_one(n: u64, answer: Answer) -> Reply
    ensures { result ≡ put_one_reply n answer }
{
    Reply {
        answer,
        puts: Some(Puts { first: n, count: 1 }),
    }
}

// Puts a packet for which there is room, and of which the transaction, if there is one, has its place.
pub(crate) fn put_reserved(
    link: &mut Link,
    direction: Direction,
    tag: Option<Name>,
    octets: Octets,
) -> u64
    requires room { 0 < link.old.spare }
    requires place { IfSome tag (HasPlace link.old.places direction) }
    ensures at { link.new.at ≡ after_put link.old.at direction tag octets }
    ensures spare { link.old.spare ≤ link.new.spare + 1 }
    ensures number { result ≡ length link.old.at.packets }
{
    match link.put(direction, tag, octets) {
        Ok(n) => n,
        Err(_) => unreachable!(),
    }
}
