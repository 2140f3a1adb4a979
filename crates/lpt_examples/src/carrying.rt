//! Calling `lpt_node` over a link: a message that ground's node sends up in parts over a network,
//! and the spacecraft's node joins. Neither knows more of the other than the packets that come.

ghost use Rattle.std.specs.Prelude.{◌≡◌, ◌⊎◌, ℕ, List, length, None, IfOk, IfSome, OnErr, OnOk};
ghost use Rattle.lpt_packet.specs.declared.direction.Direction.TheVariants.{Up};
ghost use Rattle.lpt_events.specs.Configs.{IsConfig};
ghost use Rattle.lpt_events.specs.Events.{IsEvent};
ghost use Rattle.lpt_events.specs.declared.event.Event.TheVariants.{Open};
ghost use Rattle.lpt_node.specs.Accepting.{packet_accepted};
ghost use Rattle.lpt_node.specs.ParsedViews.{arrival_at};
ghost use Rattle.lpt_node.specs.Sending.{message_opened, refusal_open};
ghost use Rattle.lpt_examples.specs.Carrying.{HasReleased, Stands, is_broken, is_whole};

use lpt_events::{Config, Outcome, Side};
use lpt_node::{Accepted, Node, NodeFault};
use lpt_packet::{Name, Octets};
use std::alloc::Global;

/// What carries packets up from ground to the spacecraft. It may lose them, and give them out in
/// any order, late, and more than once.
pub trait Network {
    // The octets that may come out from here on.
    ghost may_come: { Self → List ℕ → Type 0 };

    /// Takes a packet. Errors: out of memory; the packet is lost then.
    fn put(&mut self, packet: Octets) -> Result<(), NodeFault>
        ensures { (b : List ℕ) → may_come self.new b → (b ≡ packet) ⊎ may_come self.old b };

    /// The packet that comes out now, if one does.
    fn next(&mut self) -> Option<Octets>
        ensures came { IfSome result (λ o. may_come self.old o) }
        ensures rest { (b : List ℕ) → may_come self.new b → may_come self.old b };
}

/// Sends a message up under a free name, all its parts in each round, for at most so many rounds, and
/// returns what the spacecraft released: byte for byte the message that was handed in. `None` if it
/// wasn't whole after the last round, or its reception was broken off.
///
/// Errors: those of [`Node::open`] and [`Node::send_part`]. `Memory` is returned also if the
/// network or the spacecraft has no memory, or the spacecraft no number for one more request.
/// After an error, too, the nodes are two ends apart.
pub fn carry<N: Network>(
    ground: &mut Node,
    craft: &mut Node,
    network: &mut N,
    name: Name,
    message: Octets,
    rounds: u32,
) -> Result<Option<Octets>, NodeFault>
    requires stands { Stands ground.old craft.old (N.may_come network.old) }
    ensures stands { Stands ground.new craft.new (N.may_come network.new) }
    ensures whole { IfOk result (λ r. IfSome r (λ m. m ≡ message)) }

    // It is what the spacecraft's node released, and that was the last thing that this node did.
    ensures released { IfOk result (λ r. IfSome r (λ m. HasReleased name m craft.new)) }
{
    begin(ground, name, message)?;
    for _ in 0..rounds {
        for number in 1..u16::MAX {
            match ground.send_part(name, number) {
                Err(NodeFault::NoSuchPart) => break,
                Err(fault) => return Err(fault),
                Ok(packet) => network.put(packet)?,
            }
            let Some(packet) = network.next() else {
                continue;
            };
            let accepted = take(craft, &packet)?;
            if is_whole(name, &accepted.outcome) {
                return Ok(accepted.released);
            }
            if is_broken(name, &accepted.outcome) {
                return Ok(None);
            }
        }
    }
    Ok(None)
}

/// The same between two new nodes of one configuration, over a network from which nothing may come
/// yet. The errors are those of [`carry`].
pub fn carry_anew<N: Network>(
    alloc: Global,
    config: &Config,
    network: &mut N,
    name: Name,
    message: Octets,
    rounds: u32,
) -> Result<Option<Octets>, NodeFault>
    requires config { IsConfig config.now }
    requires empty { (b : List ℕ) → ¬ N.may_come network.old b }
    ensures whole { IfOk result (λ r. IfSome r (λ m. m ≡ message)) }
{
    let Ok(mut ground) = Node::new(alloc, Side::Ground, config) else {
        return Err(NodeFault::Memory);
    };
    let Ok(mut craft) = Node::new(alloc, Side::Craft, config) else {
        return Err(NodeFault::Memory);
    };
    carry(&mut ground, &mut craft, network, name, message, rounds)
}

// Opens a message at ground.
fn begin(ground: &mut Node, name: Name, message: Octets) -> Result<(), NodeFault>
    ensures range { IsEvent (Open Up name message) }
    ensures enabled { OnOk result
        (refusal_open ground.old.config ground.old.at name (length message) ≡ None) }
    ensures ok { OnOk result (ground.new.at ≡ message_opened ground.old.at name message) }
    ensures side { ground.new.side ≡ ground.old.side }
    ensures config { ground.new.config ≡ ground.old.config }
    ensures err { OnErr result (ground.new.at ≡ ground.old.at) }
{
    let _octets = message.as_slice();
    let _source = name.source;
    let _id = name.id;
    match ground.open(name, message) {
        Ok(()) => Ok(()),
        Err((fault, _)) => Err(fault),
    }
}

// Hands a packet to the spacecraft. The error is `Memory`, also if the spacecraft has no number for
// one more request; then nothing has changed.
fn take(craft: &mut Node, packet: &Octets) -> Result<Accepted, NodeFault>
    ensures ok { IfOk result (λ r. (craft.new.at, r)
        ≡ packet_accepted craft.old.side craft.old.config craft.old.at
        (arrival_at craft.old packet.now)) }
    ensures side { craft.new.side ≡ craft.old.side }
    ensures config { craft.new.config ≡ craft.old.config }
    ensures err { OnErr result (craft.new.at ≡ craft.old.at) }
{
    if craft.jobs() >= u64::MAX - 1 {
        return Err(NodeFault::Memory);
    }
    match craft.accept_octets(packet.as_slice()) {
        Ok(accepted) => Ok(accepted),
        Err(_) => Err(NodeFault::Memory),
    }
}

// Whether an outcome says that the message of a name was released.
fn is_whole(name: Name, outcome: &Outcome) -> bool
    ensures { result ≡ is_whole name outcome.now }
{
    match *outcome {
        Outcome::Released(of, _) => of == name,
        _ => false,
    }
}

// Whether an outcome says that the reception of a name was broken off.
fn is_broken(name: Name, outcome: &Outcome) -> bool
    ensures { result ≡ is_broken name outcome.now }
{
    match *outcome {
        Outcome::Broken(of, _) => of == name,
        _ => false,
    }
}
