//! One end of the link.

ghost use Rattle.std.specs.Prelude.{◌≡◌, IsTrue, IfOk, is_some};
ghost use Rattle.std.specs.FinMap as map;
ghost use Rattle.lpt_ledger.specs.States.{state_at};
ghost use Rattle.lpt_acts.specs.Acts.{limits_of};
ghost use Rattle.lpt_events.specs.Configs.{IsConfig};
ghost use Rattle.lpt_node.specs.Nodes.{new_node, is_open, message_at};
ghost use Rattle.lpt_node.specs.Restarts.{limits_at, node_resumed, NoneOpen};

use crate::counts::Counts;
use crate::outgoing::Outgoing;
use crate::receiver::Receiver;
use lpt_events::{Config, Side};
use lpt_jobs::JobQueue;
use lpt_ledger::{Ledger, State};
use lpt_packet::Name;
use std::alloc::{AllocError, Global};
use std::marker::Model;

/// One end of the link.
///
/// The sender's and the receiver's ledger know each transaction name as free, open or closed. The
/// messages of open outgoing transactions are kept until these are closed. A receiver's name is
/// closed when its reception is released, broken off or given up, and stays free if a restart
/// drops it. A closed name is free again once it is retired.
#[derive(Drop)]
pub struct Node {
    pub(crate) alloc: Global,
    pub(crate) side: Side,
    pub(crate) config: Config,
    pub(crate) senders: Ledger,
    pub(crate) outgoing: Outgoing,
    pub(crate) counts: Counts,
    pub(crate) receiver: Receiver,
    pub(crate) clock: u32,
    // The number of this boot, from 0 on.
    pub(crate) boot: u64,
    // The released requests that aren't executed yet; on ground none.
    pub(crate) jobs: JobQueue,
}

impl Model for Node {
    ghost use Rattle.lpt_node.specs.Nodes.{NodeView};
    ghost use Rattle.lpt_node.specs.Codes.{coded_node};

    ghost Value = { NodeView };

    ghost coded = { coded_node };

    ghost use Rattle.lpt_node.specs.NodeInside.{IsSound};

    ghost view = { λ a. record {
      side = a.side;
      config = a.config;
      at = record {
        sending = record {
          ledger = a.senders;
          messages = a.outgoing.messages;
          count = a.counts.count;
          types = a.counts.types;
        };
        receiving = record {
          ledger = a.receiver.ledger;
          entries = a.receiver.entries;
          limit = a.config.receptions;
          timeout = a.config.timeout;
        };
        outgoing = a.config.outgoing;
        clock = a.clock;
        boot = a.boot;
        jobs = a.jobs;
      };
    } };

    ghost invariant = { λ a. IsSound a.config a.senders a.receiver a.outgoing };
}

impl Node {
    /// An end at which nothing has happened. The only error is out of memory.
    pub fn new(alloc: Global, side: Side, config: &Config) -> Result<Node, AllocError>
        requires { IsConfig config.now }
        ensures { IfOk result (λ n. n ≡ new_node side config.now) }
    {
        let senders = Ledger::new(alloc);
        let receivers = Ledger::new(alloc);
        Node::resume(alloc, side, config, 0, config.clock, senders, receivers)
    }

    /// An end with this boot and clock that knows these names, of which none is open, as a restart
    /// leaves one within the limits of this configuration. The only error is out of memory.
    pub fn resume(
        alloc: Global,
        side: Side,
        config: &Config,
        boot: u64,
        clock: u32,
        senders: Ledger,
        receivers: Ledger,
    ) -> Result<Node, AllocError>
        requires config { IsConfig config.now }
        requires senders { NoneOpen senders }
        requires receivers { NoneOpen receivers }
        ensures { IfOk result (λ n. n ≡ record {
          side = side;
          config = config.now;
          at = node_resumed (limits_of config.now) boot clock senders receivers;
        }) }
    {
        let Config {
            part_size,
            timeout,
            receptions,
            mode,
            ..
        } = *config;
        let receiver = Receiver::new(alloc, receivers, receptions, timeout, part_size, mode)?;
        Ok(Node {
            alloc,
            side,
            config: *config,
            senders,
            outgoing: Outgoing::new(alloc, part_size),
            counts: Counts::new(),
            receiver,
            clock,
            boot,
            jobs: JobQueue::new(alloc),
        })
    }

    /// Which end it is.
    pub fn side(&self) -> Side
        ensures { result ≡ self.now.side }
    {
        self.side
    }

    /// The configuration.
    pub fn config(&self) -> &Config
        ensures config { result.now ≡ self.now.config }
        ensures in_range { IsConfig result.now }
        ensures limits { limits_at self.now.at ≡ limits_of self.now.config }
    {
        &self.config
    }

    /// The names of outgoing transactions.
    pub fn senders(&self) -> &Ledger
        ensures { result.now ≡ self.now.at.sending.ledger }
    {
        &self.senders
    }

    /// The names of incoming transactions, closed if a reception has ended, and never open.
    pub fn receivers(&self) -> &Ledger
        ensures names { result.now ≡ self.now.at.receiving.ledger }
        ensures none_open { NoneOpen result.now }
    {
        self.receiver.ledger()
    }

    /// The clock, in ticks.
    pub fn clock(&self) -> u32
        ensures { result ≡ self.now.at.clock }
    {
        self.clock
    }

    /// The state of an outgoing transaction.
    pub fn sender(&self, name: Name) -> State
        ensures state { result ≡ state_at self.now.at.sending.ledger name }

        // A message is kept exactly if the transaction is open.
        ensures kept { is_some (message_at self.now.at name) ≡ is_open result }
    {
        self.senders.state(name)
    }

    /// Whether a reception of this name is open.
    pub fn is_open_reception(&self, name: Name) -> bool
        ensures open { result ≡ is_some (map.get self.now.at.receiving.entries name) }

        // The name of an open reception is free.
        ensures free { IsTrue result → state_at self.now.at.receiving.ledger name ≡ State.Free }
    {
        self.receiver.is_open(name)
    }
}
