//! Reports that are too long for a packet, sent in parts.

ghost use Rattle.std.specs.Prelude.{◌≡◌, ◌⊎◌, IfErr, IfOk, OnOk, Some};
ghost use Rattle.lpt_stream.specs.Streams.{all_octets};
ghost use Rattle.lpt_text.specs.Streams.{AppendsPart, WriteEnds};
ghost use Rattle.lpt_spacecraft.specs.Serving.{all_sent, first_sent};
ghost use Rattle.lpt_spacecraft.specs.Streams.{Sends};
ghost use Rattle.lpt_spacecraft.specs.Telling.{sent_in};

use crate::Spacecraft;
use lpt_packet::{Name, Octets};
use lpt_part::count;
use lpt_text::{Sink, StreamFault, write_out};

impl Spacecraft {
    // Writes all parts of a message that was opened, if one was, closes its sender, and answers
    // under which name, and how many parts.
    pub(crate) fn send_opened<K: Sink>(
        &mut self,
        opened: Option<(Name, Octets)>,
        out: &mut K,
    ) -> Result<Option<(Name, u16)>, StreamFault>
        ensures sent { IfOk result (λ x. x ≡ sent_in self.old.config opened) }
        ensures ok { OnOk result (Sends (all_sent self.old.config self.old.node.at opened)
            self.old self.new (K.contents out.old) (K.contents out.new)) }
        ensures jobs { OnOk result (self.new.node.at.jobs ≡ self.old.node.at.jobs) }

        ensures config { self.new.config ≡ self.old.config }
        ensures memories { self.new.memories ≡ self.old.memories }

        ensures fault { IfErr result (λ e. (e ≡ StreamFault.Write) ⊎ (e ≡ StreamFault.Memory)) }
        ensures writer { WriteEnds result (K.failed out.old) (K.failed out.new) }
        ensures part { IfErr result (λ _. AppendsPart (K.contents out.old) (K.contents out.new)
            (all_octets (all_sent self.old.config self.old.node.at opened).1)) }
    {
        match opened {
            None => Ok(None),
            Some((name, message)) => self.send_all(name, message.as_slice(), out),
        }
    }

    // Writes all parts of a message that is open, closes its sender, and answers its name, and how
    // many parts there are.
    fn send_all<K: Sink>(
        &mut self,
        name: Name,
        message: &[u8],
        out: &mut K,
    ) -> Result<Option<(Name, u16)>, StreamFault>
        ensures sent { IfOk result (λ x. x ≡ sent_in self.old.config (Some (name, message.now))) }
        ensures ok { OnOk result (Sends
            (all_sent self.old.config self.old.node.at (Some (name, message.now)))
            self.old self.new (K.contents out.old) (K.contents out.new)) }
        ensures jobs { OnOk result (self.new.node.at.jobs ≡ self.old.node.at.jobs) }

        ensures config { self.new.config ≡ self.old.config }
        ensures memories { self.new.memories ≡ self.old.memories }

        ensures fault { IfErr result (λ e. (e ≡ StreamFault.Write) ⊎ (e ≡ StreamFault.Memory)) }
        ensures writer { WriteEnds result (K.failed out.old) (K.failed out.new) }
        ensures part { IfErr result (λ _. AppendsPart (K.contents out.old) (K.contents out.new)
            (all_octets (all_sent self.old.config self.old.node.at (Some (name, message.now))).1)) }
    {
        let Ok(len) = u32::try_from(message.len()) else {
            return Err(StreamFault::Memory);
        };
        let Ok(total) = u16::try_from(count(len, self.config.part_size)) else {
            return Err(StreamFault::Memory);
        };
        match self.send_parts(name, total, out) {
            Ok(()) => {}
            Err(fault) => return Err(fault),
        }
        match self.node.finish(name) {
            Ok(()) => Ok(Some((name, total))),
            Err(_) => Err(StreamFault::Memory),
        }
    }

    // Writes the first parts of a message that is open, so many.
    fn send_parts<K: Sink>(
        &mut self,
        name: Name,
        total: u16,
        out: &mut K,
    ) -> Result<(), StreamFault>
        ensures ok { OnOk result (Sends (first_sent self.old.config self.old.node.at name total)
            self.old self.new (K.contents out.old) (K.contents out.new)) }
        ensures jobs { OnOk result (self.new.node.at.jobs ≡ self.old.node.at.jobs) }

        ensures config { self.new.config ≡ self.old.config }
        ensures memories { self.new.memories ≡ self.old.memories }

        ensures fault { IfErr result (λ e. (e ≡ StreamFault.Write) ⊎ (e ≡ StreamFault.Memory)) }
        ensures writer { WriteEnds result (K.failed out.old) (K.failed out.new) }
        ensures part { IfErr result (λ _. AppendsPart (K.contents out.old) (K.contents out.new)
            (all_octets (first_sent self.old.config self.old.node.at name total).1)) }
    {
        for k in 0..total {
            let Ok(packet) = self.node.send_part(name, k + 1) else {
                return Err(StreamFault::Memory);
            };
            match write_out(out, packet.as_slice()) {
                Ok(()) => {}
                Err(fault) => return Err(fault),
            }
        }
        Ok(())
    }
}
