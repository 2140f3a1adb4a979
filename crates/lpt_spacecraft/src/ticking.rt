//! What the spacecraft's end makes of a tick.

ghost use Rattle.std.specs.Prelude.{◌≡◌, ◌⊎◌, [], ◌++◌, IfErr, OnOk};
ghost use Rattle.lpt_node.specs.Times.{due};
ghost use Rattle.lpt_stream.specs.Streams.{all_octets};
ghost use Rattle.lpt_text.specs.Streams.{AppendsPart, WriteEnds};
ghost use Rattle.lpt_spacecraft.specs.Serving.{beaten, first_expired, then_expired};
ghost use Rattle.lpt_spacecraft.specs.Streams.{onboard, IsIdle, Sends, Writes};
ghost use Rattle.lpt_spacecraft.specs.Telling.{first_given_up, gave_up, given_up};

use crate::writing::write_one;
use crate::{Spacecraft, Told};
use lpt_node::{Expired, NodeFault};
use lpt_text::{Sink, StreamFault};

impl Spacecraft {
    /// Sets the clock on, ends all receptions that are due, writes what is reported, and adds what
    /// has expired. A clock at its greatest value stays.
    ///
    /// Errors: `Write` if a write failed; `Memory`. A front part of what would be reported stays
    /// written.
    pub fn tick<K: Sink>(&mut self, told: &mut Vec<Told>, out: &mut K) -> Result<(), StreamFault>
        ensures ok { OnOk result (Writes (beaten self.old.config (onboard self.old)) self.new
            (K.contents out.old) (K.contents out.new)) }
        ensures told { OnOk result (told.new.items
            ≡ told.old.items ++ given_up self.old.config (onboard self.old)) }
        ensures idle { IsIdle self.old → OnOk result (IsIdle self.new) }
        ensures jobs { OnOk result (self.new.node.at.jobs ≡ self.old.node.at.jobs) }

        ensures config { self.new.config ≡ self.old.config }
        ensures memories { self.new.memories ≡ self.old.memories }

        ensures fault { IfErr result (λ e. (e ≡ StreamFault.Write) ⊎ (e ≡ StreamFault.Memory)) }
        ensures writer { WriteEnds result (K.failed out.old) (K.failed out.new) }
        ensures part { IfErr result (λ _. AppendsPart (K.contents out.old) (K.contents out.new)
            (all_octets (beaten self.old.config (onboard self.old)).1)) }
    {
        let _ = self.node.tick();
        self.give_up(self.config.receptions, told, out)
    }

    // Ends the receptions that are due, so many at most, writes what is reported, and adds them.
    fn give_up<K: Sink>(
        &mut self,
        most: u32,
        told: &mut Vec<Told>,
        out: &mut K,
    ) -> Result<(), StreamFault>
        ensures ok { OnOk result (Sends (first_expired self.old.config self.old.node.at most)
            self.old self.new (K.contents out.old) (K.contents out.new)) }
        ensures told { OnOk result (told.new.items
            ≡ told.old.items ++ first_given_up self.old.config self.old.node.at most) }
        ensures jobs { OnOk result (self.new.node.at.jobs ≡ self.old.node.at.jobs) }

        ensures config { self.new.config ≡ self.old.config }
        ensures memories { self.new.memories ≡ self.old.memories }

        ensures fault { IfErr result (λ e. (e ≡ StreamFault.Write) ⊎ (e ≡ StreamFault.Memory)) }
        ensures writer { WriteEnds result (K.failed out.old) (K.failed out.new) }
        ensures part { IfErr result (λ _. AppendsPart (K.contents out.old) (K.contents out.new)
            (all_octets (first_expired self.old.config self.old.node.at most).1)) }
    {
        for k in 0..most {
            match self.give_up_one(told, out) {
                Ok(()) => {}
                Err(fault) => return Err(fault),
            }
        }
        Ok(())
    }

    // Ends the reception that is due, if one is, writes what is reported, and adds it.
    fn give_up_one<K: Sink>(&mut self, told: &mut Vec<Told>, out: &mut K) -> Result<(), StreamFault>
        ensures told { OnOk result (told.new.items
            ≡ told.old.items ++ gave_up (due self.old.config self.old.node.at)) }
        ensures ok { OnOk result (Sends (then_expired self.old.config (self.old.node.at, []))
            self.old self.new (K.contents out.old) (K.contents out.new)) }
        ensures jobs { OnOk result (self.new.node.at.jobs ≡ self.old.node.at.jobs) }

        ensures config { self.new.config ≡ self.old.config }
        ensures memories { self.new.memories ≡ self.old.memories }

        ensures fault { IfErr result (λ e. (e ≡ StreamFault.Write) ⊎ (e ≡ StreamFault.Memory)) }
        ensures writer { WriteEnds result (K.failed out.old) (K.failed out.new) }
        ensures part { IfErr result (λ _. AppendsPart (K.contents out.old) (K.contents out.new)
            (all_octets (then_expired self.old.config (self.old.node.at, [])).1)) }
    {
        match self.node.expire() {
            Ok(Expired { name, packet }) => {
                if told.push(Told::GaveUp(name)).is_err() {
                    return Err(StreamFault::Memory);
                }
                write_one(out, packet)
            }
            Err(NodeFault::NothingDue) => Ok(()),
            Err(_) => Err(StreamFault::Memory),
        }
    }
}
