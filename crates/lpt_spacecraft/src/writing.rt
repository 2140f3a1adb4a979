//! Packets that are written.

ghost use Rattle.std.specs.Prelude.{◌≡◌, IfErr, OnOk, option_to_list};
ghost use Rattle.std.specs.Io.KnownBytes.{Appends};
ghost use Rattle.lpt_stream.specs.Streams.{all_octets};
ghost use Rattle.lpt_text.specs.Streams.{AppendsPart, WriteEnds};

use lpt_packet::Octets;
use lpt_text::{Sink, StreamFault, write_out};

// Writes packets, one behind the other.
pub(crate) fn write_all<K: Sink>(out: &mut K, packets: &[Octets]) -> Result<(), StreamFault>
    ensures ok { OnOk result (Appends (K.contents out.old) (K.contents out.new)
        (all_octets packets.now)) }
    ensures fault { IfErr result (λ e. e ≡ StreamFault.Write) }
    ensures writer { WriteEnds result (K.failed out.old) (K.failed out.new) }
    ensures part { IfErr result (λ _.
        AppendsPart (K.contents out.old) (K.contents out.new) (all_octets packets.now)) }
{
    for packet in packets {
        match write_out(out, packet.as_slice()) {
            Ok(()) => {}
            Err(fault) => return Err(fault),
        }
    }
    Ok(())
}

// Writes a packet, if there is one.
pub(crate) fn write_one<K: Sink>(out: &mut K, packet: Option<Octets>) -> Result<(), StreamFault>
    ensures ok { OnOk result (Appends (K.contents out.old) (K.contents out.new)
        (all_octets (option_to_list packet))) }
    ensures fault { IfErr result (λ e. e ≡ StreamFault.Write) }
    ensures writer { WriteEnds result (K.failed out.old) (K.failed out.new) }
    ensures part { IfErr result (λ _. AppendsPart (K.contents out.old) (K.contents out.new)
        (all_octets (option_to_list packet))) }
{
    match packet {
        None => Ok(()),
        Some(packet) => write_out(out, packet.as_slice()),
    }
}
