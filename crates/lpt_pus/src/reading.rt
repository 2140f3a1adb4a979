//! Reading a packet as a telecommand or as telemetry.

ghost use Rattle.std.specs.Prelude.{◌≡◌, Ok, IfOk};
ghost use Rattle.lpt_packet.specs.Packets.{fields};
ghost use Rattle.lpt_pus.specs.Messages.{Gives};
ghost use Rattle.lpt_pus.specs.Commands.{Command, command, IsCommand, tc_verdict};
ghost use Rattle.lpt_pus.specs.Telemetry.{Telemetry, telemetry, IsTelemetry, tm_verdict};

use crate::sizes::{TC_HEADER, TM_HEADER};
use crate::{PusFault, TcHead, TmHead};
use lpt_packet::{Packet, PacketKind};

/// The PUS version number of ECSS-E-ST-70-41C.
const PUS_VERSION: u8 = 2;

/// Reads a packet as a telecommand: its head and its body, which is borrowed.
///
/// Errors, the first that applies: `WrongType`, telemetry; `ShortHeader`, fewer than 5 octets in
/// the packet's data field; `PusVersion`, not 2. Any flags and any source are read.
pub fn read_tc<'a>(packet: &Packet<'a>) -> Result<(TcHead, &'a [u8]), PusFault>
    // What is read is what the packet is.
    ensures found { IfOk result (λ x. IsCommand (fields packet.now) (command x.0 x.1.now)) }

    // Each telecommand is read.
    ensures command { (c : Command) → IsCommand (fields packet.now) c
        → Gives (λ x. command x.0 x.1.now) result (Ok c) }

    // The fault is the first.
    ensures exact { Gives (λ x. command x.0 x.1.now) result (tc_verdict (fields packet.now)) }
{
    first_fault_or_tc(packet)
}

// The tests of a telecommand, in their order.
#[tactic(auto, unfolding(crate::specs::Commands::tc_verdict))]
fn first_fault_or_tc<'a>(packet: &Packet<'a>) -> Result<(TcHead, &'a [u8]), PusFault>
    ensures { Gives (λ x. command x.0 x.1.now) result (tc_verdict (fields packet.now)) }
{
    if packet.kind != PacketKind::Tc {
        return Err(PusFault::WrongType);
    }
    let field = packet.field;
    if field.len() < TC_HEADER {
        return Err(PusFault::ShortHeader);
    }
    if field[0] >> 4 != PUS_VERSION {
        return Err(PusFault::PusVersion);
    }
    let head = TcHead {
        apid: packet.apid,
        count: packet.count,
        flags: field[0] & 0x0f,
        service: field[1],
        subtype: field[2],
        source: u16::from_be_bytes([field[3], field[4]]),
    };
    Ok((head, &field[TC_HEADER..]))
}

/// Reads a packet as telemetry: its head and its body, which is borrowed.
///
/// Errors, the first that applies: `WrongType`, a telecommand; `ShortHeader`, fewer than 11 octets
/// in the packet's data field; `PusVersion`, not 2. Any status and any destination are read.
pub fn read_tm<'a>(packet: &Packet<'a>) -> Result<(TmHead, &'a [u8]), PusFault>
    // What is read is what the packet is.
    ensures found { IfOk result (λ x. IsTelemetry (fields packet.now) (telemetry x.0 x.1.now)) }

    // All telemetry is read.
    ensures telemetry { (t : Telemetry) → IsTelemetry (fields packet.now) t
        → Gives (λ x. telemetry x.0 x.1.now) result (Ok t) }

    // The fault is the first.
    ensures exact { Gives (λ x. telemetry x.0 x.1.now) result (tm_verdict (fields packet.now)) }
{
    first_fault_or_tm(packet)
}

// The tests of telemetry, in their order.
#[tactic(auto, unfolding(crate::specs::Telemetry::tm_verdict))]
fn first_fault_or_tm<'a>(packet: &Packet<'a>) -> Result<(TmHead, &'a [u8]), PusFault>
    ensures { Gives (λ x. telemetry x.0 x.1.now) result (tm_verdict (fields packet.now)) }
{
    if packet.kind != PacketKind::Tm {
        return Err(PusFault::WrongType);
    }
    let field = packet.field;
    if field.len() < TM_HEADER {
        return Err(PusFault::ShortHeader);
    }
    if field[0] >> 4 != PUS_VERSION {
        return Err(PusFault::PusVersion);
    }
    let head = TmHead {
        apid: packet.apid,
        count: packet.count,
        status: field[0] & 0x0f,
        service: field[1],
        subtype: field[2],
        counter: u16::from_be_bytes([field[3], field[4]]),
        destination: u16::from_be_bytes([field[5], field[6]]),
        time: u32::from_be_bytes([field[7], field[8], field[9], field[10]]),
    };
    Ok((head, &field[TM_HEADER..]))
}
