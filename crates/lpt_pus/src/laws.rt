//! What the definitions say of telecommands and telemetry, proved of all of them: functions with
//! empty bodies.

ghost use Rattle.std.specs.Prelude.{◌≡◌, ℕ, ◌+◌, ◌↔◌, List, length, drop};
ghost use Rattle.lpt_packet.specs.Numbers.{IsOctets};
ghost use Rattle.lpt_packet.specs.Packets.{Fields, spelling};
ghost use Rattle.lpt_packet.specs.Ranges.{InRange};
ghost use Rattle.lpt_pus.specs.Commands.{Command, CommandFits, packet_of, IsCommand, tc_verdict, command_in, IsCommandIn};
ghost use Rattle.lpt_pus.specs.Telemetry.{Telemetry, TelemetryFits, as_written, tm_packet_of, IsTelemetry, tm_verdict, telemetry_in, IsTelemetryIn};

/// A message in its ranges is read again from the packet that encodes it.
pub fn written_is_read()
    ensures command { (c : Command) → CommandFits c → tc_verdict (packet_of c) ≡ Ok c }
    ensures telemetry { (t : Telemetry) → TelemetryFits t → tm_verdict (tm_packet_of t) ≡ Ok t }
{}

/// A packet in its ranges is read as a message exactly if it is that message's packet.
pub fn verdicts_are_exact()
    ensures command { (f : Fields) (c : Command) → InRange f.apid f.count f.octets
        → IsOctets f.octets → (tc_verdict f ≡ Ok c) ↔ IsCommand f c }
    ensures telemetry { (f : Fields) (t : Telemetry) → InRange f.apid f.count f.octets
        → IsOctets f.octets → (tm_verdict f ≡ Ok t) ↔ IsTelemetry f t }
{}

/// The body that is read is what stands behind the secondary header in the packet's data field.
pub fn bodies_stand_last()
    ensures command { (f : Fields) (c : Command) → tc_verdict f ≡ Ok c
        → c.body ≡ drop 5 f.octets }
    ensures telemetry { (f : Fields) (t : Telemetry) → tm_verdict f ≡ Ok t
        → t.body ≡ drop 11 f.octets }
{}

/// A telecommand's packet has 13 octets besides the body, a telemetry packet 19.
pub fn lengths_add_up()
    ensures command { (c : Command) → length (spelling (packet_of c)) ≡ length c.body + 13 }
    ensures telemetry { (t : Telemetry) → length (spelling (tm_packet_of t)) ≡ length t.body + 19 }
{}

/// Octets are read as a message with an APID exactly if they are a packet, it is read as that
/// message, and this is its APID.
pub fn octets_are_read_exactly()
    ensures command { (apid : ℕ) (b : List ℕ) (c : Command)
        → (command_in apid b ≡ Some c) ↔ IsCommandIn apid b c }
    ensures telemetry { (apid : ℕ) (b : List ℕ) (t : Telemetry)
        → (telemetry_in apid b ≡ Some t) ↔ IsTelemetryIn apid b t }
{}

/// A message in its ranges is read again from the octets of its packet; what is written of
/// telemetry, with status 0.
pub fn octets_are_read_again()
    ensures command { (c : Command) → CommandFits c
        → command_in c.apid (spelling (packet_of c)) ≡ Some c }
    ensures telemetry { (t : Telemetry) → TelemetryFits t
        → telemetry_in t.apid (spelling (tm_packet_of t)) ≡ Some t }
    ensures written { (t : Telemetry) → TelemetryFits t
        → telemetry_in t.apid (spelling (tm_packet_of (as_written t))) ≡ Some (as_written t) }
{}
