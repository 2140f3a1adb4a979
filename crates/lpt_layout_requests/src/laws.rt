//! What the definitions say of requests by layouts: functions with empty bodies.

ghost use Rattle.std.specs.Prelude.{◌≡◌, ◌<◌, ◌≤◌, ◌↔◌, ℕ, [], ◌∷◌, Ok, length};
ghost use Rattle.lpt_layout.specs.declared.layout.Layout.{Layout};
ghost use Rattle.lpt_layout.specs.Messages.{message_verdict, packet_of};
ghost use Rattle.lpt_layout.specs.Packets.{verdict_as};
ghost use Rattle.lpt_memory.specs.declared.request.Area.{Area};
ghost use Rattle.lpt_memory.specs.Spellings.{load_text};
ghost use Rattle.lpt_packet.specs.declared.packet.PacketKind.TheVariants.{Tc};
ghost use Rattle.lpt_packet.specs.Packets.{APacket};
ghost use Rattle.lpt_packet.specs.Sizes.{longest_packet};
ghost use Rattle.lpt_requests.specs.declared.request.Request.{Request};
ghost use Rattle.lpt_requests.specs.Requests.{request_text};
ghost use Rattle.lpt_layout_requests.specs.Limits.{area_room};
ghost use Rattle.lpt_layout_requests.specs.Packets.{Fits, IsMade, packet_as, request_said};

use lpt_layout::laws::written_is_read;

/// What is written by a layout is read by it again, as a telecommand with the request's body.
pub fn requests_are_read()
    ensures packet { (l : Layout) (apid source count flags : ℕ) (request : Request)
        → IsMade l apid source count flags request
        → verdict_as l.has_checksum (packet_as l apid source count flags request)
        ≡ Ok (APacket (packet_of l Tc (request_said l apid source count flags request))) }
    ensures message { (l : Layout) (apid source count flags : ℕ) (request : Request)
        → Fits l apid source count flags request
        → message_verdict l Tc (packet_of l Tc (request_said l apid source count flags request))
        ≡ Ok (request_said l apid source count flags request) }
{
    written_is_read();
}

/// The load of one area is no longer than a packet may be exactly if the area has no more octets
/// than a packet of the layout has room for.
pub fn loads_have_room()
    ensures { (l : Layout) (apid source count flags memory : ℕ) (request : Request) (a : Area)
        → request_text request ≡ load_text memory (a ∷ []) → 0 < length a.octets
        → Fits l apid source count flags request
        → (length (packet_as l apid source count flags request) ≤ longest_packet)
        ↔ (length a.octets ≤ area_room l) }
{}
