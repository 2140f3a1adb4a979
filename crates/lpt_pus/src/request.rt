//! The identifier under which reports speak of a telecommand.

ghost use Rattle.std.specs.Prelude.{◌≡◌, List, ℕ, take};
ghost use Rattle.lpt_packet.specs.Numbers.{be};
ghost use Rattle.lpt_packet.specs.Packets.{spelling};
ghost use Rattle.lpt_pus.specs.Commands.{command, packet_of};

use crate::TcHead;

/// The request ID of ECSS-E-ST-70-41C: the first four octets of a telecommand's packet as a number.
#[derive(Clone, Copy, Debug, PartialEq, Eq)]
pub struct RequestId {
    /// Packet version number, type, secondary header flag, APID, sequence flags and sequence count.
    pub value: u32,
}

impl TcHead {
    /// The request ID of a telecommand of this head, whatever its body. The acknowledgement flags
    /// are no part of it.
    #[tactic(auto, unfolding(lpt_packet::specs::Packets::spelling))]
    pub fn request(&self) -> RequestId
        ensures { (body : List ℕ)
            → be result.value 4 ≡ take 4 (spelling (packet_of (command self.now body))) }
    {
        let first = 0x1800 + self.apid;
        let second = 0xc000 + self.count;
        RequestId {
            value: (u32::from(first) << 16) | u32::from(second),
        }
    }
}
