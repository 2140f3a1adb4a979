//! What the definitions say of captures, proved of all of them: functions with empty bodies.

ghost use Rattle.std.specs.Prelude.{◌≡◌, ℕ, List};
ghost use Rattle.lpt_capture.specs.Captures.{capture_of};
ghost use Rattle.lpt_stream.specs.Streams.{IsStream, all_octets};
ghost use Rattle.lpt_capture.specs.Captured.{found_in, sound};

/// In a capture of packets their octets are found, one behind the other, and nothing is wrong.
pub fn captures_are_read()
    ensures { (time : ℕ) (packets : List (List ℕ)) → IsStream packets
        → found_in (capture_of time packets) ≡ sound (all_octets packets) }
{}

/// Packets that stand in no capture are found as they are.
pub fn streams_are_read()
    ensures { (packets : List (List ℕ)) → IsStream packets
        → found_in (all_octets packets) ≡ sound (all_octets packets) }
{}
