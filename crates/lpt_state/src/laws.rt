//! What the definitions say of all states: functions with empty bodies.

ghost use Rattle.std.specs.Prelude.{◌≡◌, ◌+◌, ◌<◌, ◌≤◌, ◌^◌, ◌++◌, ℕ, List, [], length, Ok};
ghost use Rattle.lpt_events.specs.declared.config.Config.{Config};
ghost use Rattle.lpt_events.specs.declared.side.Side.{Side};
ghost use Rattle.lpt_node.specs.Nodes.{NodeView};
ghost use Rattle.lpt_packet.specs.Bursts.{DifferInBurst};
ghost use Rattle.lpt_packet.specs.Numbers.{IsOctets};
ghost use Rattle.lpt_state.specs.Lastings.{names_used, restarted_as, restarted_node, lasting_of, IsBoundAlike, IsEnd};
ghost use Rattle.lpt_state.specs.Spellings.{length_with, state_spelled};
ghost use Rattle.lpt_state.specs.Verdicts.{reading};

/// What is read of what was written is exactly what a restart leaves.
pub fn written_is_read()
    ensures { (v : NodeView) → IsEnd v → v.at.boot + 1 < 2 ^ 64
        → reading v.side v.config (state_spelled v) ≡ Ok (restarted_node v) }
{}

/// Under another configuration that differs in limits and first clock alone, what is read is what a
/// restart within these limits leaves.
pub fn written_is_read_as()
    ensures { (v : NodeView) (c : Config) → IsEnd v → v.at.boot + 1 < 2 ^ 64
        → IsBoundAlike v.config c → reading v.side c (state_spelled v) ≡ Ok (restarted_as c v) }
{}

/// There is one spelling for each state: octets that are read as the same end are the same.
pub fn has_one_spelling()
    ensures { (side : Side) (c : Config) (a b : List ℕ) (v : NodeView) → IsOctets a → IsOctets b
        → reading side c a ≡ Ok v → reading side c b ≡ Ok v → a ≡ b }
{}

/// No state is a proper beginning of another, whichever ends they are of.
pub fn no_prefix()
    ensures { (side other : Side) (c d : Config) (a rest : List ℕ) (v w : NodeView)
        → reading side c a ≡ Ok v → reading other d (a ++ rest) ≡ Ok w → rest ≡ [] }
{}

/// A burst of 1 to 16 changed bits shows, wherever it falls: octets that differ so from a state are
/// none, of whichever end.
pub fn bursts_show()
    ensures { (side other : Side) (c d : Config) (x y : List ℕ) (v w : NodeView)
        → IsOctets x → IsOctets y → DifferInBurst x y
        → reading side c x ≡ Ok v → ¬ (reading other d y ≡ Ok w) }
{}

/// A state has 45 octets and 6 for each run of names, of which there are no more than names in use.
pub fn has_this_length()
    ensures exact { (v : NodeView) → length (state_spelled v)
        ≡ length_with (length (lasting_of v.at).sent + length (lasting_of v.at).received) }
    ensures bound { (v : NodeView) → length (state_spelled v) ≤ length_with (names_used v.at) }
{}
