//! What the definitions say of all names: a function with an empty body.

ghost use Rattle.std.specs.Prelude.{◌≡◌, ℕ, Some};
ghost use Rattle.lpt_packet.specs.Names.{IsName, Name};
ghost use Rattle.lpt_events.specs.NameTexts.{name_text};
ghost use Rattle.lpt_script_words.specs.Names.{name_of};

/// What is printed of a name is read back as that name, whatever source is configured.
#[tactic(auto, using(crate::proofs::NameLemmas::printed_read))]
pub fn printed_names_are_read()
    ensures { (source : ℕ) (n : Name) → IsName n → name_of source (name_text source n) ≡ Some n }
{}
