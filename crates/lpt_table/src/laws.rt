//! What the definitions say of tables, proved of all of them: functions with empty bodies.

ghost use Rattle.std.specs.FinMap as map;
ghost use Rattle.std.specs.Option.{option_map};
ghost use Rattle.std.specs.Prelude.{◌≡◌, ◌≤◌, ◌-◌, ℕ, IsTrue, Option, None};
ghost use Rattle.lpt_packet.specs.Names.{Name};
ghost use Rattle.lpt_table.specs.Deadlines.{IsDue, due_of};
ghost use Rattle.lpt_table.specs.Offering.{TakesOut, put_back, parts_at};
ghost use Rattle.lpt_table.specs.SettingBack.{earlier, reaches_back, set_back, table_back};
ghost use Rattle.lpt_table.specs.Tables.{Entries, TableState};
ghost use Rattle.lpt_table.specs.Walking.{due_at, next_due};

/// What is computed as due is due, and no other answer is.
pub fn one_is_due()
    ensures computed { (t : TableState) (now : ℕ) → IsDue t now (due_of t now) }
    ensures unique { (t : TableState) (now : ℕ) (a b : Option Name)
        → IsDue t now a → IsDue t now b → a ≡ b }
{}

/// To put a reception back as it was when it was taken out undoes the taking out.
pub fn put_back_undoes()
    ensures { (old new : TableState) (name : Name) → old.out ≡ None → TakesOut old new name
        → put_back new name (parts_at old name) ≡ old }
{}

/// If last ticks are set back with the clock by so many ticks, of which none is below, each
/// reception stays, the same one is due, and how long it is until each is due stays the same.
pub fn set_back_keeps_times()
    ensures entries { (ticks : ℕ) (m : Entries) (name : Name)
        → map.get (set_back ticks m) name ≡ option_map (earlier ticks) (map.get m name) }
    ensures due { (t : TableState) (ticks now : ℕ) → IsTrue (reaches_back ticks t.entries)
        → ticks ≤ now → due_of (table_back ticks t) (now - ticks) ≡ due_of t now }
    ensures due_at { (t : TableState) (ticks : ℕ) (name : Name)
        → IsTrue (reaches_back ticks t.entries)
        → due_at (table_back ticks t) name ≡ option_map (λ at. at - ticks) (due_at t name) }
{}
