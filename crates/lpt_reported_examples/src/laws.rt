//! What comes of a worked pass: functions with empty bodies.

ghost use Rattle.std.specs.Prelude.{◌≡◌, ◌∷◌, [], map};
ghost use Rattle.lpt_journal.specs.Jobs.{executed, memories};
ghost use Rattle.lpt_journal_examples.specs.Passes.{pass_history, usual, usual_memories, IsPass};
ghost use Rattle.lpt_passes.specs.Images.{Stands};
ghost use Rattle.lpt_reported_examples.specs.Worked.{first_load, image, next_load, load_twice, AreItsLoads, IsReported};

/// Ground asks for two loads of one image. The first is executed, and its report is lost. The
/// spacecraft is restarted. The first load comes again, and is executed again; then the second one
/// is. Their reports come. Each load is reported as completed, to the source of both; what was
/// executed loads the image, each octet of it, and nothing else; and the image is there.
pub fn a_load_is_executed_twice()
    ensures pass { IsPass usual load_twice }
    ensures executed { map (λ r. r.message) (executed usual (pass_history usual load_twice))
        ≡ first_load ∷ first_load ∷ next_load ∷ [] }
    ensures first { IsReported first_load }
    ensures next { IsReported next_load }
    ensures loads { AreItsLoads (first_load ∷ first_load ∷ next_load ∷ []) }
    ensures stands { Stands image (memories usual usual_memories (pass_history usual load_twice)) }
{}
