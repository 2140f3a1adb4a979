//! What holds of every world: a function whose body reads the world and does nothing.

ghost use Rattle.lpt_world.specs.Worlds.{Promised};

use crate::World;

impl World {
    /// What is promised holds of every world.
    pub(crate) fn promise_is_kept(&self)
        ensures { Promised self.now }
    {
        let _journal = self.journal();
    }
}
