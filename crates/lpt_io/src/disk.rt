//! A disk.

/// Files by their paths, as a system keeps them.
pub trait Disk: Drop {
    ghost use Rattle.std.specs.Prelude.{Option, OnErr, OnOk};
    ghost use Rattle.lpt_io.specs.Disks.{Contents, IsPut, IsRenamed, Same, SameBut, Step};

    /// Why something couldn't be done.
    type Fault: Drop;

    // What is at each path, if that is known.
    ghost found: { Self → Option Contents };

    /// Makes a file at this path, in place of one that is there, with these octets, and as the file
    /// at the other path is otherwise, if there is one.
    ///
    /// Errors: it couldn't be made. Anything may be at this path then.
    fn put(&mut self, path: &str, like: &str, octets: &[u8]) -> Result<(), Self::Fault>
        ensures ok { OnOk result (Step (IsPut path.now octets.now) (found self.old)
            (found self.new)) }
        ensures err { OnErr result (Step (SameBut path.now) (found self.old) (found self.new)) };

    /// Gives the file at one path the other, in place of one that is there.
    ///
    /// Errors: it couldn't be given that. All is then as it was.
    fn rename(&mut self, from: &str, to: &str) -> Result<(), Self::Fault>
        ensures ok { OnOk result (Step (IsRenamed from.now to.now) (found self.old)
            (found self.new)) }
        ensures err { OnErr result (Step Same (found self.old) (found self.new)) };

    /// Forces the name at this path to the disk.
    ///
    /// Errors: it couldn't be forced.
    fn settle(&mut self, path: &str) -> Result<(), Self::Fault>
        ensures { Step Same (found self.old) (found self.new) };

    /// Removes the file at this path, if it can.
    fn remove(&mut self, path: &str)
        ensures { Step (SameBut path.now) (found self.old) (found self.new) };
}
