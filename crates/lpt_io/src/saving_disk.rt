//! Files that are written whole.

ghost use Rattle.std.specs.Prelude.{◌⊎◌, OnErr, OnOk};
ghost use Rattle.lpt_io.specs.Disks.{IsWritten, SameBut, Step};

use crate::Disk;

/// Writes octets at one path, and gives them the other once all are there.
///
/// Errors: they couldn't be written. What was at the other path is there then.
pub fn write_whole<D: Disk>(
    disk: &mut D,
    part: &str,
    path: &str,
    octets: &[u8],
) -> Result<(), D::Fault>
    ensures written { OnOk result (Step (IsWritten part.now path.now octets.now)
        (D.found disk.old) (D.found disk.new)) }
    ensures left { OnErr result (Step (SameBut part.now) (D.found disk.old) (D.found disk.new)) }
{
    match put_and_rename(disk, part, path, octets) {
        Ok(()) => Ok(()),
        Err(fault) => {
            disk.remove(part);
            Err(fault)
        }
    }
}

/// Does the same, and forces the name to the disk.
///
/// Errors: they couldn't be written, and what was at the other path is there then; or its name
/// alone couldn't be forced, and they are there.
pub fn write_for_good<D: Disk>(
    disk: &mut D,
    part: &str,
    path: &str,
    octets: &[u8],
) -> Result<(), D::Fault>
    ensures written { OnOk result (Step (IsWritten part.now path.now octets.now)
        (D.found disk.old) (D.found disk.new)) }
    ensures left { OnErr result (Step (SameBut part.now) (D.found disk.old) (D.found disk.new)
        ⊎ Step (IsWritten part.now path.now octets.now) (D.found disk.old) (D.found disk.new)) }
{
    write_whole(disk, part, path, octets)?;
    disk.settle(path)
}

// Writes octets at one path, and gives them the other.
fn put_and_rename<D: Disk>(
    disk: &mut D,
    part: &str,
    path: &str,
    octets: &[u8],
) -> Result<(), D::Fault>
    ensures written { OnOk result (Step (IsWritten part.now path.now octets.now)
        (D.found disk.old) (D.found disk.new)) }
    ensures left { OnErr result (Step (SameBut part.now) (D.found disk.old) (D.found disk.new)) }
{
    disk.put(part, path, octets)?;
    disk.rename(part, path)
}
