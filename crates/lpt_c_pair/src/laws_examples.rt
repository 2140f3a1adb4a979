//! Runs of two ends behind handles, and what comes of them: functions with empty bodies.

ghost use Rattle.lpt_c_pair.specs.Called.{CallsCanBe};
ghost use Rattle.lpt_c_pair.specs.Leavings.{LeavingsCanBe};
ghost use Rattle.lpt_c_pair.specs.Nodes.{NodesCanBe};
ghost use Rattle.lpt_c_pair.specs.TakenBack.{WrittenCanBeTakenBack};
ghost use Rattle.lpt_c_pair.specs.Worked.{TornCanBeRedone, WorkedCanBe, WrittenCanBePutBack};

/// With any two new ends, of which the spacecraft's has its memory: ground asks for a load; the
/// spacecraft takes its packet, reads it, and by a call that fails no other, executes it, and is
/// restored from its state. All of it can be done; the load was released and executed, and stands
/// in the memory. It is the same if the machine is reset after that, when the packet has come once
/// more.
pub fn calls_can_be()
    ensures { CallsCanBe }
{}

/// With any two new ends, of which the spacecraft's program has the memories: ground asks for a
/// load; the spacecraft takes its packet, reads and executes it, writes what it owes, and is
/// restored from its state. All of it can be done; the load was released and executed, and stands
/// in the memory.
pub fn worked_can_be()
    ensures { WorkedCanBe }
{}

/// The same can be done if both ends are kept before anything that depends on it is handed over,
/// and the spacecraft's machine is reset while half of the load is written: its end is restored
/// from what was kept behind the execution, and the write that is owed is made again.
pub fn torn_can_be_redone()
    ensures { TornCanBeRedone }
{}

/// The end is kept before the load is written, and the machine is reset before the request is
/// executed: what stood there is put back, and the end is restored from what was kept.
pub fn written_can_be_put_back()
    ensures { WrittenCanBePutBack }
{}

/// With any two new ends, of which the spacecraft's has its memory: a load comes twice. The program
/// drops it when it comes first, and makes no report; it refuses it when it comes again, and makes
/// one. The memory stays as it was.
pub fn leavings_can_be()
    ensures { LeavingsCanBe }
{}

/// If the program has the memory: it reads the first and writes the load, puts back what stood
/// there and drops the request. It executes the second, with its write owed, and its machine is
/// reset while half of that is written. The second alone is executed, and the load stands in the
/// memory.
pub fn written_can_be_taken_back()
    ensures { WrittenCanBeTakenBack }
{}

/// Two nodes with no handles do the same as `calls_can_be` says. Both are written in time, and the
/// spacecraft's machine is reset when the packet has come once more. What is left are the same
/// moves.
pub fn nodes_can_be()
    ensures { NodesCanBe }
{}
