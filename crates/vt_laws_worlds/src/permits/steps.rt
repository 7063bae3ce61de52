//! One step of a program whose world is the same as the policy's.
ghost use Rattle.vt_laws_worlds.specs.Permits.Steps.{StepsAreGiven, StepsKeepWorlds, StepsStayUngrouped};

/// A permit in a step (`IsStep`) is `given` by the program's numbers too. Each world that is the same as the one left
/// has all invariants (`worlds`), and is `ungrouped` unless a mount is made shared.
///
/// In a step the world is ungrouped, with counts before the next one, and the permit is judged by the next counts. A
/// new inode gets an even number that is not in use. The world after it is plain, with only counts before those not
/// taken.
pub fn steps_keep_worlds()
    ensures given { StepsAreGiven }
    ensures worlds { StepsKeepWorlds }
    ensures ungrouped { StepsStayUngrouped }
{}
