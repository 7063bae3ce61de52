//! Lists of tasks: what they are to the worlds of the definitions, and how often they use locations and namespaces.
//!
//! Each public function is a theorem of the written policy, and does nothing.
ghost use Rattle.vt_tasks.specs.Counts.{ClosedUses, DirectoryUses, EnteredUses, ExitedTasks, ExitedUses, ForkedTasks, ForkedUses, HasTasksWhileCounted, MovedUses, OpenedUses, PivotedTasks, PivotedUses, ReplacedTasks, ReplacedUses, RootUses};
ghost use Rattle.vt_tasks.specs.WorldTasks.{LocationsAreOfTasks, OneGoes, OneIsCalled, OneIsForked, OneIsReplaced, OpensWithTheFirst, TasksArePivoted, TheCalledHasTheName, TheCalledIsReplaced};

/// A list of tasks changes as the tasks of a world do: `opening`, `replaced`, `without`, `forked`, `pivoted`. It has
/// the same `locations`, and finds and changes the task of a name alike (`called`, `changed`, `name`).
pub fn tasks_change_as_in_worlds()
    ensures opening { OpensWithTheFirst }
    ensures called { OneIsCalled }
    ensures replaced { OneIsReplaced }
    ensures without { OneGoes }
    ensures forked { OneIsForked }
    ensures pivoted { TasksArePivoted }
    ensures locations { LocationsAreOfTasks }
    ensures changed { TheCalledIsReplaced }
    ensures name { TheCalledHasTheName }
{}

/// The roots, working directories and open files that pass a test are counted where one task is `replaced`, `forked` or
/// `exited`, or tasks are `pivoted`. No two tasks have the same name.
///
/// `directory`, `root`, `entered`, `moved`, `opened` and `closed` replace one task. For `closed`, it has its open files
/// in the order of their numbers. `pivoted` asks nothing of names.
pub fn uses_of_locations_are_counted()
    ensures replaced { ReplacedUses }
    ensures directory { DirectoryUses }
    ensures root { RootUses }
    ensures entered { EnteredUses }
    ensures moved { MovedUses }
    ensures pivoted { PivotedUses }
    ensures opened { OpenedUses }
    ensures closed { ClosedUses }
    ensures forked { ForkedUses }
    ensures exited { ExitedUses }
{}

/// If no two tasks have the same name, the tasks of a namespace are counted where one is `replaced`, `forked` or
/// `exited`, or tasks are `pivoted`. A namespace has tasks just while its count is not zero (`used`).
pub fn tasks_of_namespaces_are_counted()
    ensures used { HasTasksWhileCounted }
    ensures replaced { ReplacedTasks }
    ensures pivoted { PivotedTasks }
    ensures forked { ForkedTasks }
    ensures exited { ExitedTasks }
{}
