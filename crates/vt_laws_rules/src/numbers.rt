//! Numbers of inodes, mounts, groups, filesystems and namespaces do not matter. A world *keeps to* some numbers if each
//! renaming of others leaves it as it is (`KeepsTo`).
ghost use Rattle.vt_laws_rules.specs.Numbers.{AnyTwoTextsAreOne, CallsDoNotSeeNumbers, CallsKeepToNumbers, CallsMakeNoOtherNumber, LinesKeepToNumbers, OpeningKeepsToFour, RoomServes, TextsAreTold, UsedNumbersAreNamed, WholeMachineHasOneText, WorldsKeepToHand, DirectivesDoNotSeeNumbers, LinesDoNotSeeNumbers, NamedIsKept, SameWorldsAnswerAlike, SomeTextIsThere, SuppliesDoNotMatter, TurnsDoNotSeeNumbers};

/// With all numbers of a world and those handed in renamed one-to-one, `calls`, `directives`, `lines` and `turns` are
/// answered alike and leave the renamed world. Worlds that differ in numbers alone answer each call alike and stay so
/// (`same`).
pub fn numbers_do_not_matter()
    ensures calls { CallsDoNotSeeNumbers }
    ensures directives { DirectivesDoNotSeeNumbers }
    ensures lines { LinesDoNotSeeNumbers }
    ensures turns { TurnsDoNotSeeNumbers }
    ensures same { SameWorldsAnswerAlike }
{}

/// A world that keeps to some numbers, handed-in ones among them, keeps to them after a call or a line (`calls`,
/// `lines`). The opening world keeps to its four (`opening`), each world to those it has (`named`).
///
/// If at least two numbers are left out, those in use are among the numbers kept to (`used`), also after a call
/// (`made`).
pub fn calls_make_no_other_number()
    ensures opening { OpeningKeepsToFour }
    ensures named { NamedIsKept }
    ensures calls { CallsKeepToNumbers }
    ensures lines { LinesKeepToNumbers }
    ensures used { UsedNumbersAreNamed }
    ensures made { CallsMakeNoOtherNumber }
{}

/// Given the lines in which allocations fail, a script has one text, whatever unused numbers each line is handed, if
/// infinitely many are left over (`one`).
///
/// Numbers that the world no longer keeps to may come again.
///
/// - `supplies`: in worlds that differ in their numbers alone, a call is answered alike by any two such supplies, and
///   leaves such worlds.
/// - `hand`: after a line the world keeps to the numbers in hand, those kept before it and those handed in.
/// - `serves`: none of the numbers of such a supply is in use, and no two are equal.
/// - `allowed`: the definition of the machine allows each such text.
pub fn answers_are_one_text()
    ensures one { AnyTwoTextsAreOne }
    ensures supplies { SuppliesDoNotMatter }
    ensures hand { WorldsKeepToHand }
    ensures serves { RoomServes }
    ensures allowed { TextsAreTold }
{}

/// `text_of`, given for each line whether an allocation fails, computes a text of the script (`some`), and each text of
/// the script is that one (`one`).
///
/// It hands each line its own row of numbers.
pub fn whole_machine_has_one_text()
    ensures some { SomeTextIsThere }
    ensures one { WholeMachineHasOneText }
{}
