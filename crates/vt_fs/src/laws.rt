//! Laws of the plain filesystems as the definitions see them.
ghost use Rattle.vt_fs.specs.Laws.{FilesystemsAreFound, NumbersAreApart, NumbersAreCounted, NumbersAreListed, TreesNameParents};

/// The numbers beside a tree are those of its inodes (`listed`), each once (`apart`), and there are as many as inodes
/// are counted (`counted`).
pub fn numbers_are_those_of_inodes()
    ensures listed { NumbersAreListed }
    ensures apart { NumbersAreApart }
    ensures counted { NumbersAreCounted }
{}

/// The definitions find a filesystem by its number as code does by its count.
pub fn filesystems_are_found()
    ensures { FilesystemsAreFound }
{}

/// In a tree whose directories without a name are their own parents, a directory other than the root has a name in its
/// parent, or is its own parent.
pub fn trees_name_parents()
    ensures { TreesNameParents }
{}
