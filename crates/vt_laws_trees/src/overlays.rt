//! Changes of overlays keep that the tree is what the layers show. They are before the sweep.
//!
//! These laws are of an overlay as one record (`Merge`), its lower layers as they are. It *shows its layers*
//! (`IsWhatIsShown`) if its tree is at every path what they show, and each inode has one real object of its kind,
//! owner, mode and content. It is *whole* (`IsWhole`) if, too, its tree, with its numbers, and theirs are trees,
//! layers' directories exist, and names lead to the upper one from the root.
//!
//! A *good change* of a whole overlay asks for what it may (`IsAskedWell`). It names what exists, and gives and takes
//! names that are free or of what is empty. It sets no mark, makes no whiteout (O4), and moves directories as O1 lets.
//! Its numbers are *new*: distinct, and of no inode of the upper tree. *In a world* it is through an overlay with an
//! upper layer, in a world with all invariants, by distinct numbers that no inode has.
//!
//! Wrong definitions were tried by hand, each alone. The check of a law failed, and a worked example of
//! `vt_machine_examples` has answers against a law:
//!
//! - no whiteout where only a second lower layer has the name: `steps_keep_what_is_shown`,
//!   `a_name_of_a_second_lower_layer`;
//! - directories merged across a file of a middle layer: `one_object_is_shown`, `directory_over_file_over_directory`;
//! - a lock that forgets upper objects: `lower_layers_are_locked`,
//!   `an_unlinked_object_counts_as_under_its_upper_directory`;
//! - no opaque mark on a new directory over a lower one: `overlays_change_their_upper_layer`,
//!   `whiteout_opaque_mark_and_a_second_mounting`;
//! - an opaque copy of a directory: the same law, `a_copied_directory_hides_nothing`;
//! - no whiteout under the old name of a move: the same law, `the_same_after_mounting_again`.

pub mod changes;
pub mod merged;
pub mod seen;
pub mod steps;
pub mod whole;
