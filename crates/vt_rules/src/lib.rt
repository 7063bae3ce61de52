//! The rules of calls, each over what a world shows: the rights, kinds, places and sizes that calls need.
#![tactic(auto)]

mod attributes;
mod descriptors;
mod making;
mod mounting;
mod pivoting;
mod removing;
mod rights;
mod tasks;

pub use attributes::{attr_permit, may_chown, may_mark};
pub use descriptors::{
    CreateHow, OpenHow, create_file_permit, open_file_permit, readable_file, writable_file,
};
pub use making::{
    empty_directory, may_link, may_make, may_make_whiteout, new_file_permit, rewrite_permit,
};
pub use mounting::{has_shared_parent, is_attached_somewhere, may_move};
pub use pivoting::{is_on_descendant, is_same_mount, lies_under, may_pivot};
pub use removing::{is_name_of, may_rename, may_rmdir, may_stay, may_unlink};
pub use rights::{
    attr_at, is_directory, is_elsewhere, is_kept, is_kind, is_no_root, is_noexec, is_read_only,
    is_same_filesystem, is_shared, is_unbindable, lacks, may, name_at, new_attr, symlink_attr,
    whiteout_attr,
};
pub use tasks::{is_barren, may_enter, may_fork, named};
