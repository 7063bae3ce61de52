//! Who may do what to an object: credentials(7), path_resolution(7) and capabilities(7). And what may be done through a
//! mount: mount(2).
#![tactic(auto)]

pub mod access;
pub mod capabilities;
pub mod credentials;
pub mod mount_flags;
pub mod requests;

pub use access::{allows, masked, may_delete_sticky, owns};
pub use bitflags::Flags;
pub use capabilities::Caps;
pub use credentials::{Cred, MAX_GROUPS};
pub use mount_flags::MountFlags;
pub use requests::Rights;
pub use vt_spec::attributes::{Attr, Kind, Mode};
