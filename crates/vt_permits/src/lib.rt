//! Grants: the change that a call may apply if no rule refuses it.
#![tactic(auto)]

mod grant;

pub use grant::{
    Attachment, DescriptorGrant, Grant, LookGrant, MakeGrant, MountGrant, NewLayer, RemoveGrant,
    TaskGrant, ToBind, ToLink, ToMake, ToMountOverlay, ToOpenNew, ToReadPart, ToRemoveDirectory,
    ToRename, ToSetType, ToUnlink, ToWritePart, WriteGrant,
};
