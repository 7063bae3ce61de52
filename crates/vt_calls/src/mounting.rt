//! Grants to change mounts: mount(2), umount(2), pivot_root(2).
ghost use Rattle.vt_permits.specs.declared.grant.Grant.TheVariants.{Mount, Overlay};
ghost use Rattle.vt_permits.specs.declared.grant.MountGrant.TheVariants.{Attach};
ghost use Rattle.vt_calls.specs.Counting.{CountsForTasks};
ghost use Rattle.vt_calls.specs.Permitted.{EndsGiven, IsGiven};

use crate::answers::done;
use vt_ns::World;
use vt_permits::{Attachment, MountGrant, ToMountOverlay};
use vt_request::{Answer, TaskName};
use vt_spec::errors::Deny;

// Changes mounts as is granted. S5 (ENOMEM): an allocation failed, a count of uses is full, or no number is
// left; nothing has changed.
#[inline(always)]
pub(crate) fn change_mounts(
    world: &mut World,
    name: &TaskName,
    grant: MountGrant,
) -> Result<Answer, Deny>
    requires { IsGiven world.old name.now (Mount grant) }
    ensures ends { EndsGiven world.old name.now (Mount grant) result world.new }
    ensures counts { CountsForTasks world.old world.new }
{
    match grant {
        MountGrant::Attach(attachment) => attach(world, name, attachment),
        MountGrant::Unmount { mount } => done(world.unmount(name, mount)),
        MountGrant::UnmountLazily { mount } => done(world.unmount_lazily(name, mount)),
        MountGrant::SetFlags { mount, flags } => {
            world.set_flags(name, mount, flags);
            Ok(Answer::Done)
        }
        MountGrant::SetType(change) => done(world.set_type(name, change)),
        MountGrant::Pivot { new, put } => done(world.pivot_root(name, new, put)),
    }
}

// Attaches mounts as is granted. S5 (ENOMEM): an allocation failed, a count of uses is full, or no number is left;
// nothing has changed.
#[inline(always)]
fn attach(world: &mut World, name: &TaskName, attachment: Attachment) -> Result<Answer, Deny>
    requires { IsGiven world.old name.now (Mount (Attach attachment)) }
    ensures ends { EndsGiven world.old name.now (Mount (Attach attachment)) result world.new }
    ensures counts { CountsForTasks world.old world.new }
{
    match attachment {
        Attachment::Plain { destination, flags } => {
            done(world.mount_plain(name, destination, flags))
        }
        Attachment::Bind(bind) => done(world.bind(name, bind)),
        Attachment::Move { mount, destination } => done(world.move_mount(name, mount, destination)),
    }
}

// Mounts a new overlay as is granted. S5 (ENOMEM): an allocation failed, a count of uses is full, no number is left, or
// the overlay has an upper layer, which no overlay of a world has yet; nothing has changed.
#[inline(always)]
pub(crate) fn mount_overlay(
    world: &mut World,
    name: &TaskName,
    new: ToMountOverlay,
) -> Result<Answer, Deny>
    requires { IsGiven world.old name.now (Overlay new) }
    ensures ends { EndsGiven world.old name.now (Overlay new) result world.new }
    ensures counts { CountsForTasks world.old world.new }
{
    done(world.mount_overlay(name, new))
}
