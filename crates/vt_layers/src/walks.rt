//! The walks to the layers of an overlay: the lower ones from the top, then the upper and the work directory.
ghost use Rattle.std.specs.Prelude.{◌≡◌, nat_eq, option_map, Err, IfErr, IfOk, Ok};
ghost use Rattle.vt_spec.specs.Machine.Rules.Mounting.{each_walked, layers_walked, source_walk, walked_if_given};
ghost use Rattle.vt_spec.specs.Machine.Walking.{walk_end};
ghost use Rattle.vt_tasks.specs.TaskValue.{task_of};
ghost use Rattle.vt_walk.specs.WalkValue.{location_end, location_result};
ghost use Rattle.vt_layers.specs.LayersValue.{first_layers, first_lowers, given_result, layers_result, lowers_of};

use arrayvec::ArrayVec;
use vt_location::{FilesystemId, Location, MountId, NodeRef};
use vt_looks::Look;
use vt_node::NodeId;
use vt_options::{LayerOptions, Parts};
use vt_spec::errors::Deny;
use vt_tasks::Task;
use vt_text::path::PathText;

/// The most lower layers that are kept: one more than an overlay may have.
pub const KEPT_LOWERS: usize = 129;

/// A lower layer of an overlay that is to be mounted: the directory at a location.
#[derive(Clone, Copy, Debug)]
pub struct Lower {
    pub at: Location,
}

// A list of them with room for more is filled up with this one.
impl Default for Lower {
    fn default() -> Self {
        Lower {
            at: Location {
                mount: MountId::new(0),
                node: NodeRef::new(FilesystemId::new(0), NodeId::new(0)),
            },
        }
    }
}

/// Lower layers, from the top.
pub type Lowers = ArrayVec<Lower, KEPT_LOWERS>;

/// The locations of the layers of an overlay that is to be mounted. Of more than 129 lower ones only the first 129.
#[derive(Debug, Drop)]
pub struct LayerLocations {
    pub lowers: Lowers,
    pub upper: Option<Location>,
    pub work: Option<Location>,
}

// The directory that is a layer, which is not removed.
fn layer_at<L: Look>(world: &L, who: &Task, path: &[u8]) -> Result<Location, Deny>
    ensures { location_result result
        ≡ location_end (walk_end (source_walk nat_eq (L.looks world.now) (task_of who.now) path.now)) }
{
    vt_walk::source_walk(world, who, &PathText::parse(path)?)
}

// The lower layers at these paths, from the top, of which the first 129 are kept: each is walked as the source of a mount
// is.
fn lowers_walked<L: Look>(world: &L, who: &Task, mut paths: Parts<'_>) -> Result<Lowers, Deny>
    ensures ok { IfOk result (λ lowers. Ok (lowers_of lowers.items)
        ≡ first_lowers (each_walked nat_eq (L.looks world.now) (task_of who.now) paths.entry)) }
    ensures err { IfErr result (λ deny. Err deny
        ≡ first_lowers (each_walked nat_eq (L.looks world.now) (task_of who.now) paths.entry)) }
{
    let mut lowers = Lowers::new();
    while let Some(path) = paths.next() {
        let at = layer_at(world, who, path)?;
        if !lowers.is_full() {
            lowers.push(Lower { at });
        }
    }
    Ok(lowers)
}

// The upper or the work directory, if its path is given.
fn walked_if_given<L: Look>(
    world: &L,
    who: &Task,
    path: Option<&[u8]>,
) -> Result<Option<Location>, Deny>
    ensures { given_result result ≡ walked_if_given nat_eq (L.looks world.now) (task_of who.now)
        (option_map (λ path. path.now) path.entry) }
{
    match path {
        Some(path) => Ok(Some(layer_at(world, who, path)?)),
        None => Ok(None),
    }
}

/// The locations of the layers that options name: each is walked as the source of a mount is, the lower layers from the
/// top, then the upper and the work directory. Of more than 129 lower ones all are walked, and the first 129 kept. It
/// does not allocate.
///
/// W1 (ENOENT): an empty path. The other errors are those of `source_walk`.
pub fn layers_walked<L: Look>(
    world: &L,
    who: &Task,
    options: &LayerOptions,
) -> Result<LayerLocations, Deny>
    ensures { layers_result result
        ≡ first_layers (layers_walked nat_eq (L.looks world.now) (task_of who.now) options.now) }
{
    let lowers = lowers_walked(world, who, options.lowers())?;
    let upper = walked_if_given(world, who, options.upper())?;
    let work = walked_if_given(world, who, options.work())?;
    Ok(LayerLocations {
        lowers,
        upper,
        work,
    })
}
