//! The examples, by `checks/cookbook --write`.
mod build_with_bind;
mod busy_unmount;
mod bwrap;
mod bwrap_pivots;
mod denials;
mod docker_volumes;
mod image_build;
mod image_layer;
mod image_of_three_layers;
mod lazy_unmount;
mod moved_mounts;
mod nspawn;
mod nspawn_pivot;
mod pods_share_a_volume;
mod private_volume;
mod release_and_service;
mod replace_by_rename;
mod replaced_while_opened;
mod runc_pivot;
mod runc_root;
mod sandbox;
mod sealed_in_any_order;
mod sealed_sandbox;
mod secret_file;
mod slave_root;
mod sticky_tmp;
mod two_runtimes;
mod two_users_of_an_image;
mod unshare_mounts;
mod volume_propagation;

/// The examples in the order of the cookbook, one a line: the name, and what it shows.
pub const LIST: &str = "\
docker-volumes         what docker run -v and bind-propagation=rshared show of a disk that the host mounts later\n\
pods-share-a-volume    two pods share a volume with mountPropagation: Bidirectional\n\
runc-pivot             runc's root by pivot_root(\".\", \".\"), and the lazy unmount of the old one (version 2)\n\
runc-root              runc's root with --no-pivot: a moved mount and a changed root\n\
bwrap                  bwrap: read-only /usr, a tmpfs, a work directory, and a user without capabilities\n\
bwrap-pivots           bwrap's two pivots (version 2)\n\
nspawn-pivot           systemd-nspawn makes its tree the root by a pivot (version 2)\n\
nspawn                 systemd-nspawn without pivot_root: its tree is moved to /\n\
unshare-mounts         unshare -m, with --propagation unchanged and with its default\n\
busy-unmount           why an unmount is busy, and which copy stays behind\n\
secret-file            who reads a secret of mode 400\n\
sticky-tmp             a sticky /tmp: who removes what\n\
build-with-bind        an image build with a context that is bound read-only\n\
moved-mounts           which mounts move takes\n\
lazy-unmount           a lazy unmount while a file is open\n\
sandbox                a sandbox of a build tool\n\
release-and-service    a release behind a symlink\n\
image-build            an image build\n\
replace-by-rename      a file replaced without a gap\n\
replaced-while-opened  a file is replaced while another task opens it, in every order (vtree turns --all)\n\
two-runtimes           two runtimes mount at one place, in every order (vtree turns --all)\n\
sealed-in-any-order    a sealed sandbox answers the same in every order (vtree turns --all, version 2)\n\
volume-propagation     propagation of a Kubernetes volume\n\
private-volume         Docker's private volumes\n\
slave-root             runc's slaves\n\
image-layer            a layer of an image, unpacked: whiteouts and opaque directories\n\
image-of-three-layers  what a read-only container sees of three layers\n\
two-users-of-an-image  who may read what an image holds\n\
sealed-sandbox         whether a sandbox is sealed off from the host, and what unseals it (version 2)\n\
denials                each kind of denial\n\
";

// Their names.
static NAMES: [&str; 30] = [
    "docker-volumes",
    "pods-share-a-volume",
    "runc-pivot",
    "runc-root",
    "bwrap",
    "bwrap-pivots",
    "nspawn-pivot",
    "nspawn",
    "unshare-mounts",
    "busy-unmount",
    "secret-file",
    "sticky-tmp",
    "build-with-bind",
    "moved-mounts",
    "lazy-unmount",
    "sandbox",
    "release-and-service",
    "image-build",
    "replace-by-rename",
    "replaced-while-opened",
    "two-runtimes",
    "sealed-in-any-order",
    "volume-propagation",
    "private-volume",
    "slave-root",
    "image-layer",
    "image-of-three-layers",
    "two-users-of-an-image",
    "sealed-sandbox",
    "denials",
];

// The script of the example at this place of the list.
fn script_at(place: usize) -> Option<&'static str> {
    match place {
        0 => Some(docker_volumes::SCRIPT),
        1 => Some(pods_share_a_volume::SCRIPT),
        2 => Some(runc_pivot::SCRIPT),
        3 => Some(runc_root::SCRIPT),
        4 => Some(bwrap::SCRIPT),
        5 => Some(bwrap_pivots::SCRIPT),
        6 => Some(nspawn_pivot::SCRIPT),
        7 => Some(nspawn::SCRIPT),
        8 => Some(unshare_mounts::SCRIPT),
        9 => Some(busy_unmount::SCRIPT),
        10 => Some(secret_file::SCRIPT),
        11 => Some(sticky_tmp::SCRIPT),
        12 => Some(build_with_bind::SCRIPT),
        13 => Some(moved_mounts::SCRIPT),
        14 => Some(lazy_unmount::SCRIPT),
        15 => Some(sandbox::SCRIPT),
        16 => Some(release_and_service::SCRIPT),
        17 => Some(image_build::SCRIPT),
        18 => Some(replace_by_rename::SCRIPT),
        19 => Some(replaced_while_opened::SCRIPT),
        20 => Some(two_runtimes::SCRIPT),
        21 => Some(sealed_in_any_order::SCRIPT),
        22 => Some(volume_propagation::SCRIPT),
        23 => Some(private_volume::SCRIPT),
        24 => Some(slave_root::SCRIPT),
        25 => Some(image_layer::SCRIPT),
        26 => Some(image_of_three_layers::SCRIPT),
        27 => Some(two_users_of_an_image::SCRIPT),
        28 => Some(sealed_sandbox::SCRIPT),
        29 => Some(denials::SCRIPT),
        _ => None,
    }
}

/// The script of the example of this name.
pub fn script_of(name: &str) -> Option<&'static str> {
    for (place, other) in NAMES.iter().enumerate() {
        if *other == name {
            return script_at(place);
        }
    }
    None
}

/// The first example, in the order of the cookbook, whose name begins with this text.
pub fn meant(text: &str) -> Option<&'static str> {
    for name in &NAMES {
        if name.starts_with(text) {
            return Some(*name);
        }
    }
    None
}

/// The options by which the example of this name is read, with a space behind them.
pub fn options_of(name: &str) -> &'static str {
    match name {
        "runc-pivot" | "bwrap-pivots" | "nspawn-pivot" | "sealed-in-any-order" | "sealed-sandbox" =>
            "--script 2 ",
        _ => "",
    }
}
