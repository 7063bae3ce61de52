//! How many mounts show a filesystem, a plain tree or an overlay. A layer of an overlay is counted as a mount is.
ghost use Rattle.std.specs.Prelude.{◌≡◌, ◌+◌, ◌-◌, ◌↔◌, IsErr, OnErr, OnOk};
ghost use Rattle.vt_location.specs.Numbers.{most_counted};
ghost use Rattle.vt_store.specs.Counts.{mounts_in, with_mounts};

use crate::store::Store;
use std::alloc::AllocError;
use vt_location::FilesystemId;

impl Store {
    /// How many mounts show a filesystem. Layers of overlays that are directories of it count as mounts.
    pub fn mounts(&self, filesystem: FilesystemId) -> u64
        ensures { result ≡ mounts_in self.now filesystem.count }
    {
        match self.overlays.mounts(filesystem) {
            Some(mounts) => mounts,
            None => self.plain.mounts(filesystem),
        }
    }

    /// Counts one more mount of a filesystem. It does not allocate.
    ///
    /// An error says that it has 2^64 - 1 mounts.
    pub fn hold_mount(&mut self, filesystem: FilesystemId) -> Result<(), AllocError>
        ensures ok { OnOk result (self.new ≡ with_mounts filesystem.count (λ mounts. mounts + 1) self.old) }
        ensures limit { IsErr result ↔ (mounts_in self.old filesystem.count ≡ most_counted) }
        ensures err { OnErr result (self.new ≡ self.old) }
    {
        let Some(mounts) = self.overlays.mounts(filesystem) else {
            return self.plain.hold_mount(filesystem);
        };
        if mounts == u64::MAX {
            return Err(AllocError);
        }
        self.overlays.hold_mount(filesystem);
        Ok(())
    }

    /// Takes back a mount that `hold_mount` counted; a count of 0 stays 0. The filesystem stays. It does not allocate.
    pub fn release_mount(&mut self, filesystem: FilesystemId)
        ensures { self.new ≡ with_mounts filesystem.count (λ mounts. mounts - 1) self.old }
    {
        if self.overlays.mounts(filesystem).is_some() {
            self.overlays.release_mount(filesystem);
        } else {
            self.plain.release_mount(filesystem);
        }
    }
}
