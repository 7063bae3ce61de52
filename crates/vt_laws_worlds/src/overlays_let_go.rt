//! What a call on overlays lets go of. Words are those of `vt_laws_mounts::letting_go`.

pub mod changing;
pub mod mounting;
