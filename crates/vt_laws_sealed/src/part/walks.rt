//! Walks from mounts on which two worlds show the same.
ghost use Rattle.vt_laws_sealed.specs.Part.Walks.{StepsAgree, TextsAgree, WordsAgree};

/// If two worlds show the same on some mounts, which no step leaves and one of which has the task's root, walks from
/// these by `words` and `texts` end alike.
///
/// They end on these mounts, or with the same refusal (`ShowAlike`); texts are those of symlinks of any depth.
///
/// For `steps`, inodes are the same in some filesystems alone, and the root may be elsewhere (`ShowAlikeWhereSeen`). A
/// step that meets only these filesystems leads alike, to one of the mounts and of the filesystems, or is refused
/// alike.
pub fn walks_on_alike_mounts_agree()
    ensures words { WordsAgree }
    ensures texts { TextsAgree }
    ensures steps { StepsAgree }
{}
