//! Words of Linux that are not modelled, and what comes nearest to them.
//!
//! A row is a line `WORD WORD.. # SAID`. A word that ends in `=` stands for each that begins so.
use crate::finding::Diagnosis;
use crate::words::{Word, parts_of};

const ROWS: &str = "\
nosuid suid MS_NOSUID # no program gets other rights by its mode here: without it the answers are the same
nodev dev MS_NODEV # there are no devices here: without it the answers are the same
noatime atime nodiratime diratime relatime norelatime strictatime nostrictatime lazytime nolazytime MS_NOATIME \
MS_NODIRATIME MS_RELATIME MS_STRICTATIME MS_LAZYTIME # there are no times here: without it the answers are the \
same
sync async dirsync MS_SYNCHRONOUS MS_DIRSYNC _netdev nofail auto noauto silent loud MS_SILENT iversion noiversion \
# without it the answers are the same
mand nomand MS_MANDLOCK # there are no locks here: without it the answers are the same
size= nr_blocks= nr_inodes= inode32 inode64 huge= mpol= noswap # a filesystem has no size here: without it the \
answers are the same
mode= # a new filesystem's root has mode 755: `chmod` changes it
uid= gid= # a new filesystem's root is owned by 0:0: `chown` changes it
hidepid= subset= newinstance ptmxmode= # new filesystems are empty here: `mkdir` and `write` fill them
idmapped X-mount.idmap= MOUNT_ATTR_IDMAP # the ids of a mount are those of its filesystem here
userxattr # marks of layers are those of `opaque` and `whiteout`: without it the answers are the same
volatile nfs_export=on nfs_export=off uuid=on uuid=off uuid=auto uuid=null fsync= verity=on verity=off # without \
it the answers are the same
metacopy=on redirect_dir=on redirect_dir=follow redirect_dir=nofollow index=on xino=on xino=auto # an overlay is \
mounted with `index=off,metacopy=off,redirect_dir=off,xino=off` here
lowerdir+= datadir+= # the layers stand behind `lowerdir=`, the top one first, with colons between them
default_permissions override_creds nooverride_creds # an overlay asks the caller and its mounter, as Linux does by \
default
O_APPEND O_TRUNC # `pwrite` is given an offset, and `write` empties the file first
O_DIRECTORY O_PATH # a directory has no descriptor here: `chdir` and `chroot` keep one
O_NOFOLLOW # `lstat` tells whether a name is a symlink; `nosymfollow` is a flag of version 2
O_CLOEXEC O_NONBLOCK O_SYNC O_DSYNC O_DIRECT O_NOCTTY O_NOATIME O_LARGEFILE # without it the answers are the same
O_TMPFILE # `unlink` takes the name from a file that is open
AT_FDCWD AT_EMPTY_PATH AT_SYMLINK_NOFOLLOW AT_RECURSIVE # a path leads from the root or the working directory; a \
directory has no descriptor here
MNT_FORCE UMOUNT_NOFOLLOW MNT_EXPIRE # `umount` takes a mount that is not in use, and `lazy` any
MOVE_MOUNT_F_EMPTY_PATH MOVE_MOUNT_SET_GROUP OPEN_TREE_CLONE # a directory and a detached mount have no descriptor \
here
CLONE_NEWUSER --user --map-root-user --map-users= --map-groups= --map-user= --map-group= --map-auto # user \
namespaces are not modelled: `fork UID GID GROUPS CAPS` gives a child its rights, and `unshare` a namespace of \
mounts
CLONE_NEWPID CLONE_NEWNET CLONE_NEWIPC CLONE_NEWUTS CLONE_NEWCGROUP CLONE_NEWTIME --pid --net --ipc --uts --cgroup \
--time # of namespaces only those of mounts are modelled: `unshare`
CLONE_FS CLONE_FILES CLONE_VM CLONE_THREAD CLONE_SIGHAND CLONE_VFORK # a child has a root, a working directory, a \
umask and descriptors of its own
CAP_AUDIT_CONTROL CAP_AUDIT_READ CAP_AUDIT_WRITE CAP_BLOCK_SUSPEND CAP_BPF CAP_CHECKPOINT_RESTORE CAP_IPC_LOCK \
CAP_IPC_OWNER CAP_KILL CAP_LEASE CAP_LINUX_IMMUTABLE CAP_MAC_ADMIN CAP_MAC_OVERRIDE CAP_NET_ADMIN \
CAP_NET_BIND_SERVICE CAP_NET_BROADCAST CAP_NET_RAW CAP_PERFMON CAP_SETFCAP CAP_SETPCAP CAP_SYSLOG CAP_SYS_BOOT \
CAP_SYS_MODULE CAP_SYS_NICE CAP_SYS_PACCT CAP_SYS_PTRACE CAP_SYS_RAWIO CAP_SYS_RESOURCE CAP_SYS_TIME \
CAP_SYS_TTY_CONFIG CAP_WAKE_ALARM # no call asks for it here: without it the answers are the same
CAP_MKNOD # a whiteout needs no capability, and other devices are not modelled: without it the answers are the same
CAP_FSETID # there are no bits of set-user-ID here: without it the answers are the same
";

// The rows. The text is named here alone: each name of it costs its whole proof.
fn all_rows() -> &'static str {
    ROWS
}

// Whether a row has a word.
fn has_word(words: &str, text: &str) -> bool {
    for word in words.split(' ') {
        if word.eq_ignore_ascii_case(text) || (word.ends_with('=') && text.starts_with(word)) {
            return true;
        }
    }
    false
}

/// What comes nearest to a word of Linux that is not modelled; nothing for other words.
pub fn nearest_to(text: &str) -> Option<&'static str> {
    for row in all_rows().lines() {
        if let Some((words, said)) = row.split_once(" # ") {
            if has_word(words, text) {
                return Some(said);
            }
        }
    }
    None
}

/// The first part of the words, between commas or bars, that is not modelled, and what comes nearest to it.
pub fn unmodelled_in<'a>(
    found: &mut Diagnosis,
    words: &[Word<'a>],
) -> Option<(Word<'a>, &'static str)> {
    for word in words {
        let parts = parts_of(found, *word, [',', '|']);
        for part in &parts {
            if let Some(said) = nearest_to(part.text) {
                return Some((*part, said));
            }
        }
    }
    None
}
