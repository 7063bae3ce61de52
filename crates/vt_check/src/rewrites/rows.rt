//! The rows of calls in other words.

const ROWS: &str = "\
# What files contain, their names, and the working directory, as cat(1), cp(1), mv(1), rm(1) and a shell have them.
cat * => read $1
less * => read $1
more * => read $1
cp * * # no call copies; `read` answers the content of a file, and `write` sets it
cp ... # no call copies; `read` answers the content of a file, and `write` sets it
mv * * => rename $1 $2
mv -f * * => rename $2 $3
mv ... # `rename OLD NEW` renames one object
rm -f * => unlink $2
rm -r ... # `unlink` removes a file, and `rmdir` an empty directory; no call removes a tree
rm -rf ... # `unlink` removes a file, and `rmdir` an empty directory; no call removes a tree
rm -fr ... # `unlink` removes a file, and `rmdir` an empty directory; no call removes a tree
rm -R ... # `unlink` removes a file, and `rmdir` an empty directory; no call removes a tree
rm * => unlink $1
cd * => chdir $1
cd => chdir /
umask # no call tells the umask; `umask 022` sets it
pwd # no call tells the working directory; `ls .` lists it

# What is listed and what is made, as ls(1), touch(1), mknod(1) and setfattr(1) have it.
ls => ls .
ls -l => ls .
ls -a => ls .
ls -la => ls .
ls -l * => ls $2
ls -a * => ls $2
ls -la * => ls $2
ls -ld * => stat $2
touch * => open $1 w create 666 # it leaves a descriptor open
mknod * c 0 0 => whiteout $1 # a whiteout is a character device 0/0
mknod ... # devices, pipes and sockets are not modelled
setfattr -n trusted.overlay.opaque -v y * => opaque $5 yes
setfattr -x trusted.overlay.opaque * => opaque $3 no
setfattr ... # of extended attributes only `trusted.overlay.opaque` is modelled: `opaque PATH yes`
mkfifo ... # devices, pipes and sockets are not modelled

# Links, directories and questions about objects, as truncate(1), ln(1), test(1) and mkdir(1) have them.
truncate * 0 => write $1 \\e
truncate -s 0 * => write $3 \\e
truncate ... # `write` sets the whole content of a file
ln -s * * => symlink $2 $3
ln -sf * * => symlink $2 $3 # `unlink` takes away first what stands there
ln -s * # `symlink TEXT PATH` makes a symlink with this text
ln * * => link $1 $2
test -e * => stat $2
test -f * => stat $2
test -d * => stat $2
test -L * => lstat $2
test ... # the call that is meant answers whether it may: `stat`, `read`, `write`, `exec`, `ls`
access ... # the call that is meant answers whether it may: `stat`, `read`, `write`, `exec`, `ls`
mkdir -m * * => mkdir $3 $2
mkdir /* /* => mkdir $1 | mkdir $2 # `mkdir` makes one directory a line

# Files that are opened, as open(2) has them.
exec -a ... # it is given a path alone
exec * ... => exec $1 # it is given a path alone
creat * => open $1 w create 644 | write $1 \\e # `write` empties a file that was there; a descriptor stays open
creat * * => open $1 w create $2 | write $1 \\e # `write` empties a file that was there; a descriptor stays open
fstat ... # of descriptors there are `open`, `pread`, `pwrite` and `close`
fchmod ... # of descriptors there are `open`, `pread`, `pwrite` and `close`
fchown ... # of descriptors there are `open`, `pread`, `pwrite` and `close`
fchdir ... # a directory has no descriptor here: `chdir PATH` is given a path
openat ... # a directory has no descriptor here: `open PATH r` is given a path
openat2 ... # a directory has no descriptor here: `open PATH r` is given a path
mkdirat ... # a directory has no descriptor here: `mkdir PATH` is given a path
unlinkat ... # a directory has no descriptor here: `unlink PATH` and `rmdir PATH` are given a path
renameat ... # a directory has no descriptor here: `rename OLD NEW` is given paths
linkat ... # a directory has no descriptor here: `link OLD NEW` is given paths
symlinkat ... # a directory has no descriptor here: `symlink TEXT PATH` is given a path
fchownat ... # a directory has no descriptor here: `chown PATH UID GID` is given a path
fchmodat ... # a directory has no descriptor here: `chmod PATH MODE` is given a path
name_to_handle_at ... # a directory has no descriptor here
open * O_RDONLY => open $1 r
open * O_WRONLY => open $1 w
open * O_RDWR => open $1 rw
open * O_WRONLY|O_CREAT * => open $1 w create $3
open * O_RDWR|O_CREAT * => open $1 rw create $3
open * O_WRONLY|O_CREAT|O_EXCL * => open $1 w excl $3
open * O_RDWR|O_CREAT|O_EXCL * => open $1 rw excl $3
open * * create * excl => open $1 $2 excl $4 # `excl` creates too
open * * create excl * => open $1 $2 excl $5 # `excl` creates too
open * * excl create * => open $1 $2 excl $5 # `excl` creates too
lseek ... # `pread` and `pwrite` are given an offset

# Modes and owners, as chmod(1), chgrp(1) and chown(1) have them.
chmod * * => chmod $2 $1
chmod -R ... # a call changes one object; there is no `-R`
chown -R ... # a call changes one object; there is no `-R`
chgrp * * => chown $2 - $1
chown * root root => chown $1 0 0
chown * root => chown $1 0 -
chown root * => chown $2 0 -
chown root:root * => chown $2 0 0
chown * root:root => chown $1 0 0
chown * /* => chown $2 @1
chown * /* => chown $2 $1 -
chown * * => chown $1 $2 - # `-` leaves what is there
chown * - - # one of UID and GID is a number

# Mounts of overlays, as mount(8) has them.
mount -t overlay -o * * * => mount overlay $6 ^4 # an overlay is read here, and not written
mount -t overlay * -o * * => mount overlay $6 ^5 # an overlay is read here, and not written
mount -t overlay * * -o * => mount overlay $4 ^6 # an overlay is read here, and not written
mount -o * -t overlay * * => mount overlay $6 ^2 # an overlay is read here, and not written
mount overlay -o * * => mount overlay $4 ^3
mount overlay overlay -o * * => mount overlay $5 ^4
mount overlay * -o * => mount overlay $2 ^4
overlay * * => mount overlay $1 ^2
mount -t overlay ... # an overlay is read here, and not written, and has two layers at least: `mount overlay /m \
lowerdir=/high:/low`

# New mounts, as mount(8) and findmnt(8) have them.
mount => mounts
findmnt ... => mounts
mounts ... => mounts
mount tmpfs * => mount plain $2
mount tmpfs tmpfs * => mount plain $3
mount tmpfs * * => mount plain $2 %3
mount -t tmpfs * => mount plain $3
mount -t tmpfs * * => mount plain $4
mount -t tmpfs -o * * * => mount plain $6 %4
mount -t tmpfs * -o * * => mount plain $6 %5
mount -t tmpfs * * -o * => mount plain $4 %6
mount -o * -t tmpfs * * => mount plain $6 %2
mount -t bind * * => bind $3 $4
mount -t rbind * * => rbind $3 $4
mount -t * * /* => mount plain $4 # of filesystems only new, empty ones and overlays are modelled: `mkdir` and \
`write` fill one
mount -t ... # of filesystems only new, empty ones and overlays are modelled: `mount plain`, `mount overlay`

# Binds and moves, as mount(8) has them.
mount --bind * * => bind $2 $3
mount -B * * => bind $2 $3
mount -o bind * * => bind $3 $4
mount bind * * => bind $2 $3
mount --rbind * * => rbind $2 $3
mount -R * * => rbind $2 $3
mount -o rbind * * => rbind $3 $4
mount rbind * * => rbind $2 $3
mount --move * * => move $2 $3
mount -M * * => move $2 $3
mount move * * => move $2 $3
mount --bind -o * * * => bind $4 $5 | remount $5 %3 # a bind has the flags of its source until then
mount -o * --bind * * => bind $4 $5 | remount $5 %2 # a bind has the flags of its source until then
mount -o ~bind * * => bind $3 $4 | remount $4 %2 # a bind has the flags of its source until then
mount -o ~rbind * * => rbind $3 $4 | remount $4 %2 # a bind has the flags of its source until then
bind * * * => bind $1 $2 | remount $2 %3 # a bind has the flags of its source until then
bind -o * * * => bind $3 $4 | remount $4 %2 # a bind has the flags of its source until then
rbind -o * * * => rbind $3 $4 | remount $4 %2 # a bind has the flags of its source until then
rbind * * * => rbind $1 $2 | remount $2 %3 # a bind has the flags of its source until then

# The flags of mounts, and unmounts, as mount(8), umount(8) and umount2(2) have them.
mount -o ~remount * => remount $3 %2
mount -o ~remount * * => remount $4 %2
mount * -o ~remount => remount $1 %3
mount /* => mount plain $1
mount /* * => mount plain $1 %2
remount * /* => remount $2 %1
remount /* -o * => remount $1 %3
remount -o * * => remount $3 %2
mount_setattr /* * => remount $1 %2 # it changes the flags of one mount; `rtype` alone changes the mounts below too
mount_setattr ... # `remount PATH FLAGS` changes the flags of one mount, and `rtype PATH TYPE` the types of a tree
open_tree ... # a mount without a place has no descriptor here: `bind SOURCE PATH` puts a copy where it is to be
move_mount /* /* => move $1 $2
move_mount ... # a mount without a place has no descriptor here: `move SOURCE PATH` moves one that has a place
fsopen ... # `mount plain PATH` makes a new filesystem and mounts it, `mount overlay PATH OPTIONS` an overlay
fsconfig ... # `mount plain PATH` makes a new filesystem and mounts it, `mount overlay PATH OPTIONS` an overlay
fsmount ... # `mount plain PATH` makes a new filesystem and mounts it, `mount overlay PATH OPTIONS` an overlay
fspick ... # `remount PATH FLAGS` changes the flags of a mount
statmount ... => mounts
listmount ... => mounts
umount -l * => lazy $2
umount --lazy * => lazy $2
umount * lazy => lazy $1
umount * -l => lazy $1
umount * MNT_DETACH => lazy $1
umount2 * MNT_DETACH => lazy $1
umount2 * 0 => umount $1
umount2 * => umount $1
umount -f ... # a forced unmount is not modelled
umount -R ... # `lazy` detaches a mount and all below it, busy or not; `umount` detaches one
umount --recursive ... # `lazy` detaches a mount and all below it, busy or not; `umount` detaches one

# Namespaces and roots, as unshare(1), nsenter(1) and chroot(1) have them.
unshare -m => unshare # unshare(1) then makes all mounts private, as `rtype / private` does
unshare --mount => unshare # unshare(1) then makes all mounts private, as `rtype / private` does
unshare -m --propagation unchanged => unshare
unshare -m --propagation * => unshare | rtype / $3 # it is the type of all its mounts
unshare --mount --propagation unchanged => unshare
unshare --mount --propagation * => unshare | rtype / $3 # it is the type of all its mounts
unshare -m ... => unshare # unshare(1) then makes all mounts private, as `rtype / private` does
unshare --mount ... => unshare # unshare(1) then makes all mounts private, as `rtype / private` does
unshare -U ... # user namespaces are not modelled: `fork UID GID GROUPS CAPS` gives a child its rights
unshare -Ur ... # user namespaces are not modelled: `fork UID GID GROUPS CAPS` gives a child its rights
unshare -r ... # user namespaces are not modelled: `fork UID GID GROUPS CAPS` gives a child its rights
unshare -rm ... => unshare # user namespaces are not modelled: `fork UID GID GROUPS CAPS` gives a child its rights
unshare -mr ... => unshare # user namespaces are not modelled: `fork UID GID GROUPS CAPS` gives a child its rights
unshare -Um ... => unshare # user namespaces are not modelled: `fork UID GID GROUPS CAPS` gives a child its rights
unshare -Urm ... => unshare # user namespaces are not modelled: `fork UID GID GROUPS CAPS` gives a child its rights
unshare -Umr ... => unshare # user namespaces are not modelled: `fork UID GID GROUPS CAPS` gives a child its rights
unshare CLONE_NEWNS => unshare
unshare NEWNS => unshare
unshare mount => unshare
unshare mnt => unshare
unshare ... # of namespaces only those of mounts are modelled: `unshare`
nsenter ... # `setns TASK` enters the namespace of a task
clone CLONE_NEWNS => fork # the child then makes its namespace by `unshare`: `fork` answers its name
clone NEWNS => fork # the child then makes its namespace by `unshare`: `fork` answers its name
clone ... => fork
clone3 ... => fork
vfork => fork
chroot -- * ... => chroot $2 | chdir / # a task goes on with `exec`
chroot /* ... => chroot $1 | chdir / # a task goes on with `exec`

# The types `shared` and `slave`, as mount(8) and mount(2) have them.
make-shared * => type $1 shared
--make-shared * => type $1 shared
mount --make-shared * => type $2 shared
mount -o shared * => type $3 shared
make-rshared * => rtype $1 shared
--make-rshared * => rtype $1 shared
mount --make-rshared * => rtype $2 shared
mount -o rshared * => rtype $3 shared
type * rshared => rtype $1 shared
type rshared * => rtype $2 shared
type shared * => type $2 shared
type * MS_SHARED => type $1 shared
rtype * rshared => rtype $1 shared
rtype rshared * => rtype $2 shared
rtype shared * => rtype $2 shared
rtype * MS_SHARED => rtype $1 shared
make-slave * => type $1 slave
--make-slave * => type $1 slave
mount --make-slave * => type $2 slave
mount -o slave * => type $3 slave
make-rslave * => rtype $1 slave
--make-rslave * => rtype $1 slave
mount --make-rslave * => rtype $2 slave
mount -o rslave * => rtype $3 slave
type * rslave => rtype $1 slave
type rslave * => rtype $2 slave
type slave * => type $2 slave
type * MS_SLAVE => type $1 slave
rtype * rslave => rtype $1 slave
rtype rslave * => rtype $2 slave
rtype slave * => rtype $2 slave
rtype * MS_SLAVE => rtype $1 slave

# The types `private` and `unbindable`, as mount(8) and mount(2) have them.
make-private * => type $1 private
--make-private * => type $1 private
mount --make-private * => type $2 private
mount -o private * => type $3 private
make-rprivate * => rtype $1 private
--make-rprivate * => rtype $1 private
mount --make-rprivate * => rtype $2 private
mount -o rprivate * => rtype $3 private
type * rprivate => rtype $1 private
type rprivate * => rtype $2 private
type private * => type $2 private
type * MS_PRIVATE => type $1 private
rtype * rprivate => rtype $1 private
rtype rprivate * => rtype $2 private
rtype private * => rtype $2 private
rtype * MS_PRIVATE => rtype $1 private
make-unbindable * => type $1 unbindable
--make-unbindable * => type $1 unbindable
mount --make-unbindable * => type $2 unbindable
mount -o unbindable * => type $3 unbindable
make-runbindable * => rtype $1 unbindable
--make-runbindable * => rtype $1 unbindable
mount --make-runbindable * => rtype $2 unbindable
mount -o runbindable * => rtype $3 unbindable
type * runbindable => rtype $1 unbindable
type runbindable * => rtype $2 unbindable
type unbindable * => type $2 unbindable
type * MS_UNBINDABLE => type $1 unbindable
rtype * runbindable => rtype $1 unbindable
rtype runbindable * => rtype $2 unbindable
rtype unbindable * => rtype $2 unbindable
rtype * MS_UNBINDABLE => rtype $1 unbindable

# Tasks and descriptors, as a shell and system calls have them.
exit * => exit
kill * => $1 exit # a task ends by its own `exit`
kill * * => $2 exit # a task ends by its own `exit`
kill ... # a task ends by its own `exit`
wait ... # no call waits: the lines of a script are answered one after the other
waitpid ... # no call waits: the lines of a script are answered one after the other
sleep ... # time is not modelled
sudo ... # a task has the rights that `fork UID GID GROUPS CAPS` gave it
su ... # a task has the rights that `fork UID GID GROUPS CAPS` gave it
id ... # no call tells a task's credentials
whoami # no call tells a task's credentials
setuid ... # `fork UID GID GROUPS CAPS` makes a child with other credentials
setgid ... # `fork UID GID GROUPS CAPS` makes a child with other credentials
setpriv ... # `fork UID GID GROUPS CAPS` makes a child with other credentials
capsh ... # `drop CAPS` gives capabilities up
capset ... # `drop CAPS` gives capabilities up
fcntl ... # of descriptors there are `open`, `pread`, `pwrite` and `close`
dup ... # of descriptors there are `open`, `pread`, `pwrite` and `close`
dup2 ... # of descriptors there are `open`, `pread`, `pwrite` and `close`
mmap ... # of descriptors there are `open`, `pread`, `pwrite` and `close`
fsync ... # of descriptors there are `open`, `pread`, `pwrite` and `close`
sync # nothing is kept back, so nothing has to be synced
statfs ... # filesystems have no size here
df ... # filesystems have no size here
du ... # filesystems have no size here
utime ... # time is not modelled
getxattr ... # of extended attributes none is modelled
getfattr ... # of extended attributes none is modelled
getfacl ... # of access control lists none is modelled
setxattr ... # of extended attributes none is modelled
setfacl ... # of access control lists none is modelled
socket ... # devices, pipes and sockets are not modelled
find ... # `ls PATH` lists one directory, and `vtree show --files FILE` all trees
tree ... # `vtree show --files FILE` writes the trees as they are at the end of a script
files ... # `vtree show --files FILE` writes the trees as they are at the end of a script
show ... # `vtree show FILE` shows the world as it is at the end of a script, `vtree show --at LINE FILE` before a \
line
tasks ... # `vtree show FILE` shows the tasks as they are at the end of a script
ps ... # `vtree show FILE` shows the tasks as they are at the end of a script
tar ... # no call copies; `read` answers the content of a file, and `write` sets it
echo ... # `write PATH BYTES` sets the content of a file
";

/// The rows, by what they are about, in the order in which they are tried. The text is named here alone: each name of
/// it costs its whole proof.
pub fn all_rows() -> &'static str {
    ROWS
}
