//! `examples/release-and-service.vt`, by `checks/cookbook --write`.

/// The script.
pub static SCRIPT: &str = "\
# A release behind a symlink, a service that reads it through its group, and a stranger.\n\
#\n\
# A line is a call of a task: the task, the call, and its words. `t` is the first task; it has uid 0, all\n\
# capabilities of the model and the umask 022. A comment and an empty line are counted, and have no answer.\n\
\n\
t mkdir /srv\n\
t mkdir /srv/7\n\
t write /srv/7/app v7\n\
\n\
# The group 100 may read the release, and nobody else but the owner.\n\
t chmod /srv/7/app 640\n\
t chown /srv/7/app - 100\n\
\n\
# /srv/current is the release in use: a symlink, whose text 7 is walked from /srv.\n\
t symlink 7 /srv/current\n\
\n\
# /tmp is for all, with the sticky bit.\n\
t mkdir /tmp\n\
t chmod /tmp 1777\n\
\n\
# t.1 is the service (uid 1000, gid 100), t.2 a stranger (uid 2000, gid 200). Neither has supplementary\n\
# groups (the first -) or capabilities (the second -).\n\
t fork 1000 100 - -                     => ok t.1\n\
t fork 2000 200 - -                     => ok t.2\n\
\n\
# The service reads the file through the group's bits, which give it no write: C1, the caller's bits.\n\
t.1 read /srv/current/app               => ok v7\n\
t.1 write /srv/current/app v8           => deny 13 EACCES C1\n\
# The stranger is neither owner nor in the group, and the others' bits are 0.\n\
t.2 read /srv/current/app               => deny 13 EACCES C1\n\
\n\
# In a sticky directory a name is removed only by the owner of the object or of the directory: C3.\n\
t.1 write /tmp/lock mine\n\
t.2 unlink /tmp/lock                    => deny 1 EPERM C3\n\
\n\
# An open file lives on without its name.\n\
t.1 open /tmp/lock r                    => ok 0\n\
t.1 unlink /tmp/lock\n\
t.1 pread 0 0 16                        => ok mine\n\
\n\
# lstat is of the symlink itself; a trailing slash asks for the directory to which it leads.\n\
t.2 lstat /srv/current                  => ok link 0777 0 0 1\n\
t.2 stat /srv/current/                  => ok dir 0755 0 0\n\
\n\
# A directory is not moved below itself, also where a symlink leads there: E5.\n\
t rename /srv /srv/current/old          => deny 22 EINVAL E5\n\
";
