//! `examples/two-runtimes.vt`, by `checks/cookbook --write`.

/// The script.
pub static SCRIPT: &str = "\
# Two runtimes mount a volume at one place. `vtree turns --all` tries every order of the lines of both: where they share\n\
# mounts, the one writes into the volume of the other, or unmounts it. Each in a mount namespace of its own, no order\n\
# changes an answer.\n\
\n\
== at one place of one namespace\n\
t mkdir /mnt\n\
t fork                          => ok t.1\n\
t fork                          => ok t.2\n\
t.1 mount plain /mnt\n\
t.1 write /mnt/id one\n\
t.1 umount /mnt\n\
t.2 mount plain /mnt\n\
t.2 write /mnt/id two\n\
t.2 read /mnt/id                => ok two\n\
t.2 umount /mnt\n\
\n\
== each in a namespace of its own\n\
t mkdir /mnt\n\
t fork                          => ok t.1\n\
t fork                          => ok t.2\n\
t.1 unshare\n\
t.1 mount plain /mnt\n\
t.1 write /mnt/id one\n\
t.1 umount /mnt\n\
t.2 unshare\n\
t.2 mount plain /mnt\n\
t.2 write /mnt/id two\n\
t.2 read /mnt/id                => ok two\n\
t.2 umount /mnt\n\
";
