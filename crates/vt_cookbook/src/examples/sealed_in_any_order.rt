//! `examples/version-2/sealed-in-any-order.vt`, by `checks/cookbook --write`.

/// The script.
pub static SCRIPT: &str = "\
#!/usr/bin/env -S vtree test --script 2\n\
# A sandbox that is sealed off answers the same in every order of its lines and of those of the host, though both use\n\
# the same names: `vtree turns --all` finds one outcome. With the host's root it finds several.\n\
\n\
== with a root of its own\n\
t mkdir /box\n\
t mkdir /tmp\n\
t fork                          => ok t.1\n\
t.1 unshare\n\
t.1 rtype / private\n\
t.1 mount plain /box\n\
t.1 mkdir /box/old\n\
t.1 mkdir /box/tmp\n\
t.1 pivot_root /box /box/old\n\
t.1 chdir /\n\
t.1 lazy /old\n\
# From here on `! sealed t.1` is yes.\n\
t.1 write /tmp/f own\n\
t.1 read /tmp/f                 => ok own\n\
t write /tmp/f host\n\
t rename /tmp /box/tmp\n\
\n\
== with the root of the host\n\
t mkdir /box\n\
t mkdir /tmp\n\
t fork                          => ok t.1\n\
t.1 unshare\n\
t.1 write /tmp/f own\n\
t.1 read /tmp/f                 => ok own\n\
t write /tmp/f host\n\
t rename /tmp /box/tmp\n\
";
