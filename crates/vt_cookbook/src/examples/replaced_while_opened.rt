//! `examples/replaced-while-opened.vt`, by `checks/cookbook --write`.

/// The script.
pub static SCRIPT: &str = "\
# A file is replaced while another task opens it. `vtree turns --all` tries every order of the lines of both tasks: by a\n\
# `rename` the reader finds the old content or the new one, and with `unlink` there are orders in which it finds no file.\n\
\n\
== replaced by a rename\n\
t mkdir /etc\n\
t write /etc/config old\n\
t fork                         => ok t.1\n\
t write /etc/config.new new\n\
t rename /etc/config.new /etc/config\n\
t.1 open /etc/config r         => ok 0\n\
t.1 pread 0 0 16               => ok new\n\
\n\
== removed, and written anew\n\
t mkdir /etc\n\
t write /etc/config old\n\
t fork                         => ok t.1\n\
t unlink /etc/config\n\
t write /etc/config new\n\
t.1 open /etc/config r         => ok 0\n\
t.1 pread 0 0 16               => ok new\n\
";
