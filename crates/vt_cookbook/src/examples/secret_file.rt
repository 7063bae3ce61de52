//! `examples/secret-file.vt`, by `checks/cookbook --write`.

/// The script.
pub static SCRIPT: &str = "\
# Who reads a file of mode 400: its bits, the capabilities, the group. A child has no descriptors of its parent.\n\
\n\
t mkdir /run\n\
t write /run/secret s3cr3t\n\
t chmod /run/secret 400\n\
t open /run/secret r                    => ok 0\n\
t fork 1000 1000 - -                    => ok t.1\n\
t.1 read /run/secret                    => deny 13 EACCES C1\n\
t.1 pread 0 0 100                       => deny 9 EBADF S4\n\
t fork 1000 1000 - CAP_DAC_READ_SEARCH  => ok t.2\n\
t.2 read /run/secret                    => ok s3cr3t\n\
t fork                                  => ok t.3\n\
t.3 drop *\n\
t.3 read /run/secret                    => ok s3cr3t\n\
t chmod /run 700\n\
t.1 stat /run/secret                    => deny 13 EACCES W4\n\
t chown /run 0 1000\n\
t chmod /run 750\n\
t chmod /run/secret 440\n\
t chown /run/secret 0 1000\n\
t.1 read /run/secret                    => ok s3cr3t\n\
";
