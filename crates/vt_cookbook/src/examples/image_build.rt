//! `examples/image-build.vt`, by `checks/cookbook --write`.

/// The script.
pub static SCRIPT: &str = "\
# What an image build does with users, modes and the umask, step by step.\n\
#\n\
# The first task builds as root does in a build container: it lays out the system directories, adds a user for\n\
# the application, copies its files and gives them away.\n\
\n\
t mkdir /etc\n\
t mkdir /app\n\
t mkdir /home\n\
t mkdir /tmp\n\
# mkdir takes the umask's bits (022) from 777. chmod takes no notice of the umask, so /tmp becomes 1777.\n\
t chmod /tmp 1777\n\
t stat /app                             => ok dir 0755 0 0\n\
t stat /tmp                             => ok dir 1777 0 0\n\
\n\
# RUN useradd app: a home directory of its own, closed to others.\n\
t write /etc/passwd app:x:1001:1001\n\
t mkdir /home/app 700\n\
t chown /home/app 1001 1001\n\
\n\
# COPY . /app, as root: the files belong to root, with mode 644.\n\
t write /app/main code\n\
t write /app/config debug=0\n\
t chmod /app/main 755\n\
\n\
# USER app: from here on another task, of uid 1001, with no capability.\n\
t fork 1001 1001 - -                    => ok t.1\n\
\n\
# The application runs, and reads its configuration.\n\
t.1 exec /app/main\n\
t.1 read /app/config                    => ok debug=0\n\
# It cannot change what root copied, and cannot make a file beside it: it needs write on the directory (C1).\n\
t.1 write /app/config debug=1           => deny 13 EACCES C1\n\
t.1 write /app/cache x                  => deny 13 EACCES C1\n\
# Its home and /tmp are the places to write.\n\
t.1 write /home/app/cache x\n\
t.1 write /tmp/app.sock x\n\
\n\
# The usual remedy, COPY --chown=app: root gives the file away, and the owner's bits count for the application.\n\
t chown /app/config 1001 1001\n\
t.1 write /app/config debug=1\n\
t stat /app/config                      => ok file 0644 1001 1001 7\n\
\n\
# The application cannot give a file to root: that needs CAP_CHOWN (C2).\n\
t.1 chown /app/config 0 0               => deny 1 EPERM C2\n\
\n\
# A umask of 077 closes what is made from then on, and changes nothing that exists.\n\
t.1 umask 077\n\
t.1 mkdir /tmp/private\n\
t.1 write /tmp/secret x\n\
t.1 stat /tmp/private                   => ok dir 0700 1001 1001\n\
t.1 stat /tmp/secret                    => ok file 0600 1001 1001 1\n\
t.1 stat /tmp/app.sock                  => ok file 0644 1001 1001 1\n\
\n\
# Another user of the same container, as one more service with uid 1002.\n\
t fork 1002 1002 - -                    => ok t.2\n\
t.2 ls /home/app                        => deny 13 EACCES C1\n\
t.2 ls /tmp/private                     => deny 13 EACCES C1\n\
# In the sticky /tmp it can neither remove nor replace what is another's (C3).\n\
t.2 unlink /tmp/app.sock                => deny 1 EPERM C3\n\
t.2 write /tmp/mine x\n\
t.2 rename /tmp/mine /tmp/secret        => deny 1 EPERM C3\n\
";
