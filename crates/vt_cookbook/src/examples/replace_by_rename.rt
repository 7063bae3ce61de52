//! `examples/replace-by-rename.vt`, by `checks/cookbook --write`.

/// The script.
pub static SCRIPT: &str = "\
# How a file is replaced without a moment in which it is missing or half written.\n\
#\n\
# A writer writes to a new name and renames it over the old one. A reader that has the old file open keeps it;\n\
# a reader that opens it afterwards gets the new one.\n\
\n\
t mkdir /data\n\
t write /data/config v1\n\
t open /data/config r                   => ok 0\n\
\n\
# The new content gets a name in the same directory, which the rename replaces the old one by.\n\
t open /data/.config.new w excl 644     => ok 1\n\
t pwrite 1 0 v2\n\
t close 1\n\
t rename /data/.config.new /data/config\n\
t ls /data                              => ok config\n\
t read /data/config                     => ok v2\n\
# Descriptor 0 was opened before, and still reads the old file, which has no name left.\n\
t pread 0 0 9                           => ok v1\n\
t close 0\n\
\n\
# A second name keeps an old version, where a symlink would lead to the new one.\n\
t link /data/config /data/config.backup\n\
t symlink config /data/latest\n\
t write /data/.config.new v3\n\
t rename /data/.config.new /data/config\n\
t read /data/config.backup              => ok v2\n\
t read /data/latest                     => ok v3\n\
\n\
# Writing in place changes the one file behind both names, so a hard link is no backup against it.\n\
t link /data/config /data/config.second\n\
t write /data/config v4\n\
t read /data/config.second              => ok v4\n\
\n\
# Renaming one name of a file over another name of the same file does nothing, as in Linux.\n\
t rename /data/config /data/config.second\n\
t ls /data                              => ok config config.backup config.second latest\n\
\n\
# A directory is replaced only by a directory, and only while it is empty.\n\
t mkdir /data/new\n\
t mkdir /data/old\n\
t write /data/old/f x\n\
t rename /data/config /data/old         => deny 21 EISDIR E2\n\
t rename /data/new /data/old            => deny 39 ENOTEMPTY E4\n\
t unlink /data/old/f\n\
t rename /data/new /data/old\n\
t ls /data                              => ok config config.backup config.second latest old\n\
";
