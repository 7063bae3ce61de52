//! The words of a refusal.
ghost use Rattle.std.specs.Prelude.{◌≡◌, ◌++◌, codes, decimal};
ghost use Rattle.vt_spec.specs.Errors.{errno_name, number_of};

use vt_spec::errors::Errno;

/// What a refusal's line says between its number and its rule: `deny`, the error's number and its name.
pub fn error_text(errno: Errno) -> &'static [u8]
    ensures { result.now ≡ codes " deny " ++ decimal (number_of errno) ++ codes " " ++ errno_name errno ++ codes " " }
{
    match errno {
        Errno::Eperm => b" deny 1 EPERM ",
        Errno::Enoent => b" deny 2 ENOENT ",
        Errno::Esrch => b" deny 3 ESRCH ",
        Errno::Enxio => b" deny 6 ENXIO ",
        Errno::Ebadf => b" deny 9 EBADF ",
        Errno::Enomem => b" deny 12 ENOMEM ",
        Errno::Eacces => b" deny 13 EACCES ",
        Errno::Ebusy => b" deny 16 EBUSY ",
        Errno::Eexist => b" deny 17 EEXIST ",
        Errno::Exdev => b" deny 18 EXDEV ",
        Errno::Enotdir => b" deny 20 ENOTDIR ",
        Errno::Eisdir => b" deny 21 EISDIR ",
        Errno::Einval => b" deny 22 EINVAL ",
        Errno::Emfile => b" deny 24 EMFILE ",
        Errno::Efbig => b" deny 27 EFBIG ",
        Errno::Enospc => b" deny 28 ENOSPC ",
        Errno::Erofs => b" deny 30 EROFS ",
        Errno::Enametoolong => b" deny 36 ENAMETOOLONG ",
        Errno::Enotempty => b" deny 39 ENOTEMPTY ",
        Errno::Eloop => b" deny 40 ELOOP ",
    }
}
