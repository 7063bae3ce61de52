//! Copies that are attached at all receivers: the kernel's document sharedsubtree.
ghost use Rattle.std.specs.Prelude.{◌≡◌, ◌*◌, ◌≤◌, IfSome};

// How many numbers an attachment takes, if so many are left: for each mount of the tree at each part one for its copy
// and one for a group.
pub(crate) fn numbers_taken(parts: usize, tree: usize, left: u64) -> Option<u64>
    ensures count { IfSome result (λ taken. taken ≡ 2 * (parts * tree)) }
    ensures left { IfSome result (λ taken. taken ≤ left) }
{
    let copies = (parts as u64).checked_mul(tree as u64)?;
    if copies > left / 2 {
        return None;
    }
    Some(2 * copies)
}
