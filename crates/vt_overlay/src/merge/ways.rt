//! Ways: paths as lists of names, however these are kept.
ghost use Rattle.std.specs.Prelude.{◌≡◌, ◌≢◌, ◌<◌, ◌++◌, ℕ, List, Some, false, length, map, slice_get, true};
ghost use Rattle.vt_spec.specs.Lists.{without_last};

/// A path as a list of names. A look takes the names one after the other, so that no list of them has to be made.
pub trait Way {
    ghost names: { Self → List (List ℕ) };

    /// How many names there are.
    fn len(&self) -> usize
        ensures { result ≡ length (names self.now) };

    /// The name at an index.
    fn name(&self, index: usize) -> &[u8]
        requires { index < length (names self.now) }
        ensures { slice_get (names self.now) index ≡ Some result.now };
}

/// Names that are kept as a slice.
#[derive(Clone, Copy, Debug)]
pub struct Names<'a> {
    pub names: &'a [&'a [u8]],
}

impl<'a> Way for Names<'a> {
    ghost names = { λ way. map (λ name. name.now) way.names.now };

    fn len(&self) -> usize {
        self.names.len()
    }

    fn name(&self, index: usize) -> &[u8] {
        self.names[index]
    }
}

/// A path without its last name.
#[derive(Clone, Copy, Debug)]
pub struct Front<'a, W: Way> {
    pub path: &'a W,
}

impl<'a, W: Way> Way for Front<'a, W> {
    ghost names = { λ way. without_last (W.names way.path.now) };

    fn len(&self) -> usize {
        self.path.len().saturating_sub(1)
    }

    fn name(&self, index: usize) -> &[u8] {
        self.path.name(index)
    }
}

/// Whether a path begins with another one. It does not allocate.
pub fn starts_with<W: Way, V: Way>(path: &W, front: &V) -> bool
    ensures yes { result ≡ true → (rest : List (List ℕ)) × (V.names front.now ++ rest ≡ W.names path.now) }
    ensures no { result ≡ false → (rest : List (List ℕ)) → V.names front.now ++ rest ≢ W.names path.now }
{
    if path.len() < front.len() {
        return false;
    }
    for index in 0..front.len() {
        if path.name(index) != front.name(index) {
            return false;
        }
    }
    true
}
