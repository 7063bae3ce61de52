//! What is kept under the names of a group, one by one.
ghost use Rattle.std.specs.Prelude.{◌≡◌, ◌++◌, List, flat_map};
ghost use Rattle.vt_group.specs.Sets.{kept_in};

use crate::set::Element;
use crate::sets::Sets;
use std::collections::LinkedList;
use std::collections::linked_list::Iter;
use std::marker::Model;
use vt_location::GroupId;

/// The mounts or groups that are still to come.
#[derive(Drop)]
pub struct Listed<'a, T> {
    here: &'a [T],
    names: Iter<'a, GroupId>,
    sets: &'a Sets<T>,
}

impl<'a, T> Model for Listed<'a, T> {
    ghost use Rattle.std.specs.Prelude.{◌++◌, List, flat_map};
    ghost use Rattle.vt_group.specs.Sets.{kept_in};

    ghost Value = { List T };

    ghost view = { λ l. l.here.now ++ flat_map (λ name. kept_in name l.sets.now) l.names };
}

impl<'a, T: Element> Listed<'a, T> {
    /// All that is kept under these names.
    #[inline]
    pub(crate) fn new(names: &'a LinkedList<GroupId>, sets: &'a Sets<T>) -> Self
        ensures { result ≡ flat_map (λ name. kept_in name sets.now) names.now }
    {
        Listed {
            here: &[],
            names: names.iter(),
            sets,
        }
    }
}

impl<'a, T: Element> Iterator for Listed<'a, T> {
    type Item = T;

    ghost use Rattle.std.specs.Iterator.{YieldsFirst, item_count};

    ghost next_gives = { YieldsFirst (λ rest. rest) };

    ghost remaining = { item_count (λ rest. rest) };

    #[inline(always)]
    fn next(&mut self) -> Option<T> {
        loop {
            if let Some((one, rest)) = self.here.split_first() {
                self.here = rest;
                return Some(*one);
            }
            self.here = self.sets.get(*self.names.next()?);
        }
    }
}
