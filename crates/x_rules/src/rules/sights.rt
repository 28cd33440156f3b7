//! What an item sees of the names that stand in it.

ghost use Rattle.std.specs.Prelude.{◌≡◌, [], map, IfOk, OnOk};
ghost use Rattle.x_rules.specs.RustViews.{view_view};
ghost use Rattle.x_rules.specs.Tables.{names_seen, place_seen, seen_by, view_at};

use super::first_places::{FirstPlaces, MOST_FEW};
use crate::views::View;
use smallvec::SmallVec;
use std::alloc::Global;
use x_hash::HashKey;
use x_text::NoMemory;
use x_trees::{DeclaredName, Mention};

/// Names, few of which take no memory.
pub type Names<'v> = SmallVec<&'v [u8], MOST_FEW>;

/// Makes room for so many names at once, where they are more than lie in place.
fn make_room(names: &mut Names, count: usize) -> Result<(), NoMemory>
    ensures { names.new.items ≡ names.old.items }
{
    if count > MOST_FEW {
        names.reserve(count)?;
    }
    Ok(())
}

/// Lists the names that an item declares, and then those that it uses.
pub fn list_names<'v>(
    names: &mut Names<'v>,
    declared: &'v [DeclaredName<'v>],
    mentions: &'v [Mention<'v>],
) -> Result<(), NoMemory>
    ensures { OnOk result (names.old.items ≡ []
        → map (λ x. x.now) names.new.items ≡ names_seen declared.now mentions.now) }
{
    make_room(names, declared.len().saturating_add(mentions.len()))?;
    for name in declared {
        names.push(name.name.as_slice())?;
    }
    for mention in mentions {
        names.push(mention.name)?;
    }
    Ok(())
}

/// The views of an item, by names.
#[derive(Drop)]
pub struct Sights<'v> {
    names: FirstPlaces<'v, &'v [u8], &'v [u8]>,
    views: &'v [View<'v>],
    /// What the tables of its names and numbers hash by.
    pub hash_key: HashKey,
}

impl<'v> Sights<'v> {
    /// The views of these names.
    pub fn of(
        alloc: Global,
        hash_key: HashKey,
        names: &'v [&'v [u8]],
        views: &'v [View<'v>],
    ) -> Result<Sights<'v>, NoMemory>
        ensures names { IfOk result (λ sights. sights.names ≡ names.now) }
        ensures views { IfOk result (λ sights. sights.views.now ≡ views.now) }
    {
        Ok(Sights {
            names: FirstPlaces::of(alloc, hash_key, names)?,
            views,
            hash_key,
        })
    }

    /// The first place of the name.
    pub fn place(&self, name: &[u8]) -> Option<usize>
        ensures { result ≡ place_seen self.now name.now }
    {
        self.names.get(name)
    }

    /// What the item sees of the name.
    pub fn see(&self, name: &[u8]) -> View<'v>
        ensures { view_view result ≡ seen_by self.now name.now }
    {
        self.view_at(self.place(name))
    }

    /// The view in a place.
    pub fn view_at(&self, place: Option<usize>) -> View<'v>
        ensures { view_view result ≡ view_at self.now.views.now place }
    {
        let Some(place) = place else {
            return View::Undeclared;
        };
        match self.views.get(place) {
            Some(view) => *view,
            None => View::Undeclared,
        }
    }
}
