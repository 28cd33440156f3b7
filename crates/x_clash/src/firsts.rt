//! The first things that have a name.

use crate::clash::Place;
use crate::given::Sort;

/// A macro, and the text that it stands for.
#[derive(Clone, Copy, Debug)]
pub struct FirstMacro<'d> {
    pub place: Place,
    pub text: &'d [u8],
}

/// The first things that have a name, by what they are.
#[derive(Clone, Copy, Debug)]
pub struct Firsts<'d> {
    /// The first macro.
    pub first_macro: Option<FirstMacro<'d>>,
    /// The first macro that stands for another text than that.
    pub other_macro: Option<Place>,
    /// The first thing at file scope.
    pub at_file_scope: Option<Place>,
    /// The first member.
    pub member: Option<Place>,
}

// A file of `specs/` that these name, names the structs above.
impl<'d> Firsts<'d> {
    ghost use Rattle.std.specs.Prelude.{◌≡◌, ◌++◌, ◌∷◌, [], List, true};
    ghost use Rattle.x_clash.specs.Clashes.{Thing, is_at_file_scope, thing_place};
    ghost use Rattle.x_clash.specs.Firsts.{AreFirsts, macro_beside, macro_place, met_in, no_firsts};
    ghost use Rattle.x_clash.specs.Given.{Macro, Member};
    ghost use Rattle.x_clash.specs.Views.{view_sort};

    /// What is kept where nothing has the name.
    pub fn none() -> Firsts<'d>
        ensures { result ≡ no_firsts }
    {
        Firsts {
            first_macro: None,
            other_macro: None,
            at_file_scope: None,
            member: None,
        }
    }

    /// The first macro that stands for another text than this.
    fn macro_beside(&self, text: &[u8]) -> Option<Place>
        ensures { result ≡ macro_beside text.now self.now }
    {
        match self.first_macro {
            Some(first) if first.text == text => self.other_macro,
            Some(first) => Some(first.place),
            None => None,
        }
    }

    /// The place of the first macro.
    fn macro_place(&self) -> Option<Place>
        ensures { result ≡ macro_place self.now }
    {
        match self.first_macro {
            Some(first) => Some(first.place),
            None => None,
        }
    }

    /// The first of them that a thing of the sort meets.
    pub fn met_by(&self, sort: &Sort) -> Option<Place>
        ensures { result ≡ met_in self.now (view_sort sort.now) }
    {
        match sort {
            Sort::Macro(text) => {
                let others = self.at_file_scope.or(self.member);
                self.macro_beside(text).or(others)
            }
            Sort::Member => self.macro_place(),
            Sort::Tagged | Sort::Function | Sort::Plain => {
                self.macro_place().or(self.at_file_scope)
            }
        }
    }

    /// These, and behind them a thing of the sort.
    pub fn with(self, sort: &Sort<'d>, place: Place) -> Firsts<'d>
        ensures { (things : List Thing) (t : Thing) → thing_place t ≡ place
            → t.given.sort ≡ view_sort sort.now → AreFirsts t.given.name things self.entry
            → AreFirsts t.given.name (things ++ t ∷ []) result }
    {
        match sort {
            Sort::Macro(text) => self.with_macro(text, place),
            Sort::Member => self.with_member(place),
            Sort::Tagged | Sort::Function | Sort::Plain => self.with_name(place),
        }
    }

    fn with_macro(self, text: &'d [u8], place: Place) -> Firsts<'d>
        ensures { (things : List Thing) (t : Thing) → thing_place t ≡ place → t.given.sort ≡ Macro text.now
            → AreFirsts t.given.name things self.entry → AreFirsts t.given.name (things ++ t ∷ []) result }
    {
        match self.first_macro {
            None => Firsts {
                first_macro: Some(FirstMacro { place, text }),
                other_macro: None,
                at_file_scope: self.at_file_scope,
                member: self.member,
            },
            Some(first) if first.text == text => self,
            Some(first) => Firsts {
                first_macro: Some(first),
                other_macro: self.other_macro.or(Some(place)),
                at_file_scope: self.at_file_scope,
                member: self.member,
            },
        }
    }

    fn with_member(self, place: Place) -> Firsts<'d>
        ensures { (things : List Thing) (t : Thing) → thing_place t ≡ place → t.given.sort ≡ Member
            → AreFirsts t.given.name things self.entry → AreFirsts t.given.name (things ++ t ∷ []) result }
    {
        Firsts {
            first_macro: self.first_macro,
            other_macro: self.other_macro,
            at_file_scope: self.at_file_scope,
            member: self.member.or(Some(place)),
        }
    }

    /// With a thing at file scope.
    fn with_name(self, place: Place) -> Firsts<'d>
        ensures { (things : List Thing) (t : Thing) → thing_place t ≡ place
            → is_at_file_scope t.given.sort ≡ true
            → AreFirsts t.given.name things self.entry → AreFirsts t.given.name (things ++ t ∷ []) result }
    {
        Firsts {
            first_macro: self.first_macro,
            other_macro: self.other_macro,
            at_file_scope: self.at_file_scope.or(Some(place)),
            member: self.member,
        }
    }
}
