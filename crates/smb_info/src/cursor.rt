//! A place among what may be listed of a directory.

ghost use Rattle.std.specs.Prelude.{◌≡◌, ◌≤◌, ◌<◌, ◌∷◌, [], true, IfNone, IfSome, OnSome, is_some, length};
ghost use Rattle.std.specs.Option.{option_copied};
ghost use Rattle.smb_wire.specs.Units.{units_of};
ghost use Rattle.smb_tree.specs.Content.{numbered};
ghost use Rattle.smb_tree.specs.Good.{GoodContent};
ghost use Rattle.smb_tree.specs.Parts.{AreLawful, is_after};
ghost use Rattle.smb_info.specs.Candidates.{children, candidates_behind};
ghost use Rattle.smb_info.specs.CandidateViews.{candidate};
ghost use Rattle.smb_info.specs.Places.{behind_of};
ghost use Rattle.smb_info.specs.Cursors.{children_from, to_come, Stands, matched, IsPast};

use super::candidate::{CandidateView, Listed};
use arrayvec::ArrayVec;
use smb_access::ScanLast;
use smb_patterns::Matcher;
use smb_tree::{CHILDREN_AT_ONCE, Children, EntryNo, Tree};
use smb_wire::{FoldedName, Units};

// Two dots in UTF-16.
const DOTS: &[u8] = b".\0.\0";

/// A place among what may be listed of a directory.
#[derive(Drop)]
pub struct Cursor {
    // As what the next entry is listed.
    at: Listed,
    // The children that were looked up last, behind which name, and how many of them were given.
    after: Option<FoldedName>,
    children: Children,
    given: usize,
}

// `.`
fn one_dot() -> Units<'static>
    ensures { units_of result ≡ 46 ∷ [] }
{
    Units::of(&DOTS[..2]).unwrap()
}

// `..`
fn two_dots() -> Units<'static>
    ensures { units_of result ≡ 46 ∷ 46 ∷ [] }
{
    Units::of(DOTS).unwrap()
}

impl Cursor {
    /// That behind the last one that a scan has given.
    pub fn behind<T: Tree>(tree: &T, folder: EntryNo, last: &ScanLast) -> Cursor
        ensures all { to_come (T.content tree.now).rows folder result ≡ candidates_behind (T.content tree.now).rows folder last.now }
        ensures stands { Stands (T.content tree.now).rows folder result }
    {
        let mut cursor = Cursor {
            at: Listed::Dot,
            after: None,
            children: ArrayVec::new(),
            given: 0,
        };
        match last {
            ScanLast::Start => {}
            ScanLast::Dot => cursor.at = Listed::DotDot,
            ScanLast::DotDot => cursor.look_up(tree, folder, None),
            ScanLast::Name(name) => cursor.look_up(tree, folder, Some(*name)),
        }
        cursor
    }

    // Goes to the children whose names come after a given one, or to the first where none is given.
    fn look_up<T: Tree>(&mut self, tree: &T, folder: EntryNo, after: Option<FoldedName>)
        ensures all { to_come (T.content tree.now).rows folder self.new ≡ children (T.content tree.now).rows folder after }
        ensures stands { Stands (T.content tree.now).rows folder self.new }
        ensures child { self.new.at ≡ Listed.Child }
        ensures given { self.new.given ≡ 0 }
    {
        tree.children_after(folder, after.as_ref(), &mut self.children);
        self.at = Listed::Child;
        self.after = after;
        self.given = 0;
    }

    // Looks the children up that come behind those that were given, where these were all of a full list.
    fn look_further<T: Tree>(&mut self, tree: &T, folder: EntryNo)
        requires good { GoodContent (T.content tree.now) }
        requires folder { is_some (numbered (T.content tree.now).rows folder) ≡ true }
        requires child { self.old.at ≡ Listed.Child }
        requires stands { Stands (T.content tree.now).rows folder self.old }
        ensures same { to_come (T.content tree.now).rows folder self.new ≡ to_come (T.content tree.now).rows folder self.old }
        ensures stands { Stands (T.content tree.now).rows folder self.new }
        ensures child { self.new.at ≡ Listed.Child }
        ensures room { self.new.given < CHILDREN_AT_ONCE }
    {
        if self.given < CHILDREN_AT_ONCE {
            return;
        }
        let Some(last) = self.children.get(CHILDREN_AT_ONCE - 1) else {
            return;
        };
        let name = tree.name(*last);
        self.look_up(tree, folder, name);
    }

    // The next child.
    fn next_child<'a, T: Tree>(&mut self, tree: &'a T, folder: EntryNo) -> Option<CandidateView<'a>>
        requires good { GoodContent (T.content tree.now) }
        requires lawful { AreLawful (T.content tree.now).rows }
        requires folder { is_some (numbered (T.content tree.now).rows folder) ≡ true }
        requires child { self.old.at ≡ Listed.Child }
        requires stands { Stands (T.content tree.now).rows folder self.old }
        ensures none { IfNone result (to_come (T.content tree.now).rows folder self.old ≡ []) }
        ensures some { IfSome result (λ c. to_come (T.content tree.now).rows folder self.old ≡
            candidate c ∷ to_come (T.content tree.now).rows folder self.new) }
        ensures stands { OnSome result (Stands (T.content tree.now).rows folder self.new) }
    {
        self.look_further(tree, folder);
        let number = *self.children.get(self.given)?;
        let entry = tree.entry(number)?;
        self.given += 1;
        Some(CandidateView {
            listed: Listed::Child,
            name: entry.spelling,
            entry,
        })
    }

    // The folder itself.
    fn dot<'a, T: Tree>(&mut self, tree: &'a T, folder: EntryNo) -> Option<CandidateView<'a>>
        requires good { GoodContent (T.content tree.now) }
        requires folder { is_some (numbered (T.content tree.now).rows folder) ≡ true }
        requires dot { self.old.at ≡ Listed.Dot }
        ensures none { IfNone result (to_come (T.content tree.now).rows folder self.old ≡ []) }
        ensures some { IfSome result (λ c. to_come (T.content tree.now).rows folder self.old ≡
            candidate c ∷ to_come (T.content tree.now).rows folder self.new) }
        ensures stands { OnSome result (Stands (T.content tree.now).rows folder self.new) }
    {
        let entry = tree.entry(folder)?;
        self.at = Listed::DotDot;
        Some(CandidateView {
            listed: Listed::Dot,
            name: one_dot(),
            entry,
        })
    }

    // The folder around it.
    fn dot_dot<'a, T: Tree>(&mut self, tree: &'a T, folder: EntryNo) -> Option<CandidateView<'a>>
        requires good { GoodContent (T.content tree.now) }
        requires folder { is_some (numbered (T.content tree.now).rows folder) ≡ true }
        requires dot_dot { self.old.at ≡ Listed.DotDot }
        ensures none { IfNone result (to_come (T.content tree.now).rows folder self.old ≡ []) }
        ensures some { IfSome result (λ c. to_come (T.content tree.now).rows folder self.old ≡
            candidate c ∷ to_come (T.content tree.now).rows folder self.new) }
        ensures stands { OnSome result (Stands (T.content tree.now).rows folder self.new) }
    {
        let own = tree.entry(folder)?;
        let entry = tree.entry(own.parent)?;
        self.look_up(tree, folder, None);
        Some(CandidateView {
            listed: Listed::DotDot,
            name: two_dots(),
            entry,
        })
    }

    // The next candidate.
    fn next<'a, T: Tree>(&mut self, tree: &'a T, folder: EntryNo) -> Option<CandidateView<'a>>
        requires good { GoodContent (T.content tree.now) }
        requires lawful { AreLawful (T.content tree.now).rows }
        requires folder { is_some (numbered (T.content tree.now).rows folder) ≡ true }
        requires stands { Stands (T.content tree.now).rows folder self.old }
        ensures none { IfNone result (to_come (T.content tree.now).rows folder self.old ≡ []) }
        ensures some { IfSome result (λ c. to_come (T.content tree.now).rows folder self.old ≡
            candidate c ∷ to_come (T.content tree.now).rows folder self.new) }
        ensures stands { OnSome result (Stands (T.content tree.now).rows folder self.new) }
    {
        match self.at {
            Listed::Dot => self.dot(tree, folder),
            Listed::DotDot => self.dot_dot(tree, folder),
            Listed::Child => self.next_child(tree, folder),
        }
    }

    // Whether a name comes after that behind which the children were looked up.
    fn is_before(&self, name: &FoldedName) -> bool
        ensures { result ≡ is_after self.now.after name.now }
    {
        match &self.after {
            Some(after) => after.cmp(name).is_lt(),
            None => true,
        }
    }

    // Goes on to the first child whose name may begin as the pattern does, from in front of all children behind a name.
    fn seek<T: Tree>(&mut self, tree: &T, folder: EntryNo, pattern: &Matcher)
        requires good { GoodContent (T.content tree.now) }
        requires lawful { AreLawful (T.content tree.now).rows }
        requires folder { is_some (numbered (T.content tree.now).rows folder) ≡ true }
        requires stands { Stands (T.content tree.now).rows folder self.old }
        ensures same { matched pattern.now (to_come (T.content tree.now).rows folder self.new) ≡
            matched pattern.now (to_come (T.content tree.now).rows folder self.old) }
        ensures fewer { length (to_come (T.content tree.now).rows folder self.new) ≤
            length (to_come (T.content tree.now).rows folder self.old) }
        ensures stands { Stands (T.content tree.now).rows folder self.new }
    {
        let Listed::Child = self.at else {
            return;
        };
        if self.given != 0 {
            return;
        }
        let Some(name) = pattern.before() else {
            return;
        };
        if self.is_before(&name) {
            self.look_up(tree, folder, Some(name));
        }
    }

    // The next candidate behind those that come before all names of the pattern.
    fn next_sought<'a, T: Tree>(
        &mut self,
        tree: &'a T,
        folder: EntryNo,
        pattern: &Matcher,
    ) -> Option<CandidateView<'a>>
        requires good { GoodContent (T.content tree.now) }
        requires lawful { AreLawful (T.content tree.now).rows }
        requires folder { is_some (numbered (T.content tree.now).rows folder) ≡ true }
        requires stands { Stands (T.content tree.now).rows folder self.old }
        ensures none { IfNone result (matched pattern.now (to_come (T.content tree.now).rows folder self.old) ≡ []) }
        ensures some { IfSome result (λ c. matched pattern.now (to_come (T.content tree.now).rows folder self.old) ≡
            matched pattern.now (candidate c ∷ to_come (T.content tree.now).rows folder self.new)) }
        ensures fewer { OnSome result (length (to_come (T.content tree.now).rows folder self.new) <
            length (to_come (T.content tree.now).rows folder self.old)) }
        ensures behind { IfSome result (λ c. to_come (T.content tree.now).rows folder self.new ≡
            candidates_behind (T.content tree.now).rows folder (behind_of c.listed (units_of c.name))) }
        ensures stands { OnSome result (Stands (T.content tree.now).rows folder self.new) }
    {
        self.seek(tree, folder, pattern);
        self.next(tree, folder)
    }

    // Whether a candidate that was given is a child behind all names of the pattern; asked of the first child behind a name
    // alone.
    fn is_past(&self, pattern: &Matcher, view: &CandidateView<'_>) -> bool
        ensures { result ≡ true → IsPast pattern.now (behind_of view.now.listed (units_of view.now.name)) }
    {
        if self.given != 1 {
            return false;
        }
        let ScanLast::Name(name) = view.behind() else {
            return false;
        };
        pattern.order(&name).is_gt()
    }

    /// The next candidate whose name a pattern matches. Where the pattern begins with units that are no wildcards, the children
    /// that are looked at are those whose names begin with these units, and few more.
    pub fn next_match<'a, T: Tree>(
        &mut self,
        tree: &'a T,
        folder: EntryNo,
        pattern: &Matcher,
    ) -> Option<CandidateView<'a>>
        requires good { GoodContent (T.content tree.now) }
        requires lawful { AreLawful (T.content tree.now).rows }
        requires folder { is_some (numbered (T.content tree.now).rows folder) ≡ true }
        requires stands { Stands (T.content tree.now).rows folder self.old }
        ensures none { IfNone result (matched pattern.now (to_come (T.content tree.now).rows folder self.old) ≡ []) }
        ensures some { IfSome result (λ c. matched pattern.now (to_come (T.content tree.now).rows folder self.old) ≡
            candidate c ∷ matched pattern.now (to_come (T.content tree.now).rows folder self.new)) }
        ensures stands { OnSome result (Stands (T.content tree.now).rows folder self.new) }
    {
        while let Some(view) = self.next_sought(tree, folder, pattern) {
            if pattern.matches(view.name) {
                return Some(view);
            }
            if self.is_past(pattern, &view) {
                return None;
            }
        }
        None
    }
}
