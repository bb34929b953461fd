//! The choice of a decision, where it is kept how many are allowed.

ghost use Rattle.std.specs.Prelude.{◌≡◌, ◌<◌, ◌≤◌, ◌*◌, ◌^◌, true, IfOk, OnOk, length, slice_index_or};
ghost use Rattle.rf_finite.specs.Passing.{joined};
ghost use Rattle.rf_rules.specs.Decisions.{allowed};
ghost use Rattle.rf_problem.specs.declared.problem.Problem.{Problem};
ghost use Rattle.rf_state.specs.State.{State};
ghost use Rattle.rf_pending.specs.Changes.{FitsChange, IsChange};
ghost use Rattle.rf_decide.specs.Choice.{allowed_edges, choices_in, chosen, group, no_decision};
ghost use Rattle.rf_decide.specs.Counted.{AreSizes, IsCounted, edge_row};
ghost use Rattle.rf_decide.specs.declared.limit.TheConstants.{MOST_OBJECTS};

use crate::Choices;
use crate::choosing::leads;
use crate::counted_lists::CountedLists;
use crate::edge_rows::EdgeRows;
use crate::groups::Kinds;
use crate::lists::{Lists, member_of, total};
use crate::rows::FreshObjects;
use crate::sizes::Sizes;
use rf_pending::{Change, Standing, touch_edges, touch_objects};
use rf_rules::Decision;
use rf_state::Facts;
use std::alloc::{AllocError, Global};

/// How many decisions are allowed on the class of each object, and on the edges of each reference from each
/// object, as far as they were counted. What a change may change is counted again once it is needed.
#[derive(Debug, Drop)]
pub struct Counted {
    kinds: Sizes,
    edges: Sizes,
}

impl Counted {
    /// Nothing is counted.
    pub fn none<F: Facts>(alloc: Global, view: &F) -> Result<Counted, AllocError>
        ensures { IfOk result (IsCounted (F.problem view.now) (F.state view.now)) }
    {
        let objects = view.objects() as u128;
        let references = view.problem().references.len() as u128;
        Ok(Counted {
            kinds: Sizes::none(alloc, objects)?,
            edges: Sizes::none(alloc, references * objects)?,
        })
    }

    /// A copy of the counts, which is right where they are.
    pub fn copied(&self, alloc: Global) -> Result<Counted, AllocError>
        ensures { IfOk result (λ copy. (p : Problem) (s : State) → IsCounted p s self.now → IsCounted p s copy) }
    {
        Ok(Counted {
            kinds: self.kinds.copied(alloc)?,
            edges: self.edges.copied(alloc)?,
        })
    }

    /// What a change may have changed is no longer counted.
    pub fn touch<F: Facts>(
        &mut self,
        alloc: Global,
        view: &F,
        change: Change,
    ) -> Result<(), AllocError>
        requires { FitsChange (F.problem view.now) (F.state view.now) change }
        ensures { let p = F.problem view.now in
            let t = F.state view.now in
            OnOk result ((s : State) → IsChange change s t → IsCounted p s self.old → IsCounted p t self.new) }
    {
        if change.is_fresh() {
            *self = Counted::none(alloc, view)?;
        } else {
            touch_objects(change, &mut self.kinds.uncounted);
            touch_edges(view, Standing::May, change, &mut self.edges.uncounted);
        }
        Ok(())
    }

    // The first group of which some is allowed, where the counts that are needed are made.
    fn choices<F: Facts>(&mut self, view: &F) -> Choices
        requires few { length (F.state view.now).objects ≤ MOST_OBJECTS }
        requires counted { IsCounted (F.problem view.now) (F.state view.now) self.old }
        ensures choices { result ≡ choices_in (F.problem view.now) (F.state view.now) }
        ensures counted { IsCounted (F.problem view.now) (F.state view.now) self.new }
    {
        let size = total(&FreshObjects { view });
        if size > 0 {
            return Choices::Group { number: 0, size };
        }
        let size = count_all(&Kinds { view }, &mut self.kinds);
        if size > 0 {
            return Choices::Group { number: 1, size };
        }
        let size = count_edges(view, &mut self.edges);
        if size > 0 {
            return Choices::Group { number: 2, size };
        }
        Choices::Nothing
    }

    // The decision at a place of a group.
    fn member_in<F: Facts>(&self, view: &F, number: u8, place: u64) -> Decision
        requires few { length (F.state view.now).objects ≤ MOST_OBJECTS }
        requires counted { IsCounted (F.problem view.now) (F.state view.now) self.now }
        requires place { place < length (group (F.problem view.now) (F.state view.now) number) }
        ensures { result ≡ slice_index_or (group (F.problem view.now) (F.state view.now) number) place no_decision }
    {
        match number {
            0 => member_of(&FreshObjects { view }, place),
            1 => {
                let kinds = CountedLists {
                    lists: &Kinds { view },
                    sizes: &self.kinds,
                };
                member_of(&kinds, place)
            }
            _ => edge_at(view, &self.edges, place),
        }
    }

    // The same decision, which is allowed.
    fn allowed_member<F: Facts>(&self, view: &F, number: u8, place: u64) -> Decision
        requires few { length (F.state view.now).objects ≤ MOST_OBJECTS }
        requires counted { IsCounted (F.problem view.now) (F.state view.now) self.now }
        requires place { place < length (group (F.problem view.now) (F.state view.now) number) }
        ensures member { result ≡ slice_index_or (group (F.problem view.now) (F.state view.now) number) place no_decision }
        ensures allowed { allowed (F.problem view.now) (F.state view.now) result ≡ true }
    {
        self.member_in(view, number, place)
    }
}

// Counts those of these lists that aren't, and says how many decisions all have.
fn count_all<L: Lists>(lists: &L, sizes: &mut Sizes) -> u64
    requires sizes { AreSizes (L.many lists.now) (L.most lists.now) (L.list lists.now) sizes.old }
    requires small { L.many lists.now * L.most lists.now < 2 ^ 64 }
    ensures total { result ≡ length (joined (L.many lists.now) (L.list lists.now)) }
    ensures sizes { AreSizes (L.many lists.now) (L.most lists.now) (L.list lists.now) sizes.new }
{
    sizes.count(lists);
    total(&CountedLists { lists, sizes })
}

// The same of the allowed decisions on edges.
fn count_edges<F: Facts>(view: &F, sizes: &mut Sizes) -> u64
    requires few { length (F.state view.now).objects ≤ MOST_OBJECTS }
    requires sizes { let p = F.problem view.now in
        let s = F.state view.now in
        AreSizes (length p.references * length s.objects) MOST_OBJECTS (edge_row p s) sizes.old }
    ensures total { result ≡ length (allowed_edges (F.problem view.now) (F.state view.now)) }
    ensures sizes { let p = F.problem view.now in
        let s = F.state view.now in
        AreSizes (length p.references * length s.objects) MOST_OBJECTS (edge_row p s) sizes.new }
{
    count_all(&EdgeRows { view }, sizes)
}

// The allowed decision on edges that stands at a place.
fn edge_at<F: Facts>(view: &F, sizes: &Sizes, place: u64) -> Decision
    requires few { length (F.state view.now).objects ≤ MOST_OBJECTS }
    requires sizes { let p = F.problem view.now in
        let s = F.state view.now in
        AreSizes (length p.references * length s.objects) MOST_OBJECTS (edge_row p s) sizes.now }
    requires place { place < length (allowed_edges (F.problem view.now) (F.state view.now)) }
    ensures { result ≡ slice_index_or (allowed_edges (F.problem view.now) (F.state view.now)) place no_decision }
{
    let edges = CountedLists {
        lists: &EdgeRows { view },
        sizes,
    };
    member_of(&edges, place)
}

/// The decision that a word takes, as [`choose`](crate::choose) finds it. What isn't counted is counted where
/// it is needed.
pub fn choose_counted<F: Facts>(
    view: &F,
    counted: &mut Counted,
    word: u32,
) -> Option<(Decision, bool)>
    requires few { length (F.state view.now).objects ≤ MOST_OBJECTS }
    requires counted { IsCounted (F.problem view.now) (F.state view.now) counted.old }
    ensures chosen { result ≡ chosen (F.problem view.now) (F.state view.now) word }
    ensures counted { IsCounted (F.problem view.now) (F.state view.now) counted.new }
{
    match counted.choices(view) {
        Choices::Group { number, size } => {
            let decision = counted.allowed_member(view, number, (word >> 3) as u64 % size);
            Some((decision, leads(view, &decision, word)))
        }
        Choices::Nothing => None,
    }
}
