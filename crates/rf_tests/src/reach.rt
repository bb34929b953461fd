//! Small graphs with known answers, how often the search asks for an edge, and one without room for its marks.

ghost use Rattle.std.specs.Prelude.{◌≡◌, ◌==◌, ◌+◌, ◌-◌, ◌%◌, ◌^◌, ◌&&◌, ◌<◌, not, nat_lt, true, false};
ghost use Rattle.std.specs.List.{list_any};

use rf_closure::{Edges, reach};
use std::alloc::{AllocError, Global};
use std::cell::Cell;

/// A graph by its list of edges and the list of places that no walk may pass through.
#[derive(Drop)]
struct Listed<'a> {
    size: u64,
    edges: &'a [(u64, u64)],
    closed: &'a [u64],
}

impl Edges for Listed<'_> {
    ghost size = { λ g. g.size };

    ghost edge = { λ g a b. list_any (λ e. e.0 == a && e.1 == b) g.edges.now };

    ghost through = { λ g a. not (list_any (λ c. c == a) g.closed.now) };

    fn size(&self) -> u64 {
        self.size
    }

    fn edge(&self, a: u64, b: u64) -> bool {
        self.edges.iter().any(|e| e.0 == a && e.1 == b)
    }

    fn through(&self, a: u64) -> bool {
        !self.closed.contains(&a)
    }
}

/// Edges between all places but the last, which none leads to. It counts how often it is asked for
/// an edge, and how often for one to the last place.
#[derive(Drop)]
struct Counting {
    size: u64,
    asked: Cell<u64>,
    asked_last: Cell<u64>,
}

impl Edges for Counting {
    ghost size = { λ g. g.size };

    ghost edge = { λ g a b. nat_lt (b + 1) g.size };

    ghost through = { λ _ _. true };

    fn size(&self) -> u64 {
        self.size
    }

    fn edge(&self, _a: u64, b: u64) -> bool {
        let size = self.size;
        self.asked.set(self.asked.get().saturating_add(1));
        if b + 1 < size {
            return true;
        }
        self.asked_last.set(self.asked_last.get().saturating_add(1));
        false
    }

    fn through(&self, _a: u64) -> bool {
        true
    }
}

/// More places than any memory holds marks for.
struct Endless;

impl Edges for Endless {
    ghost size = { λ _. 2 ^ 64 - 1 };

    ghost edge = { λ _ _ _. false };

    ghost through = { λ _ _. true };

    fn size(&self) -> u64 {
        u64::MAX
    }

    fn edge(&self, _a: u64, _b: u64) -> bool {
        false
    }

    fn through(&self, _a: u64) -> bool {
        true
    }
}

/// A name, the number of places, the edges, the places that no walk may pass through, the start,
/// and the marks that are wanted.
type Case<'a> = (&'a str, u64, &'a [(u64, u64)], &'a [u64], u64, &'a [bool]);

fn has_marks(
    alloc: Global,
    graph: &Listed<'_>,
    from: u64,
    want: &[bool],
) -> Result<bool, AllocError> {
    if from >= graph.size {
        return Ok(false);
    }
    let marks = reach(alloc, graph, from)?;
    Ok(marks.as_slice() == want)
}

#[test]
fn marks_what_walks_lead_to(rt: HostRuntime) {
    let cases: [Case<'_>; 7] = [
        ("one place and no edge", 1, &[], &[], 0, &[false]),
        ("an edge to itself", 1, &[(0, 0)], &[], 0, &[true]),
        ("no edge backwards", 2, &[(1, 0)], &[], 0, &[false, false]),
        (
            "from the last place",
            4,
            &[(3, 1), (1, 3), (1, 2), (0, 1)],
            &[],
            3,
            &[false, true, true, true],
        ),
        (
            "a path through a closed place",
            3,
            &[(0, 1), (1, 2)],
            &[1],
            0,
            &[false, true, false],
        ),
        (
            "away from a closed start",
            2,
            &[(0, 1)],
            &[0],
            0,
            &[false, true],
        ),
        (
            "no second time through a closed place",
            3,
            &[(1, 0), (0, 2)],
            &[0],
            1,
            &[true, false, false],
        ),
    ];
    for (name, size, edges, closed, from, want) in cases {
        let graph = Listed {
            size,
            edges,
            closed,
        };
        assert!(rt;
            has_marks(rt.alloc(), &graph, from, want) == Ok(true),
            "{name}"
        );
    }
}

#[test]
fn expands_each_place_once(rt: HostRuntime) {
    let graph = Counting {
        size: 6,
        asked: Cell::new(0),
        asked_last: Cell::new(0),
    };
    assert!(rt; reach(rt.alloc(), &graph, 2).is_ok());
    // The last place is never marked, so each of the five others asks for an edge to it once.
    assert_eq!(rt; graph.asked_last.get(), 5);
    assert!(rt; graph.asked.get() <= 5 * 6);
}

#[test]
fn fails_where_the_marks_have_no_room(rt: HostRuntime) {
    assert!(rt; reach(rt.alloc(), &Endless, 0).is_err());
}
