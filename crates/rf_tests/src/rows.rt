//! Rows of closures in a store, of more vertices than two blocks hold.

ghost use Rattle.std.specs.Prelude.{◌==◌, ◌+◌, ◌&&◌, not, nat_lt};

use rf_closure::Edges;
use rf_incr_closure::Rows;
use rf_store::Store;
use std::alloc::{AllocError, Global};

/// An edge from each vertex to the next, but for one that is cut. Walks pass through vertices from `first` on.
#[derive(Drop)]
struct Chain {
    size: u64,
    cut: u64,
    first: u64,
}

impl Edges for Chain {
    ghost size = { λ g. g.size };

    ghost edge = { λ g a b. a + 1 == b && not (a == g.cut) };

    ghost through = { λ g a. not (nat_lt a g.first) };

    fn size(&self) -> u64 {
        self.size
    }

    fn edge(&self, a: u64, b: u64) -> bool {
        b > 0 && a == b - 1 && a != self.cut
    }

    fn through(&self, a: u64) -> bool {
        a >= self.first
    }
}

const SIZE: u64 = 900;

/// Whether the row of `from` has the vertices after it up to `last`, and no other.
fn has_row(store: &Store, tag: u64, from: u64, last: u64) -> bool {
    (0..SIZE).all(|b| Rows::reaches(store, tag, from, b) == (from < b && b <= last))
}

fn renew(alloc: Global, store: &mut Store, chain: &Chain, from: &[u64]) -> Result<(), AllocError> {
    for vertex in from {
        if *vertex < chain.size {
            Rows::renew(alloc, store, 7, chain, *vertex)?;
        }
    }
    Ok(())
}

#[test]
fn keeps_rows_of_several_blocks(rt: HostRuntime) {
    let mut store = Store::new(rt.alloc());
    let whole = Chain {
        size: SIZE,
        cut: SIZE,
        first: 0,
    };
    let cut = Chain {
        size: SIZE,
        cut: 700,
        first: 0,
    };
    assert!(rt; renew(rt.alloc(), &mut store, &whole, &[0, 447, 600, 899]).is_ok());
    assert!(rt;
        has_row(&store, 7, 0, 899) && has_row(&store, 7, 447, 899) && has_row(&store, 7, 899, 899)
    );
    assert!(rt; has_row(&store, 8, 899, 899) && !has_row(&store, 8, 0, 899));
    assert!(rt; store.commit().is_ok());
    assert!(rt; renew(rt.alloc(), &mut store, &cut, &[600]).is_ok());
    assert!(rt; has_row(&store, 7, 600, 700) && has_row(&store, 7, 447, 899));
    assert_eq!(rt; store.kept(), 1);
    if store.kept() > 0 {
        store.restore(0);
    }
    assert!(rt; has_row(&store, 7, 600, 899));
}

#[test]
fn rows_made_again_take_no_room(rt: HostRuntime) {
    let mut store = Store::new(rt.alloc());
    let chain = Chain {
        size: 460,
        cut: 449,
        first: 445,
    };
    assert!(rt; Rows::make(rt.alloc(), &mut store, 3, &chain).is_ok());
    let rows = store.rows();
    assert!(rt; Rows::make(rt.alloc(), &mut store, 3, &chain).is_ok());
    assert_eq!(rt; store.rows(), rows);
    assert!(rt; rows > 0);
    assert!(rt; Rows::reaches(&store, 3, 444, 449) && !Rows::reaches(&store, 3, 444, 450));
    assert!(rt; Rows::reaches(&store, 3, 0, 1) && !Rows::reaches(&store, 3, 0, 2));
    assert!(rt; Rows::reaches(&store, 3, 450, 459));
}
