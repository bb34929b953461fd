//! The rules of counts and types.

ghost use Rattle.std.specs.Prelude.{◌≡◌, ◌<◌, length};
ghost use Rattle.rf_rules.specs.Effects.{is_ready};
ghost use Rattle.rf_rules.specs.Rules.{least_object};
ghost use Rattle.rf_rules.specs.declared.rule.Rule.TheVariants.{Src, Tgt};
ghost use Rattle.rf_rules.specs.Rows.{least_clash};
ghost use Rattle.rf_rules.specs.Types.{clash, empty, no_class, src, tgt};

use crate::End;
use crate::changes::{has_other, may_exceed};
use crate::words::{classes_below, has_candidate, hi, is_error, lo, must};
use rf_finite::{Rule, Test, first_found, first_passing, within};
use rf_state::Facts;

/// Whether `empty` fires at an object.
pub fn empty<F: Facts>(view: &F, o: u64) -> bool
    requires { o < length (F.state view.now).objects }
    ensures { result ≡ is_ready (F.state view.now) (empty (F.state view.now) o) }
{
    !within(lo(view, o), hi(view, o))
}

/// Whether `no-class` fires at an object.
pub fn no_class<F: Facts>(view: &F, o: u64) -> bool
    requires { o < length (F.state view.now).objects }
    ensures { result ≡ is_ready (F.state view.now) (no_class (F.problem view.now) (F.state view.now) o) }
{
    !has_candidate(view, o) && may_exceed(view, o, 0)
}

/// Whether `src` fires at a reference and two objects.
pub fn src<F: Facts>(view: &F, r: u32, a: u64, b: u64) -> bool
    requires reference { r < length (F.problem view.now).references }
    requires from { a < length (F.state view.now).objects }
    requires to { b < length (F.state view.now).objects }
    ensures { result ≡ is_ready (F.state view.now) (src (F.problem view.now) (F.state view.now) r a b) }
{
    let problem = view.problem();
    let classes = classes_below(problem, problem.reference(r).source);
    must(view, r, a, b) && lo(view, b) >= 1 && has_other(view, a, classes)
}

/// Whether `tgt` fires at a reference and two objects.
pub fn tgt<F: Facts>(view: &F, r: u32, a: u64, b: u64) -> bool
    requires reference { r < length (F.problem view.now).references }
    requires from { a < length (F.state view.now).objects }
    requires to { b < length (F.state view.now).objects }
    ensures { result ≡ is_ready (F.state view.now) (tgt (F.problem view.now) (F.state view.now) r a b) }
{
    let problem = view.problem();
    let classes = classes_below(problem, problem.reference(r).target);
    must(view, r, a, b) && lo(view, a) >= 1 && has_other(view, b, classes)
}

/// Whether `clash` fires at a reference, two objects and an end.
pub fn clash<F: Facts>(view: &F, r: u32, a: u64, b: u64, end: End) -> bool
    requires reference { r < length (F.problem view.now).references }
    requires from { a < length (F.state view.now).objects }
    requires to { b < length (F.state view.now).objects }
    ensures { result ≡ is_ready (F.state view.now) (clash (F.problem view.now) (F.state view.now) r a b end) }
{
    let (emptied, other) = match end {
        End::Target => (b, a),
        End::Source => (a, b),
    };
    is_error(view.fact(r, a, b)) && lo(view, other) >= 1 && may_exceed(view, emptied, 0)
}

/// A row of `src` or `tgt`: by the end whose object keeps the candidates below the class there.
#[derive(Drop)]
struct EndRow<'v, F: Facts> {
    view: &'v F,
    end: End,
    reference: u32,
    from: u64,
    ghost there: { (reference < length (F.problem view.now).references) × (from < length (F.state view.now).objects) },
}

impl<F: Facts> Test for EndRow<'_, F> {
    ghost use Rattle.std.specs.Prelude.{length};
    ghost use Rattle.rf_rules.specs.Rows.{end_rule};
    ghost use Rattle.rf_rules.specs.Rules.{fires};

    ghost bound = { λ row. length (F.state row.view.now).objects };

    ghost passing = { λ row b. fires (F.problem row.view.now) (F.state row.view.now) (end_rule row.end row.reference row.from b) };

    fn bound(&self) -> u64 {
        self.view.objects()
    }

    fn passes(&self, number: u64) -> bool {
        match self.end {
            End::Source => src(self.view, self.reference, self.from, number),
            End::Target => tgt(self.view, self.reference, self.from, number),
        }
    }
}

/// The least `b` at which `src r a b` fires.
pub fn src_row<F: Facts>(view: &F, r: u32, a: u64) -> Option<u64>
    requires reference { r < length (F.problem view.now).references }
    requires from { a < length (F.state view.now).objects }
    ensures { result ≡ least_object (F.problem view.now) (F.state view.now) (Src r a) }
{
    first_passing(&EndRow {
        view,
        end: End::Source,
        reference: r,
        from: a,
    })
}

/// The least `b` at which `tgt r a b` fires.
pub fn tgt_row<F: Facts>(view: &F, r: u32, a: u64) -> Option<u64>
    requires reference { r < length (F.problem view.now).references }
    requires from { a < length (F.state view.now).objects }
    ensures { result ≡ least_object (F.problem view.now) (F.state view.now) (Tgt r a) }
{
    first_passing(&EndRow {
        view,
        end: End::Target,
        reference: r,
        from: a,
    })
}

/// A row of `clash`.
#[derive(Drop)]
struct ClashRow<'v, F: Facts> {
    view: &'v F,
    reference: u32,
    from: u64,
    ghost there: { (reference < length (F.problem view.now).references) × (from < length (F.state view.now).objects) },
}

impl<F: Facts> Rule<(u64, End)> for ClashRow<'_, F> {
    ghost use Rattle.std.specs.Prelude.{length};
    ghost use Rattle.rf_rules.specs.Rows.{clash_at};

    ghost bound = { λ row. length (F.state row.view.now).objects };

    ghost found = { λ row b. clash_at (F.problem row.view.now) (F.state row.view.now) row.reference row.from b };

    fn bound(&self) -> u64 {
        self.view.objects()
    }

    fn find(&self, number: u64) -> Option<(u64, End)> {
        if clash(self.view, self.reference, self.from, number, End::Target) {
            Some((number, End::Target))
        } else if clash(self.view, self.reference, self.from, number, End::Source) {
            Some((number, End::Source))
        } else {
            None
        }
    }
}

/// The least `b` and the first end at which `clash r a b` fires.
pub fn clash_row<F: Facts>(view: &F, r: u32, a: u64) -> Option<(u64, End)>
    requires reference { r < length (F.problem view.now).references }
    requires from { a < length (F.state view.now).objects }
    ensures { result ≡ least_clash (F.problem view.now) (F.state view.now) r a }
{
    first_found(&ClashRow {
        view,
        reference: r,
        from: a,
    })
}
