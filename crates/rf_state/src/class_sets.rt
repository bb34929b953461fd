//! Sets of classes, and which of them are below a class.

ghost use Rattle.std.specs.Prelude.{◌≡◌, ◌<◌, ◌&&◌, ◌||◌, not, nat_lt, ℕ, length};
ghost use Rattle.std.specs.FinSet.{contains};
ghost use Rattle.rf_finite.specs.Range.{all_below, some_below};
ghost use Rattle.rf_problem.specs.Classes.{is_below};

use rf_problem::Problem;
use rf_values::ClassSet;

/// The numbers of the problem's classes.
pub fn class_numbers(problem: &Problem) -> ClassSet
    ensures { (c : ℕ) → contains result c ≡ nat_lt c (length problem.now.classes) }
{
    let mut numbers = ClassSet::empty();
    for class in 0..problem.classes.as_slice().len() as u32 {
        numbers = numbers.adding(class);
    }
    numbers
}

/// Whether each of these classes that the problem declares is below class `top`.
pub fn all_below(problem: &Problem, numbers: ClassSet, classes: ClassSet, top: u32) -> bool
    requires top { top < length problem.now.classes }
    requires numbers { (c : ℕ) → contains numbers c ≡ nat_lt c (length problem.now.classes) }
    ensures { result ≡ all_below (length problem.now.classes) (λ c. not (contains classes c) || is_below problem.now.classes c top) }
{
    let declared = classes.both(numbers);
    declared.without(problem.classes.below(top)).is_empty()
}

/// Whether some of these classes is one of the problem's below class `top`.
pub fn some_below(problem: &Problem, classes: ClassSet, top: u32) -> bool
    requires { top < length problem.now.classes }
    ensures { result ≡ some_below (length problem.now.classes) (λ c. contains classes c && is_below problem.now.classes c top) }
{
    !classes.both(problem.classes.below(top)).is_empty()
}
