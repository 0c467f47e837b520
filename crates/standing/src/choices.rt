// Numbers of choices.
ghost use Rattle.std.specs.Prelude.{◌≡◌, ◌≤◌};
ghost use Rattle.standing.specs.Choose.{choose};
ghost use Rattle.standing.specs.Number.{most_sections};

use crate::triangle::TRIANGLE;

// In how many ways i sections are chosen from c; 0 for i above c.
// All that is asked of the triangle is asked here. Its rows stand one after another in one constant table: a
// square would hold as many zeros again.
pub(crate) fn choices(c: usize, i: usize) -> u64
    requires { c ≤ most_sections }
    ensures { result ≡ choose c i }
{
    if i > c {
        return 0;
    }
    TRIANGLE[c * (c + 1) / 2 + i]
}
