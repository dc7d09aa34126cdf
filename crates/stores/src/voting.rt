//! A caller of any store.
ghost use Rattle.std.specs.Prelude.{◌≡◌};
ghost use Rattle.stores.specs.Laws.{Laws};
ghost use Rattle.stores.specs.Majority.{AllHeld, steps_at, majority_at};
ghost use Rattle.stores.specs.Meaning.{Lawful, Makes, Yields};

use crate::fault::StoreFault;
use crate::operation::Operation;
use crate::store::Store;

// The functions of `majority`, once a, b and c are known to be held.
fn majority_parts<S: Store>(s: &mut S, a: usize, b: usize, c: usize) -> Result<usize, StoreFault>
    requires lawful { Lawful S.keeping (S.meaning s.old) }
    requires held { AllHeld (S.meaning s.old) a b c }
    ensures makes { Makes S.keeping (S.meaning s.old) (steps_at (S.meaning s.old) a b c) (majority_at (S.meaning s.old) a b c) result (S.meaning s.new) }
{
    let ab = s.join(Operation::And, a, b)?;
    let ac = s.join(Operation::And, a, c)?;
    let bc = s.join(Operation::And, b, c)?;
    let either = s.join(Operation::Or, ab, ac)?;
    s.join(Operation::Or, either, bc)
}

/// Yields the majority of three held functions by joins, one after the other. A refusal leaves the list as it was.
#[tactic(auto, using(crate::proofs::Orders::laws))]
pub fn majority<S: Store>(s: &mut S, a: usize, b: usize, c: usize) -> Result<usize, StoreFault>
    ensures laws { Laws S.keeping }
    ensures yields { Yields S.keeping (S.meaning s.old) (AllHeld (S.meaning s.old) a b c) (steps_at (S.meaning s.old) a b c) (majority_at (S.meaning s.old) a b c) result (S.meaning s.new) }
{
    let before = s.length();
    if before <= a || before <= b || before <= c {
        return Err(StoreFault::Bounds);
    }
    let made = majority_parts(s, a, b, c);
    if made.is_err() {
        let _ = s.release(before);
    }
    made
}
