// The one walk over a list of fields that judges each of them: of the refusals the one that is given first is answered.
ghost use Rattle.std.specs.Prelude.{◌≡◌, ℕ};
ghost use Rattle.fields.specs.Field.{Raw, raws};
ghost use Rattle.fields.specs.First.{first_over};
ghost use Rattle.fields.specs.Refusal.{number_of};
ghost use Rattle.fields.specs.Judged.{Judges};

use crate::list::Fields;
use crate::raw::Field;
use crate::refusal::{Refusal, first_of};

// The refusal that is given first of all fields of a list, each judged by the check; a rest that is no field is a crooked record.
pub fn check_fields<F: Fn(Field<'_>) -> Result<(), Refusal>>(
    bytes: &[u8],
    check: F,
) -> Result<(), Refusal>
    requires { F.IsAlwaysCallable check }
    ensures { (judge : Raw → ℕ) → Judges F.post check judge → number_of result ≡ first_over judge (raws bytes.now) }
{
    let mut worst = Ok(());
    for field in Fields::new(bytes) {
        if let Err(refusal) = check(field?) {
            worst = first_of(worst, Err(refusal));
        }
    }
    worst
}
