// The theorem about rooms, for letters of any body and every kind of sheet that keeps the law.
ghost use Rattle.std.specs.Prelude.{◌≡◌, true};
ghost use Rattle.lives.specs.Guarantees.{AlwaysGuaranteed};

use sheets::sheet::Sheet;

// Whether a room that is reachable from its opening, by any steps with any answers, has causal order, complete delivery
// and convergence. It always does.
pub fn guarantees_hold<K: Sheet>() -> bool
    ensures answer { result ≡ true }
    ensures guarantees { AlwaysGuaranteed K.Sheet.kind }
{
    true
}
