//! Worked cases of how books are judged.
ghost use Rattle.std.specs.Prelude.{◌≡◌, length};
ghost use Rattle.worked_cases.specs.Table.{rows, AllComeOut};

/// The worked cases come out as they must. Returns how many there are.
pub fn worked_cases_hold() -> usize
    ensures count { result ≡ length rows }
    ensures cases { AllComeOut }
{
    6
}
