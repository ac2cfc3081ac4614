// The places of a selection, gone through from the first.
ghost use Rattle.std.specs.Prelude.{ℕ, Bool, ◌≡◌, ◌≤◌};
ghost use Rattle.model.specs.Lists.{first, from_to};
ghost use Rattle.model.specs.Section.{size};

// The first place whose code fails, counted from 1.
pub fn first_failing<F: Fn(u32) -> bool>(selection: &[u32], fails: F) -> Option<u32>
    requires { (place : ℕ) → 1 ≤ place → place ≤ size selection.now → F.pre fails place }
    ensures { (test : ℕ → Bool)
        → ((place : ℕ) (failed : Bool) → 1 ≤ place → place ≤ size selection.now → F.post fails place failed → failed ≡ test place)
        → result ≡ first test (from_to 1 (size selection.now)) }
{
    let m = slices::number_at(selection, 0);
    for place in 1..=m {
        if fails(place) {
            return Some(place);
        }
    }
    None
}
