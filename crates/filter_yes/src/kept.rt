// A filter that keeps a match or drops it, asked of a match.
ghost use Rattle.model.specs.Rules.{kept};

use super::Asked;
use filter_rules::Keeper;
use strings::strings_in;

#[derive(Clone, Copy)]
pub struct Kept<K>(pub K);

impl<K: Keeper> Asked for Kept<K> {
    ghost gives = { λ k. kept (K.keeping k.0) };

    // Is the match kept, and does no exclude stay?
    fn gives_yes(self, includes: &[u32], excludes: &[u32]) -> bool {
        let keeper = self.0;
        keeper.keeps(includes) && !strings_in(excludes).any(|e| keeper.stays(includes, e))
    }
}
