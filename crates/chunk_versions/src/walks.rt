// Walking back over the versions of a place.
ghost use Rattle.std.specs.Prelude.{◌≡◌, ◌≤◌, ◌+◌, length, get_or};
ghost use Rattle.cast_driver.specs.Chain.{word_out};
ghost use Rattle.chunk_versions.specs.Versions.{AreLinked, put_at, word_from};
ghost use Rattle.chunk_versions.specs.Reach.{AreJudged};

use crate::put::Put;
use crate::reach::judge;
use cast_driver::Chain;

/// The newest put at a place, counted from 1; 0 where there is none.
pub fn link_of(last: &[u32], place: usize) -> usize
    ensures { result ≡ get_or last.now place 0 }
{
    if place < last.len() {
        last[place] as usize
    } else {
        0
    }
}

/// The put of a link; where there is none, the word that each place has at first.
pub fn put_at(puts: &[Put], fill: u64, link: usize) -> Put
    requires { link ≤ length puts.now }
    ensures { result ≡ put_at fill puts.now link }
{
    if link == 0 {
        Put {
            word: fill,
            touch: 0,
            before: 0,
        }
    } else {
        puts[link - 1]
    }
}

/// Rules out the candidates at which a place isn't shown so: candidate `k` is the state behind the touch `first + k`.
pub fn rule_out(
    puts: &[Put],
    fill: u64,
    first: usize,
    newest: usize,
    casts: &Chain,
    word: u64,
    reach: &mut [usize],
)
    requires newest { newest ≤ length puts.now }
    requires linked { AreLinked puts.now (first + length reach.old) }
    ensures { AreJudged reach.old reach.new (λ k. word_out casts.now (word_from fill puts.now newest (first + k + 1))
        ≡ word) }
{
    let mut link = newest;
    let mut until = reach.len();
    'versions: while until > 0 {
        let put = put_at(puts, fill, link);
        let begin = (put.touch as usize).saturating_sub(first);
        let fits = casts.out(put.word) == word;
        until = judge(reach, begin, until, fits);
        link = put.before as usize;
    }
}
