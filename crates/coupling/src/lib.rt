// Why coupling from the past is exact, for every kind that keeps its laws and every source that keeps its meaning. Each
// function does nothing: its promise is the theorem, for the proofs of what calls it.
#![tactic(auto)]

ghost use Rattle.coupling.specs.Ends.{AgreeingSourcesMeetAlike, ApartWhereSomeDiffer, EndsBetween, LargerWindowsKeepTheSample, MeetsWhereAllEnd, OlderWordsChangeNothing};
ghost use Rattle.coupling.specs.Shares.{EqualShares};

use lattice::even::Even;
use lattice::kind::Kind;
use sources::source::Source;

pub fn ends_lie_between<K: Kind>(rule: &K)
    ensures { EndsBetween (K.meaning rule.now) }
{}

pub fn meets_where_all_end<K: Kind>(rule: &K)
    ensures met { MeetsWhereAllEnd (K.meaning rule.now) }
    ensures apart { ApartWhereSomeDiffer (K.meaning rule.now) }
{}

pub fn larger_windows_keep_the_sample<K: Kind, S: Source>(rule: &K, source: &S)
    ensures older { OlderWordsChangeNothing (K.meaning rule.now) }
    ensures larger { LargerWindowsKeepTheSample (K.meaning rule.now) (S.reading source.now) }
{
    source.sound();
}

pub fn agreeing_sources_meet_alike<K: Kind, S: Source, T: Source>(rule: &K, first: &S, second: &T)
    ensures { AgreeingSourcesMeetAlike (K.meaning rule.now) (S.reading first.now) (T.reading second.now) }
{
    first.sound();
    second.sound();
}

pub fn shares_are_equal<E: Even>(rule: &E)
    ensures { EqualShares (E.meaning rule.now) }
{
    rule.exchanges();
}
