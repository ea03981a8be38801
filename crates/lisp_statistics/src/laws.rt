//! In which order counts are told, what all parts of a list are together, and which routers are a site's, as laws: the contract of each is
//! the law, and its body is empty.

ghost use Rattle.std.specs.Global.{Global};
ghost use Rattle.lisp_statistics.specs.Kind.{KindsByWord};
ghost use Rattle.lisp_statistics.specs.RouterList.{PartsListAll};
ghost use Rattle.lisp_statistics.specs.SiteCounts.{RoutersOfSite};

use crate::kind::LineKind;

/// Counts are told in the order of the words of their kinds, and refusals behind them by their numbers.
pub fn kinds_by_word()
    ensures { KindsByWord ⟦<LineKind as Ord>⟧.cmp }
{}

/// Where no router is heard for the first time while they are listed by parts, the parts together have one line for each router that
/// was heard, by Site-ID, then xTR-ID, then those of the routers that weren't heard and of the runs of replays, then the number of all these
/// lines.
pub fn parts_list_all()
    ensures { PartsListAll Global }
{}

/// The routers whose rows are counted as a site's are those with its Site-ID.
#[tactic(auto, using(crate::proofs::SiteCounting::routers_of_site))]
pub fn routers_of_site()
    ensures { RoutersOfSite }
{}
