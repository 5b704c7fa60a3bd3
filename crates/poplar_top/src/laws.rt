//! What the clauses of the top calls come to, over the definitions alone: which cause stands behind which status.
//! Each law is the contract of a function that does nothing.

ghost use Rattle.poplar_top.specs.Laws.{UsageIsExact, RefusalsAreExact, AnswersAreComplete, ShelfFaultsAreExact, WalkFaultsAreExact, SinkFaultsAreExact, TrueRunsAreExact, TrueSearchesAreExact};

/// Status 2 stands exactly where the words give no settings, want of memory apart. (Words that give none come to no walk, so the
/// link is not asked.)
pub fn usage_is_exact()
    ensures usage { UsageIsExact }
{}

/// The status of a refusal stands exactly where the words and the told files come to a refusal of that status, a risen count of
/// the shelf, a risen count of the link that was asked, and want of memory apart.
pub fn refusals_are_exact()
    ensures refusals { RefusalsAreExact }
{}

/// Where there is an answer and no count of faults rises, it is written whole, want of memory apart.
pub fn answers_are_complete()
    ensures complete { AnswersAreComplete }
{}

/// Status 6 stands only where the shelf was asked and the shelf's count of faults rose. This holds for what is not told, too.
pub fn shelf_faults_are_exact()
    ensures faults { ShelfFaultsAreExact }
{}

/// Status 10 stands only where texts were written to the sinks and the count of faults of out or of err rose. This holds for what is
/// not told, too.
pub fn sink_faults_are_exact()
    ensures faults { SinkFaultsAreExact }
{}

/// Status 7 stands only where the words and files came to a walk, which asks the link, and the link's count of faults rose. This
/// holds for what is not told, too.
pub fn walk_faults_are_exact()
    ensures faults { WalkFaultsAreExact }
{}

/// Over a link that was true and idle, where both share files are whole and of one width: a walk with an answer comes to the texts of
/// `run`, a capped one to its refusal, and a walk has no other end. So status 9 never comes there, and 5 exactly at the cap.
pub fn true_runs_are_exact()
    ensures runs { TrueRunsAreExact }
{}

/// Over a link that was true and idle, what `find` and `make` come to is said by the strings alone: the end is at the first level
/// that is the last of all, has no frequent prefix, or has too many; so 5 comes exactly at the first level below the last whose
/// frequent prefixes, twice, are more than the cap, and none before it is empty.
pub fn true_searches_are_exact()
    ensures searches { TrueSearchesAreExact }
{}
