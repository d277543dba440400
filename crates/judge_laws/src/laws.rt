//! Laws of admission. Nothing runs: each holds for every proof and every content.
ghost use Rattle.judge_laws.specs.Laws.{StaysWhole, StaysLegal, CoveringIsAdmitted, MadeIsAdmitted, StoresTheLog};

/// A whole content stays whole under each proof that isn't refused: with a block, a node, a sought byte and an upgrade,
/// of its own fork, or of a greater one, where another log replaces its own.
pub fn admitted_stays_whole()
    ensures { StaysWhole }
{}

/// A core's history stays legal: the commit may follow the summary before, and gives the summary after.
pub fn history_is_legal()
    ensures { StaysLegal }
{}

/// A proof that covers what a whole content lacks isn't refused where each of its parts is a log's, as in what the
/// holder of the whole log makes: where the content is of the log, under the proof's fork, or where the proof's fork is
/// greater. Or two different inputs have one hash: one of the log, and one of the content before, or of that with the
/// upgrade in.
pub fn covering_proofs_are_admitted()
    ensures parts { CoveringIsAdmitted }
    ensures made { MadeIsAdmitted }
{}

/// What is stored after an admission is that of each log that the content is then of: each node, each block, and where
/// it begins. Or two different inputs have one hash, one of the log and one of the content.
pub fn admitted_is_of_the_log()
    ensures { StoresTheLog }
{}
