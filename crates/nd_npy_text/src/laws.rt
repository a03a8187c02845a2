//! Laws of heads. Nothing here runs: each function's clause is a law.

ghost use Rattle.nd_npy_text.specs.HeaderLaws.{HeadersReadBack, HeadersAreAligned, EntriesAreWhole, HeadsNeedNoMore, VersionsAgree};

/// A head that is written for a whole description (`IsWholeHeader`) is read as that description, whatever follows the
/// head, and the elements begin where the head ends.
#[tactic(auto, using(crate::proofs::HeaderReadBack::headers_back))]
pub fn headers_read_back()
    ensures { HeadersReadBack }
{}

/// The dict that is written for a whole description (`IsWholeHeader`) is read as that description in a head of each
/// version.
pub fn versions_agree()
    ensures { VersionsAgree }
{}

/// The length of a written head is a multiple of 64 bytes, so the elements begin at such a multiple.
#[tactic(auto, using(crate::proofs::HeaderReadBack::headers_aligned))]
pub fn headers_are_aligned()
    ensures { HeadersAreAligned }
{}

/// Where three entries of a dict are read, each of the three keys has a value.
pub fn entries_are_whole()
    ensures { EntriesAreWhole }
{}

/// Where bytes aren't cut off inside their head, as `is_cut_off` tells, what follows them changes nothing of what the head
/// says.
#[tactic(auto, using(crate::proofs::HeaderIgnoresFollowingBytes::heads_stay))]
pub fn heads_need_no_more()
    ensures { HeadsNeedNoMore }
{}
