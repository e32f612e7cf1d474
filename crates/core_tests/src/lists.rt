// The lists, each by a sentence.
mod ends;
mod frames;
mod looks;
mod saves;
mod trees;

use crate::expectations::List;

/// All lists.
pub fn lists() -> [&'static List; 20] {
    [
        &ends::TOUCHED_OF_ANOTHER_LOG,
        &ends::OWED_THROUGH_AN_ABORT,
        &ends::LOCK_TELLS_OF_A_COMMIT,
        &ends::WRITER_AFTER_READERS,
        &ends::ABORT_LEAVES_ITS_STAMP,
        &ends::ABORT_WHOSE_NEED_IS_LOST,
        &ends::CHANGE_BEHIND_A_LOST_ONE,
        &ends::LOSERS_UNDONE_TOGETHER,
        &saves::SAVED_AS_FAR_AS_FLUSHED,
        &saves::SYNC_RAISES_THE_FLOOR,
        &saves::CUT_STOPS_AT_THE_LEAST_FLUSHED,
        &saves::CUT_WAITS,
        &looks::PAIR_UNDER_A_LOCK,
        &looks::PEEK_WITHOUT_A_LOCK,
        &trees::PURGE_WAITS,
        &trees::STAMPS_OF_TAKEN_PAGES,
        &trees::TREE_GROWS_AND_SHRINKS,
        &frames::HOT_CHILD_AND_COLD_PARENT,
        &frames::DIRTY_PAGE_STAYS,
        &frames::EVICTION_WAITS,
    ]
}
