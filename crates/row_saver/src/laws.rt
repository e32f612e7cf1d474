// A pager and its saver.
ghost use Rattle.row_saver.specs.Laws.{EveryReady, EverySaved};

/// What a pager has serves as the parts of a saver.
pub fn every_ready()
    ensures { EveryReady }
{
    page_pool::every_queue();
}

/// What a saver's calls did is to the pager a call of its own.
pub fn every_saved()
    ensures { EverySaved }
{
    page_pool::every_pool();
    page_pool::every_standing();
}
