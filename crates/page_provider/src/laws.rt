// What the pager's calls rest on.
ghost use Rattle.page_provider.specs.Laws.{DiskLaws, RowLaws};

// The laws of rows, of what the pager knows of them, and of the disk under a run.
pub(crate) fn laws()
    ensures rows { RowLaws }
    ensures disk { DiskLaws }
{
    btree_descent::every_stood();
    btree_descent::every_load();
    row_image::every_stay();
    row_image::every_sight();
    row_image::every_pair();
    row_opening::every_reached();
    row_opening::every_need();
    page_pool::every_pool();
    page_pool::every_standing();
    page_pool::every_frame();
    page_pool::every_queue();
    page_pool::every_chill();
    page_pool::every_full();
    cooling_stage::every_place();
    disk_runs::every_page();
    row_image::every_pair();
    page_pool::every_queue();
    disk_runs::every_version();
    disk_runs::every_kept();
    disk_runs::every_prefix();
    disk_runs::every_sealed();
    disk_runs::every_quiet();
    disk_runs::every_among();
    disk_runs::every_master_line();
    page_pool::every_pop();
}
