//! The jobs that read lines, for what no case of cases/ can show: streams that fail or give a few bytes at a time, gates,
//! and the longest script. `scripts/statuses` has full and closed outputs of every job. No allocation fails in these
//! tests. Read `runs` first, then `served`.

mod races;
mod runs;
mod served;
