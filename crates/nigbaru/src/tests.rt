//! Tests of what `nigbaru` passes on, that neither the built program nor a script of sessions can show: texts and numbers
//! of faults, openings of logs and stores, streams that fail or give a few bytes at a time, and races at gates of the
//! tests' own. Tests that play sessions over logs and stores are in `xa_store_tests`, and the program's in cases/. Memory
//! is there, so no call may report that it ran out; no contract says so. `scripts/sizes` does the same with all that the
//! program can show.

mod counted_races;
mod lines;
mod opened;
mod texts;
